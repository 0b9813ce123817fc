//! Prints the lines of a difference, and the counts of IPv4 and IPv6 addresses at its end.

ghost use Rattle.std.specs.Prelude.{◌≡◌, ◌<◌, ◌≤◌, ◌+◌, ◌-◌, ◌^◌, ◌++◌, ◌==◌, Bool, true, false, length, take, flat_map, OnOk, OnErr, decimal};
ghost use Rattle.map_diff.specs.Text.{new_row, is_counted, number_text, change_text, given_text, taken_text, count_of, counts_text, difference_text};

use crate::Memory;
use crate::changed::ChangedPrefix;
use itoa::Buffer;
use prefix_table::{Row, put_prefix};

/// 2^128 in decimal.
const ALL_ADDRESSES: &[u8] = b"340282366920938463463374607431768211456";

/// Appends the changes, one a line, and a line that says how many addresses they are. If memory
/// runs out, `out` is unchanged.
pub fn put_difference(rows: &[ChangedPrefix], out: &mut Vec<u8>) -> Result<(), Memory>
    requires few { (ipv4 : Bool) → count_of ipv4 rows.now ≤ 2 ^ 128 }
    ensures ok { OnOk result (out.new.items ≡ out.old.items ++ difference_text rows.now) }
    ensures err { OnErr result (out.new.items ≡ out.old.items) }
{
    let before = out.len();
    let put = put_lines(rows, out);
    if put.is_err() {
        out.truncate(before);
    }
    put
}

/// Appends all lines. If memory runs out, some of them may have been appended.
fn put_lines(rows: &[ChangedPrefix], out: &mut Vec<u8>) -> Result<(), Memory>
    requires few { (ipv4 : Bool) → count_of ipv4 rows.now ≤ 2 ^ 128 }
    ensures ok { OnOk result (out.new.items ≡ out.old.items ++ difference_text rows.now) }
    ensures err { OnErr result (take (length out.old.items) out.new.items ≡ out.old.items) }
{
    put_changes(rows, out)?;
    put_counts(rows, out)
}

/// Appends the lines of the changes. If memory runs out, some of them may have been appended.
fn put_changes(rows: &[ChangedPrefix], out: &mut Vec<u8>) -> Result<(), Memory>
    ensures ok { OnOk result (out.new.items ≡ out.old.items ++ flat_map change_text rows.now) }
    ensures err { OnErr result (take (length out.old.items) out.new.items ≡ out.old.items) }
{
    for row in rows {
        put_change(*row, out)?;
    }
    Ok(())
}

/// Appends the line of a change. If memory runs out, a part of it may have been appended.
fn put_change(change: ChangedPrefix, out: &mut Vec<u8>) -> Result<(), Memory>
    ensures ok { OnOk result (out.new.items ≡ out.old.items ++ change_text change) }
    ensures err { OnErr result (take (length out.old.items) out.new.items ≡ out.old.items) }
{
    if change.new == 0 {
        put_taken(change, out)
    } else {
        put_given(change, out)
    }
}

/// Returns the row of the prefix, with the new number.
fn new_row(change: ChangedPrefix) -> Row
    ensures row { result ≡ new_row change }
    ensures bits { result.bits < 2 ^ 128 }
{
    Row {
        bits: change.bits,
        len: change.len,
        asn: change.new,
    }
}

/// Appends the line of a prefix that has no new number.
fn put_taken(change: ChangedPrefix, out: &mut Vec<u8>) -> Result<(), Memory>
    ensures ok { OnOk result (out.new.items ≡ out.old.items ++ taken_text change) }
    ensures err { OnErr result (take (length out.old.items) out.new.items ≡ out.old.items) }
{
    out.extend_from_slice(b"# ")?;
    put_prefix(&new_row(change), out)?;
    out.extend_from_slice(b" was AS")?;
    out.extend_from_slice(Buffer::new().format(change.old).as_bytes())?;
    out.extend_from_slice(b"\n")?;
    Ok(())
}

/// Appends the line of a prefix that has a new number.
fn put_given(change: ChangedPrefix, out: &mut Vec<u8>) -> Result<(), Memory>
    ensures ok { OnOk result (out.new.items ≡ out.old.items ++ given_text change) }
    ensures err { OnErr result (take (length out.old.items) out.new.items ≡ out.old.items) }
{
    put_prefix(&new_row(change), out)?;
    out.extend_from_slice(b" AS")?;
    out.extend_from_slice(Buffer::new().format(change.new).as_bytes())?;
    out.extend_from_slice(b" # was ")?;
    put_number(change.old, out)?;
    out.extend_from_slice(b"\n")?;
    Ok(())
}

/// Appends a number with its `AS`, or that there is none.
fn put_number(asn: u32, out: &mut Vec<u8>) -> Result<(), Memory>
    ensures ok { OnOk result (out.new.items ≡ out.old.items ++ number_text asn) }
    ensures err { OnErr result (take (length out.old.items) out.new.items ≡ out.old.items) }
{
    if asn == 0 {
        out.extend_from_slice(b"unassigned")?;
        return Ok(());
    }
    out.extend_from_slice(b"AS")?;
    out.extend_from_slice(Buffer::new().format(asn).as_bytes())?;
    Ok(())
}

/// Appends the line of how many addresses the changes are.
fn put_counts(rows: &[ChangedPrefix], out: &mut Vec<u8>) -> Result<(), Memory>
    requires few { (ipv4 : Bool) → count_of ipv4 rows.now ≤ 2 ^ 128 }
    ensures ok { OnOk result (out.new.items ≡ out.old.items ++ counts_text rows.now) }
    ensures err { OnErr result (take (length out.old.items) out.new.items ≡ out.old.items) }
{
    out.extend_from_slice(b"# ")?;
    put_count(rows, true, out)?;
    out.extend_from_slice(b" IPv4 addresses changed; ")?;
    put_count(rows, false, out)?;
    out.extend_from_slice(b" IPv6 addresses changed")?;
    out.extend_from_slice(b"\n")?;
    Ok(())
}

/// Appends how many addresses of the prefixes are IPv4 addresses, or are not.
fn put_count(rows: &[ChangedPrefix], ipv4: bool, out: &mut Vec<u8>) -> Result<(), Memory>
    requires few { count_of ipv4 rows.now ≤ 2 ^ 128 }
    ensures ok { OnOk result (out.new.items ≡ out.old.items ++ decimal (count_of ipv4 rows.now)) }
    ensures err { OnErr result (out.new.items ≡ out.old.items) }
{
    let count = count_of(rows, ipv4);
    match count.less.checked_add(u128::from(count.rows)) {
        Some(addresses) => out.extend_from_slice(Buffer::new().format(addresses).as_bytes())?,
        None => out.extend_from_slice(ALL_ADDRESSES)?,
    }
    Ok(())
}

/// A number of addresses that may be 2^128: the sum of some rows' addresses, less one a row, and
/// the number of these rows.
#[derive(Clone, Copy)]
struct Count {
    less: u128,
    rows: u64,
}

/// Counts the addresses of the prefixes that are IPv4 addresses, or are not.
fn count_of(rows: &[ChangedPrefix], ipv4: bool) -> Count
    requires few { count_of ipv4 rows.now ≤ 2 ^ 128 }
    ensures { result.less + result.rows ≡ count_of ipv4 rows.now }
{
    let mut count = Count { less: 0, rows: 0 };
    for row in rows {
        if is_counted(*row, ipv4) {
            count.less += span_less_one(row.len);
            count.rows += 1;
        }
    }
    count
}

/// Returns `true` if the addresses of the prefix are IPv4 addresses in their IPv6 form, if these
/// are counted, or are not, if the others are.
fn is_counted(change: ChangedPrefix, ipv4: bool) -> bool
    ensures { result ≡ is_counted ipv4 change }
{
    let is_ipv4 = change.len >= 96 && change.bits >> 32 == 0xffff;
    if ipv4 { is_ipv4 } else { !is_ipv4 }
}

/// Returns how many addresses begin with a prefix of this length, less one.
fn span_less_one(len: u8) -> u128
    ensures { result + 1 ≡ 2 ^ (128 - len) }
{
    if len == 0 {
        return u128::MAX;
    }
    if len >= 128 {
        return 0;
    }
    (1 << (128 - len)) - 1
}
