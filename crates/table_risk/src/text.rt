//! `risk_text`, the output of `risk`: percentages with four digits, after a first line with counts.

ghost use Rattle.std.specs.Prelude.{◌≡◌, ◌++◌, IfOk, OnOk, option_map, slice_get};
ghost use Rattle.std.specs.List.{flat_map};
ghost use Rattle.table_risk.specs.Texts.{IsRiskText, four_digits, heading, heading_of, name_by, name_in, network_name, numbers_text, part_text, parts_text, row_text, used_buckets, word_of};

use crate::occupants::is_used;
use crate::rows::rows_in_order;
use crate::{By, Memory, Row};
use net_addr::{Net, put_number, put_text};
use peer_rec::Rec;
use placing::Placer;
use std::alloc::Global;
use std::hash::BuildHasher;
use std::sync::ledger::Ledger;
use steps::Steps;
use table_groups::{TableView, bucket_count, name_of};

/// Appends the four digits of a number below 10,000.
#[tactic(auto, unfolding(crate::specs::Texts::four_digits))]
fn put_four_digits(number: u32, out: &mut Vec<u8>) -> Result<(), Memory>
    ensures { OnOk result (out.new.items ≡ out.old.items ++ four_digits number) }
{
    put_number(b"", u64::from(number / 1000 % 10), out)?;
    put_number(b"", u64::from(number / 100 % 10), out)?;
    put_number(b"", u64::from(number / 10 % 10), out)?;
    put_number(b"", u64::from(number % 10), out)?;
    Ok(())
}

/// Appends a label and a part of a million in percent, with four digits after the point.
#[tactic(auto, unfolding(crate::specs::Texts::part_text))]
pub(crate) fn put_part(label: &[u8], part: u32, out: &mut Vec<u8>) -> Result<(), Memory>
    ensures { OnOk result (out.new.items ≡ out.old.items ++ part_text label.now part) }
{
    put_number(label, u64::from(part / 10_000), out)?;
    put_text(b".", out)?;
    put_four_digits(part % 10_000, out)?;
    put_text(b" %", out)?;
    Ok(())
}

/// Returns the word for what makes records one group.
fn word_of(by: By) -> &'static [u8]
    ensures { result.now ≡ word_of by }
{
    match by {
        By::Source => b"source ",
        By::Peer => b"peer ",
        By::Network => b"network ",
    }
}

/// Returns the name of a network.
fn network_name(net: Net) -> &'static [u8]
    ensures { result.now ≡ network_name net }
{
    match net {
        Net::Unroutable => b"not routable",
        Net::Ipv4 => b"ipv4",
        Net::Ipv6 => b"ipv6",
        Net::Onion => b"onion",
        Net::I2p => b"i2p",
        Net::Cjdns => b"cjdns",
        Net::Internal => b"internal",
    }
}

/// Appends the name of a record's group.
fn put_name(
    alloc: Global,
    placer: &Placer<'_>,
    by: By,
    rec: &Rec,
    out: &mut Vec<u8>,
) -> Result<(), Memory>
    ensures { OnOk result (out.new.items ≡ out.old.items ++ name_by by placer.now rec.now) }
{
    match by {
        By::Source => {
            let name = name_of(alloc, placer, &rec.source)?;
            Ok(put_text(name.as_slice(), out)?)
        }
        By::Peer => {
            let name = name_of(alloc, placer, &rec.peer.addr)?;
            Ok(put_text(name.as_slice(), out)?)
        }
        By::Network => Ok(put_text(network_name(rec.network()), out)?),
    }
}

/// Appends the name of the group of a record, if there is one.
fn put_name_in(
    alloc: Global,
    placer: &Placer<'_>,
    by: By,
    rec: Option<&Rec>,
    out: &mut Vec<u8>,
) -> Result<(), Memory>
    ensures { OnOk result (out.new.items
        ≡ out.old.items ++ name_in by placer.now (option_map (λ r. r.now) rec.entry)) }
{
    match rec {
        Some(rec) => put_name(alloc, placer, by, rec, out),
        None => Ok(()),
    }
}

/// Appends three parts of a million.
#[tactic(auto, unfolding(crate::specs::Texts::parts_text))]
pub(crate) fn put_parts(picks: u32, new: u32, tried: u32, out: &mut Vec<u8>) -> Result<(), Memory>
    ensures { OnOk result (out.new.items ≡ out.old.items ++ parts_text picks new tried) }
{
    put_part(b": picks ", picks, out)?;
    put_part(b" new ", new, out)?;
    put_part(b" tried ", tried, out)?;
    put_text(b"\n", out)?;
    Ok(())
}

/// Returns the record of an index, if there is one.
fn rec_at(recs: &[Rec], index: usize) -> Option<&Rec>
    ensures { option_map (λ r. r.now) result ≡ slice_get recs.now index }
{
    recs.get(index)
}

/// Appends the line of a row.
#[tactic(auto, unfolding(crate::specs::Texts::row_text))]
fn put_row(
    alloc: Global,
    placer: &Placer<'_>,
    by: By,
    recs: &[Rec],
    row: &Row,
    out: &mut Vec<u8>,
) -> Result<(), Memory>
    ensures { OnOk result (out.new.items
        ≡ out.old.items ++ row_text placer.now by recs.now row.now) }
{
    put_text(word_of(by), out)?;
    put_name_in(alloc, placer, by, rec_at(recs, row.first), out)?;
    put_parts(row.picks, row.new, row.tried, out)?;
    Ok(())
}

/// Appends the lines of some rows.
fn put_rows(
    alloc: Global,
    placer: &Placer<'_>,
    by: By,
    recs: &[Rec],
    rows: &[Row],
    out: &mut Vec<u8>,
) -> Result<(), Memory>
    ensures { OnOk result (out.new.items
        ≡ out.old.items ++ flat_map (row_text placer.now by recs.now) rows.now) }
{
    for row in rows {
        put_row(alloc, placer, by, recs, row, out)?;
    }
    Ok(())
}

/// Returns how many buckets of a table have a record.
#[tactic(auto, unfolding(crate::specs::Texts::used_buckets))]
fn used_buckets<T: TableView, L: Ledger>(tables: &T, in_new: bool, steps: &mut Steps<L>) -> u32
    ensures { result ≡ used_buckets (T.view tables.now) in_new }
{
    let mut count = 0;
    for bucket in 0..bucket_count(in_new) {
        if is_used(tables, in_new, bucket, steps) {
            count += 1;
        }
    }
    count
}

/// Appends a label, and a number of each table.
#[tactic(auto, unfolding(crate::specs::Texts::numbers_text))]
fn put_numbers(label: &[u8], new: u32, tried: u32, out: &mut Vec<u8>) -> Result<(), Memory>
    ensures { OnOk result (out.new.items
        ≡ out.old.items ++ numbers_text label.now new tried) }
{
    put_text(label, out)?;
    put_number(b" new ", u64::from(new), out)?;
    put_number(b" tried ", u64::from(tried), out)?;
    Ok(())
}

/// Appends the first line, from how many records and used buckets each table has.
#[tactic(auto, unfolding(crate::specs::Texts::heading))]
fn put_heading(
    new: u32,
    tried: u32,
    new_buckets: u32,
    tried_buckets: u32,
    out: &mut Vec<u8>,
) -> Result<(), Memory>
    ensures { OnOk result (out.new.items
        ≡ out.old.items ++ heading new tried new_buckets tried_buckets) }
{
    put_numbers(b"peers", new, tried, out)?;
    put_numbers(b" buckets", new_buckets, tried_buckets, out)?;
    put_text(b"\n", out)?;
    Ok(())
}

/// Appends the first line: how many records and used buckets each table has.
pub(crate) fn put_heading_of<T: TableView, L: Ledger>(
    tables: &T,
    out: &mut Vec<u8>,
    steps: &mut Steps<L>,
) -> Result<(), Memory>
    ensures { OnOk result (out.new.items ≡ out.old.items ++ heading_of (T.view tables.now)) }
{
    let (new, tried) = tables.sizes();
    let new_buckets = used_buckets(tables, true, steps);
    let tried_buckets = used_buckets(tables, false, steps);
    put_heading(new, tried, new_buckets, tried_buckets, out)
}

/// Returns the text of which part of the picks falls to each group of records at a time, in seconds
/// since 1970.
pub fn risk_text<T: TableView, G: BuildHasher, L: Ledger>(
    alloc: Global,
    hasher: &G,
    tables: &T,
    by: By,
    now: u32,
    steps: &mut Steps<L>,
) -> Result<Vec<u8>, Memory>
    ensures { IfOk result (λ text. IsRiskText (T.view tables.now) by now text.items) }
{
    let recs = tables.records(steps)?;
    let rows = rows_in_order(alloc, hasher, tables, recs.items(), by, now, steps)?;
    let mut out = Vec::new(alloc);
    put_heading_of(tables, &mut out, steps)?;
    put_rows(
        alloc,
        tables.places(),
        by,
        recs.items(),
        rows.as_slice(),
        &mut out,
    )?;
    Ok(out)
}
