//! The members of a table, and slots by name (`bucket/position`).

ghost use Rattle.std.specs.Prelude.{◌≡◌, ◌≤◌, ◌<◌, ◌+◌, ◌*◌, ℕ, IfSome, Some, ◌≢◌, map, IfOk, IfErr};
ghost use Rattle.slot_grid.specs.declared.sizes.TheConstants.{SLOTS};
ghost use Rattle.raw_read.specs.Rows.{IsSlot, slot_number, AreRows, HasRowFault, HasTableFault, IsRow};
ghost use Rattle.json.specs.Json.{Json};
ghost use Rattle.json.specs.Value.{value_view};
ghost use Rattle.raw_read.specs.Inside.{member_view};
ghost use Rattle.raw_read.specs.declared.raw.RawFault.TheVariants.{Memory};

use crate::row_fields::rec_of;
use crate::{RawFault, RawRow, RawTable};
use json::Value;
use net_addr::{around_last, parse_number};
use slot_grid::SLOTS;
use std::alloc::Global;

/// Returns the number of a slot.
pub(crate) fn slot_number(bucket: u16, position: u8) -> u32
    ensures is { result ≡ slot_number bucket position }
    ensures small { result < 5000000 }
{
    u32::from(bucket) * u32::from(SLOTS) + u32::from(position)
}

/// Parses the name of a slot of the table.
pub(crate) fn slot_of(table: RawTable, name: &[u8]) -> Option<(u16, u8)>
    ensures found { IfSome result (λ slot. IsSlot table name.now slot.0 slot.1) }
    ensures only { (bucket position : ℕ) → IsSlot table name.now bucket position
        → result ≡ Some (bucket, position) }
{
    let (bucket, position) = around_last(name, b'/')?;
    let bucket = parse_number(bucket, u64::from(table.buckets()) - 1)?;
    let position = parse_number(position, u64::from(SLOTS) - 1)?;
    Some((bucket as u16, position as u8))
}

/// Returns the slot with this name, if its number is `from` or greater.
fn slot_from(table: RawTable, from: u32, index: u64, name: &[u8]) -> Result<(u16, u8), RawFault>
    ensures found { IfOk result (λ slot. IsSlot table name.now slot.0 slot.1
        × (from ≤ slot_number slot.0 slot.1)) }
    ensures cause { IfErr result (λ fault. (j : Json)
        → HasRowFault table from index (name.now, j) fault) }
{
    let Some((bucket, position)) = slot_of(table, name) else {
        return Err(RawFault::Slot { table, index });
    };
    if slot_number(bucket, position) < from {
        return Err(RawFault::Slot { table, index });
    }
    Ok((bucket, position))
}

/// Reads a member, before which there are `index` others.
fn read_row(
    table: RawTable,
    from: u32,
    index: u64,
    name: &str,
    value: &Value<'_>,
) -> Result<RawRow, RawFault>
    ensures found { IfOk result (λ row. IsRow table (name.now, value_view value.now) row
        × (from ≤ slot_number row.bucket row.position)) }
    ensures cause { IfErr result
        (HasRowFault table from index (name.now, value_view value.now)) }
{
    let (bucket, position) = match slot_from(table, from, index, name.as_bytes()) {
        Ok(slot) => slot,
        Err(fault) => return Err(fault),
    };
    match rec_of(value) {
        Ok(rec) => Ok(RawRow {
            bucket,
            position,
            rec,
        }),
        Err(field) => Err(RawFault::Row {
            table,
            bucket,
            position,
            field,
        }),
    }
}

/// Reads the members of a table.
pub(crate) fn read_table(
    alloc: Global,
    table: RawTable,
    members: &[(&str, Value<'_>)],
) -> Result<Vec<RawRow>, RawFault>
    ensures found { IfOk result (λ rows.
        AreRows table 0 (map member_view members.now) rows.items) }
    ensures cause { IfErr result (λ fault. fault ≢ Memory
        → HasTableFault table (map member_view members.now) fault) }
{
    let mut rows = Vec::new(alloc);
    let mut from = 0;
    for member in members {
        let index = rows.len() as u64;
        let row = match read_row(table, from, index, member.0, &member.1) {
            Ok(row) => row,
            Err(fault) => return Err(fault),
        };
        from = slot_number(row.bucket, row.position) + 1;
        rows.push(row)?;
    }
    Ok(rows)
}
