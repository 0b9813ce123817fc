//! `ListingFault` and its printed text.

ghost use Rattle.std.specs.Prelude.{◌≡◌, IfOk};
ghost use Rattle.raw_file.specs.FaultTexts.{field_word, listing_fault_text, member_text, raw_fault_text, slot_text, table_word};
ghost use Rattle.raw_file.specs.declared.fault.ListingFault.TheVariants as fault;

use net_addr::{Memory, put_number, put_text};
use raw_read::{Field, RawFault, RawTable};
use std::alloc::{AllocError, Global};

/// Why a text is not the listing of a file of peers.
#[derive(Clone, Copy, Debug, PartialEq, Eq)]
pub enum ListingFault {
    /// The text has this fault.
    Text(RawFault),
    /// The peer in this slot is in an earlier slot of this bucket of the new table, in both tables,
    /// or twice in the tried one, or an earlier slot says something else of it.
    Again {
        table: RawTable,
        bucket: u16,
        position: u8,
    },
    /// Out of memory.
    Memory,
}

impl From<AllocError> for ListingFault {
    ghost from_gives = { λ _ e. e ≡ fault.Memory };

    fn from(_: AllocError) -> ListingFault {
        ListingFault::Memory
    }
}

impl From<Memory> for ListingFault {
    ghost from_gives = { λ _ e. e ≡ fault.Memory };

    fn from(_: Memory) -> ListingFault {
        ListingFault::Memory
    }
}

impl ListingFault {
    /// Returns the text for the fault, as it is printed.
    pub fn text(&self, alloc: Global) -> Result<Vec<u8>, Memory>
        ensures { IfOk result (λ text. text.items ≡ listing_fault_text self.now) }
    {
        match self {
            ListingFault::Text(fault) => raw_text(alloc, fault),
            ListingFault::Again {
                table,
                bucket,
                position,
            } => slot_text(alloc, *table, *bucket, *position, b"again"),
            ListingFault::Memory => Ok(Vec::from_slice(alloc, b"out of memory")?),
        }
    }
}

/// Returns the text for a fault of a listing's text.
fn raw_text(alloc: Global, fault: &RawFault) -> Result<Vec<u8>, Memory>
    ensures { IfOk result (λ text. text.items ≡ raw_fault_text fault.now) }
{
    match fault {
        RawFault::Json => Ok(Vec::from_slice(alloc, b"json")?),
        RawFault::Form => Ok(Vec::from_slice(alloc, b"form")?),
        RawFault::Slot { table, index } => member_text(alloc, *table, *index),
        RawFault::Row {
            table,
            bucket,
            position,
            field,
        } => slot_text(alloc, *table, *bucket, *position, field_word(*field)),
        RawFault::TooLarge => Ok(Vec::from_slice(alloc, b"too-large")?),
        RawFault::Memory => Ok(Vec::from_slice(alloc, b"out of memory")?),
    }
}

/// Returns the name of a table.
fn table_word(table: RawTable) -> &'static [u8]
    ensures { result.now ≡ table_word table }
{
    match table {
        RawTable::New => b"new",
        RawTable::Tried => b"tried",
    }
}

/// Returns the name of a field.
fn field_word(field: Field) -> &'static [u8]
    ensures { result.now ≡ field_word field }
{
    match field {
        Field::Address => b"address",
        Field::Port => b"port",
        Field::Services => b"services",
        Field::Time => b"time",
        Field::Source => b"source",
    }
}

/// Returns the text about the name of a member of a table.
fn member_text(alloc: Global, table: RawTable, index: u64) -> Result<Vec<u8>, Memory>
    ensures { IfOk result (λ text. text.items ≡ member_text table index) }
{
    let mut text = Vec::from_slice(alloc, table_word(table))?;
    put_number(b" member ", index, &mut text)?;
    put_text(b": slot", &mut text)?;
    Ok(text)
}

/// Returns the text about a slot of a table.
fn slot_text(
    alloc: Global,
    table: RawTable,
    bucket: u16,
    position: u8,
    word: &[u8],
) -> Result<Vec<u8>, Memory>
    ensures { IfOk result (λ text. text.items ≡ slot_text table bucket position word.now) }
{
    let mut text = Vec::from_slice(alloc, table_word(table))?;
    put_number(b"/", u64::from(bucket), &mut text)?;
    put_number(b"/", u64::from(position), &mut text)?;
    put_text(b": ", &mut text)?;
    put_text(word, &mut text)?;
    Ok(text)
}
