//! `read_raw` reads the JSON and its two tables, in a text of at most `MAX_TEXT` (64 MiB).

ghost use Rattle.std.specs.Prelude.{◌≡◌, ◌≢◌, ◌⊎◌, Ok, Err, Some, IfOk, IfErr, option_map, option_and_then};
ghost use Rattle.json.specs.Find.{get, as_object};
ghost use Rattle.json.specs.Json.{Json};
ghost use Rattle.json.specs.Value.{members_view, value_view};
ghost use Rattle.raw_read.specs.Raw.{HasRawFault, IsJson, IsRaw, IsWithoutEnd};
ghost use Rattle.raw_read.specs.declared.raw.RawFault.{RawFault};
ghost use Rattle.raw_read.specs.declared.raw.RawFault.TheVariants as faults;
ghost use Rattle.raw_read.specs.declared.read.TheConstants.{MAX_TEXT};
ghost use Rattle.raw_read.specs.declared.raw.Raw.{Raw};

use crate::rows::read_table;
use crate::{Raw, RawFault, RawRow, RawTable};
use host_io::ListOf;
use json::{Error, Scratch, Value};
use std::alloc::Global;

/// The maximum size of a text in bytes. `read_raw` reads longer ones too: who reads the text
/// refuses them as `TooLarge`. This limit is our own; tables that are full have some 35,000,000.
pub const MAX_TEXT: usize = 67_108_864;

/// The members of an object.
type Members<'v, 'a> = &'v [(&'a str, Value<'a>)];

/// Returns the text without the line feed at its end.
fn without_end(text: &[u8]) -> &[u8]
    ensures { IsWithoutEnd text.now result.now }
{
    match text.strip_suffix(b"\n") {
        Some(line) => line,
        None => text,
    }
}

/// Parses a JSON text.
fn parse<'a>(
    alloc: Global,
    bytes: &'a [u8],
    scratch: &'a mut Scratch,
) -> Result<Value<'a>, RawFault>
    ensures ok { IfOk result (λ value. IsJson bytes.now (value_view value)) }
    ensures err { IfErr result (λ fault. (fault ≡ faults.Memory)
        ⊎ ((fault ≡ faults.Json) × ((j : Json) → ¬ IsJson bytes.now j))) }
{
    match Value::from_slice(alloc, without_end(bytes), scratch) {
        Ok(value) => Ok(value),
        Err(Error::OutOfMemory) => Err(RawFault::Memory),
        Err(_) => Err(RawFault::Json),
    }
}

/// Returns the members of the object under a name.
fn members_at<'v, 'a>(value: &'v Value<'a>, name: &str) -> Option<Members<'v, 'a>>
    ensures { option_map (λ members. members_view members.now) result
        ≡ option_and_then as_object (get name.now (value_view value.now)) }
{
    match value.get(name)? {
        Value::Object(members) => Some(members.as_slice()),
        _ => None,
    }
}

/// Makes the value of both tables. Takes no memory.
fn raw_of(new: Vec<RawRow>, tried: Vec<RawRow>) -> Raw
    ensures new { result.new ≡ new.items }
    ensures tried { result.tried ≡ tried.items }
{
    Raw {
        new: ListOf::of(new),
        tried: ListOf::of(tried),
    }
}

/// Reads both tables of a text. The proof of `read_raw` needs its clauses.
fn read_tables(alloc: Global, bytes: &[u8]) -> Result<Raw, RawFault>
    ensures found { IfOk result (IsRaw bytes.now) }
    ensures cause { IfErr result (λ fault. fault ≢ faults.Memory → HasRawFault bytes.now fault) }
{
    let mut scratch = Scratch::new(alloc);
    let value = match parse(alloc, bytes, &mut scratch) {
        Ok(value) => value,
        Err(fault) => return Err(fault),
    };
    let Some(new) = members_at(&value, "new") else {
        return Err(RawFault::Form);
    };
    let Some(tried) = members_at(&value, "tried") else {
        return Err(RawFault::Form);
    };
    let new = match read_table(alloc, RawTable::New, new) {
        Ok(rows) => rows,
        Err(fault) => return Err(fault),
    };
    match read_table(alloc, RawTable::Tried, tried) {
        Ok(tried) => Ok(raw_of(new, tried)),
        Err(fault) => Err(fault),
    }
}

/// Reads what `getrawaddrman` printed. An error is the first fault; `Memory` is possible in place
/// of any result.
pub fn read_raw(alloc: Global, bytes: &[u8]) -> Result<Raw, RawFault>
    ensures found { IfOk result (IsRaw bytes.now) }
    ensures only { (raw : Raw) → IsRaw bytes.now raw → result ≢ Err faults.Memory
        → result ≡ Ok raw }
    ensures cause { IfErr result (λ fault. fault ≢ faults.Memory → HasRawFault bytes.now fault) }
    ensures exact { (fault : RawFault) → HasRawFault bytes.now fault → result ≢ Err faults.Memory
        → result ≡ Err fault }
    ensures max_text { MAX_TEXT ≡ 67108864 }
{
    read_tables(alloc, bytes)
}
