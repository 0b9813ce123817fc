//! Compiles tables of prefixes and turns asmaps back: `addrman_asmap_compile` and
//! `addrman_asmap_decompile`; with `NoAsmap` and `NoTable`.

ghost use Rattle.std.specs.Prelude.{◌≡◌, ◌≢◌, IfOk, IfErr};
ghost use Rattle.addrman_c.specs.Asmaps.{BackCall, CompileCall, IsCompiled, IsNoAsmap, IsNoTable, IsTextOf, TellsNoAsmap, TellsNoTable, table_fault};

use asmap_back::{BackFault, decompile};
use asmap_compile::{CompileFault, Compiled, compile_in_place};
use c_values::code::{MEMORY, OK, REFUSED, SHORT_BUFFER};
use c_values::{AddrmanFault, put_all};
use prefix_table::{MAX_TEXT, TableFault, put_table, read_table};
use std::alloc::Global;

/// Why a text is not compiled.
pub(crate) enum NoAsmap {
    /// Out of memory.
    Memory,
    /// The text has more bytes than the text of a table: how many it has.
    LongText { size: u64 },
    /// The text is that of no table.
    Table(TableFault),
    /// The table has no rows.
    Empty,
    /// The code has more bits than that of an asmap: how many it has.
    LongCode { bits: u64 },
}

/// Compiles the text of a table of prefixes.
fn compiled(alloc: Global, text: &[u8]) -> Result<Compiled, NoAsmap>
    ensures found { IfOk result (λ file. IsCompiled text.now file.bytes) }
    ensures cause { IfErr result (IsNoAsmap text.now) }
{
    if text.len() > MAX_TEXT {
        return Err(NoAsmap::LongText {
            size: text.len() as u64,
        });
    }
    let table = match read_table(alloc, text) {
        Ok(table) => table,
        Err(TableFault::Memory) => return Err(NoAsmap::Memory),
        Err(fault) => return Err(NoAsmap::Table(fault)),
    };
    match compile_in_place(alloc, table) {
        Ok(file) => Ok(file),
        Err(CompileFault::Empty) => Err(NoAsmap::Empty),
        Err(CompileFault::TooLarge { bits }) => Err(NoAsmap::LongCode { bits }),
        Err(CompileFault::Memory) => Err(NoAsmap::Memory),
    }
}

/// Returns the fault of a text as C sees it.
fn table_fault(fault: TableFault) -> AddrmanFault
    ensures { result ≡ table_fault fault }
{
    let (kind, at) = match fault {
        TableFault::Form { line } => (40, u64::from(line)),
        TableFault::Number { line } => (41, u64::from(line)),
        TableFault::HostBits { line } => (42, u64::from(line)),
        TableFault::Repeated { line } => (43, u64::from(line)),
        TableFault::TooMany => (3, 0),
        TableFault::TooLarge { size } => (19, size),
        TableFault::Memory => (0, 0),
    };
    AddrmanFault { kind, at }
}

/// Writes to `fault` why a text is not compiled, and returns the result of the call.
fn tell_no_asmap(why: NoAsmap, fault: &mut AddrmanFault) -> u32
    ensures call { TellsNoAsmap why result fault.new }
    ensures fault { result ≢ REFUSED → fault.new ≡ fault.old }
{
    *fault = match why {
        NoAsmap::Memory => return MEMORY,
        NoAsmap::LongText { size } => AddrmanFault { kind: 19, at: size },
        NoAsmap::Table(refused) => table_fault(refused),
        NoAsmap::Empty => AddrmanFault { kind: 44, at: 0 },
        NoAsmap::LongCode { bits } => AddrmanFault { kind: 45, at: bits },
    };
    REFUSED
}

/// Compiles the text of a table of prefixes, and writes the asmap and how many bytes it has.
#[unsafe(no_mangle)]
pub extern "C" fn addrman_asmap_compile(
    alloc: Global,
    text: &[u8],
    out: &mut [u8],
    length: &mut usize,
    fault: &mut AddrmanFault,
) -> u32
    ensures call { CompileCall text.now result out.old out.new length.new fault.new }
    ensures length { result ≢ OK → result ≢ SHORT_BUFFER → length.new ≡ length.old }
    ensures fault { result ≢ REFUSED → fault.new ≡ fault.old }
{
    match compiled(alloc, text) {
        Ok(file) => put_all(out, file.code(), length),
        Err(why) => tell_no_asmap(why, fault),
    }
}

/// Why an asmap is not turned back into a table.
pub(crate) enum NoTable {
    /// Out of memory.
    Memory,
    /// It is not sane, or has too many bytes.
    NotSane,
    /// The table would have too many rows.
    TooMany,
}

/// Returns the text of the table that an asmap is turned back into.
fn text_of(alloc: Global, asmap: &[u8]) -> Result<Vec<u8>, NoTable>
    ensures found { IfOk result (λ text. IsTextOf asmap.now text.items) }
    ensures cause { IfErr result (IsNoTable asmap.now) }
{
    let Ok(sane) = asmap_vm::check(asmap) else {
        return Err(NoTable::NotSane);
    };
    let table = match decompile(alloc, &sane) {
        Ok(table) => table,
        Err(BackFault::TooMany { .. }) => return Err(NoTable::TooMany),
        Err(BackFault::Memory) => return Err(NoTable::Memory),
    };
    let mut text = Vec::new(alloc);
    match put_table(&table, &mut text) {
        Ok(()) => Ok(text),
        Err(_) => Err(NoTable::Memory),
    }
}

/// Writes why an asmap is not turned back, and returns the code.
fn tell_no_table(why: NoTable, fault: &mut AddrmanFault) -> u32
    ensures call { TellsNoTable why result fault.new }
    ensures fault { result ≢ REFUSED → fault.new ≡ fault.old }
{
    let kind = match why {
        NoTable::Memory => return MEMORY,
        NoTable::NotSane => 21,
        NoTable::TooMany => 3,
    };
    *fault = AddrmanFault { kind, at: 0 };
    REFUSED
}

/// Turns an asmap back into a table of prefixes, and writes its text and how many bytes that has.
#[unsafe(no_mangle)]
pub extern "C" fn addrman_asmap_decompile(
    alloc: Global,
    asmap: &[u8],
    out: &mut [u8],
    length: &mut usize,
    fault: &mut AddrmanFault,
) -> u32
    ensures call { BackCall asmap.now result out.old out.new length.new fault.new }
    ensures length { result ≢ OK → result ≢ SHORT_BUFFER → length.new ≡ length.old }
    ensures fault { result ≢ REFUSED → fault.new ≡ fault.old }
{
    match text_of(alloc, asmap) {
        Ok(text) => put_all(out, text.as_slice(), length),
        Err(why) => tell_no_table(why, fault),
    }
}
