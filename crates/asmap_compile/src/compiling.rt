//! `compile` and `compile_in_place`, with `MAX_BITS`.

ghost use Rattle.std.specs.Prelude.{◌≡◌, ◌↔◌, ℕ, ◌*◌, ◌^◌, ◌<◌, ◌≤◌, Bool, List, length, IfOk, Err};
ghost use Rattle.bit_code.specs.Coder.{number_of};
ghost use Rattle.asmap_vm.specs.Code.{IsSaneFile, code, meaning, asn_of};
ghost use Rattle.prefix_table.specs.Rows.{best};
ghost use Rattle.asmap_compile.specs.Compiled.{compiled};
ghost use Rattle.asmap_compile.specs.declared.compiling.TheConstants.{MAX_BITS};

use crate::compiled_code::Compiled;
use crate::fault::CompileFault;
use crate::kept::kept_of;
use crate::tree::put_tree;
use bit_code::{BitFront, MAX_ASMAP};
use prefix_table::Table;
use std::alloc::Global;

/// The maximum number of bits of a code: those of the largest file that `check` of asmap_vm
/// accepts.
pub const MAX_BITS: u64 = 8 * MAX_ASMAP as u64;

/// Compiles a table into an asmap file, which gives each address the AS number of its longest
/// match. Returns the file and the number of bits of its code.
pub fn compile(alloc: Global, table: &Table) -> Result<Compiled, CompileFault>
    // The file is that of the compiled tree, which is sane.
    ensures sane { IfOk result (λ file. IsSaneFile (compiled table.now) file.bytes) }
    ensures bits { IfOk result (λ file. file.bits ≡ length (code (compiled table.now))) }
    ensures small { IfOk result (λ file. file.bits ≤ MAX_BITS) }

    // The tree gives every address the number of its longest row.
    ensures meaning { IfOk result (λ _. (address : List Bool) → length address ≡ 128
        → meaning (compiled table.now) address 0 ≡ best table.now (number_of address)) }
    ensures asn { IfOk result (λ _. (address : ℕ) → address < 2 ^ 128
        → asn_of (compiled table.now) address ≡ best table.now address) }
    ensures empty { (result ≡ Err CompileFault.Empty) ↔ (length table.now ≡ 0) }
    ensures too_large { (bits : ℕ) → result ≡ Err (CompileFault.TooLarge bits)
        → (MAX_BITS < bits) × (bits ≡ length (code (compiled table.now))) }
    ensures limit { MAX_BITS ≡ 8 * MAX_ASMAP }
{
    if table.rows().is_empty() {
        return Err(CompileFault::Empty);
    }
    compile_in_place(alloc, table.copy(alloc)?)
}

/// Does what `compile` does with a table that it is given, of whose rows it makes no copy.
pub fn compile_in_place(alloc: Global, table: Table) -> Result<Compiled, CompileFault>
    // The file is that of the compiled tree, which is sane.
    ensures sane { IfOk result (λ file. IsSaneFile (compiled table) file.bytes) }
    ensures bits { IfOk result (λ file. file.bits ≡ length (code (compiled table))) }
    ensures small { IfOk result (λ file. file.bits ≤ MAX_BITS) }

    // The tree gives every address the number of its longest row.
    ensures meaning { IfOk result (λ _. (address : List Bool) → length address ≡ 128
        → meaning (compiled table) address 0 ≡ best table (number_of address)) }
    ensures asn { IfOk result (λ _. (address : ℕ) → address < 2 ^ 128
        → asn_of (compiled table) address ≡ best table address) }
    ensures empty { (result ≡ Err CompileFault.Empty) ↔ (length table ≡ 0) }
    ensures too_large { (bits : ℕ) → result ≡ Err (CompileFault.TooLarge bits)
        → (MAX_BITS < bits) × (bits ≡ length (code (compiled table))) }
    ensures limit { MAX_BITS ≡ 8 * MAX_ASMAP }
{
    let rows = table.into_rows();
    if rows.is_empty() {
        return Err(CompileFault::Empty);
    }
    let kept = kept_of(alloc, rows)?;
    let mut out = BitFront::make(alloc);
    put_tree(&mut out, kept.as_slice(), 0, 0, 0)?;
    let bits = out.len() as u64;
    if bits > MAX_BITS {
        return Err(CompileFault::TooLarge { bits });
    }
    Ok(Compiled {
        bytes: out.into_bytes(),
        bits,
    })
}
