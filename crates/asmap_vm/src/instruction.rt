//! `Instruction` (return, jump, match or default), and how one is read.

ghost use Rattle.std.specs.Prelude.{◌≡◌, ℕ, ◌<◌, ◌≤◌, Bool, true, List, ◌∷◌, ◌++◌, length, drop, IfSome, IsSomeAnd};
ghost use Rattle.bit_code.specs.Coder.{HasValue, number_of};
ghost use Rattle.asmap_vm.specs.Code.{Tree};
ghost use Rattle.asmap_vm.specs.declared.instruction.Instruction.{Instruction};
ghost use Rattle.asmap_vm.specs.Instructions.{instruction_at, coder_of, number_in, head, tail, IsNext, HasTree};
ghost use Rattle.asmap_vm.specs.Matches.{match_size};

use bit_code::{Bits, read_kind_and_number};

/// One instruction of an asmap file.
#[derive(Clone, Copy, Debug, PartialEq, Eq)]
pub enum Instruction {
    /// The answer is this number.
    Return(u32),
    /// If the next address bit is one, this many bits are skipped.
    Jump(u32),
    /// The next address bits must be the binary digits of this number after its leading one.
    Match(u32),
    /// From here on, this number is the answer if a match fails.
    Default(u32),
}

/// Reads the instruction at offset `at` in bits. Returns it and the offset after it, or `None` if
/// the file ends within it.
#[inline(always)]
pub(crate) fn read_instruction(bits: &Bits<'_>, at: usize) -> Option<(Instruction, usize)>
    requires { at ≤ length bits.now }
    ensures offset { IfSome result (λ read. (at < read.1) × (read.1 ≤ length bits.now)) }
    ensures found { IfSome result (λ read.
        IsNext read.0 (drop at bits.now) (drop read.1 bits.now)) }
    ensures only { (i : Instruction) (rest : List Bool) → IsNext i (drop at bits.now) rest →
        IsSomeAnd result (λ read. (read.0 ≡ i) × (drop read.1 bits.now ≡ rest)) }
{
    let read = read_kind_and_number(bits, at)?;
    Some((instruction_at(read.kind, read.number), read.end))
}

/// Returns the first instruction of the tree at offset `at` in bits, and the offset after it.
pub fn first_instruction(bits: &Bits<'_>, at: usize) -> (Instruction, usize)
    requires offset { at ≤ length bits.now }
    requires tree { (left : ℕ) × ((t : Tree) × ((rest : List Bool)
        × HasTree left t (drop at bits.now) rest)) }
    ensures offset { (at < result.1) × (result.1 ≤ length bits.now) }
    ensures value { HasValue (coder_of result.0) (number_in result.0) }
    ensures first { (left : ℕ) (t : Tree) (rest : List Bool)
        → HasTree left t (drop at bits.now) rest
        → (result.0 ≡ head t) × (drop result.1 bits.now ≡ tail t ++ rest) }
{
    let Some(read) = read_instruction(bits, at) else {
        unreachable!()
    };
    read
}

/// Returns the instruction of this kind with this number.
#[inline(always)]
fn instruction_at(kind: u32, number: u32) -> Instruction
    ensures { result ≡ instruction_at kind number }
{
    match kind {
        0 => Instruction::Return(number),
        1 => Instruction::Jump(number),
        2 => Instruction::Match(number),
        _ => Instruction::Default(number),
    }
}

/// Returns the number of address bits that a match with this number compares: the binary digits
/// after the leading one.
#[inline]
pub fn match_size(number: u32) -> u8
    requires low { 2 ≤ number }
    requires high { number < 512 }
    ensures size { result ≡ match_size number }
    ensures least { 1 ≤ result }
    ensures most { result ≤ 8 }
    ensures wanted { (wanted : List Bool) → length wanted ≤ 8
        → number ≡ number_of (true ∷ wanted) → result ≡ length wanted }
{
    (31 - number.leading_zeros()) as u8
}
