//! `Walk` follows the bits of one address to its answer.

ghost use Rattle.std.specs.Prelude.{◌≡◌, ℕ, ◌+◌, ◌^◌, ◌<◌, ◌≤◌, length, IfNone};
ghost use Rattle.bit_code.specs.Coder.{has_bit, digits};
ghost use Rattle.bit_code.specs.Prefixes.{begins_with};
ghost use Rattle.asmap_vm.specs.Matches.{match_bits, match_size};
ghost use Rattle.asmap_vm.specs.Walking.{Answers, GivesOn, set_out};

use crate::instruction::{Instruction, match_size, read_instruction};
use bit_code::Bits;

/// How far an address was followed.
#[derive(Clone, Copy)]
pub(crate) struct Walk {
    /// The offset of the next instruction.
    pub offset: usize,
    /// The number of address bits that are left.
    pub left: u8,
    /// The answer if a match fails.
    pub default: u32,
}

/// Returns `true` if bit `k` of the address, counted from the low one, is one.
#[inline]
fn has_bit(address: u128, k: u8) -> bool
    requires { k < 128 }
    ensures { result ≡ has_bit address k }
{
    (address >> k) & 1 == 1
}

/// Returns `true` if the address bits above the `left` lowest begin with the bits of a match.
#[inline]
fn is_matched(address: u128, left: u8, number: u32) -> bool
    requires low { 2 ≤ number }
    requires high { number < 512 }
    requires room { left + match_size number ≤ 128 }
    ensures { result ≡ begins_with (digits (left + match_size number) address) (match_bits number) }
{
    let mask = (1u32 << match_size(number)) - 1;
    let next = ((address >> left) % 256) as u32;
    next & mask == number & mask
}

impl Walk {
    /// Follows one instruction, and returns the answer if it ends there.
    fn step(&mut self, bits: &Bits<'_>, address: u128) -> Option<u32>
        requires size { length bits.now < 2 ^ 32 }
        requires offset { self.old.offset ≤ length bits.now }
        requires ahead { (answer : ℕ) × Answers bits.now address self.old answer }
        ensures offset { IfNone result
            ((self.old.offset < self.new.offset) × (self.new.offset ≤ length bits.now)) }
        ensures gives { (answer : ℕ) → Answers bits.now address self.old answer
            → GivesOn bits.now address self.new result answer }
    {
        let Some((instruction, next)) = read_instruction(bits, self.offset) else {
            unreachable!()
        };
        self.offset = next;
        match instruction {
            Instruction::Return(asn) => return Some(asn),
            Instruction::Default(asn) => self.default = asn,
            Instruction::Jump(over) => {
                self.left -= 1;
                if has_bit(address, self.left) {
                    self.offset += over as usize;
                }
            }
            Instruction::Match(number) => {
                self.left -= match_size(number);
                if !is_matched(address, self.left, number) {
                    return Some(self.default);
                }
            }
        }
        None
    }

    /// Follows an address to its answer, and returns that.
    pub fn follow(bits: &Bits<'_>, address: u128) -> u32
        requires size { length bits.now < 2 ^ 32 }
        requires ahead { (answer : ℕ) × Answers bits.now address set_out answer }
        ensures { (answer : ℕ) → Answers bits.now address set_out answer → result ≡ answer }
    {
        let mut walk = Walk {
            offset: 0,
            left: 128,
            default: 0,
        };
        loop {
            if let Some(answer) = walk.step(bits, address) {
                return answer;
            }
        }
    }
}
