//! `Scan`, the one pass that checks sanity: jumps, pending parts, padding and useless defaults.

ghost use Rattle.std.specs.Prelude.{◌≡◌, ◌+◌, ◌-◌, ◌^◌, ◌<◌, ◌≤◌, ◌↔◌, ◌≢◌, [], ◌∷◌, true, false, IsTrue, length, drop, if◌then◌else◌};
ghost use Rattle.asmap_vm.specs.declared.stack.RightPart.{RightPart};
ghost use Rattle.asmap_vm.specs.Matches.{match_size};
ghost use Rattle.asmap_vm.specs.Scanning.{Completes, IsUnderWay, IsPadding, IsStuck, Advances, after_match, start};

use crate::instruction::{Instruction, match_size, read_instruction};
use crate::stack::{RightPart, RightParts};
use bit_code::Bits;

/// What is right before the part that is read next, if that forbids some parts.
#[derive(Clone, Copy)]
pub(crate) enum Before {
    /// Nothing that matters.
    Nothing,
    /// A match of fewer than eight bits.
    ShortMatch,
    /// A default.
    Default,
}

impl Before {
    /// Returns `true` if it is a default.
    fn is_default(self) -> bool
        ensures { IsTrue result ↔ (self ≡ Before.Default) }
    {
        matches!(self, Before::Default)
    }
}

/// How far a file was read.
#[derive(Drop)]
pub(crate) struct Scan {
    /// The offset of the next instruction.
    pub offset: usize,
    /// The number of address bits that are left for it.
    pub left: u8,
    /// What is right before it.
    pub before: Before,
    /// The right parts that are still to be read.
    pub pending: RightParts,
}

/// What came of reading one instruction.
#[derive(Clone, Copy)]
pub(crate) enum Step {
    /// The file goes on.
    More,
    /// The file is that of a sane tree.
    Sane,
    /// The file is that of no sane tree.
    Insane,
}

/// Returns what a match of this many bits is to the part after it.
fn after_match(size: u8) -> Before
    ensures { result ≡ after_match size }
{
    if size < 8 {
        Before::ShortMatch
    } else {
        Before::Nothing
    }
}

/// Returns `true` if there are few enough bits for padding, which ends within a byte.
fn is_few(count: usize) -> bool
    ensures few { result ≡ true → count ≤ 7 }
    ensures many { result ≡ false → 7 < count }
{
    count <= 7
}

/// Returns `true` if the bits from an offset on are padding: at most seven, all zero.
fn is_padding(bits: &Bits<'_>, at: usize) -> bool
    requires { at ≤ length bits.now }
    ensures { IsTrue result ↔ IsPadding (drop at bits.now) }
{
    if !is_few(bits.len() - at) {
        return false;
    }
    for offset in at..bits.len() {
        if bits.get(offset) {
            return false;
        }
    }
    true
}

/// Returns that the file goes on, or that it is not sane.
fn more_if(may_go_on: bool) -> Step
    ensures { result ≡ (if may_go_on then Step.More else Step.Insane) }
{
    if may_go_on { Step::More } else { Step::Insane }
}

impl Scan {
    /// Starts before the first instruction.
    fn start() -> Scan
        ensures { result ≡ start }
    {
        Scan {
            offset: 0,
            left: 128,
            before: Before::Nothing,
            pending: RightParts::new(),
        }
    }

    /// Goes on with the left part of a jump. Returns `false` if no address bit is left for it.
    fn jump(&mut self, over: u32) -> bool
        requires open_jumps { self.old.left + length self.old.pending ≤ 128 }
        requires offset { self.old.offset < 2 ^ 32 }
        ensures answer { IsTrue result ↔ (0 < self.old.left) }
        ensures left_part { IsTrue result → self.new ≡ record {
          offset = self.old.offset;
          left = self.old.left - 1;
          before = Before.Nothing;
          pending = record { begins = self.old.offset + over; left = self.old.left - 1 }
              ∷ self.old.pending;
        } }
    {
        if self.left == 0 {
            return false;
        }
        self.left -= 1;
        self.before = Before::Nothing;
        self.pending.push(RightPart {
            begins: self.offset + over as usize,
            left: self.left,
        });
        true
    }

    /// Goes on with the part after a match. Returns `false` if no sane tree has the match here.
    fn match_bits(&mut self, number: u32) -> bool
        requires low { 2 ≤ number }
        requires high { number < 512 }
        ensures answer { IsTrue result ↔ ((match_size number ≤ self.old.left)
            × (match_size number < 8 → self.old.before ≢ Before.ShortMatch)) }
        ensures part { IsTrue result → self.new ≡ record self.old {
          left = self.old.left - match_size number;
          before = after_match (match_size number);
        } }
    {
        let size = match_size(number);
        if size > self.left || (size < 8 && self.before == Before::ShortMatch) {
            return false;
        }
        self.left -= size;
        self.before = after_match(size);
        true
    }

    /// Goes on after a return: with the next pending right part, or with the padding.
    fn end_part(&mut self, bits: &Bits<'_>) -> Step
        requires offset { self.old.offset ≤ length bits.now }
        ensures sane { result ≡ Step.Sane → (self.old.pending ≡ [])
            × IsPadding (drop self.old.offset bits.now) }
        ensures insane { result ≡ Step.Insane → IsStuck bits.now self.old }
        ensures more { result ≡ Step.More → (part : RightPart)
            × (self.old.pending ≡ part ∷ self.new.pending) × (part.begins ≡ self.old.offset)
            × (self.new ≡ record self.new {
              offset = self.old.offset;
              left = part.left;
              before = Before.Nothing;
            }) }
    {
        match self.pending.pop() {
            None => {
                if is_padding(bits, self.offset) {
                    Step::Sane
                } else {
                    Step::Insane
                }
            }
            Some(part) => {
                if part.begins != self.offset {
                    return Step::Insane;
                }
                self.left = part.left;
                self.before = Before::Nothing;
                Step::More
            }
        }
    }

    /// Reads one instruction.
    fn step(&mut self, bits: &Bits<'_>) -> Step
        requires under_way { IsUnderWay bits.now self.old }
        requires size { length bits.now < 2 ^ 32 }
        ensures more { result ≡ Step.More → Advances bits.now self.old self.new }
        ensures sane { result ≡ Step.Sane → Completes bits.now self.old }
        ensures insane { result ≡ Step.Insane → Completes bits.now self.old → ⊥ }
    {
        let Some((instruction, next)) = read_instruction(bits, self.offset) else {
            return Step::Insane;
        };
        self.offset = next;
        match instruction {
            Instruction::Return(_) => {
                if self.before.is_default() {
                    return Step::Insane;
                }
                self.end_part(bits)
            }
            Instruction::Jump(over) => more_if(self.jump(over)),
            Instruction::Match(number) => more_if(self.match_bits(number)),
            Instruction::Default(_) => more_if(self.set_default()),
        }
    }

    /// Goes on with the part after a default. Returns `false` right after another default.
    fn set_default(&mut self) -> bool
        ensures answer { IsTrue result ↔ (self.old.before ≢ Before.Default) }
        ensures part { IsTrue result → self.new ≡ record self.old { before = Before.Default } }
    {
        if self.before.is_default() {
            return false;
        }
        self.before = Before::Default;
        true
    }

    /// Returns `true` if the bits are the code of a sane tree and padding, in one pass over them.
    pub fn is_sane(bits: &Bits<'_>) -> bool
        requires { length bits.now < 2 ^ 32 }
        ensures { IsTrue result ↔ Completes bits.now start }
    {
        let mut scan = Scan::start();
        loop {
            match scan.step(bits) {
                Step::More => (),
                Step::Sane => return true,
                Step::Insane => return false,
            }
        }
    }
}
