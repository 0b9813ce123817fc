//! Puts a return, a jump, a default or matches before the bits that are there.

ghost use Rattle.std.specs.Prelude.{◌≡◌, ℕ, ◌+◌, ◌-◌, ◌*◌, ◌<◌, ◌≤◌, Bool, List, ◌∷◌, ◌++◌, true, length, OnOk};
ghost use Rattle.bit_code.specs.Coder.{HasValue, spelling, number_of};
ghost use Rattle.asmap_vm.specs.Code.{Tree, code};
ghost use Rattle.asmap_compile.specs.Compiled.{matches};
ghost use Rattle.asmap_compile.specs.Inside.{bits_between};

use bit_code::{BitFront, Coder, Memory};

/// Puts a kind of instruction and its number before the bits that are there.
fn put_instruction(out: &mut BitFront, kind: u32, coder: Coder, number: u32) -> Result<(), Memory>
    requires kind { kind < 4 }
    requires number { HasValue coder number }
    ensures { OnOk result (out.new
        ≡ spelling Coder.Kind kind ++ (spelling coder number ++ out.old)) }
{
    out.put_number_front(coder, number)?;
    out.put_number_front(Coder::Kind, kind)
}

/// Puts the code of a return before the bits that are there.
pub(crate) fn put_return(out: &mut BitFront, asn: u32) -> Result<(), Memory>
    requires { HasValue Coder.Asn asn }
    ensures { OnOk result (out.new ≡ code (Tree.Return asn) ++ out.old) }
{
    put_instruction(out, 0, Coder::Asn, asn)
}

/// Puts a jump over the left part, of `over` bits, before the two parts.
pub(crate) fn put_jump(out: &mut BitFront, over: u32) -> Result<(), Memory>
    requires { HasValue Coder.Jump over }
    ensures { (l r : Tree) (rest : List Bool) → over ≡ length (code l)
        → out.old ≡ code l ++ (code r ++ rest)
        → OnOk result (out.new ≡ code (Tree.Jump l r) ++ rest) }
{
    put_instruction(out, 1, Coder::Jump, over)
}

/// Puts a default before the part that it holds for.
pub(crate) fn put_default(out: &mut BitFront, asn: u32) -> Result<(), Memory>
    requires { HasValue Coder.Asn asn }
    ensures { (t : Tree) (rest : List Bool) → out.old ≡ code t ++ rest
        → OnOk result (out.new ≡ code (Tree.Default asn t) ++ rest) }
{
    put_instruction(out, 3, Coder::Asn, asn)
}

/// Puts a match of the bits from one index up to another, before the part after it.
fn put_match(out: &mut BitFront, bits: u128, from: u8, to: u8) -> Result<(), Memory>
    requires some { from < to }
    requires few { to ≤ from + 8 }
    requires within { to ≤ 128 }
    ensures { (t : Tree) (rest : List Bool) → out.old ≡ code t ++ rest
        → OnOk result (out.new ≡ code (Tree.Match (bits_between bits from to) t) ++ rest) }
{
    put_instruction(out, 2, Coder::Match, match_number(bits, from, to))
}

/// Returns the number of a match of these bits: their digits after a leading one.
fn match_number(bits: u128, from: u8, to: u8) -> u32
    requires some { from < to }
    requires few { to ≤ from + 8 }
    requires within { to ≤ 128 }
    ensures { result ≡ number_of (true ∷ bits_between bits from to) }
{
    let size = to - from;
    let shifted = bits >> (128 - to);
    let digits = shifted & ((1u128 << size) - 1);
    (1u32 << size) + digits as u32
}

/// Puts matches of the bits from one index up to another, of eight bits each except the last,
/// before the part after them.
pub(crate) fn put_matches(out: &mut BitFront, bits: u128, from: u8, to: u8) -> Result<(), Memory>
    requires order { from ≤ to }
    requires within { to ≤ 128 }
    ensures { (count : ℕ) (t : Tree) (rest : List Bool) → to - from ≤ 8 * count
        → out.old ≡ code t ++ rest
        → OnOk result (out.new ≡ code (matches count (bits_between bits from to) t) ++ rest) }
{
    if from == to {
        return Ok(());
    }
    let end = to.min(from + 8);
    put_matches(out, bits, end, to)?;
    put_match(out, bits, from, end)
}
