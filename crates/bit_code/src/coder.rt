//! `Coder` and its classes of sizes, for kinds, AS numbers, matches and jumps.

ghost use Rattle.std.specs.Prelude.{◌≡◌, ◌≤◌, IfSome, IfNone};
ghost use Rattle.bit_code.specs.Coder.{coder_after};
ghost use Rattle.bit_code.specs.Inside.{HasClasses};

/// How a number in an asmap file is encoded, by its role: `DecodeType`, `DecodeASN`,
/// `DecodeMatch` and `DecodeJump` of `util/asmap.cpp` in Bitcoin Core.
#[derive(Clone, Copy, Debug, PartialEq, Eq)]
pub enum Coder {
    /// The kind of an instruction: 0 return, 1 jump, 2 match, 3 default.
    Kind,
    /// The number of an autonomous system, 1 to 33,521,664.
    Asn,
    /// The bits of a match, as the binary digits after a leading one: 2 to 511.
    Match,
    /// The number of bits that a jump passes over, 17 to 2,147,483,632.
    Jump,
}

/// Classes whose sizes rise by one, of the coders of `DecodeASN`, `DecodeMatch` and `DecodeJump` in
/// Bitcoin Core's `util/asmap.cpp`.
#[derive(Clone, Copy)]
pub(crate) struct Classes {
    /// The least value that can be encoded.
    pub least: u32,
    /// The number of digits of the values of class 0.
    pub first: u32,
    /// The number of the last class.
    pub last: u32,
}

/// The classes of `Coder::Asn`.
const ASN: Classes = Classes {
    least: 1,
    first: 15,
    last: 9,
};

/// The classes of `Coder::Match`.
const MATCH: Classes = Classes {
    least: 2,
    first: 1,
    last: 7,
};

/// The classes of `Coder::Jump`.
const JUMP: Classes = Classes {
    least: 17,
    first: 5,
    last: 25,
};

/// Returns the classes of a coder, or `None` for `Coder::Kind`, whose classes do not rise by one.
#[inline(always)]
#[tactic(auto, unfolding(crate::specs::Coder::sizes))]
pub(crate) fn classes_of(coder: Coder) -> Option<Classes>
    ensures found { IfSome result (HasClasses coder) }
    ensures none { IfNone result (coder ≡ Coder.Kind) }
{
    match coder {
        Coder::Kind => None,
        Coder::Asn => Some(ASN),
        Coder::Match => Some(MATCH),
        Coder::Jump => Some(JUMP),
    }
}

/// The classes of the number after each kind.
static AFTER_KINDS: [Classes; 4] = [ASN, JUMP, MATCH, ASN];

/// Returns the classes of the number after a kind, from a table, so that nothing branches on the
/// kind.
#[inline(always)]
pub(crate) fn classes_after(kind: u32) -> Classes
    requires { kind ≤ 3 }
    ensures { HasClasses (coder_after kind) result }
{
    AFTER_KINDS[kind as usize]
}
