//! The law of the codes' numbers.

ghost use Rattle.std.specs.Prelude.{◌≡◌};
ghost use Rattle.c_values.specs.declared.code.TheConstants as codes;

/// The numbers of the codes, as the header has them.
pub fn codes_are_numbers()
    ensures ok { codes.OK ≡ 0 }
    ensures closed { codes.CLOSED ≡ 1 }
    ensures memory { codes.MEMORY ≡ 2 }
    ensures argument { codes.ARGUMENT ≡ 3 }
    ensures full { codes.FULL ≡ 4 }
    ensures short_words { codes.SHORT_WORDS ≡ 5 }
    ensures short_buffer { codes.SHORT_BUFFER ≡ 6 }
    ensures refused { codes.REFUSED ≡ 7 }
    ensures none { codes.NONE ≡ 8 }
    ensures exhausted { codes.EXHAUSTED ≡ 9 }
{}
