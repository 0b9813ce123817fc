//! Laws: each list of bytes is one message or has one fault; and the limit as a number.

ghost use Rattle.std.specs.Prelude.{◌≡◌, ℕ, ◌<◌, List, All};
ghost use Rattle.wire_num.specs.Format.{HasOneMeaning};
ghost use Rattle.addr_codecs.specs.Layout.{message, addr_entry, addrv2_entry};
ghost use Rattle.addr_codecs.specs.declared.fault.MsgFault.TheVariants.{Trailing};
ghost use Rattle.addr_codecs.specs.declared.message.TheConstants.{MAX_ENTRIES};

/// Every list of bytes is a message of exactly one list of entries or has exactly one fault, and
/// never both.
pub fn messages_have_one_meaning()
    ensures addr { (bytes : List ℕ) → All (λ b. b < 256) bytes →
        HasOneMeaning (message addr_entry) Trailing bytes }
    ensures addrv2 { (bytes : List ℕ) → All (λ b. b < 256) bytes →
        HasOneMeaning (message addrv2_entry) Trailing bytes }
{}

/// The maximum number of entries of a message.
pub fn limits()
    ensures entries { MAX_ENTRIES ≡ 1000 }
{}
