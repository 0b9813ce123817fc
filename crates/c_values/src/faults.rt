//! The number of a message's fault.

ghost use Rattle.std.specs.Prelude.{◌≡◌};
ghost use Rattle.c_values.specs.Faults.{fault_number};

use addr_codecs::MsgFault;

/// Returns the number of a message's fault in the header.
pub fn fault_number(fault: MsgFault) -> u32
    ensures { result ≡ fault_number fault }
{
    match fault {
        MsgFault::Truncated => 1,
        MsgFault::NonCanonical => 2,
        MsgFault::TooMany => 3,
        MsgFault::BadLength => 4,
        MsgFault::TooLong => 5,
        MsgFault::Trailing => 6,
        MsgFault::Memory => 0,
    }
}
