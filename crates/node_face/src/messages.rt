//! `write_message` and `WriteFault`: entries that a form has no room for are left out.

ghost use Rattle.std.specs.Prelude.{◌≡◌, ◌<◌, ◌↔◌, Err, IfOk, length, map, filter, Some};
ghost use Rattle.addr_codecs.specs.Layout.{IsAddrMessage, IsAddrv2Message};
ghost use Rattle.addr_codecs.specs.declared.message.TheConstants.{MAX_ENTRIES};
ghost use Rattle.getaddr.specs.Messages.{is_old, is_known};

use addr_codecs::{Form, MAX_ENTRIES};
use getaddr::{write_new, write_old};
use host_io::Bytes;
use net_addr::Entry;
use std::alloc::Global;

/// Why a message is not written.
#[derive(Clone, Copy, Debug, PartialEq, Eq)]
pub enum WriteFault {
    /// A message has no more entries than `MAX_ENTRIES`.
    TooMany,
    /// Out of memory.
    Memory,
}

/// Writes the message of a form with those of the entries that it has a form for: IPv4 and IPv6 in
/// `addr`, and all but internal names in `addrv2`.
pub fn write_message(alloc: Global, form: Form, entries: &[Entry]) -> Result<Bytes, WriteFault>
    ensures addr { form ≡ Form.Addr → IfOk result (λ bytes.
        IsAddrMessage bytes (map Some (filter is_old entries.now))) }
    ensures addrv2 { form ≡ Form.Addrv2 → IfOk result (λ bytes.
        IsAddrv2Message bytes (map Some (filter is_known entries.now))) }
    ensures too_many { result ≡ Err WriteFault.TooMany ↔ MAX_ENTRIES < length entries.now }
{
    if entries.len() as u64 > MAX_ENTRIES {
        return Err(WriteFault::TooMany);
    }
    match form {
        Form::Addr => match write_old(alloc, entries) {
            Ok(bytes) => Ok(bytes),
            Err(_) => Err(WriteFault::Memory),
        },
        Form::Addrv2 => match write_new(alloc, entries) {
            Ok(bytes) => Ok(bytes),
            Err(_) => Err(WriteFault::Memory),
        },
    }
}
