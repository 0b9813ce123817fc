//! `Form`, which is `addr` or `addrv2`, and how each reads and writes an entry.

ghost use Rattle.std.specs.Prelude.{◌≡◌, ◌++◌, OnOk};
ghost use Rattle.wire_num.specs.Readings.{Gives};
ghost use Rattle.addr_codecs.specs.Entries.{IsEntry};
ghost use Rattle.addr_codecs.specs.Inside.{CanWrite, entry_at, text_in};

use crate::Memory;
use crate::entry::{take_addr_entry, take_addrv2_entry};
use crate::fault::MsgFault;
use crate::writing::{put_addr_entry, put_addrv2_entry};
use net_addr::Entry;

/// The two messages that announce addresses.
#[derive(Clone, Copy, Debug, PartialEq, Eq)]
pub enum Form {
    /// `addr`, with addresses of sixteen bytes.
    Addr,
    /// `addrv2`, with addresses of every network (BIP 155).
    Addrv2,
}

impl Form {
    /// Appends an entry.
    pub(crate) fn put_entry(self, out: &mut Vec<u8>, entry: &Entry) -> Result<(), Memory>
        requires { CanWrite self entry.now }
        ensures found { OnOk result (out.new.items ≡ out.old.items ++ text_in self entry.now) }
        ensures entry { OnOk result (IsEntry entry.now) }
    {
        match self {
            Form::Addr => put_addr_entry(out, entry),
            Form::Addrv2 => put_addrv2_entry(out, entry),
        }
    }

    /// Takes an entry, `None` if it is skipped.
    pub(crate) fn take_entry(self, bytes: &[u8]) -> Result<(Option<Entry>, &[u8]), MsgFault>
        ensures { Gives (λ x. (x.0, x.1.now)) result (entry_at self bytes.now) }
    {
        match self {
            Form::Addr => take_addr_entry(bytes),
            Form::Addrv2 => take_addrv2_entry(bytes),
        }
    }
}
