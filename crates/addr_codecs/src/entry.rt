//! Reads one entry in either form: time, services, address and port.

ghost use Rattle.wire_num.specs.Readings.{Gives};
ghost use Rattle.addr_codecs.specs.Inside.{addr_entry_at, addrv2_entry_at};

use crate::address::take_address;
use crate::fault::MsgFault;
use net_addr::{Entry, NetAddr, Peer};
use wire_num::{take_be16, take_compact, take_le32, take_le64};

/// Takes an entry of `addr`, which is never skipped: the time and the services, low byte first, an
/// address in the old form, and the port, high byte first (`CAddress` in protocol.h of Bitcoin
/// Core).
#[tactic(auto, unfolding(crate::specs::Inside::addr_entry_at))]
pub(crate) fn take_addr_entry(bytes: &[u8]) -> Result<(Option<Entry>, &[u8]), MsgFault>
    ensures { Gives (λ x. (x.0, x.1.now)) result (addr_entry_at bytes.now) }
{
    let (time, rest) = take_le32(bytes)?;
    let (services, rest) = take_le64(rest)?;
    let Some((old, rest)) = rest.split_first_chunk::<16>() else {
        return Err(MsgFault::Truncated);
    };
    let (port, rest) = take_be16(rest)?;
    let addr = NetAddr::from_v1(old);
    let entry = Entry {
        time,
        services,
        peer: Peer { addr, port },
    };
    Ok((Some(entry), rest))
}

/// Takes an entry of `addrv2`, `None` if it is skipped: the time, low byte first, the services as
/// a CompactSize, the address with its network, and the port, high byte first (BIP 155).
#[tactic(auto, unfolding(crate::specs::Inside::addrv2_entry_at))]
pub(crate) fn take_addrv2_entry(bytes: &[u8]) -> Result<(Option<Entry>, &[u8]), MsgFault>
    ensures { Gives (λ x. (x.0, x.1.now)) result (addrv2_entry_at bytes.now) }
{
    let (time, rest) = take_le32(bytes)?;
    let (services, rest) = take_compact(rest)?;
    let (addr, rest) = match take_address(rest) {
        Ok(found) => found,
        Err(fault) => return Err(MsgFault::from(fault)),
    };
    let (port, rest) = take_be16(rest)?;
    let entry = addr.map(|addr| Entry {
        time,
        services,
        peer: Peer { addr, port },
    });
    Ok((entry, rest))
}
