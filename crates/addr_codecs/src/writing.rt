//! Writes messages, entries and addresses as bytes: `write_addr`, `write_addrv2` and `put_address`.

ghost use Rattle.std.specs.Prelude.{◌≡◌, ◌≢◌, ◌⊎◌, ◌≤◌, ◌++◌, [], length, map, All, IfOk, OnOk, OnErr, Some, unwrap_or, take, vec_len};
ghost use Rattle.net_addr.specs.Address.{IsAddress};
ghost use Rattle.net_addr.specs.OldForm.{v1_bytes};
ghost use Rattle.net_addr.specs.declared.net.Net.TheVariants.{Ipv4, Ipv6, Internal};
ghost use Rattle.addr_codecs.specs.Entries.{IsEntry};
ghost use Rattle.addr_codecs.specs.Inside.{CanWrite, text_in};
ghost use Rattle.addr_codecs.specs.Layout.{IsAddrMessage, IsAddrv2Message};
ghost use Rattle.addr_codecs.specs.Texts.{addr_entry_text, addrv2_entry_text, address_text, prefix_of, id_of, message_text};
ghost use Rattle.addr_codecs.specs.declared.message.TheConstants.{MAX_ENTRIES};

use crate::Memory;
use crate::form::Form;
use host_io::Bytes;
use net_addr::{Entry, INTERNAL_PREFIX, MAPPED_PREFIX, Net, NetAddr};
use std::alloc::Global;
use wire_num::put_compact;

/// Room for an entry of a message, in bytes: most have at most 30, and the number of entries has
/// one to three.
const ENTRY_ROOM: usize = 32;

/// Appends an IPv4 or IPv6 address in the old form.
fn put_old_form(out: &mut Vec<u8>, addr: &NetAddr) -> Result<(), Memory>
    requires { (addr.now.net ≡ Ipv4) ⊎ (addr.now.net ≡ Ipv6) }
    ensures found { OnOk result (out.new.items ≡
        out.old.items ++ unwrap_or (v1_bytes addr.now) []) }
    ensures address { OnOk result (IsAddress addr.now) }
{
    if addr.net() == Net::Ipv4 {
        out.extend_from_slice(&MAPPED_PREFIX)?;
    }
    out.extend_from_slice(addr.bytes())?;
    Ok(())
}

/// Appends an entry of `addr`.
#[tactic(auto, unfolding(crate::specs::Texts::addr_entry_text))]
pub(crate) fn put_addr_entry(out: &mut Vec<u8>, entry: &Entry) -> Result<(), Memory>
    requires { (entry.now.peer.addr.net ≡ Ipv4) ⊎ (entry.now.peer.addr.net ≡ Ipv6) }
    ensures found { OnOk result (out.new.items ≡ out.old.items ++ addr_entry_text entry.now) }
    ensures entry { OnOk result (IsEntry entry.now) }
{
    out.extend_from_slice(&entry.time.to_le_bytes())?;
    out.extend_from_slice(&entry.services.to_le_bytes())?;
    put_old_form(out, &entry.peer.addr)?;
    out.extend_from_slice(&entry.peer.port.to_be_bytes())?;
    Ok(())
}

/// Returns the number of a network in BIP 155. An internal name has none, and is written as IPv6.
fn id(net: Net) -> u8
    ensures { result ≡ id_of net }
{
    match net {
        Net::Unroutable => 0,
        Net::Ipv4 => 1,
        Net::Ipv6 | Net::Internal => 2,
        Net::Onion => 4,
        Net::I2p => 5,
        Net::Cjdns => 6,
    }
}

/// Returns what is written before the bytes of an address: an internal name is written in the old
/// form.
fn prefix(net: Net) -> &'static [u8]
    ensures { result.now ≡ prefix_of net }
{
    match net {
        Net::Internal => &INTERNAL_PREFIX,
        _ => &[],
    }
}

/// Appends an address as `put_address` does. After `Memory` a part of it may be in the list.
#[tactic(auto, unfolding(crate::specs::Texts::address_text))]
fn append_address(addr: &NetAddr, out: &mut Vec<u8>) -> Result<(), Memory>
    ensures found { OnOk result (out.new.items ≡ out.old.items ++ address_text addr.now) }
    ensures address { OnOk result (IsAddress addr.now) }
    ensures kept { take (vec_len out.old) out.new.items ≡ out.old.items }
{
    let bytes = addr.bytes();
    // Only an IPv4 address has four bytes.
    if let [a, b, c, d] = bytes {
        out.extend_from_slice(&[id(Net::Ipv4), 4, *a, *b, *c, *d])?;
        return Ok(());
    }
    let prefix = prefix(addr.net());
    // A length below 253 is its own CompactSize.
    out.extend_from_slice(&[id(addr.net()), (prefix.len() + bytes.len()) as u8])?;
    out.extend_from_slice(prefix)?;
    out.extend_from_slice(bytes)?;
    Ok(())
}

/// Appends an address as `addrv2` has it: the number of its network, its length as a CompactSize,
/// and its bytes (`CNetAddr::SerializeV2Stream` in netaddress.h of Bitcoin Core).
pub fn put_address(addr: &NetAddr, out: &mut Vec<u8>) -> Result<(), Memory>
    ensures found { OnOk result (out.new.items ≡ out.old.items ++ address_text addr.now) }
    ensures address { OnOk result (IsAddress addr.now) }
    ensures err { OnErr result (out.new.items ≡ out.old.items) }
{
    let length = out.len();
    match append_address(addr, out) {
        Ok(()) => Ok(()),
        Err(fault) => {
            out.truncate(length);
            Err(fault)
        }
    }
}

/// Appends an entry of `addrv2`.
#[tactic(auto, unfolding(crate::specs::Texts::addrv2_entry_text))]
pub(crate) fn put_addrv2_entry(out: &mut Vec<u8>, entry: &Entry) -> Result<(), Memory>
    ensures found { OnOk result (out.new.items ≡ out.old.items ++ addrv2_entry_text entry.now) }
    ensures entry { OnOk result (IsEntry entry.now) }
{
    out.extend_from_slice(&entry.time.to_le_bytes())?;
    put_compact(entry.services, out)?;
    put_address(&entry.peer.addr, out)?;
    out.extend_from_slice(&entry.peer.port.to_be_bytes())?;
    Ok(())
}

/// Writes a message of this form: the number of entries, and the entries one after another.
fn write_message(alloc: Global, form: Form, entries: &[Entry]) -> Result<Bytes, Memory>
    requires { All (CanWrite form) entries.now }
    ensures found { IfOk result (λ bytes. bytes ≡ message_text (text_in form) entries.now) }
    ensures entries { OnOk result (All IsEntry entries.now) }
{
    let mut out = Vec::with_capacity(alloc, entries.len().saturating_mul(ENTRY_ROOM))?;
    put_compact(entries.len() as u64, &mut out)?;
    for entry in entries {
        form.put_entry(&mut out, entry)?;
    }
    Ok(Bytes::of(out))
}

/// Writes an `addr` message of the entries, which reads as these entries.
pub fn write_addr(alloc: Global, entries: &[Entry]) -> Result<Bytes, Memory>
    requires count { length entries.now ≤ MAX_ENTRIES }
    requires networks { All (λ e. (e.peer.addr.net ≡ Ipv4) ⊎ (e.peer.addr.net ≡ Ipv6)) entries.now }
    ensures found { IfOk result (λ bytes. bytes ≡ message_text addr_entry_text entries.now) }
    ensures read_back { IfOk result (λ bytes. IsAddrMessage bytes (map Some entries.now)) }
{
    write_message(alloc, Form::Addr, entries)
}

/// Writes an `addrv2` message (BIP 155) of the entries, which reads as these entries.
pub fn write_addrv2(alloc: Global, entries: &[Entry]) -> Result<Bytes, Memory>
    requires count { length entries.now ≤ MAX_ENTRIES }
    requires networks { All (λ e. e.peer.addr.net ≢ Internal) entries.now }
    ensures found { IfOk result (λ bytes. bytes ≡ message_text addrv2_entry_text entries.now) }
    ensures read_back { IfOk result (λ bytes. IsAddrv2Message bytes (map Some entries.now)) }
{
    write_message(alloc, Form::Addrv2, entries)
}
