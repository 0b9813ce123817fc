//! Lists of bans: `addrman_bans_open`, `_write`, `_add`, `_remove`, `_covering`, and
//! `addrman_subnet_parse`.

ghost use Rattle.std.specs.Prelude.{◌≡◌, ◌≢◌, Option, None, IfOk, IfErr, IfSome};
ghost use Rattle.ban_list.specs.declared.subnet.Subnet.{Subnet};
ghost use Rattle.ban_list.specs.Subnet.{IsProper};
ghost use Rattle.c_values.specs.Values.{address_in};
ghost use Rattle.addrman_c.specs.Banning.{OnBans, IsListOf, IsListFault, TellsList, ReadCall, PrintCall, IsParsed, BanCall, UnbanCall, CoverCall, SubnetCall, IsBan, ban_fault_number, reply_number};

use ban_list::{Ban, BanFault, BanReply, Bans, Subnet, parse_subnet, read_bans, write_bans};
use c_handles::{BansHandle, KeptBans};
use c_values::code::{ARGUMENT, CLOSED, MEMORY, NONE, OK, REFUSED, SHORT_BUFFER};
use c_values::{AddrmanAddr, AddrmanBan, AddrmanFault, bit, put_all, read_addr, write_addr};
use net_addr::NetAddr;
use std::alloc::Global;

/// Reads a list. No bytes are an empty list.
fn read_list(alloc: Global, json: &[u8]) -> Result<Bans, BanFault>
    ensures found { IfOk result (IsListOf json.now) }
    ensures cause { IfErr result (IsListFault json.now) }
{
    if json.is_empty() {
        return Ok(Bans::make(alloc));
    }
    read_bans(alloc, json)
}

/// Puts a list into a box.
fn boxed(alloc: Global, bans: Bans) -> Option<Box<KeptBans>>
    ensures { IfSome result (λ kept. kept.value.bans ≡ bans) }
{
    match Box::new(alloc, KeptBans { bans }) {
        Ok(kept) => Some(kept),
        Err(_) => None,
    }
}

/// Returns the number of a fault in the header.
fn ban_fault_number(fault: BanFault) -> u32
    ensures { result ≡ ban_fault_number fault }
{
    match fault {
        BanFault::Json => 30,
        BanFault::Form => 31,
        BanFault::TooMany => 3,
        BanFault::TooLarge { .. } => 19,
        BanFault::Memory => 0,
    }
}

/// Writes why a list is not read, and returns the code.
fn tell(why: BanFault, fault: &mut AddrmanFault) -> u32
    ensures call { TellsList why result fault.new }
    ensures fault { result ≢ REFUSED → fault.new ≡ fault.old }
{
    match why {
        BanFault::Memory => MEMORY,
        BanFault::Json | BanFault::Form | BanFault::TooMany | BanFault::TooLarge { .. } => {
            *fault = AddrmanFault {
                kind: ban_fault_number(why),
                at: 0,
            };
            REFUSED
        }
    }
}

/// Opens the list that the bytes of a `banlist.json` have. What the handle had is dropped.
#[unsafe(no_mangle)]
pub extern "C" fn addrman_bans_open(
    alloc: Global,
    handle: &mut BansHandle,
    json: &[u8],
    fault: &mut AddrmanFault,
) -> u32
    ensures call { ReadCall json.now result fault.new handle.new.loose.kept }
    ensures fault { result ≢ REFUSED → fault.new ≡ fault.old }
{
    let _old = handle.take(alloc);
    match read_list(alloc, json) {
        Ok(bans) => match boxed(alloc, bans) {
            Some(kept) => {
                handle.put(kept);
                OK
            }
            None => MEMORY,
        },
        Err(why) => tell(why, fault),
    }
}

/// Drops what the handle has.
#[unsafe(no_mangle)]
pub extern "C" fn addrman_bans_close(alloc: Global, handle: &mut BansHandle)
    ensures { handle.new.loose.kept ≡ None }
{
    handle.close(alloc);
}

/// Writes the file of a list, and how many bytes it has.
fn write_on(alloc: Global, bans: &Bans, out: &mut [u8], length: &mut usize) -> u32
    ensures call { PrintCall bans.now result out.old out.new length.new }
    ensures length { result ≢ OK → result ≢ SHORT_BUFFER → length.new ≡ length.old }
{
    match write_bans(alloc, bans) {
        Ok(bytes) => put_all(out, bytes.items(), length),
        Err(_) => MEMORY,
    }
}

/// Writes the bytes of the `banlist.json` that keeps the list, and how many they are.
#[unsafe(no_mangle)]
pub extern "C" fn addrman_bans_write(
    alloc: Global,
    handle: &mut BansHandle,
    out: &mut [u8],
    length: &mut usize,
) -> u32
    ensures call { OnBans handle.old.loose.kept result handle.new.loose.kept (λ old new.
        PrintCall old result out.old out.new length.new × (new ≡ old)) }
    ensures same { result ≢ OK → out.new ≡ out.old }
    ensures length { result ≢ OK → result ≢ SHORT_BUFFER → length.new ≡ length.old }
{
    let Some(kept) = handle.take(alloc) else {
        return CLOSED;
    };
    let code = write_on(alloc, &kept.bans, out, length);
    handle.put(kept);
    code
}

/// Parses the text of a subnet.
fn parsed(text: &[u8]) -> Option<Subnet>
    ensures found { IsParsed text.now result }
    ensures proper { IfSome result IsProper }
{
    parse_subnet(text)
}

/// Writes a subnet as C sees it.
fn put_subnet(subnet: Option<Subnet>, base: &mut AddrmanAddr, prefix: &mut u32) -> u32
    ensures call { SubnetCall subnet result base.new prefix.new }
    ensures same { result ≢ OK → (base.new ≡ base.old) × (prefix.new ≡ prefix.old) }
{
    let Some(subnet) = subnet else {
        return ARGUMENT;
    };
    *base = write_addr(&subnet.addr);
    *prefix = u32::from(subnet.len);
    OK
}

/// Parses the text of a subnet: its address, and how many bits of it count.
#[unsafe(no_mangle)]
pub extern "C" fn addrman_subnet_parse(text: &[u8], base: &mut AddrmanAddr, prefix: &mut u32) -> u32
    ensures call { (s : Option Subnet) × IsParsed text.now s
        × SubnetCall s result base.new prefix.new }
    ensures same { result ≢ OK → (base.new ≡ base.old) × (prefix.new ≡ prefix.old) }
{
    put_subnet(parsed(text), base, prefix)
}

/// Returns the number of a reply in the header.
fn reply_number(reply: BanReply) -> u32
    ensures { result ≡ reply_number reply }
{
    match reply {
        BanReply::Added => 0,
        BanReply::Kept => 1,
        BanReply::Full => 2,
    }
}

/// Bans a subnet.
fn ban_on(bans: &mut Bans, subnet: Option<Subnet>, now: u32, until: u32, reply: &mut u32) -> u32
    requires { IfSome subnet IsProper }
    ensures call { BanCall subnet now until bans.old result reply.new bans.new }
    ensures same { result ≢ OK → reply.new ≡ reply.old }
{
    let Some(subnet) = subnet else {
        return ARGUMENT;
    };
    match bans.ban(subnet, now, until) {
        Ok(answer) => {
            *reply = reply_number(answer);
            OK
        }
        Err(_) => MEMORY,
    }
}

/// Drops the bans that are over, and bans the subnet of a text from `now` until a time.
#[unsafe(no_mangle)]
pub extern "C" fn addrman_bans_add(
    alloc: Global,
    handle: &mut BansHandle,
    subnet: &[u8],
    now: u32,
    until: u32,
    reply: &mut u32,
) -> u32
    ensures call { OnBans handle.old.loose.kept result handle.new.loose.kept (λ old new.
        (s : Option Subnet) × IsParsed subnet.now s
        × BanCall s now until old result reply.new new) }
    ensures same { result ≢ OK → reply.new ≡ reply.old }
{
    let Some(mut kept) = handle.take(alloc) else {
        return CLOSED;
    };
    let code = ban_on(&mut kept.bans, parsed(subnet), now, until, reply);
    handle.put(kept);
    code
}

/// Unbans a subnet.
fn unban_on(bans: &mut Bans, subnet: Option<Subnet>, known: &mut u32) -> u32
    ensures call { UnbanCall subnet bans.old result known.new bans.new }
    ensures same { result ≢ OK → known.new ≡ known.old }
{
    let Some(subnet) = subnet else {
        return ARGUMENT;
    };
    *known = bit(bans.unban(&subnet));
    OK
}

/// Takes the ban of the subnet of a text out of the list.
#[unsafe(no_mangle)]
pub extern "C" fn addrman_bans_remove(
    alloc: Global,
    handle: &mut BansHandle,
    subnet: &[u8],
    known: &mut u32,
) -> u32
    ensures call { OnBans handle.old.loose.kept result handle.new.loose.kept (λ old new.
        (s : Option Subnet) × IsParsed subnet.now s × UnbanCall s old result known.new new) }
    ensures same { result ≢ OK → known.new ≡ known.old }
{
    let Some(mut kept) = handle.take(alloc) else {
        return CLOSED;
    };
    let code = unban_on(&mut kept.bans, parsed(subnet), known);
    handle.put(kept);
    code
}

/// Writes a ban as C sees it.
fn write_ban(ban: &Ban) -> AddrmanBan
    ensures { IsBan result ban.now }
{
    AddrmanBan {
        base: write_addr(&ban.subnet.addr),
        prefix: u32::from(ban.subnet.len),
        created: ban.created,
        until: ban.until,
    }
}

/// Finds the ban of an address.
fn covering_on(bans: &Bans, addr: Option<NetAddr>, now: u32, out: &mut AddrmanBan) -> u32
    ensures call { CoverCall addr now bans.now result out.new }
    ensures same { result ≢ OK → out.new ≡ out.old }
{
    let Some(addr) = addr else {
        return ARGUMENT;
    };
    match bans.covering(&addr, now) {
        Some(ban) => {
            *out = write_ban(ban);
            OK
        }
        None => NONE,
    }
}

/// Writes the first ban that covers an address and is not over.
#[unsafe(no_mangle)]
pub extern "C" fn addrman_bans_covering(
    alloc: Global,
    handle: &mut BansHandle,
    addr: &AddrmanAddr,
    now: u32,
    out: &mut AddrmanBan,
) -> u32
    ensures call { OnBans handle.old.loose.kept result handle.new.loose.kept (λ old new.
        CoverCall (address_in addr.now) now old result out.new × (new ≡ old)) }
    ensures same { result ≢ OK → out.new ≡ out.old }
{
    let Some(kept) = handle.take(alloc) else {
        return CLOSED;
    };
    let code = covering_on(&kept.bans, read_addr(addr), now, out);
    handle.put(kept);
    code
}
