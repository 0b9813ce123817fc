//! The limit on received addresses: `addrman_limiter_open`, `_add`, `_getaddr`, `_admit` and
//! `_stat`.

ghost use Rattle.std.specs.Prelude.{◌≡◌, ◌≢◌, None, is_some};
ghost use Rattle.limiter.specs.State.{find_conn, without_conn};
ghost use Rattle.limiter.specs.Calls.{asked_of, after_asking};
ghost use Rattle.c_values.specs.Values.{address_in, bit};
ghost use Rattle.addrman_c.specs.Limits.{OnLimiter, StartCall, ConnectCall, AdmitCall, StatCall, IsLimits, asked_number};

use addr_codecs::MAX_ENTRIES;
use c_handles::{KeptLimiter, Keyed, LimiterHandle};
use c_values::code::{ARGUMENT, CLOSED, MEMORY, NONE, OK};
use c_values::{AddrmanAddr, AddrmanLimits, bit, read_addr};
use limiter::{Asked, Conn, Limiter};
use net_addr::NetAddr;
use std::alloc::Global;

/// Opens a limit without connections. What the handle had is dropped.
#[unsafe(no_mangle)]
pub extern "C" fn addrman_limiter_open(alloc: Global, handle: &mut LimiterHandle) -> u32
    ensures { StartCall result handle.new.loose.kept }
{
    let _old = handle.take(alloc);
    let kept = KeptLimiter {
        // Numbers are the node's own, so the keys need not be secret.
        limiter: Limiter::make(alloc, Keyed::of(&[0, 0])),
    };
    match Box::new(alloc, kept) {
        Ok(kept) => {
            handle.put(kept);
            OK
        }
        Err(_) => MEMORY,
    }
}

/// Drops what the handle has.
#[unsafe(no_mangle)]
pub extern "C" fn addrman_limiter_close(alloc: Global, handle: &mut LimiterHandle)
    ensures { handle.new.loose.kept ≡ None }
{
    handle.close(alloc);
}

/// Opens a connection.
fn connect_on(
    limiter: &mut Limiter<Keyed>,
    number: u32,
    addr: Option<NetAddr>,
    unlimited: bool,
    now: u32,
    is_new: &mut u32,
) -> u32
    ensures call { ConnectCall addr number unlimited now limiter.old result is_new.new limiter.new }
    ensures same { result ≢ OK → is_new.new ≡ is_new.old }
{
    let Some(addr) = addr else {
        return ARGUMENT;
    };
    match limiter.add_conn(number, addr, unlimited, now) {
        Ok(answer) => {
            *is_new = bit(answer);
            OK
        }
        Err(_) => MEMORY,
    }
}

/// Opens a connection to an address, with one token, unless its number has one.
#[unsafe(no_mangle)]
pub extern "C" fn addrman_limiter_add(
    alloc: Global,
    handle: &mut LimiterHandle,
    number: u32,
    addr: &AddrmanAddr,
    unlimited: bool,
    now: u32,
    is_new: &mut u32,
) -> u32
    ensures call { OnLimiter handle.old.loose.kept result handle.new.loose.kept
        (λ old new. ConnectCall (address_in addr.now) number unlimited now old result is_new.new
        new) }
    ensures same { result ≢ OK → is_new.new ≡ is_new.old }
{
    let Some(mut kept) = handle.take(alloc) else {
        return CLOSED;
    };
    let addr = read_addr(addr);
    let code = connect_on(&mut kept.limiter, number, addr, unlimited, now, is_new);
    handle.put(kept);
    code
}

/// Closes the connection of a number.
#[unsafe(no_mangle)]
pub extern "C" fn addrman_limiter_remove(
    alloc: Global,
    handle: &mut LimiterHandle,
    number: u32,
    known: &mut u32,
) -> u32
    ensures call { OnLimiter handle.old.loose.kept result handle.new.loose.kept (λ old new.
        (result ≡ OK) × (known.new ≡ bit (is_some (find_conn number old)))
        × (new ≡ without_conn number old)) }
    ensures same { result ≢ OK → known.new ≡ known.old }
{
    let Some(mut kept) = handle.take(alloc) else {
        return CLOSED;
    };
    *known = bit(kept.limiter.close_conn(number));
    handle.put(kept);
    OK
}

/// Returns the number of an answer in the header.
fn asked_number(asked: Asked) -> u32
    ensures { result ≡ asked_number asked }
{
    match asked {
        Asked::Unknown => 0,
        Asked::Already => 1,
        Asked::Granted => 2,
    }
}

/// Gives the connection of a number a thousand tokens, since getaddr was sent to it.
#[unsafe(no_mangle)]
pub extern "C" fn addrman_limiter_getaddr(
    alloc: Global,
    handle: &mut LimiterHandle,
    number: u32,
    answer: &mut u32,
) -> u32
    ensures call { OnLimiter handle.old.loose.kept result handle.new.loose.kept (λ old new.
        (result ≡ OK) × (answer.new ≡ asked_number (asked_of (find_conn number old)))
        × (new ≡ after_asking (find_conn number old) old)) }
    ensures same { result ≢ OK → answer.new ≡ answer.old }
{
    let Some(mut kept) = handle.take(alloc) else {
        return CLOSED;
    };
    *answer = asked_number(kept.limiter.getaddr(number));
    handle.put(kept);
    OK
}

/// Takes a message of this many entries.
fn admit_on(
    limiter: &mut Limiter<Keyed>,
    number: u32,
    count: u32,
    now: u32,
    admitted: &mut u32,
) -> u32
    ensures call { AdmitCall count now (find_conn number limiter.old) limiter.old result
        admitted.new limiter.new }
    ensures same { result ≢ OK → admitted.new ≡ admitted.old }
{
    if u64::from(count) > MAX_ENTRIES {
        return ARGUMENT;
    }
    match limiter.admit(number, count, now) {
        Some(answer) => {
            *admitted = answer;
            OK
        }
        None => NONE,
    }
}

/// Takes a message of this many entries from the connection of a number, and writes how many of
/// them are admitted: the first ones.
#[unsafe(no_mangle)]
pub extern "C" fn addrman_limiter_admit(
    alloc: Global,
    handle: &mut LimiterHandle,
    number: u32,
    count: u32,
    now: u32,
    admitted: &mut u32,
) -> u32
    ensures call { OnLimiter handle.old.loose.kept result handle.new.loose.kept (λ old new.
        AdmitCall count now (find_conn number old) old result admitted.new new) }
    ensures same { result ≢ OK → admitted.new ≡ admitted.old }
{
    let Some(mut kept) = handle.take(alloc) else {
        return CLOSED;
    };
    let code = admit_on(&mut kept.limiter, number, count, now, admitted);
    handle.put(kept);
    code
}

/// Returns a connection as C sees it.
fn limits_of(conn: &Conn) -> AddrmanLimits
    ensures { IsLimits result conn.now }
{
    AddrmanLimits {
        tenths: conn.tenths,
        moment: conn.moment,
        processed: conn.processed,
        limited: conn.limited,
        asked: bit(conn.asked),
        unlimited: bit(conn.unlimited),
    }
}

/// Writes what is known of the connection of a number.
fn stat_on(limiter: &Limiter<Keyed>, number: u32, out: &mut AddrmanLimits) -> u32
    ensures call { StatCall (find_conn number limiter.now) result out.new }
    ensures same { result ≢ OK → out.new ≡ out.old }
{
    match limiter.find(number) {
        Some(conn) => {
            *out = limits_of(conn);
            OK
        }
        None => NONE,
    }
}

/// Writes what is known of the connection of a number.
#[unsafe(no_mangle)]
pub extern "C" fn addrman_limiter_stat(
    alloc: Global,
    handle: &mut LimiterHandle,
    number: u32,
    out: &mut AddrmanLimits,
) -> u32
    ensures call { OnLimiter handle.old.loose.kept result handle.new.loose.kept (λ old new.
        StatCall (find_conn number old) result out.new × (new ≡ old)) }
    ensures same { result ≢ OK → out.new ≡ out.old }
{
    let Some(kept) = handle.take(alloc) else {
        return CLOSED;
    };
    let code = stat_on(&kept.limiter, number, out);
    handle.put(kept);
    code
}
