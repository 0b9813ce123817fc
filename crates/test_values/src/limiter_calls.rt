//! Calls of `Limiter`: `open`, `close`, `getaddr`, `admit`, `repeat` and `find`.

ghost use Rattle.std.specs.Prelude.{◌≤◌};

use crate::fields::RowFields;
use crate::index_calls::Hasher;
use crate::text::{bool_text, number_text, owned};
use crate::unread::Unread;
use limiter::{Conn, Limiter, Memory};
use std::alloc::Global;

/// Makes a call of `Limiter`: `open N ADDR MODE NOW`, `close N`, `getaddr N`, `admit N COUNT NOW`,
/// `repeat TIMES N COUNT NOW`, which is as many calls of `admit` and answers with their sum, and
/// `conn N`.
pub(crate) fn limiter_call(
    alloc: Global,
    limiter: &mut Limiter<Hasher>,
    name: &str,
    arguments: &str,
) -> Result<String, Unread> {
    let mut fields = RowFields::of(arguments);
    match name {
        "open" => add(alloc, limiter, &mut fields),
        "close" => bool_text(alloc, limiter.close_conn(fields.small()?)),
        "getaddr" => getaddr(alloc, limiter, fields.small()?),
        "admit" => admit(alloc, limiter, 1, &mut fields),
        "repeat" => {
            let times = fields.small()?;
            admit(alloc, limiter, times, &mut fields)
        }
        "conn" => find_text(alloc, limiter.find(fields.small()?)),
        _ => Err(Unread::Form),
    }
}

/// Notes that getaddr was sent.
fn getaddr(alloc: Global, limiter: &mut Limiter<Hasher>, number: u32) -> Result<String, Unread> {
    let asked = limiter.getaddr(number);
    Ok(format!(in alloc; "{asked:?}")?)
}

/// Opens a connection.
fn add(
    alloc: Global,
    limiter: &mut Limiter<Hasher>,
    fields: &mut RowFields<'_>,
) -> Result<String, Unread> {
    let number = fields.small()?;
    let addr = fields.addr()?;
    let unlimited = fields.word() == "unlimited";
    match limiter.add_conn(number, addr, unlimited, fields.small()?) {
        Ok(added) => bool_text(alloc, added),
        Err(Memory) => Err(Unread::Memory),
    }
}

/// Takes as many messages of the same number of entries at one time.
fn admit(
    alloc: Global,
    limiter: &mut Limiter<Hasher>,
    times: u32,
    fields: &mut RowFields<'_>,
) -> Result<String, Unread> {
    let number = fields.small()?;
    let count = fields.small()?;
    let now = fields.small()?;
    if count > 1000 {
        return Err(Unread::Unmet);
    }
    number_text(alloc, admit_times(limiter, times, number, count, now))
}

/// Returns how many entries of all these messages are admitted.
fn admit_times(
    limiter: &mut Limiter<Hasher>,
    times: u32,
    number: u32,
    count: u32,
    now: u32,
) -> Option<u64>
    requires { count ≤ 1000 }
{
    let mut sum = 0u64;
    for _ in 0..times {
        let admitted = limiter.admit(number, count, now)?;
        sum = sum.saturating_add(u64::from(admitted));
    }
    Some(sum)
}

/// Returns what a connection has: tenths, moment, whether getaddr was sent, and its counts.
fn find_text(alloc: Global, found: Option<&Conn>) -> Result<String, Unread> {
    match found {
        Some(conn) => Ok(format!(in alloc;
            "{} tenths at {}, asked {}, processed {}, limited {}",
            conn.tenths, conn.moment, conn.asked, conn.processed, conn.limited
        )?),
        None => owned(alloc, "none"),
    }
}
