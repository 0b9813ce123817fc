//! The arithmetic of tokens, in tenths: refill with time, spend, and a thousand tokens for a
//! getaddr.

ghost use Rattle.std.specs.Prelude.{◌≡◌, ◌≤◌, Some};
ghost use Rattle.limiter.specs.Tokens.{refill, intake_count, admit_conn, after_getaddr};
ghost use Rattle.limiter.specs.Calls.{asked_of};
ghost use Rattle.limiter.specs.Inside.{IsConn, IsKept};

use crate::{Asked, Conn};

/// What an entry costs, in tenths of a token.
pub(crate) const TOKEN: u32 = 10;

/// The tokens that time gives, and getaddr once, in tenths: a thousand tokens.
const THOUSAND: u32 = 10_000;

/// Gives the connection a thousand tokens, unless it has got them before.
pub(crate) fn ask(conn: &mut Conn) -> Asked
    requires { IsConn conn.old }
    ensures answer { result ≡ asked_of (Some conn.old) }
    ensures change { conn.new ≡ after_getaddr conn.old }
    ensures kept { IsKept conn.old conn.new }
{
    if conn.asked {
        return Asked::Already;
    }
    *conn = Conn {
        tenths: conn.tenths + THOUSAND,
        asked: true,
        ..*conn
    };
    Asked::Granted
}

/// Adds the tokens of the time up to `clock`, in seconds since 1970, and spends one for each of
/// this many entries while there is one. Returns how many entries are admitted.
pub(crate) fn spend(clock: u32, conn: &mut Conn, count: u32) -> u32
    requires { IsConn conn.old }
    ensures answer { result ≡ intake_count (refill clock conn.old) count }
    ensures change { conn.new ≡ admit_conn (refill clock conn.old) count }
    ensures kept { IsKept conn.old conn.new }
{
    let filled = refilled(conn, clock);
    *conn = after(&filled, count);
    intake_count(&filled, count)
}

/// Returns how many of this many entries are admitted from the connection at the time `clock`, in
/// seconds since 1970.
pub fn admitted(conn: &Conn, count: u32, clock: u32) -> u32
    ensures count { result ≡ intake_count (refill clock conn.now) count }
    ensures few { result ≤ count }
{
    intake_count(&refilled(conn, clock), count)
}

/// Returns the connection with the tokens of the time up to `clock`, in seconds since 1970.
fn refilled(conn: &Conn, clock: u32) -> Conn
    ensures value { result ≡ refill clock conn.now }
    ensures conn { IsConn conn.now → IsConn result }
{
    let tenths = if conn.tenths < THOUSAND {
        let more = conn
            .tenths
            .saturating_add(clock.saturating_sub(conn.moment));
        more.min(THOUSAND)
    } else {
        conn.tenths
    };
    Conn {
        tenths,
        moment: clock,
        ..*conn
    }
}

/// Returns how many of this many entries are admitted.
fn intake_count(conn: &Conn, count: u32) -> u32
    ensures count { result ≡ intake_count conn.now count }
    ensures few { result ≤ count }
{
    if conn.unlimited {
        count
    } else {
        count.min(conn.tenths / TOKEN)
    }
}

/// Returns the connection after this many entries.
fn after(conn: &Conn, count: u32) -> Conn
    requires { IsConn conn.now }
    ensures value { result ≡ admit_conn conn.now count }
    ensures conn { IsConn result }
{
    let taken = intake_count(conn, count);
    Conn {
        tenths: conn.tenths - TOKEN * count.min(conn.tenths / TOKEN),
        processed: conn.processed.saturating_add(taken),
        limited: conn.limited.saturating_add(count - taken),
        ..*conn
    }
}
