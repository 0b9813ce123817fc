//! `Kind`: which kind of line a random number below 16 gives.

ghost use Rattle.std.specs.Prelude.{◌≡◌};
ghost use Rattle.gen_load.specs.Log.{kind_of};

/// The kinds of lines that are drawn.
#[derive(Clone, Copy)]
pub enum Kind {
    /// The clock goes on.
    Now,
    /// A peer sends an `addr` message.
    Addr,
    /// A connection to a peer succeeds.
    Good,
    /// A connection to a peer is tried.
    Attempt,
    /// A peer is still connected.
    Connected,
    /// A peer to connect to is selected.
    Select,
    /// The occupant of a collision's slot is selected.
    Clash,
    /// All collisions are decided.
    Resolve,
}

/// Returns the kind of line for a number below 16.
pub fn kind_of(number: u64) -> Kind
    ensures { result ≡ kind_of number }
{
    if number < 2 {
        Kind::Now
    } else if number < 9 {
        Kind::Addr
    } else if number < 11 {
        Kind::Good
    } else if number < 12 {
        Kind::Attempt
    } else if number < 13 {
        Kind::Connected
    } else if number < 14 {
        Kind::Select
    } else if number < 15 {
        Kind::Clash
    } else {
        Kind::Resolve
    }
}
