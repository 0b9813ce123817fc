//! `fate_against` decides a collision: erased, moved or kept, by `REPLACEMENT`, `TEST_TIME` and
//! `TEST_WINDOW`.

ghost use Rattle.std.specs.Prelude.{◌≡◌, ◌+◌, ◌<◌};
ghost use Rattle.table_machine.specs.Clashes.{fate_against, one_more};

use peer_rec::{Fate, Rec, Resolved};

/// Seconds for which a success or a try of the occupant counts (`ADDRMAN_REPLACEMENT` in
/// addrman.cpp of Bitcoin Core).
const REPLACEMENT: u64 = 14_400;
/// Seconds for which an occupant keeps its slot after a try, so that the try can succeed.
const TEST_TIME: u64 = 60;
/// Seconds after the newcomer's success until an occupant that was not tried loses its slot
/// (`ADDRMAN_TEST_WINDOW`).
const TEST_WINDOW: u64 = 2_400;

/// Returns the fate of a newcomer whose slot has an occupant, at a time in seconds since 1970
/// (`AddrManImpl::ResolveCollisions_` in addrman.cpp of Bitcoin Core).
pub(crate) fn fate_against(newcomer: &Rec, occupant: &Rec, now: u32) -> Fate
    ensures { result ≡ fate_against newcomer.now occupant.now now }
{
    let now = u64::from(now);
    let last_try = u64::from(occupant.last_try);
    if now < u64::from(occupant.last_success) + REPLACEMENT {
        Fate::Erased
    } else if now < last_try + REPLACEMENT {
        if last_try + TEST_TIME < now {
            Fate::Moved
        } else {
            Fate::Kept
        }
    } else if u64::from(newcomer.last_success) + TEST_WINDOW < now {
        Fate::Moved
    } else {
        Fate::Kept
    }
}

/// Counts one more collision of a fate.
pub(crate) fn one_more(fate: Fate, resolved: Resolved) -> Resolved
    requires few { resolved.erased + resolved.moved + resolved.kept < 10 }
    ensures { result ≡ one_more fate resolved }
{
    match fate {
        Fate::Erased => Resolved {
            erased: 1 + resolved.erased,
            ..resolved
        },
        Fate::Kept => Resolved {
            kept: 1 + resolved.kept,
            ..resolved
        },
        Fate::Moved => Resolved {
            moved: 1 + resolved.moved,
            ..resolved
        },
    }
}
