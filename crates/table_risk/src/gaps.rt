//! `gap`: the number of slots of a bucket from which a round comes to this slot, by the bucket's
//! mask.

ghost use Rattle.std.specs.Prelude.{◌≡◌, ◌≤◌, ◌<◌, ◌*◌};
ghost use Rattle.table_risk.specs.Inside.{in_mask};
ghost use Rattle.slot_grid.specs.declared.sizes.TheConstants.{SLOTS};
ghost use Rattle.table_laws.specs.Rounds.{gap, idle_below};

use slot_grid::SLOTS;

/// Returns how many slots right below this one, going down, are not in the mask.
fn idle_below(mask: u64, slot: u8) -> u8
    requires { slot ≤ SLOTS }
    ensures is { result ≡ idle_below (in_mask mask) slot }
    ensures few { result ≤ slot }
{
    let mut at = slot;
    let mut count = 0;
    while 0 < at {
        at -= 1;
        if mask >> at & 1 == 1 {
            return count;
        }
        count += 1;
    }
    count
}

/// Returns how many slots of a bucket lead to this one: it and those before it, going round, up to
/// the next one that is in the mask.
pub(crate) fn gap(mask: u64, slot: u8) -> u8
    requires { slot < SLOTS }
    ensures is { result ≡ gap (in_mask mask) SLOTS slot }
    ensures few { result ≤ 2 * SLOTS }
{
    let below = idle_below(mask, slot);
    if below == slot {
        1 + below + idle_below(mask, SLOTS)
    } else {
        1 + below
    }
}
