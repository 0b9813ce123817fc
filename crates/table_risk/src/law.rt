//! The law that the rows are bounds.

ghost use Rattle.std.specs.Prelude.{◌≡◌, ℕ, ◌*◌, ◌^◌, ◌≤◌, Bool, true, false, List};
ghost use Rattle.net_addr.specs.NetSet.{all};
ghost use Rattle.net_addr.specs.declared.peer.Peer.{Peer};
ghost use Rattle.risk_laws.specs.Lists.{searching_lists, selecting_lists};
ghost use Rattle.risk_parts.specs.Parts.{HasNoTries};
ghost use Rattle.risk_parts.specs.Sets.{is_among};
ghost use Rattle.risk_parts.specs.declared.addr_set.AddrSet.{AddrSet};
ghost use Rattle.risk_tries.specs.Tries.{all_theirs};
ghost use Rattle.table_groups.specs.View.{view_of};
ghost use Rattle.table_machine.specs.Picks.{first_factor};
ghost use Rattle.table_machine.specs.Sound.{IsSound};
ghost use Rattle.table_machine.specs.State.{State};
ghost use Rattle.table_risk.specs.Rows.{AreOfGroup, row_by};
ghost use Rattle.table_risk.specs.Tens.{ten_part};
ghost use Rattle.table_risk.specs.Texts.{IsRiskText};
ghost use Rattle.table_risk.specs.declared.by.By.{By};

use risk_tries::tries_are_bounded;

/// Of the (2^64)^n lists of n random words, for every n, `select` returns a peer of a group for at
/// most the part that its row says, in parts of a million: from both tables, or from the new one
/// only. A search of the tried table ends at one for at most the part `tried`. If the tables know
/// of no try, the text is the same at any time from 600 seconds since 1970 on.
///
/// The set is any that has, of the tables' peers, just those of the group (`AreOfGroup`): by the
/// group of the source that announced them first, by their own, or by their network. `risk_text`
/// computes the rows from the slots of a view; the law is about the view of a state, whose slots
/// have as many starts of each chance as its records do.
///
/// An example that can be worked out by hand is the folder `examples/node`. Its new table has three
/// buckets with one record each: 128 of the 192 starts lead to 8.8.8.8, which the source 1.2.3.4
/// announced, and 64 to the other peer. The other failed once, so its chance is 0.66, and 1/3 ·
/// 0.34 of the first rounds refuse it. The next factor is 1.2, so 1/3 · 0.208 of the second rounds
/// refuse it, and then 1/3 · 0.0496 of the third; at the fourth both are accepted. In all 2/3 · (1
/// + 0.11333 + 0.11333 · 0.06933 + 0.11333 · 0.06933 · 0.01653) = 0.74755 of the picks from the new
/// table are of 8.8.8.8. The one record of the tried table came from that source too, so half of
/// all picks and half of 74.7548 % are 87.3774 %.
pub fn rows_are_bounds()
    ensures picks { (st : State) (by : By) (g : List ℕ) (now first n : ℕ) (theirs : Peer → Bool) →
        IsSound st → AreOfGroup st by g theirs →
        selecting_lists st false all now theirs n * 10 ^ 6
        ≤ (2 ^ 64) ^ n * (row_by (view_of st) by now g first).picks }
    ensures new { (st : State) (by : By) (g : List ℕ) (now first n : ℕ) (theirs : Peer → Bool) →
        IsSound st → AreOfGroup st by g theirs →
        selecting_lists st true all now theirs n * 10 ^ 6
        ≤ (2 ^ 64) ^ n * (row_by (view_of st) by now g first).new }
    ensures tried { (st : State) (by : By) (g : List ℕ) (now first n : ℕ) (theirs : Peer → Bool) →
        IsSound st → AreOfGroup st by g theirs →
        searching_lists st false all now theirs first_factor n * 10 ^ 6
        ≤ (2 ^ 64) ^ n * (row_by (view_of st) by now g first).tried }
    ensures later { (st : State) (by : By) (now later : ℕ) (text : List ℕ) → HasNoTries st →
        600 ≤ now → 600 ≤ later → IsRiskText (view_of st) by now text →
        IsRiskText (view_of st) by later text }
{}

/// Of the lists of m tries, each of n random words, for every m and n, at most the part that the
/// last line of the text of sets says opens all outbound connections to peers whose addresses are
/// in one of the sets. If the tables know of no try, it is the same at any time from 600 seconds
/// since 1970 on.
pub fn tens_are_bounds()
    ensures all { (st : State) (sets : List AddrSet) (now n m : ℕ) → IsSound st →
        all_theirs st now (is_among st.places sets) n m * 10 ^ 6
        ≤ ((2 ^ 64) ^ n) ^ m * ten_part st now sets }
    ensures later { (st : State) (sets : List AddrSet) (now later : ℕ) → HasNoTries st →
        600 ≤ now → 600 ≤ later → ten_part st later sets ≡ ten_part st now sets }
{
    tries_are_bounded();
}
