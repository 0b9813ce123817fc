//! Laws of a picture: it is one tree of elements, its numbers count slots and buckets, and its dots
//! show each slot.

ghost use Rattle.std.specs.Prelude.{◌≡◌, ◌<◌, ℕ, true, List, All, Some, codes};
ghost use Rattle.peer_rec.specs.declared.rec.Rec.{Rec};
ghost use Rattle.picture_laws.specs.Counts.{CountsSlots, CountsWide, IsBehind};
ghost use Rattle.picture_laws.specs.Dots.{DrawsSlots};
ghost use Rattle.picture_laws.specs.Slots.{HasSources, is_unlisted};
ghost use Rattle.table_groups.specs.Slots.{all_slots, is_of};
ghost use Rattle.table_groups.specs.View.{View, view_of};
ghost use Rattle.table_groups.specs.declared.sources.Source.{Source};
ghost use Rattle.picture_text.specs.Markup.{IsPlain, IsTree};
ghost use Rattle.picture_text.specs.Picture.{picture_text};
ghost use Rattle.placing.specs.Places.{group};
ghost use Rattle.table_machine.specs.Sound.{IsSound};
ghost use Rattle.table_machine.specs.State.{State};
ghost use Rattle.picture_text.specs.declared.by.By.{By};
ghost use Rattle.table_picture.specs.Sets.{HasAddress};
ghost use Rattle.risk_parts.specs.declared.addr_set.AddrSet.{AddrSet};
ghost use Rattle.table_picture.specs.Picture.{picture_by, picture_of, picture_of_sets};

use dot_runs::one_dot;

/// The picture is the text of one tree of elements, whose root is `svg`, if the names of the groups
/// have nothing in them that has to be escaped.
pub fn picture_is_a_tree()
    ensures { (sources : List Source) (marks : List ℕ) (names : List (List ℕ)) →
        All IsPlain names → IsTree (codes "svg") (picture_text sources marks names) }
{}

/// So a picture is the text of such a tree if the sources of the records are addresses, and the one
/// of a node's tables always is.
pub fn pictures_are_trees()
    ensures views { (view : View) → HasSources view → IsTree (codes "svg") (picture_of view) }
    ensures tables { (st : State) → IsSound st → IsTree (codes "svg") (picture_of (view_of st)) }
{}

/// The same of a picture whose colours go by something, with the name of a chain in which nothing
/// has to be escaped.
pub fn coloured_pictures_are_trees()
    ensures { (by : By) (chain : List ℕ) (st : State) → IsPlain chain → IsSound st →
        IsTree (codes "svg") (picture_by by chain (view_of st)) }
{}

/// The same of a picture whose colours go by sets of addresses.
pub fn pictures_of_sets_are_trees()
    ensures { (sets : List AddrSet) (chain : List ℕ) (view : View) → IsPlain chain →
        All HasAddress sets → IsTree (codes "svg") (picture_of_sets sets chain view) }
{}

/// The numbers of the list and of the titles count slots and buckets of the tables by the groups of
/// the records in them.
///
/// A listed group has the number of slots of both tables whose record has a source in it, of these
/// the number of slots of the tried table, and the number of buckets of the new table that have
/// such a slot. The row of the other groups counts the slots whose record has a source in none of
/// the listed ones. Each listed group is listed once, so these rows together count each occupied
/// slot once.
pub fn slots_are_counted()
    ensures { (view : View) → CountsSlots view }
{}

/// The line below the list counts the groups that are in more than 32 buckets of the new table,
/// each of them once.
pub fn wide_groups_are_counted()
    ensures { (view : View) → CountsWide view }
{}

/// A group with slots that is not listed has no more slots than any of the six that are.
pub fn listed_groups_have_most()
    ensures { (view : View) (r : Rec) →
        0 < all_slots (is_of view.places (group view.places r.source)) view →
        is_unlisted view (Some r) ≡ true → IsBehind view (group view.places r.source) }
{}

/// The dot of each slot is covered by one rectangle, which has the mark of its record's group, or
/// that of a free slot.
pub fn slots_are_drawn()
    ensures { (view : View) → DrawsSlots view }
{
    one_dot();
}
