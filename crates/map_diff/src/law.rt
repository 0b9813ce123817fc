//! The law that the changes are exactly the differences, and as few as possible.

ghost use Rattle.std.specs.Prelude.{◌≡◌, ◌≤◌, Bool, List, length};
ghost use Rattle.asmap_vm.specs.Code.{Tree};
ghost use Rattle.map_diff.specs.Diff.{Change, changes, map_of, first_over, if_differing, AreChanges};

/// An address is covered by a change exactly if the two maps give it two numbers, and no fewer
/// changes cover these addresses.
pub fn changes_are_the_differences()
    // The first change that covers an address has the address's two numbers.
    ensures exact { (old new : Tree) (bits : List Bool) → length bits ≡ 128
        → first_over (changes 128 (map_of old) (map_of new)) bits
        ≡ if_differing (map_of old bits) (map_of new bits) }
    // Both maps are constant on the prefix of a change.
    ensures constant { (old new : Tree)
        → AreChanges 128 (map_of old) (map_of new) (changes 128 (map_of old) (map_of new)) }
    ensures fewest { (old new : Tree) (others : List Change)
        → AreChanges 128 (map_of old) (map_of new) others
        → length (changes 128 (map_of old) (map_of new)) ≤ length others }
{}
