//! Laws: the checksum of a Tor v3 name follows from the letters before it, and a text has one
//! meaning.

ghost use Rattle.std.specs.Prelude.{◌≡◌, ℕ, List, take};
ghost use Rattle.net_addr.specs.Address.{Address};
ghost use Rattle.net_addr.specs.declared.net.Net.TheVariants.{Onion};
ghost use Rattle.names.specs.Name.{HasLetters};
ghost use Rattle.names.specs.Text.{IsTextOf};

/// The last four letters of a name of Tor v3, which have most of its checksum and the version,
/// follow from the 52 before them: with any others it is no name.
pub fn checksums_are_determined()
    ensures { (letters other : List ℕ) (a b : Address) → HasLetters Onion letters a →
        HasLetters Onion other b → take 52 letters ≡ take 52 other → letters ≡ other }
{}

/// A text parses as at most one address.
pub fn texts_have_one_meaning()
    ensures { (text : List ℕ) (a b : Address) → IsTextOf text a → IsTextOf text b → a ≡ b }
{}
