//! The law that the file of a listing opens, under whatever key and asmap.

ghost use Rattle.std.specs.Prelude.{◌≡◌, ℕ, List, None};
ghost use Rattle.placing.specs.Places.{Places};
ghost use Rattle.raw_file.specs.Listing.{first_fault};
ghost use Rattle.raw_file.specs.Opening.{OpensListing};
ghost use Rattle.raw_read.specs.Raw.{IsRaw};
ghost use Rattle.raw_read.specs.declared.raw.Raw.{Raw};

use table_laws::openings_lose_with_causes;

/// The file of a listing opens, under whatever key and asmap it was made. A record stays in the
/// buckets that list it, or is in that of its source; it is lost only if others are in its slots.
pub fn listings_open()
    ensures { (bytes : List ℕ) (raw : Raw) (places : Places) →
        IsRaw bytes raw → first_fault raw ≡ None → OpensListing raw places }
{
    openings_lose_with_causes()
}
