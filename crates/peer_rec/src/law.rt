//! The limits of records and files as numbers.

ghost use Rattle.std.specs.Prelude.{◌≡◌};
ghost use Rattle.peer_rec.specs.declared.buckets.TheConstants.{MAX_LISTS};
ghost use Rattle.peer_rec.specs.declared.file_rec.TheConstants.{MAX_ATTEMPTS};
ghost use Rattle.peer_rec.specs.declared.snapshot.TheConstants.{MAX_BUCKETS, MAX_NEW, MAX_TRIED};

use crate::{MAX_ATTEMPTS, MAX_BUCKETS, MAX_LISTS, MAX_NEW, MAX_TRIED};

/// The limits of records and of files.
pub fn limits()
    ensures lists { MAX_LISTS ≡ 8 }
    ensures new { MAX_NEW ≡ 65536 }
    ensures tried { MAX_TRIED ≡ 16384 }
    ensures buckets { MAX_BUCKETS ≡ 65536 }
    ensures attempts { MAX_ATTEMPTS ≡ 2147483647 }
{}
