//! `MAX_LOG`, `MAX_LINE` and `MAX_READ`, and the law that states them.

ghost use Rattle.std.specs.Prelude.{◌≡◌, ◌^◌};
ghost use Rattle.log_run.specs.declared.sizes.TheConstants.{MAX_LINE, MAX_LOG, MAX_READ};

use host_io::PIECE;

/// The maximum size of a log in bytes.
pub const MAX_LOG: usize = 1_073_741_824;

/// The maximum size of a line of a log in bytes, without its line feed.
pub const MAX_LINE: usize = 2_000_000;

/// The maximum number of bytes that one read takes.
pub const MAX_READ: usize = PIECE;

/// The limits as numbers.
pub fn limits()
    ensures log { MAX_LOG ≡ 2 ^ 30 }
    ensures line { MAX_LINE ≡ 2000000 }
    ensures read { MAX_READ ≡ 65536 }
{}
