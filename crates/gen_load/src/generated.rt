//! `Gen`, the lines to come, and `next`; with `MAX_LINES` and `MAX_LENGTH`.

ghost use Rattle.std.specs.Prelude.{◌≡◌, ◌≤◌, ◌+◌, ◌++◌, [], take, vec_len, OnOk};
ghost use Rattle.gen_load.specs.Inside.{line_with, position_with};

use crate::Memory;
use crate::line::put_line;
use crate::position::Position;
use net_addr::{put_number, put_text};
use rand_core::SeedableRng;
use rand_xoshiro::Xoshiro256PlusPlus;
use std::marker::Model;

/// The maximum number of lines of a log.
pub const MAX_LINES: u32 = 100_000;
/// The maximum length of a line of a log in bytes, with its line feed.
pub const MAX_LENGTH: usize = 300;

/// When a log begins, in seconds since 1970.
const BEGIN: u32 = 1_700_000_000;

/// The lines of a log that are still to come, each with its line feed.
#[derive(Drop)]
pub struct Gen {
    position: Position,
    /// How many lines are still to come.
    left: u32,
    /// Whether the first line was given.
    begun: bool,
}

impl Model for Gen {
    ghost use Rattle.std.specs.Prelude.{ℕ, List};
    ghost use Rattle.gen_load.specs.Inside.{lines_left, IsInTime};

    ghost Value = { List (List ℕ) };

    ghost view = { λ g. lines_left g.begun g.left g.position };

    ghost invariant = { λ g. IsInTime g.position.time g.left };
}

impl Gen {
    ghost use Rattle.std.specs.Prelude.{◌≡◌, ◌≢◌, ◌↔◌, ◌≤◌, ◌++◌, [], IsTrue, IfOk, OnOk, OnErr};
    ghost use Rattle.gen_load.specs.Log.{log, next_line, lines_after};
    ghost use Rattle.gen_load.specs.Spelling.{IsGenLine};
    ghost use Rattle.gen_load.specs.declared.generated.TheConstants.{MAX_LINES};

    /// Makes the log of a number, with this many lines.
    pub fn make(start: u64, lines: u32) -> Gen
        requires { lines ≤ MAX_LINES }
        ensures { result ≡ log start lines }
    {
        Gen {
            position: Position {
                generator: Xoshiro256PlusPlus::seed_from_u64(start),
                time: BEGIN,
            },
            left: lines,
            begun: false,
        }
    }

    /// Appends the next line with its line feed. Returns `false` if there is none. If memory runs
    /// out, nothing changes.
    pub fn next(&mut self, out: &mut Vec<u8>) -> Result<bool, Memory>
        ensures more { IfOk result (λ more. IsTrue more ↔ (self.old ≢ [])) }
        ensures text { OnOk result (out.new.items ≡ out.old.items ++ next_line self.old) }
        ensures lines { OnOk result (self.new ≡ lines_after self.old) }
        ensures line { OnOk result (self.old ≢ [] → IsGenLine (next_line self.old)) }
        ensures err_lines { OnErr result (self.new ≡ self.old) }
        ensures err_out { OnErr result (out.new.items ≡ out.old.items) }
    {
        if self.left == 0 {
            return Ok(false);
        }
        let mut position = self.position.clone()?;
        let length = out.len();
        match append_line(&mut position, self.begun, out) {
            Ok(()) => {}
            Err(fault) => {
                out.truncate(length);
                return Err(fault);
            }
        }
        self.position = position;
        self.begun = true;
        self.left -= 1;
        Ok(true)
    }
}

/// Appends the next line with its line feed: the first one, or one that is drawn. After `Memory` a
/// part of it may be in the list.
fn append_line(position: &mut Position, begun: bool, out: &mut Vec<u8>) -> Result<(), Memory>
    requires past_day { 86400 ≤ position.old.time }
    requires room { position.old.time + 600 ≤ 4294967295 }
    ensures text { OnOk result (out.new.items ≡ out.old.items ++ line_with begun position.old) }
    ensures after { OnOk result (position.new ≡ position_with begun position.old) }
    ensures kept { take (vec_len out.old) out.new.items ≡ out.old.items }
{
    if begun {
        put_line(position, out)?;
    } else {
        put_number(b"now ", u64::from(position.time), out)?;
    }
    put_text(b"\n", out)
}
