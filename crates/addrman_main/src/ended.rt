//! `Ended`: the exit code and the lines that are printed at the end (`Termination`).

ghost use Rattle.std.specs.Prelude.{◌≡◌};
ghost use Rattle.std.specs.Process.{exit_status};
ghost use Rattle.addrman_run.specs.Report.{code_of};

use addrman_run::{Status, code};
use std::marker::Model;
use std::process::{ExitCode, Termination};

/// What is printed on standard error.
#[derive(Drop)]
enum Reason {
    /// A text of the program's own, or nothing.
    Fixed(&'static str),
    /// The line of a status, and those after it.
    Lines(String),
}

/// How the program ended: an exit code, which contracts see, and what is printed on standard error.
/// Only `run_program` makes one, so a `main` that returns an `Ended` has run the program, and ends
/// the process with the code of its run.
#[derive(Drop)]
pub struct Ended {
    code: u8,
    reason: Reason,
}

impl Model for Ended {
    ghost use Rattle.std.specs.Prelude.{ℕ};

    ghost Value = { ℕ };

    ghost view = { λ e. e.code };
}

impl Ended {
    /// A run that ended with this status, and the lines that say why.
    pub(crate) fn with(status: &Status, lines: String) -> Ended
        ensures code { result ≡ code_of status.now }
    {
        Ended {
            code: code(status),
            reason: Reason::Lines(lines),
        }
    }

    /// No run began, because the system did not give what a run needs. The exit code is 1.
    pub(crate) fn before_the_run(reason: &'static str) -> Ended
        ensures code { result ≡ 1 }
    {
        Ended {
            code: 1,
            reason: Reason::Fixed(reason),
        }
    }
}

impl Termination for Ended {
    /// Prints why the program ended, and returns the exit code.
    fn report<R: Eprint>(self, errors: &R) -> ExitCode
        ensures code { exit_status result ≡ self }
    {
        let Ended { code, reason } = self;
        let _ = match reason {
            Reason::Fixed(text) => errors.eprint(text),
            Reason::Lines(lines) => errors.eprint(lines),
        };
        ExitCode::from(code)
    }
}
