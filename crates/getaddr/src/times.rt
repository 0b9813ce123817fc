//! `Times`: the times of entries, hidden or shown.

ghost use Rattle.std.specs.Prelude.{◌≡◌};
ghost use Rattle.getaddr.specs.Fresh.{time_for_all};

use addr_answers::told_time;

/// Which times the entries of a new answer have.
#[derive(Clone, Copy)]
pub enum Times {
    /// One for all entries, 8 to 12 days before the answer is made (`addr_answers::told_time`).
    /// Answers to requesters of two networks then have no times in common that say that they are
    /// of one node.
    Hidden,
    /// Each the time of its record.
    Own,
}

impl Times {
    /// Returns the time that all entries have, if it is one.
    pub(crate) fn for_all(self, now: u32, word: u64) -> Option<u32>
        ensures { result ≡ time_for_all self now word }
    {
        match self {
            Times::Hidden => Some(told_time(now, word)),
            Times::Own => None,
        }
    }
}
