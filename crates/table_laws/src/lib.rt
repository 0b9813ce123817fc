//! What the definitions of the tables give, in the words of a node's author. There is no program
//! here, only definitions and laws.
//!
//! What they give is counted, and is not a probability: how many of the residues that random words
//! can have select a record. Whose records are meant is given by a test.
#![tactic(auto)]

mod losses;
mod odds;
mod picks;
mod samples;
mod searches;
mod words;

pub use losses::{losses_have_causes, openings_lose_with_causes, restarts_keep_records};
pub use odds::odds_are_bounded;
pub use picks::{picks_are_counted, rounds_are_counted};
pub use samples::{samples_are_shuffles, shuffles_are_fair};
pub use searches::{rounds_are_of_three_kinds, searches_are_counted, searches_share_alike};
pub use words::{first_words_decide, residues_decide};
