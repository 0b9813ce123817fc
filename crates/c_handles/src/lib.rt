//! What C holds of an object: a pointer to a box or none, and whether it is open. And the hasher
//! with keys that the caller brings.
//!
//! Only this crate of the library for C has raw pointers. Contracts see a handle as what it keeps
//! (`loose.kept`): `None` if it is closed.
//!
//! Proved: `take` gives what the handle keeps and leaves it closed, and `put` keeps what it is
//! given. A hasher is given both of its keys (`seeded`).
#![tactic(auto)]

mod answers_handle;
mod bans_handle;
mod handle;
mod keyed;
mod limiter_handle;
mod save_handle;

pub use answers_handle::{AnswersHandle, KeptAnswers, LooseAnswers};
pub use bans_handle::{BansHandle, KeptBans, LooseBans};
pub use handle::{Handle, Kept, Loose};
pub use keyed::Keyed;
pub use limiter_handle::{KeptLimiter, LimiterHandle, LooseLimiter};
pub use save_handle::{KeptSave, LooseSave, SaveHandle};
