//! A session: the address manager and its saves, one line of a log at a time.
//!
//! Contracts see a `Session` as the machine, the chain and the open save (`State`).
//!
//! Proved, of `Session::line`:
//! - Its step is that of the machine or of a save, done or failed, and a save fails only if the
//!   folder does (`step`). The text of a run fixes its history (`text_fixes_the_history`).
//! - At every moment a crash leaves in `peers.dat` what it could leave before, or the file that
//!   this line may publish (`any_moment`). A line that is no save, or is answered `busy` or `no
//!   save`, leaves the folder as it is (`still`).
//! - Each refusal is the line's (`fault`, `only_fault`), and what `Memory` leaves is said
//!   (`memory`, `list`).
//!
//! Over several lines, lemmas carry what a crash may leave: the file of the last save that was
//! done, or of one that began later.
#![tactic(auto)]

mod carry_out;
mod law;
mod session;

pub use law::text_fixes_the_history;
pub use session::Session;
