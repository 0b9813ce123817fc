//! Files of the folder that are loaded whole, and replaced so that a crash leaves the old file or
//! the new one.
//!
//! Contracts see a `SaveJob`, a save in pieces, as the bytes that are written and those that are
//! left.
//!
//! Proved:
//! - `load` returns the whole file, `None` exactly if it is absent, and its size exactly if that is
//!   above the limit, unless the folder fails or memory runs out (`found`, `absent`, `larger`,
//!   `too_large`, `cause`).
//! - `write_temp` and `publish`, or `save` at once, replace a file: at every moment a crash leaves
//!   the old file or the whole new one, and after `Ok` the new one and none under the temporary
//!   name (`any_moment`, `stored`, `free`). A `SaveJob` does the same in pieces.
//! - `load` asks the folder for nothing but the size and the bytes of its file, and a save makes no
//!   calls but its own (`asks`); one that succeeds makes each once, in this order: create, append,
//!   sync, rename, and the sync of the folder (`order`).
//!
//! Tested besides, in `test_outside`: saves in which each call of the folder fails in turn.
#![tactic(auto)]

mod loading;
mod save_job;
mod saving;

pub use loading::{LoadFault, load};
pub use save_job::SaveJob;
pub use saving::{publish, save, write_temp};
