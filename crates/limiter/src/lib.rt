//! The limit on the addresses that a node takes from each of its connections: a token bucket for
//! each.
//!
//! Contracts see a `Limiter` as the list of connections, by rising number. A connection is found by
//! one look-up under the caller's hasher.
//!
//! Proved: each call leaves the connections that the definition gives. No connection that a
//! `Limiter` has is above 2,000 tokens, or 1,000 before getaddr (`bounded` of `find`).
#![tactic(auto)]

mod connections;
mod limiter;
mod spending;

pub use limiter::{Asked, Conn, Limiter};
pub use net_addr::Memory;
pub use spending::admitted;
