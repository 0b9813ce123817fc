//! The lines of a log of connections: what each says, and the line that the limit answers.
//!
//! Contracts see a `LimitLog` as the clock and the list of connections.
//!
//! Proved: a step never takes a connection above 2,000 tokens, or 1,000 before getaddr, if it was
//! not above before. What one connection sends never changes what is admitted from another
//! (`connections_are_apart`, over all logs). The calls of `Limiter` do what the lines say
//! (`calls_are_events`).
#![tactic(auto)]

mod command;
mod law;
mod limit_log;
mod print;
mod read;
mod requests;

pub use command::{Event, LimitCommand, LimitWord};
pub use law::{
    calls_are_events, connections_are_apart, lines_have_one_meaning, tokens_are_bounded,
};
pub use limit_log::LimitLog;
pub use limiter::{Asked, Conn, Limiter, Memory};
