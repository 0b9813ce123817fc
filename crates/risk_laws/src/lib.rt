//! Which part of the lists of random words selects a peer of a set: a recursion that gives it
//! exactly, and bounds in integers. There is no program here, only definitions and laws.
//!
//! An exact fraction would have a denominator of some 2,000 bits. The laws speak of each number of
//! words, so that a pick that runs out of them needs no limit.
#![tactic(auto)]

mod laws;

pub use laws::{
    kinds_are_enough, lists_are_counted, picks_are_enclosed, risks_are_bounded, shares_are_enclosed,
};
