//! The machine in words: what each message, success, try and pick does to the state of the tables.
//! There is no program here, only definitions, lemmas and worked examples.
//!
//! A state is a list of records; a slot is occupied if a record says so.
//!
//! Proved, as lemmas: an empty state is sound, each step leaves a sound state sound, and the
//! restart law: what a save writes of a sound state, restored under the same key and asmap, is that
//! state with its records renumbered, and without the marks and collisions that a file leaves out.
//!
//! Tested only: that the definitions say what Bitcoin Core does.
#![tactic(auto)]
