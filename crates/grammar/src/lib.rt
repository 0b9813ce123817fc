//! A grammar of lines and arguments: a table of keywords, each with the kinds of the fields after
//! it, and one reader.
//!
//! Contracts see a line as its first word and the texts after it. A `Kind` of field says which
//! texts have which value, and a `Grammar` what a line says and what is wrong in it.
//!
//! Proved:
//! - `read_texts`, `read_said` and `read_line` give what a line says exactly if it says so
//!   (`found`, `only`), and a fault exactly if it is the line's (`fault`, `only_fault`), unless
//!   memory runs out. Each `Grammar` proves that a line says one thing, or has one fault, and never
//!   both.
//! - A field has at most one value and at most one fault (`fields_have_one_value`).
//!
//! It reads the lines of a log (`log_lines`), of the limit (`limiter`) and of the opener
//! (`opener_lines`), and the arguments of the command line (`arguments`).
#![tactic(auto)]

mod choice;
mod fault;
mod field;
mod fields;
mod grammar;
mod keyword;
mod kinds;
mod law;
mod nets;
mod pieces;
mod random;
mod read;
mod texts;
mod word_source;
mod words;

pub use choice::{Choice, OneOf};
pub use fault::LineFault;
pub use field::{read_decimal, read_hex};
pub use fields::{Field, Fields, read_fields};
pub use grammar::Grammar;
pub use keyword::{Keyword, find_keyword};
pub use kinds::{
    AddrClasses, Between, LongBetween, Networks, OnePeer, Payload, Random, RandomSource, Source,
};
pub use law::{fields_have_one_value, word_limits};
pub use nets::{read_classes, read_nets};
pub use random::{MAX_SEEDED, MAX_WORDS_TEXT, read_source, read_words, seeded_words};
pub use read::{read_line, read_said, read_texts};
pub use texts::{Texts, cut_field};
pub use word_source::WordSource;
pub use words::Words;
