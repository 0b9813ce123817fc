//! What standard error says after the line of a status: what is wrong, and what to change.
//!
//! Proved: the functions are safe and return. No contract speaks of these texts.
//!
//! Tested only, by `tools/mistakes`: the texts.
#![tactic(auto)]

mod anchors_dat;
mod command_line;
mod common_errors;
mod failures;
mod field_kinds;
mod files;
mod keyword_fields;
mod log_line;
mod noted_folder;
mod option_names;
mod options;
mod peers_dat;
mod prefixes_txt;
mod quoting;
mod raw_listing;
mod syntax;

pub use anchors_dat::anchors_hint;
pub use command_line::usage_hint;
pub use failures::stream_hint;
pub use files::{
    ANCHORS, Paths, asmap_hint, bans_hint, compile_hint, missing_hint, place_hint, tilde_hint,
};
pub use keyword_fields::expected_text;
pub use log_line::line_hint;
pub use noted_folder::{NotedFolder, Saves};
pub use peers_dat::{duplicate_hint, peers_hint};
pub use prefixes_txt::table_hint;
pub use raw_listing::listing_hint;
