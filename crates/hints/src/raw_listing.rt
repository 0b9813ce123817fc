//! `listing_hint`: why a listing is refused, and what it has to be.

use crate::files::{json_hint, packed_text};
use raw_file::ListingFault;
use raw_read::{Field, MAX_TEXT, RawFault};
use std::alloc::{AllocError, Global};

/// What a listing is.
const LISTING: &str = "expected the output of bitcoin-cli getrawaddrman or addrman raw";

/// Says why a listing is refused, which has this text.
pub fn listing_hint(
    alloc: Global,
    fault: &ListingFault,
    text: &[u8],
) -> Result<String, AllocError> {
    match fault {
        ListingFault::Text(RawFault::Json) if text.is_empty() => {
            format!(in alloc; "standard input is empty: {LISTING}")
        }
        ListingFault::Text(RawFault::Json) => no_json(alloc, text),
        ListingFault::Text(RawFault::TooLarge) => {
            format!(in alloc; "a listing has at most {MAX_TEXT} bytes")
        }
        ListingFault::Text(RawFault::Row { field, .. }) => {
            format!(in alloc; "expected {} in this slot", field_text(*field))
        }
        other => String::from_str(alloc, fixed_text(other)),
    }
}

/// Says why a text is no JSON, or nests too deep.
fn no_json(alloc: Global, text: &[u8]) -> Result<String, AllocError> {
    if let Some(said) = packed_text(text) {
        return String::from_str(alloc, said);
    }
    json_hint(alloc, text, LISTING)
}

/// Returns what is said of a fault that has no numbers.
fn fixed_text(fault: &ListingFault) -> &'static str {
    match fault {
        ListingFault::Text(RawFault::Form) =>
            "expected an object with the two objects new and tried, as getrawaddrman prints it",
        ListingFault::Text(RawFault::Slot { .. }) =>
            "members are named BUCKET/POSITION, such as 1023/63, in rising order; new has 1024 \
             buckets and tried 256, of 64 positions each",
        ListingFault::Again { .. } =>
            "a peer may be in only one table and once per bucket, and its slots must agree about \
             it",
        _ => "",
    }
}

/// Returns what a field of a record has to be.
fn field_text(field: Field) -> &'static str {
    match field {
        Field::Address => "an address or a name, as a string, under address",
        Field::Port => "a number from 0 to 65535 under port",
        Field::Services => "a number below 2^64 under services",
        Field::Time => "a number from 0 to 4294967295 under time",
        Field::Source => "an address or a name, as a string, under source",
    }
}
