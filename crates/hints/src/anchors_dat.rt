//! What is wrong with an `anchors.dat`.

use crate::files::packed_text;
use crate::peers_dat::chain_of;
use anchors::{AnchorCause, AnchorsFault, MAX_ANCHORS, MAX_FILE};
use std::alloc::{AllocError, Global};

/// Says what is wrong with anchors.dat, which begins with these bytes.
pub fn anchors_hint(
    alloc: Global,
    fault: &AnchorsFault,
    head: &[u8],
) -> Result<String, AllocError> {
    if let Some(said) = packed_text(head) {
        return String::from_str(alloc, said);
    }
    match fault {
        AnchorsFault::BadMagic => chain_text(alloc, head),
        AnchorsFault::TooMany { count } => {
            format!(in alloc; "it has {count} anchors; at most {MAX_ANCHORS} are allowed")
        }
        AnchorsFault::Anchor { index, cause } => {
            format!(in alloc; "anchor {index} {}", cause_text(*cause))
        }
        AnchorsFault::TooLarge { size } => {
            format!(in alloc; "it has {size} bytes; at most {MAX_FILE} are allowed")
        }
        other => String::from_str(alloc, fixed_text(other)),
    }
}

/// Returns what is said of a fault that has no numbers.
fn fixed_text(fault: &AnchorsFault) -> &'static str {
    match fault {
        AnchorsFault::Truncated => "the file ends too early: copy it again",
        AnchorsFault::BadSum => "the file was truncated or changed: copy it again",
        AnchorsFault::Count => "its anchor count is a CompactSize longer than necessary",
        AnchorsFault::Trailing => "there are extra bytes after the last anchor",
        _ => "",
    }
}

/// Says of which chain a file is that has another one's first bytes.
fn chain_text(alloc: Global, head: &[u8]) -> Result<String, AllocError> {
    match chain_of(head) {
        Some(chain) => format!(in alloc; "it belongs to another chain: use --net {chain}"),
        None => String::from_str(alloc, "it does not begin like a file of any known chain"),
    }
}

/// Returns what is wrong with an anchor.
fn cause_text(cause: AnchorCause) -> &'static str {
    match cause {
        AnchorCause::Truncated => "is incomplete",
        AnchorCause::Version => "has the layout of another format",
        AnchorCause::NonCanonical => "has a CompactSize longer than necessary",
        AnchorCause::BadLength => "has an address of the wrong length for its network",
        AnchorCause::TooLong => "has an address longer than 512 bytes",
    }
}
