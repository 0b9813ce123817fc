//! Which call on a file or stream failed, and why.

use crate::files::Paths;
use host_io::{Failure, Tried};
use std::alloc::{AllocError, Global};
use std::io;
use std::io::ErrorKind;

/// Says which call on a file or on the folder failed, and why.
pub fn failure_hint(
    alloc: Global,
    failure: &Failure,
    is_in_use: bool,
    paths: &Paths<'_>,
) -> Result<String, AllocError> {
    if is_in_use {
        return String::from_str(
            alloc,
            "the directory is in use: another program is saving there",
        );
    }
    let name = match failure.name {
        Some(name) => paths.text_of(name),
        None => "the directory",
    };
    if failure.error.kind() == ErrorKind::InvalidInput {
        return format!(in alloc; "{name} is not a regular file");
    }
    format!(in alloc;
        "{name} cannot be {}: {}",
        past_of(failure.tried),
        failure.error
    )
}

/// Returns the participle of what was tried.
fn past_of(tried: Tried) -> &'static str {
    match tried {
        Tried::Lock => "locked",
        Tried::Read => "read",
        Tried::Create => "created",
        Tried::Write => "written",
        Tried::Sync => "synced",
        Tried::Rename => "renamed",
    }
}

/// The number of the error EISDIR of a call on a directory.
const IS_A_DIRECTORY: i32 = 21;

/// Says why a standard stream failed: `input` or `output`.
pub fn stream_hint(alloc: Global, stream: &str, error: io::Error) -> Result<String, AllocError> {
    if error.raw_os_error() == Some(IS_A_DIRECTORY) {
        return format!(in alloc; "standard {stream} is a directory, or closed");
    }
    format!(in alloc; "standard {stream}: {error}")
}
