//! The calls of a folder as text.

use host_io::{Action, Call};
use std::alloc::{AllocError, Global};

/// Returns what a call asks for, and the name of its file. Of a rename that is the old name.
fn asked(action: &Action) -> (&'static str, &'static str) {
    match action {
        Action::Size { name } => ("size", name.file_name()),
        Action::Read { name, .. } => ("read", name.file_name()),
        Action::Create { name } => ("create", name.file_name()),
        Action::Append { name, .. } => ("append", name.file_name()),
        Action::Sync { name } => ("sync", name.file_name()),
        Action::Rename { from, .. } => ("rename", from.file_name()),
        Action::SyncDir => ("sync", "folder"),
    }
}

/// Returns the calls of a folder as text: `size asmap.dat, read asmap.dat`. Calls that follow one
/// another and ask for the same of one file are there once; `-` is no call.
pub(crate) fn calls_of(alloc: Global, calls: &[Call]) -> Result<String, AllocError> {
    let mut text = String::new(alloc);
    let mut before = ("", "");
    for call in calls {
        let now = asked(&call.action);
        if now == before {
            continue;
        }
        if !text.is_empty() {
            text.push_str(", ")?;
        }
        text.push_str(now.0)?;
        text.push_str(" ")?;
        text.push_str(now.1)?;
        before = now;
    }
    if text.is_empty() {
        text.push_str("-")?;
    }
    Ok(text)
}
