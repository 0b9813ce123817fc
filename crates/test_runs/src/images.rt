//! What crashes leave after a run, as marks; and replays of `dump`.

use crate::case::Case;
use crate::ran::status_of;
use crate::unread::Unread;
use addrman_run::Status;
use host_io::{MemFolder, MemSink, MemSource, Name};
use std::alloc::Global;

/// A file and the letter or digit that means it.
#[derive(Drop)]
pub(crate) struct Mark {
    pub text: String,
    pub bytes: Vec<u8>,
}

/// What crashes are to leave at a name.
#[derive(Drop)]
pub(crate) struct Images {
    pub name: Name,
    /// The marks of what crashes with the choices 0 to 15 leave.
    pub marks: String,
}

/// How a replay of the line `dump` without a key ended, and what it wrote.
#[derive(Drop)]
pub(crate) struct Listing {
    pub status: Status,
    pub text: Vec<u8>,
}

/// Replays the log of the case in the folder.
fn listing_of(
    alloc: Global,
    case: &Case,
    log: &mut MemSource,
    folder: &mut MemFolder,
) -> Result<Listing, Unread> {
    let mut out = MemSink::make(alloc, &[])?;
    let status = status_of(alloc, case, log, folder, &mut out);
    let text = Vec::from_slice(alloc, out.bytes())?;
    Ok(Listing { status, text })
}

/// Replays the line `dump` in the folder, without a key.
pub(crate) fn list_tables(alloc: Global, folder: &mut MemFolder) -> Result<Listing, Unread> {
    let mut case = Case::new(alloc)?;
    case.read_lines(":arguments replay\ndump")?;
    let mut log = MemSource::make(alloc, case.log.as_slice(), 65_536, &[])?;
    listing_of(alloc, &case, &mut log, folder)
}

/// Whether the folder opens if it has a file of peers, with one record if the file has a mark, and
/// lacks a key if not.
fn opens(alloc: Global, folder: &mut MemFolder, mark: &str) -> Result<bool, Unread> {
    let has_peers = folder.get(Name::Peers).is_some();
    let listing = list_tables(alloc, folder)?;
    Ok(if has_peers {
        let is_one = listing.text.as_slice().ends_with(b"\nend 1\n");
        listing.status == Status::Done && (is_one || mark == "?")
    } else {
        listing.status == Status::NoKey
    })
}

/// Returns the mark of a file, `-` for none, and `?` for one that has no mark.
fn mark_of<'a>(case: &'a Case, file: Option<&[u8]>) -> &'a str {
    let Some(file) = file else {
        return "-";
    };
    for mark in case.marks.as_slice() {
        if mark.bytes.as_slice() == file {
            return mark.text.as_str();
        }
    }
    "?"
}

/// Returns the mark of what a second crash leaves at the name.
fn mark_again<'a>(case: &'a Case, folder: &MemFolder, name: Name) -> Result<&'a str, Unread> {
    let image = folder.crash(3)?;
    Ok(mark_of(case, image.get(name)))
}

/// Returns the mark of what an image has at the name. A second crash is to leave the same, and a
/// file of peers is to open, one with a mark with one record; if not, the mark is `!`.
fn mark_of_image<'a>(
    alloc: Global,
    case: &'a Case,
    image: &mut MemFolder,
    name: Name,
) -> Result<&'a str, Unread> {
    let mark = mark_of(case, image.get(name));
    if mark_again(case, image, name)? != mark {
        return Ok("!");
    }
    if name == Name::Peers && !opens(alloc, image, mark)? {
        return Ok("!");
    }
    Ok(mark)
}

/// Returns the mark of what a crash with this choice leaves at the name.
fn mark_after<'a>(
    alloc: Global,
    case: &'a Case,
    folder: &MemFolder,
    name: Name,
    choice: u64,
) -> Result<&'a str, Unread> {
    let mut image = folder.crash(choice)?;
    mark_of_image(alloc, case, &mut image, name)
}

/// Returns the marks of what crashes with the choices 0 to 15 leave at the name.
fn marks_after(
    alloc: Global,
    case: &Case,
    folder: &MemFolder,
    name: Name,
) -> Result<String, Unread> {
    let mut marks = String::new(alloc);
    for choice in 0..16 {
        marks.push_str(mark_after(alloc, case, folder, name, choice)?)?;
    }
    Ok(marks)
}

/// Whether crashes leave what the case wants, if it says what.
pub(crate) fn has_images(alloc: Global, folder: &MemFolder, case: &Case) -> Result<bool, Unread> {
    let Some(images) = &case.images else {
        return Ok(true);
    };
    Ok(marks_after(alloc, case, folder, images.name)? == images.marks)
}
