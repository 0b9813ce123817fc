//! A file as one letter or digit, so that many images fit in a line.

use host_io::{MemFolder, Memory, Name};

/// The files that are saved as peers.dat, one after another.
pub(crate) const SAVES: [&[u8]; 3] = [b"1st", b"2nd", b"3rd"];

/// What a file may have, and the letter or digit of each: what is saved, its first byte, nothing,
/// and what `MemFolder::crash` puts in the place of bytes that are not synced.
static MARKS: [(&[u8], &str); 8] = [
    (b"1st", "1"),
    (b"2nd", "2"),
    (b"3rd", "3"),
    (b"1", "p"),
    (b"2", "p"),
    (b"3", "p"),
    (b"", "e"),
    (b"torn", "t"),
];

/// Returns the letter or digit of a file, `-` for none and `?` for others.
fn mark(file: Option<&[u8]>) -> &'static str {
    let Some(file) = file else {
        return "-";
    };
    for (bytes, mark) in &MARKS {
        if file == *bytes {
            return *mark;
        }
    }
    "?"
}

/// Returns the letter or digit of what a crash with this choice leaves.
fn mark_after(folder: &MemFolder, name: Name, choice: u64) -> Result<&'static str, Memory> {
    let image = folder.crash(choice)?;
    Ok(mark(image.get(name)))
}

/// Returns the letter or digit of what a second crash leaves of that.
fn mark_again(folder: &MemFolder, name: Name, choice: u64) -> Result<&'static str, Memory> {
    let image = folder.crash(choice)?;
    mark_after(&image, name, 3)
}

/// Appends the letter or digit of the file, those of what crashes with the choices 0 to 15 leave of
/// it, and those of what a second crash leaves of that.
pub(crate) fn push_marks(text: &mut String, folder: &MemFolder, name: Name) -> Result<(), Memory> {
    text.push_str("reads ")?;
    text.push_str(mark(folder.get(name)))?;
    text.push_str(", crashes ")?;
    for choice in 0..16 {
        text.push_str(mark_after(folder, name, choice)?)?;
    }
    text.push_str(", again ")?;
    for choice in 0..16 {
        text.push_str(mark_again(folder, name, choice)?)?;
    }
    Ok(())
}
