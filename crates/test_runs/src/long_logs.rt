//! A log of the largest size, and one of a byte more. No case has so many bytes.

use crate::case::Case;
use crate::cases::Tally;
use crate::ran::{end_of, status_of};
use crate::unread::Unread;
use host_io::{MemFolder, MemSink, StdSource};
use std::alloc::Global;
use std::io;
use std::io::Read;

/// A line `size` and its line feed, and after it lines of comments, a line for each piece.
#[derive(Drop)]
struct Comments {
    /// How many bytes are left.
    left: u64,
    /// Whether nothing was read yet.
    is_new: bool,
}

/// The line that each log begins with.
const FIRST: &[u8; 5] = b"size\n";

/// The lengths of the logs, and how a replay of each ends.
const LOGS: [(u64, &str); 2] = [(1_073_741_824, "0"), (1_073_741_825, "10 log too long")];

impl Read for Comments {
    fn read(&mut self, buf: &mut [u8]) -> io::Result<usize> {
        let left = self.left as usize;
        let count = buf.len().min(left);
        for byte in buf.iter_mut() {
            *byte = b'#';
        }
        if let Some(last) = buf[..count].last_mut() {
            *last = b'\n';
        }
        if self.is_new {
            self.is_new = false;
            if let Some(start) = buf.get_mut(..5) {
                start.copy_from_slice(FIRST);
            }
        }
        self.left = self.left.saturating_sub(count as u64);
        Ok(count)
    }
}

/// Whether a replay of a log of this length in the folder answers its first line and ends so.
fn ends_so(alloc: Global, length: u64, want: &str, folder: &mut MemFolder) -> Result<bool, Unread> {
    let case = Case::new(alloc)?;
    let mut log = StdSource::make(Comments {
        left: length,
        is_new: true,
    });
    let mut out = MemSink::make(alloc, &[])?;
    let status = status_of(alloc, &case, &mut log, folder, &mut out);
    let end = end_of(alloc, &status)?;
    Ok(end.as_str() == want && out.bytes() == b"size new 0 tried 0 clashes 0\n".as_slice())
}

/// Whether the replay ends so in an empty folder, which no call of it finds out of memory.
fn is_right(alloc: Global, length: u64, want: &str) -> Result<bool, Unread> {
    let mut folder = MemFolder::make(alloc, &[])?;
    let is_right = ends_so(alloc, length, want, &mut folder)?;
    Ok(is_right && folder.starved() == 0)
}

/// Checks replays of logs of the largest size and of one byte more.
pub(crate) fn check_long_logs(rt: &(impl Eprint + AllocGlobal)) -> io::Result<Tally> {
    let mut tally = Tally { cases: 0, wrong: 0 };
    for (length, want) in LOGS {
        let right = match is_right(rt.alloc(), length, want) {
            Ok(right) => right,
            Err(_) => false,
        };
        if !right {
            eprintln!(rt; "wanted of a log of {length} bytes: {want}")?;
        }
        tally.count(right);
    }
    Ok(tally)
}
