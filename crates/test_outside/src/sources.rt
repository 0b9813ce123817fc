//! A source over a reader gives its pieces, and each error of the reader is a fault.

use host_io::{Failed, Source, StdSource};
use std::io;
use std::io::{ErrorKind, Read};

/// A reader whose first read fails.
#[derive(Drop)]
struct FitfulReader<'a> {
    bytes: &'a [u8],
    is_new: bool,
}

impl<'a> FitfulReader<'a> {
    /// Makes a reader of the bytes.
    fn of(bytes: &'a [u8]) -> FitfulReader<'a> {
        FitfulReader {
            bytes,
            is_new: true,
        }
    }
}

impl<'a> Read for FitfulReader<'a> {
    fn read(&mut self, buf: &mut [u8]) -> io::Result<usize> {
        if self.is_new {
            self.is_new = false;
            return Err(io::Error::from(ErrorKind::Interrupted));
        }
        self.bytes.read(buf)
    }
}

/// Reads four bytes, and prints those that came.
fn print_piece<R: Print + AllocGlobal, S: Source>(rt: &R, source: &mut S) -> io::Result<()> {
    let mut buf = [0u8; 4];
    match source.read(&mut buf) {
        Ok(count) => println!(rt;
            "source: {:?}",
            str::from_utf8(&buf[..count]).unwrap_or("no text")
        ),
        Err(Failed) => println!(rt; "source: failed"),
    }
}

/// Reads a text in pieces, from a reader and from one that fails once.
pub(crate) fn print_pieces<R: Print + AllocGlobal>(rt: &R) -> io::Result<()> {
    let mut source = StdSource::make(b"bitcoin".as_slice());
    for _ in 0..3 {
        print_piece(rt, &mut source)?;
    }
    let mut source = StdSource::make(FitfulReader::of(b"bitcoin"));
    for _ in 0..4 {
        print_piece(rt, &mut source)?;
    }
    Ok(())
}
