//! A sink over a writer flushes each write. Each error of the writer is a fault, and so is a write
//! that takes no byte.

use host_io::{Failed, Sink, StdSink};
use std::io;
use std::io::{ErrorKind, Write};

/// A writer that takes at most `room` bytes, two a write, and flushes at most `flushes` times.
#[derive(Drop)]
struct Gauge {
    room: usize,
    flushes: usize,
}

impl Write for Gauge {
    fn write(&mut self, buf: &[u8]) -> io::Result<usize> {
        let count = buf.len().min(self.room).min(2);
        self.room -= count;
        Ok(count)
    }

    fn flush(&mut self) -> io::Result<()> {
        match self.flushes.checked_sub(1) {
            Some(left) => {
                self.flushes = left;
                Ok(())
            }
            None => Err(io::Error::from(ErrorKind::Other)),
        }
    }
}

/// A writer that takes all bytes. One of its calls fails.
#[derive(Drop)]
struct FitfulWriter {
    /// How many calls there were.
    calls: u32,
    /// The number of the call that fails, from 0.
    fails: u32,
}

impl FitfulWriter {
    /// Counts a call, and fails if it is the one.
    fn call(&mut self) -> io::Result<()> {
        let number = self.calls;
        self.calls = number.saturating_add(1);
        if number == self.fails {
            return Err(io::Error::from(ErrorKind::Interrupted));
        }
        Ok(())
    }
}

impl Write for FitfulWriter {
    fn write(&mut self, buf: &[u8]) -> io::Result<usize> {
        self.call()?;
        Ok(buf.len())
    }

    fn flush(&mut self) -> io::Result<()> {
        self.call()
    }
}

/// Writes three bytes, and prints how many were taken.
fn print_count<R: Print + AllocGlobal, S: Sink>(rt: &R, sink: &mut S) -> io::Result<()> {
    match sink.write(b"bit") {
        Ok(count) => println!(rt; "sink: {count} bytes"),
        Err(Failed) => println!(rt; "sink: failed"),
    }
}

/// Writes until there is no room, and until flushes fail.
fn print_gauges<R: Print + AllocGlobal>(rt: &R) -> io::Result<()> {
    for (room, flushes) in [(3, 9), (9, 2)] {
        let mut sink = StdSink::make(Gauge { room, flushes });
        for _ in 0..3 {
            print_count(rt, &mut sink)?;
        }
    }
    Ok(())
}

/// Writes until there is no room, until flushes fail, and while a write or a flush fails.
pub(crate) fn print_counts<R: Print + AllocGlobal>(rt: &R) -> io::Result<()> {
    print_gauges(rt)?;
    for fails in 0..2 {
        let mut sink = StdSink::make(FitfulWriter { calls: 0, fails });
        print_count(rt, &mut sink)?;
        print_count(rt, &mut sink)?;
    }
    Ok(())
}
