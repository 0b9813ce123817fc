//! The trait `Sink` of outputs with `write_all`, and three outputs: `StdSink`, `SureSink` and
//! `MemSink`.

ghost use Rattle.std.specs.Prelude.{◌≡◌, ℕ, ◌<◌, ◌≤◌, List, length, take, IfOk, IfNone, OnOk, OnErr, Option, None, IsOk, [], Contains, IsErr, Some};
ghost use Rattle.host_io.specs.Faults.{Rose, raised};
ghost use Rattle.host_io.specs.Writing.{Appended, AppendedPart};
ghost use Rattle.host_io.specs.MemSink.{sink_after_write, sink_after_fault, sink_after_no_memory};

use crate::failed::{Failed, FailingCalls, fault};
use memory::Memory;
use std::alloc::Global;
use std::io;
use std::io::{ErrorKind, Write};
use std::marker::Model;

/// Where bytes go, as the output of a program.
pub trait Sink {
    /// The bytes written; `None` if contracts do not know them.
    ghost written: { Self → Option (List ℕ) };

    /// How often it has failed; the count stops at 2^64 - 1.
    ghost faults: { Self → ℕ };

    /// Appends the first bytes of `piece`, at least one, and returns how many.
    fn write(&mut self, piece: &[u8]) -> Result<usize, Failed>
        requires { 0 < length piece.now }
        ensures some { IfOk result (λ n. (0 < n) × (n ≤ length piece.now)) }
        ensures appended { IfOk result (λ n.
            Appended (written self.old) (written self.new) (take n piece.now)) }
        ensures err { OnErr result (written self.new ≡ written self.old) }
        ensures unknown { IfNone (written self.old) (written self.new ≡ None) }
        ensures cause { OnErr result (Rose (faults self.old) (faults self.new)) }
        ensures never_falls { faults self.old ≤ faults self.new };
}

/// Writes all of `bytes`. If the sink fails, a prefix of them is written, and not all.
pub fn write_all<K: Sink>(sink: &mut K, bytes: &[u8]) -> Result<(), Failed>
    ensures all { OnOk result (Appended (K.written sink.old) (K.written sink.new) bytes.now) }
    ensures err { OnErr result (AppendedPart (K.written sink.old) (K.written sink.new) bytes.now) }
    ensures unknown { IfNone (K.written sink.old) (K.written sink.new ≡ None) }
    ensures cause { OnErr result (Rose (K.faults sink.old) (K.faults sink.new)) }
    ensures never_falls { K.faults sink.old ≤ K.faults sink.new }
{
    let mut done = 0;
    while done < bytes.len() {
        let taken = sink.write(&bytes[done..])?;
        done += taken;
    }
    Ok(())
}

/// A sink over any writer, as standard output. Contracts do not know its bytes.
#[derive(Drop)]
pub struct StdSink<W> {
    writer: W,
    /// Why the last write failed.
    error: Option<io::Error>,
    faults: u64,
}

impl<W> Model for StdSink<W> {
    ghost Value = { ℕ };

    ghost view = { λ s. s.faults };
}

impl<W: Write> StdSink<W> {
    /// Makes a sink that writes to `writer`. Contracts see it as its count of faults.
    pub fn make(writer: W) -> StdSink<W>
        ensures { result ≡ 0 }
    {
        StdSink {
            writer,
            error: None,
            faults: 0,
        }
    }

    /// Returns why the last write failed.
    pub fn error(&self) -> Option<io::Error> {
        self.error
    }

    /// Writes once, and flushes.
    fn write_once(&mut self, piece: &[u8]) -> io::Result<usize>
        requires { 0 < length piece.now }
        ensures some { IfOk result (λ n. (0 < n) × (n ≤ length piece.now)) }
        ensures steady { self.new ≡ self.old }
    {
        let count = self.writer.write(piece)?;
        if count == 0 {
            return Err(io::Error::from(ErrorKind::WriteZero));
        }
        self.writer.flush()?;
        Ok(count)
    }
}

impl<W: Write> Sink for StdSink<W> {
    ghost written = { λ _. None };

    ghost faults = { λ s. s };

    /// Writes once to the writer and flushes it, so that no byte stays in a buffer. Each error is a
    /// fault, and so is a write that takes no byte.
    fn write(&mut self, piece: &[u8]) -> Result<usize, Failed>
        requires { 0 < length piece.now }
        ensures some { IfOk result (λ n. (0 < n) × (n ≤ length piece.now)) }
        ensures steady { OnOk result (self.new ≡ self.old) }
        ensures counted { OnErr result (self.new ≡ raised self.old) }
        ensures cause { OnErr result (Rose self.old self.new) }
        ensures never_falls { self.old ≤ self.new }
    {
        match self.write_once(piece) {
            Ok(count) => Ok(count),
            Err(error) => {
                self.error = Some(error);
                Err(fault(&mut self.faults))
            }
        }
    }
}

/// A sink that takes all bytes, keeps none, and never fails. Contracts do not know the bytes.
#[derive(Clone, Copy)]
pub struct SureSink;

impl SureSink {
    /// Makes a sink that keeps nothing.
    pub fn make() -> SureSink {
        SureSink
    }
}

impl Sink for SureSink {
    ghost written = { λ _. None };

    ghost faults = { λ _. 0 };

    /// Takes the whole piece.
    fn write(&mut self, piece: &[u8]) -> Result<usize, Failed>
        requires { 0 < length piece.now }
        ensures sure { IsOk result }
        ensures whole { IfOk result (λ n. n ≡ length piece.now) }
    {
        Ok(piece.len())
    }
}

/// A sink that keeps its bytes in memory, and fails the calls that its maker chose.
#[derive(Drop)]
pub struct MemSink {
    bytes: Vec<u8>,
    failing: FailingCalls,
    starved: u64,
}

impl Model for MemSink {
    ghost use Rattle.host_io.specs.MemSink.{SinkState};

    ghost Value = { SinkState };

    ghost view = { λ s. record {
      bytes = s.bytes.items;
      fails = s.failing.fails.items;
      calls = s.failing.calls;
      faults = s.failing.faults;
      starved = s.starved;
    } };
}

impl MemSink {
    /// Makes an empty sink. The calls of `write` whose numbers, from 0, are in `fails` will fail.
    pub fn make(alloc: Global, fails: &[u64]) -> Result<MemSink, Memory>
        ensures { IfOk result (λ sink. sink ≡ record {
          bytes = [];
          fails = fails.now;
          calls = 0;
          faults = 0;
          starved = 0;
        }) }
    {
        Ok(MemSink {
            bytes: Vec::new(alloc),
            failing: FailingCalls::make(alloc, fails)?,
            starved: 0,
        })
    }

    /// Returns the bytes that were written.
    pub fn bytes(&self) -> &[u8]
        ensures { result.now ≡ self.now.bytes }
    {
        &self.bytes
    }

    /// Returns how many calls found no memory for their piece; the count stops at 2^64 - 1.
    pub fn starved(&self) -> u64
        ensures { result ≡ self.now.starved }
    {
        self.starved
    }
}

impl Sink for MemSink {
    ghost written = { λ s. Some s.bytes };

    ghost faults = { λ s. s.faults };

    /// Takes the whole piece. Fails if the call was chosen to, and otherwise only if there is no
    /// memory for the piece.
    fn write(&mut self, piece: &[u8]) -> Result<usize, Failed>
        requires { 0 < length piece.now }
        ensures whole { IfOk result (λ n. n ≡ length piece.now) }
        ensures kept { OnOk result (self.new ≡ sink_after_write self.old piece.now) }
        ensures chosen_fails { Contains self.old.fails self.old.calls → IsErr result }
        ensures chosen { Contains self.old.fails self.old.calls →
            self.new ≡ sink_after_fault self.old }
        ensures starved { OnErr result (¬ Contains self.old.fails self.old.calls →
            self.new ≡ sink_after_no_memory self.old) }
        ensures err { OnErr result (self.new.bytes ≡ self.old.bytes) }
        ensures cause { OnErr result (Rose self.old.faults self.new.faults) }
        ensures never_falls { self.old.faults ≤ self.new.faults }
    {
        self.failing.begin()?;
        if self.bytes.extend_from_slice(piece).is_err() {
            self.starved = self.starved.saturating_add(1);
            return Err(fault(&mut self.failing.faults));
        }
        Ok(piece.len())
    }
}
