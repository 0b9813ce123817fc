//! The trait `Source` of inputs, and three inputs: `StdSource`, `SureSource`, and `MemSource`,
//! which gives its bytes in pieces.

ghost use Rattle.std.specs.Prelude.{◌≡◌, ℕ, ◌<◌, ◌≤◌, ◌↔◌, ◌++◌, List, [], length, take, drop, IfOk, IfSome, IfNone, OnErr, Option, OnOk, None, min, IsOk, Some, vec_len, Contains, IsErr};
ghost use Rattle.host_io.specs.Faults.{Rose, raised};
ghost use Rattle.host_io.specs.MemSource.{source_after_read, source_after_fault};

use crate::failed::{Failed, FailingCalls, fault};
use memory::Memory;
use std::alloc::Global;
use std::io;
use std::io::Read;
use std::marker::Model;

/// Where bytes come from, as the input of a program.
pub trait Source {
    /// The bytes that are left; `None` if contracts do not know them.
    ghost left: { Self → Option (List ℕ) };

    /// How often it has failed; the count stops at 2^64 - 1.
    ghost faults: { Self → ℕ };

    /// Moves the next bytes to the start of `buf` and returns how many; 0 is the end of the input.
    fn read(&mut self, buf: &mut [u8]) -> Result<usize, Failed>
        requires { 0 < length buf.old }
        ensures within { IfOk result (λ n. n ≤ length buf.old) }
        ensures available { IfOk result (λ n. IfSome (left self.old) (λ bytes. n ≤ length bytes)) }
        ensures taken { IfOk result (λ n. IfSome (left self.old) (λ bytes.
            left self.new ≡ Some (drop n bytes))) }
        ensures copied { IfOk result (λ n. IfSome (left self.old) (λ bytes.
            buf.new ≡ take n bytes ++ drop n buf.old)) }
        ensures end { IfOk result (λ n. IfSome (left self.old) (λ bytes. (n ≡ 0) ↔ (bytes ≡ []))) }
        ensures err { OnErr result (left self.new ≡ left self.old) }
        ensures unknown { IfNone (left self.old) (left self.new ≡ None) }
        ensures cause { OnErr result (Rose (faults self.old) (faults self.new)) }
        ensures never_falls { faults self.old ≤ faults self.new };
}

/// A source over any reader, as standard input. Contracts do not know its bytes.
#[derive(Drop)]
pub struct StdSource<R> {
    reader: R,
    /// Why the last read failed.
    error: Option<io::Error>,
    faults: u64,
}

impl<R> Model for StdSource<R> {
    ghost Value = { ℕ };

    ghost view = { λ s. s.faults };
}

impl<R: Read> StdSource<R> {
    /// Makes a source that reads `reader`. Contracts see it as its count of faults.
    pub fn make(reader: R) -> StdSource<R>
        ensures { result ≡ 0 }
    {
        StdSource {
            reader,
            error: None,
            faults: 0,
        }
    }

    /// Returns why the last read failed.
    pub fn error(&self) -> Option<io::Error> {
        self.error
    }
}

impl<R: Read> Source for StdSource<R> {
    ghost left = { λ _. None };

    ghost faults = { λ s. s };

    /// Reads once from the reader. Each of its errors is a fault.
    fn read(&mut self, buf: &mut [u8]) -> Result<usize, Failed>
        requires { 0 < length buf.old }
        ensures within { IfOk result (λ n. n ≤ length buf.old) }
        ensures steady { OnOk result (self.new ≡ self.old) }
        ensures counted { OnErr result (self.new ≡ raised self.old) }
        ensures cause { OnErr result (Rose self.old self.new) }
        ensures never_falls { self.old ≤ self.new }
    {
        match self.reader.read(buf) {
            Ok(count) => Ok(count),
            Err(error) => {
                self.error = Some(error);
                Err(fault(&mut self.faults))
            }
        }
    }
}

/// A source over a lent slice. It never fails.
#[derive(Drop)]
pub struct SureSource<'a> {
    left: &'a [u8],
}

impl<'a> Model for SureSource<'a> {
    ghost Value = { List ℕ };

    ghost view = { λ s. s.left.now };
}

impl<'a> SureSource<'a> {
    /// Makes a source that gives `bytes`.
    pub fn make(bytes: &'a [u8]) -> SureSource<'a>
        ensures { result ≡ bytes.now }
    {
        SureSource { left: bytes }
    }
}

impl<'a> Source for SureSource<'a> {
    ghost left = { λ s. Some s };

    ghost faults = { λ _. 0 };

    /// Gives as many bytes as are asked for and are left.
    fn read(&mut self, buf: &mut [u8]) -> Result<usize, Failed>
        requires { 0 < length buf.old }
        ensures sure { IsOk result }
        ensures many { IfOk result (λ n. n ≡ min (length buf.old) (length self.old)) }
        ensures copied { IfOk result (λ n. buf.new ≡ take n self.old ++ drop n buf.old) }
        ensures advanced { IfOk result (λ n. self.new ≡ drop n self.old) }
    {
        let count = buf.len().min(self.left.len());
        buf[..count].copy_from_slice(&self.left[..count]);
        self.left = &self.left[count..];
        Ok(count)
    }
}

/// A source over bytes in memory. It gives them piece by piece, and fails the calls that its
/// maker chose.
#[derive(Drop)]
pub struct MemSource {
    bytes: Vec<u8>,
    at: usize,
    piece: usize,
    failing: FailingCalls,
}

impl Model for MemSource {
    ghost use Rattle.std.specs.Prelude.{◌≤◌, vec_len, drop};
    ghost use Rattle.host_io.specs.MemSource.{SourceState};

    ghost Value = { SourceState };

    ghost view = { λ s. record {
      left = drop s.at s.bytes.items;
      piece = s.piece;
      fails = s.failing.fails.items;
      calls = s.failing.calls;
      faults = s.failing.faults;
    } };

    ghost invariant = { λ s. (s.at ≤ vec_len s.bytes) × (1 ≤ s.piece) };
}

impl MemSource {
    /// Makes a source that gives `bytes`, at most `piece` of them a call. The calls of `read` whose
    /// numbers, from 0, are in `fails` will fail.
    pub fn make(
        alloc: Global,
        bytes: &[u8],
        piece: usize,
        fails: &[u64],
    ) -> Result<MemSource, Memory>
        requires { 1 ≤ piece }
        ensures { IfOk result (λ source. source ≡ record {
          left = bytes.now;
          piece = piece;
          fails = fails.now;
          calls = 0;
          faults = 0;
        }) }
    {
        Ok(MemSource {
            bytes: bytes.to_vec(alloc)?,
            at: 0,
            piece,
            failing: FailingCalls::make(alloc, fails)?,
        })
    }
}

impl Source for MemSource {
    ghost left = { λ s. Some s.left };

    ghost faults = { λ s. s.faults };

    /// Gives as many bytes as are asked for, are left, and make a piece.
    fn read(&mut self, buf: &mut [u8]) -> Result<usize, Failed>
        requires { 0 < length buf.old }
        ensures chosen { IsErr result ↔ Contains self.old.fails self.old.calls }
        ensures many { IfOk result (λ n.
            n ≡ min (min self.old.piece (length buf.old)) (length self.old.left)) }
        ensures copied { IfOk result (λ n. buf.new ≡ take n self.old.left ++ drop n buf.old) }
        ensures advanced { IfOk result (λ n. self.new ≡ source_after_read self.old n) }
        ensures counted { OnErr result (self.new ≡ source_after_fault self.old) }
        ensures kept { OnErr result (buf.new ≡ buf.old) }
        ensures end { IfOk result (λ n. (n ≡ 0) ↔ (self.old.left ≡ [])) }
        ensures cause { OnErr result (Rose self.old.faults self.new.faults) }
        ensures never_falls { self.old.faults ≤ self.new.faults }
    {
        self.failing.begin()?;
        let left = &self.bytes[self.at..];
        let count = self.piece.min(buf.len()).min(left.len());
        buf[..count].copy_from_slice(&left[..count]);
        self.at += count;
        Ok(count)
    }
}
