//! `LogReader` and `LogFault`: the next line, whether it is too long, and a last line without a
//! line feed.

ghost use Rattle.std.specs.Prelude.{◌≡◌, ◌+◌, ◌<◌, ◌≤◌, ◌∷◌, ◌++◌, length, take, drop, IfSome, IfNone};
ghost use Rattle.host_io.specs.declared.lines.TheConstants.{LINE_FEED};
ghost use Rattle.log_run.specs.Log.{HasNoFeed};

use crate::buffer::Buffer;
use crate::sizes::{MAX_LINE, MAX_LOG, MAX_READ};
use host_io::{LINE_FEED, ReadFault, Source};
use memchr::memchr;
use std::alloc::Global;
use std::marker::Model;

/// Why there is no next line.
#[derive(Clone, Copy)]
pub enum LogFault {
    /// A read failed.
    Failed,
    /// The next line has more bytes than `MAX_LINE`.
    LineTooLong,
    /// The log has more bytes than `MAX_LOG`, and no line is left that ends within that many.
    LogTooLong,
    /// Out of memory.
    Memory,
}

/// Reads a log in pieces, and gives its lines one after another. Nothing is read while a whole line
/// waits, and what waits is at most a line and one read.
#[derive(Drop)]
pub struct LogReader {
    buffer: Buffer,
    /// So many of the first bytes that wait have no line feed.
    searched: usize,
    taken: usize,
    is_ended: bool,
}

impl Model for LogReader {
    ghost use Rattle.log_run.specs.Inside.{IsReader};
    ghost use Rattle.log_run.specs.Reading.{Reading};

    ghost Value = { Reading };

    ghost view = { λ r. record { waiting = r.buffer; taken = r.taken; is_ended = r.is_ended } };

    ghost invariant = { λ r. IsReader r.buffer r.searched r.taken r.is_ended };
}

impl LogReader {
    ghost use Rattle.std.specs.Prelude.{◌≡◌, ◌≢◌, ◌+◌, ◌<◌, ◌≤◌, ℕ, List, [], length, drop, take, true, false, IsTrue, IfOk, IfErr, IfSome, IfNone, Ok, Err, Some, None, OnOk, OnErr, IsErrOf};
    ghost use Rattle.host_io.specs.Faults.{Rose};
    ghost use Rattle.host_io.specs.Reading.{MovesBytes};
    ghost use Rattle.log_run.specs.Log.{HasNoFeed, IsAtEnd};
    ghost use Rattle.log_run.specs.Reading.{HasMore, HasNoLine, HasRead, IsLine, IsLong};
    ghost use Rattle.log_run.specs.Reading.{WaitsForMore};

    /// Makes a reader of a log of which nothing was read. Takes no memory.
    pub fn make(alloc: Global) -> LogReader
        ensures { result ≡ record { waiting = []; taken = 0; is_ended = false } }
    {
        LogReader {
            buffer: Buffer::make(alloc),
            searched: 0,
            taken: 0,
            is_ended: false,
        }
    }

    /// Returns the first `count` bytes that wait.
    pub fn line(&self, count: usize) -> &[u8]
        requires { count ≤ length self.now.waiting }
        ensures { result.now ≡ take count self.now.waiting }
    {
        &self.buffer.bytes()[..count]
    }

    /// Drops the next line, which has `count` bytes, and its line feed.
    pub fn advance(&mut self, count: usize)
        requires { IsLine self.old count }
        ensures { self.new ≡ record self.old { waiting = drop (count + 1) self.old.waiting } }
    {
        let all = self.buffer.bytes().len();
        self.buffer.forget(all.min(count.saturating_add(1)));
        self.searched = 0;
    }

    /// Reads once. No line waits.
    fn read_more<L: Source>(&mut self, source: &mut L) -> Result<(), LogFault>
        requires goes_on { self.old.is_ended ≡ false }
        requires none { HasNoFeed self.old.waiting }
        requires few { length self.old.waiting ≤ MAX_LINE }
        ensures read { OnOk result ((piece : List ℕ) × HasRead piece self.old self.new
            × (self.new.is_ended ≡ false → 0 < length piece)) }
        ensures moved { OnOk result (MovesBytes (L.left source.old) (L.left source.new)
            self.old.waiting self.new.waiting) }
        ensures end { OnOk result (IsTrue self.new.is_ended → (self.new.waiting ≡ self.old.waiting)
            × IsAtEnd (L.left source.new)) }
        ensures more { IsErrOf result LogFault.LogTooLong → (self.old.taken ≡ MAX_LOG)
            × HasMore self.old self.new (L.left source.old) (L.left source.new) }
        ensures err { OnErr result (self.new ≡ self.old) }
        ensures same { (fault : LogFault) → result ≡ Err fault → fault ≢ LogFault.LogTooLong →
            L.left source.new ≡ L.left source.old }
        ensures no_line { result ≢ Err LogFault.LineTooLong }
        ensures within { self.new.taken ≤ MAX_LOG }
        ensures unknown { IfNone (L.left source.old) (L.left source.new ≡ None) }
        ensures cause { IsErrOf result LogFault.Failed →
            Rose (L.faults source.old) (L.faults source.new) }
        ensures never_falls { L.faults source.old ≤ L.faults source.new }
    {
        let max = MAX_READ.min(MAX_LOG - self.taken);
        if max == 0 {
            let mut byte = [0u8; 1];
            let Ok(count) = source.read(&mut byte) else {
                return Err(LogFault::Failed);
            };
            if count == 0 {
                self.is_ended = true;
                return Ok(());
            }
            return Err(LogFault::LogTooLong);
        }
        let waiting = self.buffer.bytes().len();
        match self.buffer.read(source, max) {
            Ok(count) => {
                self.searched = waiting;
                self.taken += count;
                self.is_ended = count == 0;
                Ok(())
            }
            Err(ReadFault::Failed) => Err(LogFault::Failed),
            Err(ReadFault::Memory) => Err(LogFault::Memory),
        }
    }

    /// Returns the number of bytes of the next line if a line feed ends it.
    fn find_line(&mut self) -> Result<Option<usize>, LogFault>
        requires goes_on { self.old.is_ended ≡ false }
        ensures found { IfOk result (λ found. IfSome found (λ n. IsLine self.new n)) }
        ensures none { IfOk result (λ found. IfNone found (HasNoLine self.new)) }
        ensures fault { IfErr result (λ fault. fault ≡ LogFault.LineTooLong) }
        ensures long { OnErr result (IsLong self.new) }
        ensures same { self.new ≡ self.old }
    {
        if let Some(count) = find_feed(self.buffer.bytes(), self.searched) {
            if count <= MAX_LINE {
                return Ok(Some(count));
            }
            return Err(LogFault::LineTooLong);
        }
        let count = self.buffer.bytes().len();
        self.searched = count;
        if count <= MAX_LINE {
            return Ok(None);
        }
        Err(LogFault::LineTooLong)
    }

    /// Returns the number of bytes of the next line if a line feed ends it and it is not too long.
    /// Nothing is read.
    pub fn waiting_line(&mut self) -> Option<usize>
        ensures found { IfSome result (λ n. IsLine self.new n) }
        ensures none { IfNone result (WaitsForMore self.new) }
        ensures same { self.new ≡ self.old }
    {
        if self.is_ended {
            return None;
        }
        match self.find_line() {
            Ok(found) => found,
            Err(_) => None,
        }
    }

    /// Returns the number of bytes of the next line, or `None` at the end of the log. Reads until
    /// a whole line waits.
    pub fn next_line<L: Source>(&mut self, source: &mut L) -> Result<Option<usize>, LogFault>
        ensures found { IfOk result (λ found. IfSome found (λ n. IsLine self.new n)) }
        ensures none { IfOk result (λ found. IfNone found ((self.new.waiting ≡ [])
            × IsTrue self.new.is_ended)) }
        ensures read { (piece : List ℕ) × HasRead piece self.old self.new }
        ensures moved { result ≢ Err LogFault.LogTooLong →
            MovesBytes (L.left source.old) (L.left source.new) self.old.waiting self.new.waiting }
        ensures end { (IsTrue self.old.is_ended → IsAtEnd (L.left source.old)) →
            IsTrue self.new.is_ended → IsAtEnd (L.left source.new) }
        ensures still { IsTrue self.old.is_ended → self.new ≡ self.old }
        ensures long { result ≡ Err LogFault.LineTooLong → IsLong self.new }
        ensures more { result ≡ Err LogFault.LogTooLong → HasNoLine self.new
            × (self.new.taken ≡ MAX_LOG) × (self.new.is_ended ≡ false)
            × HasMore self.old self.new (L.left source.old) (L.left source.new) }
        ensures failed { result ≡ Err LogFault.Failed → HasNoLine self.new
            × Rose (L.faults source.old) (L.faults source.new) }
        ensures within { self.old.taken ≤ MAX_LOG → self.new.taken ≤ MAX_LOG }
        ensures unknown { IfNone (L.left source.old) (L.left source.new ≡ None) }
        ensures never_falls { L.faults source.old ≤ L.faults source.new }
    {
        while !self.is_ended {
            match self.find_line() {
                Ok(Some(count)) => return Ok(Some(count)),
                Ok(None) => {}
                Err(fault) => return Err(fault),
            }
            if let Err(fault) = self.read_more(source) {
                return Err(fault);
            }
        }
        self.last_line()
    }

    /// Returns the number of bytes of the last line, which no line feed ends, if there is one. The
    /// log has ended.
    fn last_line(&self) -> Result<Option<usize>, LogFault>
        requires ended { IsTrue self.now.is_ended }
        ensures found { IfOk result (λ found. IfSome found (λ n. IsLine self.now n)) }
        ensures none { IfOk result (λ found. IfNone found (self.now.waiting ≡ [])) }
        ensures fault { IfErr result (λ fault. fault ≡ LogFault.LineTooLong) }
        ensures long { OnErr result (IsLong self.now) }
    {
        let length = self.buffer.bytes().len();
        if length == 0 {
            return Ok(None);
        }
        if length <= MAX_LINE {
            return Ok(Some(length));
        }
        Err(LogFault::LineTooLong)
    }
}

/// Returns the position of the first line feed.
fn first_feed(bytes: &[u8]) -> Option<usize>
    ensures found { IfSome result (λ n. (n < length bytes.now)
        × (bytes.now ≡ take n bytes.now ++ LINE_FEED ∷ drop (n + 1) bytes.now)) }
    ensures first { IfSome result (λ n. HasNoFeed (take n bytes.now)) }
    ensures none { IfNone result (HasNoFeed bytes.now) }
{
    memchr(LINE_FEED, bytes)
}

/// Returns the position of the first line feed. The first `searched` bytes have none.
pub(crate) fn find_feed(bytes: &[u8], searched: usize) -> Option<usize>
    requires within { searched ≤ length bytes.now }
    requires searched { HasNoFeed (take searched bytes.now) }
    ensures found { IfSome result (λ n. (n < length bytes.now)
        × (bytes.now ≡ take n bytes.now ++ LINE_FEED ∷ drop (n + 1) bytes.now)) }
    ensures first { IfSome result (λ n. HasNoFeed (take n bytes.now)) }
    ensures none { IfNone result (HasNoFeed bytes.now) }
{
    match first_feed(&bytes[searched..]) {
        Some(at) => Some(searched + at),
        None => None,
    }
}
