//! `Buffer`: bytes that have been read and not used yet; it makes room and moves bytes to its
//! start.

ghost use Rattle.std.specs.Prelude.{◌≡◌, ◌+◌, ◌<◌, ◌≤◌, ◌↔◌, ℕ, [], length, drop, take, IfOk, IfSome, IfNone, OnErr, Some, None, vec_len};
ghost use Rattle.host_io.specs.Faults.{Rose};
ghost use Rattle.log_run.specs.Parts.{between};

use crate::sizes::MAX_READ;
use host_io::{Failed, ReadFault, Source};
use std::alloc::{AllocError, Global};
use std::marker::Model;

/// Bytes that were read and are not used yet. Contracts see them as a list.
#[derive(Drop)]
pub struct Buffer {
    /// The bytes from `start` to `end` are in use, the others are free.
    bytes: Vec<u8>,
    start: usize,
    end: usize,
}

impl Model for Buffer {
    ghost use Rattle.std.specs.Prelude.{◌≤◌, ℕ, List, vec_len};
    ghost use Rattle.log_run.specs.Parts.{between};

    ghost Value = { List ℕ };

    ghost view = { λ b. between b.start b.end b.bytes.items };

    ghost invariant = { λ b. (b.start ≤ b.end) × (b.end ≤ vec_len b.bytes) };
}

impl Buffer {
    ghost use Rattle.std.specs.Prelude.{◌≡◌, ◌+◌, ◌<◌, ◌≤◌, ◌↔◌, ◌++◌, ℕ, List, [], length, drop, IfOk, IfSome, IfNone, OnOk, OnErr, IsErrOf, None, vec_len};
    ghost use Rattle.host_io.specs.Faults.{Rose};
    ghost use Rattle.host_io.specs.Reading.{MovesBytes};

    /// Makes an empty buffer. Takes no memory.
    pub fn make(alloc: Global) -> Buffer
        ensures { result ≡ [] }
    {
        Buffer {
            bytes: Vec::new(alloc),
            start: 0,
            end: 0,
        }
    }

    /// Returns the bytes.
    pub fn bytes(&self) -> &[u8]
        ensures { result.now ≡ self.now }
    {
        &self.bytes[self.start..self.end]
    }

    /// Drops the first bytes.
    pub fn forget(&mut self, count: usize)
        requires { count ≤ length self.old }
        ensures { self.new ≡ drop count self.old }
    {
        self.start += count;
    }

    /// Reads once, at most `max` bytes, and returns how many; 0 is the end. If memory runs out,
    /// nothing is read.
    pub fn read<L: Source>(&mut self, source: &mut L, max: usize) -> Result<usize, ReadFault>
        requires some { 0 < max }
        requires one_read { max ≤ MAX_READ }
        ensures grown { IfOk result (λ n. (n ≤ max)
            × ((piece : List ℕ) × (self.new ≡ self.old ++ piece) × (length piece ≡ n))) }
        ensures moved { OnOk result (MovesBytes (L.left source.old) (L.left source.new)
            self.old self.new) }
        ensures end { IfOk result (λ n.
            IfSome (L.left source.old) (λ bytes. (n ≡ 0) ↔ (bytes ≡ []))) }
        ensures err { OnErr result ((self.new ≡ self.old)
            × (L.left source.new ≡ L.left source.old)) }
        ensures unknown { IfNone (L.left source.old) (L.left source.new ≡ None) }
        ensures cause { IsErrOf result ReadFault.Failed →
            Rose (L.faults source.old) (L.faults source.new) }
        ensures never_falls { L.faults source.old ≤ L.faults source.new }
    {
        let (start, end) = make_room(&mut self.bytes, self.start, self.end, max)?;
        self.start = start;
        self.end = end;
        let count = read_after(&mut self.bytes, self.end, max, source)?;
        self.end += count;
        Ok(count)
    }
}

/// Moves the bytes from `start` to `end` to the start of the buffer.
fn move_to_front(bytes: &mut [u8], start: usize, end: usize)
    requires order { start ≤ end }
    requires within { end ≤ length bytes.old }
    ensures moved { (count : ℕ) → start + count ≡ end →
        between 0 count bytes.new ≡ between start end bytes.old }
    ensures len { length bytes.new ≡ length bytes.old }
{
    bytes.copy_within(start..end, 0);
}

/// Makes room for `count` bytes after those from `start` to `end`, which may move. Returns where
/// they start and end then. If memory runs out, nothing changes.
pub(crate) fn make_room(
    bytes: &mut Vec<u8>,
    start: usize,
    end: usize,
    count: usize,
) -> Result<(usize, usize), AllocError>
    requires order { start ≤ end }
    requires within { end ≤ vec_len bytes.old }
    requires one_read { count ≤ MAX_READ }
    ensures same { IfOk result (λ p.
        between p.0 p.1 bytes.new.items ≡ between start end bytes.old.items) }
    ensures order { IfOk result (λ p. p.0 ≤ p.1) }
    ensures room { IfOk result (λ p. p.1 + count ≤ vec_len bytes.new) }
    ensures err { OnErr result (bytes.new.items ≡ bytes.old.items) }
{
    if count <= bytes.len() - end {
        return Ok((start, end));
    }
    let used = end - start;
    let wanted = used.saturating_add(count);
    if bytes.len() < wanted {
        bytes.resize(wanted.max(bytes.len().saturating_mul(2)), 0)?;
    }
    move_to_front(bytes.as_mut_slice(), start, end);
    Ok((0, used))
}

/// Reads once into the `max` bytes after `end`, and returns how many bytes it read.
pub(crate) fn read_after<L: Source>(
    bytes: &mut Vec<u8>,
    end: usize,
    max: usize,
    source: &mut L,
) -> Result<usize, Failed>
    requires room { end + max ≤ vec_len bytes.old }
    requires some { 0 < max }
    ensures len { vec_len bytes.new ≡ vec_len bytes.old }
    ensures before { take end bytes.new.items ≡ take end bytes.old.items }
    ensures within { IfOk result (λ n. n ≤ max) }
    ensures taken { IfOk result (λ n. IfSome (L.left source.old) (λ left.
        (n ≤ length left) × (L.left source.new ≡ Some (drop n left)))) }
    ensures copied { IfOk result (λ n. IfSome (L.left source.old) (λ left.
        take n (drop end bytes.new.items) ≡ take n left)) }
    ensures end { IfOk result (λ n. IfSome (L.left source.old) (λ left. (n ≡ 0) ↔ (left ≡ []))) }
    ensures err { OnErr result (L.left source.new ≡ L.left source.old) }
    ensures unknown { IfNone (L.left source.old) (L.left source.new ≡ None) }
    ensures cause { OnErr result (Rose (L.faults source.old) (L.faults source.new)) }
    ensures never_falls { L.faults source.old ≤ L.faults source.new }
{
    source.read(&mut bytes[end..end + max])
}
