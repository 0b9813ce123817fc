//! `read_input` reads a whole input up to a limit; `InputFault` says why it could not.

ghost use Rattle.std.specs.Prelude.{◌≡◌, ◌+◌, ◌<◌, ◌≤◌, ◌↔◌, ◌++◌, [], length, drop, take, IfOk, IfSome, IsErrOf, Some, vec_len};
ghost use Rattle.host_io.specs.Faults.{Rose};
ghost use Rattle.host_io.specs.Reading.{TakesAtMost};
ghost use Rattle.raw_file.specs.Input.{IsInput, IsLong};

use host_io::{Bytes, PIECE, ReadFault, Source, room};
use std::alloc::Global;

/// Why an input is not read.
#[derive(Clone, Copy, Debug, PartialEq, Eq)]
pub enum InputFault {
    /// A read failed.
    Failed,
    /// The input has more bytes than the limit.
    TooLarge,
    /// Out of memory.
    Memory,
}

/// Reads once, at most `piece.len()` bytes, and appends them to `text`. Returns how many they are;
/// 0 is the end of the input. If memory runs out, they are lost.
fn read_piece<L: Source>(
    source: &mut L,
    piece: &mut [u8],
    text: &mut Vec<u8>,
) -> Result<usize, ReadFault>
    requires room { 0 < length piece.old }
    ensures appended { IfOk result (λ n. IfSome (L.left source.old) (λ bytes.
        text.new.items ≡ text.old.items ++ take n bytes)) }
    ensures left { IfOk result (λ n. IfSome (L.left source.old) (λ bytes.
        L.left source.new ≡ Some (drop n bytes))) }
    ensures grown { IfOk result (λ n. vec_len text.new ≡ vec_len text.old + n) }
    ensures within { IfOk result (λ n. n ≤ length piece.old) }
    ensures end { IfOk result (λ n.
        IfSome (L.left source.old) (λ bytes. (n ≡ 0) ↔ (bytes ≡ []))) }
    ensures taken { TakesAtMost (L.left source.old) (L.left source.new) (length piece.old) }
    ensures cause { IsErrOf result ReadFault.Failed →
        Rose (L.faults source.old) (L.faults source.new) }
    ensures never_falls { L.faults source.old ≤ L.faults source.new }
{
    let count = source.read(piece)?;
    text.extend_from_slice(&piece[..count])?;
    Ok(count)
}

/// Reads an input to its end, which is at most `limit` bytes away.
pub fn read_input<L: Source>(
    alloc: Global,
    source: &mut L,
    limit: usize,
) -> Result<Bytes, InputFault>
    requires few { limit < 4294967296 }
    ensures found { IfOk result (IsInput limit (L.left source.old) (L.left source.new)) }
    ensures too_large { IsErrOf result InputFault.TooLarge →
        IsLong limit (L.left source.old) (L.left source.new) }
    ensures taken { TakesAtMost (L.left source.old) (L.left source.new) (limit + 1) }
    ensures cause { IsErrOf result InputFault.Failed →
        Rose (L.faults source.old) (L.faults source.new) }
    ensures never_falls { L.faults source.old ≤ L.faults source.new }
{
    let Ok(mut piece) = room(alloc) else {
        return Err(InputFault::Memory);
    };
    let mut text = Vec::new(alloc);
    while text.len() <= limit {
        let max = PIECE.min(limit - text.len() + 1);
        match read_piece(source, &mut piece[..max], &mut text) {
            Ok(0) => return Ok(Bytes::of(text)),
            Ok(_) => {}
            Err(ReadFault::Failed) => return Err(InputFault::Failed),
            Err(ReadFault::Memory) => return Err(InputFault::Memory),
        }
    }
    Err(InputFault::TooLarge)
}
