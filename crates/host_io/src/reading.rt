//! `read_past` reads a file in pieces of at most `PIECE` (65,536) bytes, up to a limit and one byte
//! more.

ghost use Rattle.std.specs.Prelude.{◌≡◌, ◌+◌, ◌<◌, ◌≤◌, ◌++◌, length, take, drop, vec_len, IfOk, IfSome, IsErrOf};
ghost use Rattle.host_io.specs.Calls.{IsReadOf, OnlyCalls};
ghost use Rattle.host_io.specs.Faults.{Rose};
ghost use Rattle.host_io.specs.Files.{IsThere, known_bytes};
ghost use Rattle.host_io.specs.Past.{files_of};

use crate::failed::ReadFault;
use crate::folder::Folder;
use crate::name::Name;
use std::alloc::{AllocError, Global};

/// The bytes that a file is read or a text is written in at once, at most.
pub const PIECE: usize = 65_536;

/// Makes room for one read.
pub fn room(alloc: Global) -> Result<Vec<u8>, AllocError>
    ensures { IfOk result (λ piece. vec_len piece ≡ PIECE) }
{
    vec![in alloc; 0u8; PIECE]
}

/// Appends the bytes of one read, from the offset `text.len()` on, to `text`. Returns how many they
/// are; 0 is the end of the file.
#[tactic(auto, using(crate::proofs::Asking::read_ok, crate::proofs::Asking::read_err))]
fn read_piece<F: Folder>(
    folder: &mut F,
    name: Name,
    piece: &mut [u8],
    text: &mut Vec<u8>,
) -> Result<usize, ReadFault>
    requires room { 0 < length piece.old }
    requires there { IsThere (files_of (F.past folder.old)) name }
    requires inside { IfSome (known_bytes (files_of (F.past folder.old)) name) (λ bytes.
        vec_len text.old ≤ length bytes) }
    ensures appended { IfOk result (λ n.
        IfSome (known_bytes (files_of (F.past folder.old)) name) (λ bytes.
        text.new.items ≡ text.old.items ++ take n (drop (vec_len text.old) bytes))) }
    ensures end { IfOk result (λ n. n ≡ 0 →
        IfSome (known_bytes (files_of (F.past folder.old)) name) (λ bytes.
        length bytes ≤ vec_len text.old)) }
    ensures grown { IfOk result (λ n. vec_len text.new ≡ vec_len text.old + n) }
    ensures within { IfOk result (λ n. n ≤ length piece.old) }
    ensures same { F.past folder.new ≡ F.past folder.old }
    ensures cause { IsErrOf result ReadFault.Failed →
        Rose (F.faults folder.old) (F.faults folder.new) }
    ensures never_falls { F.faults folder.old ≤ F.faults folder.new }
    ensures asks { OnlyCalls (IsReadOf name) (F.calls folder.old) (F.calls folder.new) }
{
    let count = folder.read(name, text.len() as u64, piece)?;
    text.extend_from_slice(&piece[..count])?;
    Ok(count)
}

/// Returns the first `limit + 1` bytes of a file, or all of them if they are fewer.
#[tactic(auto, using(crate::proofs::Asking::none, crate::proofs::Asking::reads_then))]
pub fn read_past<F: Folder>(
    alloc: Global,
    folder: &mut F,
    name: Name,
    limit: u64,
) -> Result<Vec<u8>, ReadFault>
    requires there { IsThere (files_of (F.past folder.old)) name }
    ensures found { IfOk result (λ text.
        IfSome (known_bytes (files_of (F.past folder.old)) name) (λ bytes.
        text.items ≡ take (limit + 1) bytes)) }
    ensures same { F.past folder.new ≡ F.past folder.old }
    ensures cause { IsErrOf result ReadFault.Failed →
        Rose (F.faults folder.old) (F.faults folder.new) }
    ensures never_falls { F.faults folder.old ≤ F.faults folder.new }
    ensures asks { OnlyCalls (IsReadOf name) (F.calls folder.old) (F.calls folder.new) }
{
    let mut piece = room(alloc)?;
    let mut text = Vec::new(alloc);
    while text.len() as u64 <= limit {
        let more = (limit - text.len() as u64).saturating_add(1);
        let wanted = more.min(PIECE as u64) as usize;
        let count = read_piece(folder, name, &mut piece[..wanted], &mut text)?;
        if count == 0 {
            return Ok(text);
        }
    }
    Ok(text)
}
