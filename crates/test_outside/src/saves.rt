//! Saves of peers.dat in the current folder, at once and in pieces, and what is loaded after each.

use host_io::{Bytes, DirFolder, Failed, Folder, Lock, Name};
use save_store::{LoadFault, SaveJob, load, save};
use std::alloc::{AllocError, Global};
use std::io;
use std::rt::Files;

/// Saves the bytes by a job: the first byte, no byte, and the rest.
fn save_in_pieces<F: Folder>(folder: &mut F, bytes: Bytes) -> Result<(), Failed> {
    let job = SaveJob::begin(folder, Name::PeersTemp, bytes)?;
    let job = job.step(folder, 1)?;
    let job = job.step(folder, 0)?;
    job.end(folder, Name::Peers)
}

/// Prints what was loaded.
fn print_load<R: Print>(rt: &R, loaded: &Result<Option<Bytes>, LoadFault>) -> io::Result<()> {
    match loaded {
        Ok(Some(bytes)) => {
            let text = str::from_utf8(bytes.items()).unwrap_or("no text");
            println!(rt; "loaded: {text:?}")
        }
        Ok(None) => println!(rt; "loaded: absent"),
        Err(fault) => println!(rt; "loaded: {fault:?}"),
    }
}

/// Prints what is loaded of peers.dat, up to `limit` bytes.
pub(crate) fn print_loaded<R: Print + AllocGlobal, F: Folder>(
    rt: &R,
    folder: &mut F,
    limit: u64,
) -> io::Result<()> {
    let loaded = load(rt.alloc(), folder, Name::Peers, limit);
    print_load(rt, &loaded)
}

/// Prints the outcome of a save, and what is loaded after it, up to six bytes.
fn print_saved<R: Print + AllocGlobal, F: Folder>(
    rt: &R,
    folder: &mut F,
    saved: Result<(), Failed>,
) -> io::Result<()> {
    println!(rt; "saved: {saved:?}")?;
    print_loaded(rt, folder, 6)
}

/// Makes a file that takes more than one read.
fn long_bytes(alloc: Global) -> Result<Vec<u8>, AllocError> {
    let mut bytes = Vec::new(alloc);
    for index in 0..70_000u32 {
        bytes.push((index % 251) as u8)?;
    }
    Ok(bytes)
}

/// Prints whether these bytes were loaded, and what was if not.
fn print_same<R: Print>(
    rt: &R,
    loaded: &Result<Option<Bytes>, LoadFault>,
    bytes: &[u8],
) -> io::Result<()> {
    match loaded {
        Ok(Some(loaded)) => {
            let same = loaded.items() == bytes;
            println!(rt; "loaded the same: {same}")
        }
        _ => print_load(rt, loaded),
    }
}

/// Saves a long file, and prints whether the same bytes are loaded.
fn print_long<R: Print + AllocGlobal, F: Folder>(
    rt: &R,
    folder: &mut F,
    bytes: &[u8],
) -> io::Result<()> {
    let saved = save(folder, Name::PeersTemp, Name::Peers, bytes);
    println!(rt; "saved: {saved:?}")?;
    let loaded = load(rt.alloc(), folder, Name::Peers, 70_000);
    print_same(rt, &loaded, bytes)
}

/// Saves a file at once, in pieces, at once again with more bytes than are loaded, and a long one.
fn print_each<R: Print + AllocGlobal, F: Folder>(
    rt: &R,
    folder: &mut F,
    second: Bytes,
    long: &[u8],
) -> io::Result<()> {
    let saved = save(folder, Name::PeersTemp, Name::Peers, b"first");
    print_saved(rt, folder, saved)?;
    let saved = save_in_pieces(folder, second);
    print_saved(rt, folder, saved)?;
    let saved = save(folder, Name::PeersTemp, Name::Peers, b"too long");
    print_saved(rt, folder, saved)?;
    print_long(rt, folder, long)
}

/// Makes these saves in the current folder.
pub(crate) fn print_saves<R: Files + Print + AllocGlobal>(rt: &R) -> io::Result<()>
where
    R::File: Lock,
{
    let second = Bytes::of(b"second".to_vec(rt.alloc())?);
    let long = long_bytes(rt.alloc())?;
    print_each(rt, &mut DirFolder::make(rt), second, long.as_slice())
}
