//! What crashes leave of a folder in memory in which three files were made and the folder was not
//! synced: each mix of what may be at their names. Then the same after it was synced, and after one
//! of the files was renamed and synced.

use host_io::{Bytes, Failed, Folder, MemFolder, Memory, Name};
use save_store::{SaveJob, write_temp};
use std::alloc::Global;
use std::io;

/// Makes peers.tmp and banlist.tmp, which are synced, and an empty asmap.tmp.
fn make_files<F: Folder>(folder: &mut F, bytes: Bytes) -> Result<(), Failed> {
    write_temp(folder, Name::PeersTemp, b"new")?;
    write_temp(folder, Name::BansTemp, b"ban")?;
    let _job = SaveJob::begin(folder, Name::AsmapTemp, bytes)?;
    Ok(())
}

/// Puts a safe peers.dat into the folder, and makes those files.
fn fill(alloc: Global, folder: &mut MemFolder) -> Result<(), Memory> {
    folder.put(Name::Peers, b"old")?;
    match make_files(folder, Bytes::of(Vec::new(alloc))) {
        Ok(()) => Ok(()),
        Err(_) => Err(Memory),
    }
}

/// Returns the text of the file, or `absent`.
fn text_at(folder: &MemFolder, name: Name) -> &str {
    match folder.get(name) {
        Some(bytes) => str::from_utf8(bytes).unwrap_or("no text"),
        None => "absent",
    }
}

/// Prints what the folder has at the four names.
fn print_image<R: Print>(rt: &R, choice: u64, image: &MemFolder) -> io::Result<()> {
    println!(rt;
        "crash {choice}: {:?} {:?} {:?} {:?}",
        text_at(image, Name::Peers),
        text_at(image, Name::PeersTemp),
        text_at(image, Name::AsmapTemp),
        text_at(image, Name::BansTemp)
    )
}

/// Prints what a crash with this choice leaves.
fn print_crash<R: Print>(rt: &R, folder: &MemFolder, choice: u64) -> io::Result<()> {
    match folder.crash(choice) {
        Ok(image) => print_image(rt, choice, &image),
        Err(_) => println!(rt; "crash {choice}: no memory"),
    }
}

/// Prints what crashes with the choices below `count` leave of the folder.
fn print_each<R: Print>(rt: &R, folder: &MemFolder, count: u64) -> io::Result<()> {
    for choice in 0..count {
        print_crash(rt, folder, choice)?;
    }
    Ok(())
}

/// Renames peers.tmp to peers.dat and syncs the file, but not the folder.
fn move_file(folder: &mut MemFolder) -> Result<(), Failed> {
    if let Some(_) = folder.size(Name::PeersTemp)? {
        folder.rename(Name::PeersTemp, Name::Peers)?;
    }
    if let Some(_) = folder.size(Name::Peers)? {
        folder.sync(Name::Peers)?;
    }
    Ok(())
}

/// Prints how these calls of the folder ended, and what crashes with the choices 0 to 8 leave.
fn print_after<R: Print>(
    rt: &R,
    folder: &MemFolder,
    calls: &str,
    done: Result<(), Failed>,
) -> io::Result<()> {
    println!(rt; "{calls}: {done:?}")?;
    print_each(rt, folder, 9)
}

/// Prints what crashes leave of the folder with those files: with the choices 0 to 15, the last of
/// which begins anew, and after the further calls.
fn print_three<R: Print>(rt: &R, folder: &mut MemFolder) -> io::Result<()> {
    print_each(rt, folder, 16)?;
    let done = folder.sync_dir();
    print_after(rt, folder, "folder synced", done)?;
    let done = move_file(folder);
    print_after(rt, folder, "renamed and synced", done)
}

/// Prints what crashes leave of the folder once it has those files.
fn print_filled<R: Print + AllocGlobal>(rt: &R, folder: &mut MemFolder) -> io::Result<()> {
    match fill(rt.alloc(), folder) {
        Ok(()) => print_three(rt, folder),
        Err(_) => println!(rt; "no files"),
    }
}

/// Prints what crashes leave of such a folder.
pub(crate) fn print_crashes<R: Print + AllocGlobal>(rt: &R) -> io::Result<()> {
    match MemFolder::make(rt.alloc(), &[]) {
        Ok(mut folder) => print_filled(rt, &mut folder),
        Err(_) => println!(rt; "no folder"),
    }
}
