//! Two examples for authors of nodes: a pick of a peer, and outbound connections, no two of them in
//! one network group.
#![tactic(auto)]

mod learn;
mod pick;
mod try_open;

use learn::learn;
use net_addr::{Peer, put_peer};
use peer_open::Opener;
use pick::first_pick;
use picking::Picked;
use placing::Placer;
use std::alloc::Global;
use std::hash::{BuildHasher, RandomState};
use std::process::ExitCode;
use tables::{Memory, Tables};
use try_open::try_open;

/// The time, in seconds since 1970.
const NOW: u32 = 1_700_000_000;

/// The node's secret key.
const KEY: [u8; 32] = [0; 32];

/// The peers that are known. The first two are in one network group.
const KNOWN: [[u8; 4]; 3] = [[8, 8, 8, 8], [8, 8, 4, 4], [9, 9, 9, 9]];

/// The random words that pick each of them: they select the bucket and the slot of its record, and
/// accept it.
const WORDS: [[u64; 3]; 3] = [[87, 37, 0], [87, 6, 0], [947, 1, 0]];

/// Appends the peer, or `none`, and a line feed.
fn put_found(found: &Option<Peer>, text: &mut Vec<u8>) -> Result<(), Memory> {
    let done = match found {
        Some(peer) => put_peer(peer, text).is_ok(),
        None => text.extend_from_slice(b"none").is_ok(),
    };
    if done && text.push(b'\n').is_ok() {
        Ok(())
    } else {
        Err(Memory)
    }
}

/// Opens tables that have the known peers.
fn known_tables<H: BuildHasher + Drop>(
    alloc: Global,
    hasher: H,
) -> Result<Tables<'static, H>, Memory> {
    let mut tables = Tables::open(alloc, Placer::make(KEY, None), hasher)?;
    for octets in KNOWN {
        learn(&mut tables, octets, NOW)?;
    }
    Ok(tables)
}

/// Makes a try by these words, and appends what it came to, and a line feed.
fn put_try<H: BuildHasher>(
    tables: &Tables<'_, H>,
    opener: &mut Opener,
    words: &[u64],
    text: &mut Vec<u8>,
) -> Result<(), Memory> {
    let placer = Placer::make(KEY, None);
    let opened = try_open(tables, &placer, opener, words, NOW, 1);
    put_found(&opened, text)
}

/// Makes a try for each known peer, closes the first one, and makes a try for the second one again.
/// Appends what the tries came to, a line for each.
fn put_tries<H: BuildHasher>(tables: &Tables<'_, H>, text: &mut Vec<u8>) -> Result<(), Memory> {
    let mut opener = Opener::make();
    for words in &WORDS {
        put_try(tables, &mut opener, words, text)?;
    }
    opener.close_peer(&learn::peer(KNOWN[0]));
    put_try(tables, &mut opener, &WORDS[1], text)
}

/// Appends the peer that the words of the first known peer pick, and a line feed.
fn put_pick<H: BuildHasher + Drop>(
    alloc: Global,
    hasher: H,
    text: &mut Vec<u8>,
) -> Result<(), Memory> {
    match first_pick(alloc, hasher, KEY, &WORDS[0], NOW)? {
        Picked::One(peer, _) => put_found(&Some(peer), text),
        Picked::Nothing | Picked::Exhausted => put_found(&None, text),
    }
}

/// Appends what the tries come to, a line for each.
fn put_opened<H: BuildHasher + Drop>(
    alloc: Global,
    hasher: H,
    text: &mut Vec<u8>,
) -> Result<(), Memory> {
    let tables = known_tables(alloc, hasher)?;
    put_tries(&tables, text)
}

/// Returns the text of both examples.
fn both_examples(
    alloc: Global,
    first: RandomState,
    second: RandomState,
) -> Result<Vec<u8>, Memory> {
    let mut text = Vec::new(alloc);
    put_pick(alloc, first, &mut text)?;
    put_opened(alloc, second, &mut text)?;
    Ok(text)
}

/// Prints the peer that is picked, and which peers are opened.
fn main(rt: HostRuntime) -> ExitCode {
    let (Ok(first), Ok(second)) = (RandomState::new(&rt), RandomState::new(&rt)) else {
        return ExitCode::FAILURE;
    };
    let Ok(text) = both_examples(rt.alloc(), first, second) else {
        return ExitCode::FAILURE;
    };
    match String::from_utf8(text) {
        Ok(text) => {
            let _ = rt.print(text.as_str());
            ExitCode::SUCCESS
        }
        Err(_) => ExitCode::FAILURE,
    }
}
