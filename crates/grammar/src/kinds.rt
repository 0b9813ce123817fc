//! The kinds of fields: `Between`, `LongBetween`, `Source`, `OnePeer`, `Payload`, `Random`,
//! `Networks` and `AddrClasses`.

ghost use Rattle.std.specs.Prelude.{⊤};
ghost use Rattle.grammar.specs.Fields.{Number, OfAddr, OfPeer, Hex, Random, TheNumber, TheAddr, ThePeer, Nets, Classes, TheBytes, TheWords, TheNets};

use crate::field::{read_hex, read_number};
use crate::nets::{read_classes, read_nets};
use crate::random::{MAX_WORDS_TEXT, read_source, read_words};
use crate::{Field, LineFault, WordSource, Words};
use host_io::Bytes;
use net_addr::{NetAddr, NetSet, Peer, parse_addr, parse_peer};
use std::alloc::Global;

/// A number of 32 bits between two bounds.
pub struct Between<const LEAST: u32, const MOST: u32>;

impl<const LEAST: u32, const MOST: u32> Field for Between<LEAST, MOST> {
    type Out = u32;

    ghost kind = { Number LEAST MOST };

    ghost value = { λ n. TheNumber n };

    ghost can_run_out = { ⊥ };

    fn read(alloc: Global, text: &[u8]) -> Result<u32, LineFault> {
        let number = read_number(text, u64::from(LEAST), u64::from(MOST))?;
        Ok(number as u32)
    }
}

/// A number of 64 bits between two bounds.
pub struct LongBetween<const LEAST: u64, const MOST: u64>;

impl<const LEAST: u64, const MOST: u64> Field for LongBetween<LEAST, MOST> {
    type Out = u64;

    ghost kind = { Number LEAST MOST };

    ghost value = { λ n. TheNumber n };

    ghost can_run_out = { ⊥ };

    fn read(alloc: Global, text: &[u8]) -> Result<u64, LineFault> {
        read_number(text, LEAST, MOST)
    }
}

/// An address.
pub struct Source;

impl Field for Source {
    type Out = NetAddr;

    ghost kind = { OfAddr };

    ghost value = { λ a. TheAddr a };

    ghost can_run_out = { ⊥ };

    fn read(alloc: Global, text: &[u8]) -> Result<NetAddr, LineFault> {
        match parse_addr(text) {
            Some(addr) => Ok(addr),
            None => Err(LineFault::Peer),
        }
    }
}

/// A peer.
pub struct OnePeer;

impl Field for OnePeer {
    type Out = Peer;

    ghost kind = { OfPeer };

    ghost value = { λ p. ThePeer p };

    ghost can_run_out = { ⊥ };

    fn read(alloc: Global, text: &[u8]) -> Result<Peer, LineFault> {
        match parse_peer(text) {
            Some(peer) => Ok(peer),
            None => Err(LineFault::Peer),
        }
    }
}

/// Bytes in hexadecimal digits.
pub struct Payload;

impl Field for Payload {
    type Out = Bytes;

    ghost kind = { Hex };

    ghost value = { λ bytes. TheBytes bytes };

    ghost can_run_out = { ⊤ };

    fn read(alloc: Global, text: &[u8]) -> Result<Bytes, LineFault> {
        read_hex(alloc, text)
    }
}

/// Random words. A text of more than `MAX_WORDS_TEXT` bytes is out of memory.
pub struct Random;

impl Field for Random {
    type Out = Words;

    ghost kind = { Random };

    ghost value = { λ words. TheWords words };

    ghost can_run_out = { ⊤ };

    fn read(alloc: Global, text: &[u8]) -> Result<Words, LineFault> {
        if text.len() > MAX_WORDS_TEXT {
            return Err(LineFault::Memory);
        }
        read_words(alloc, text)
    }
}

/// The same, to be drawn one after another: a seed is kept as it is, and no list is made.
pub struct RandomSource;

impl Field for RandomSource {
    type Out = WordSource;

    ghost kind = { Random };

    ghost value = { λ words. TheWords words };

    ghost can_run_out = { ⊤ };

    fn read(alloc: Global, text: &[u8]) -> Result<WordSource, LineFault> {
        if text.len() > MAX_WORDS_TEXT {
            return Err(LineFault::Memory);
        }
        read_source(alloc, text)
    }
}

/// A set of networks: `all`, or their names with commas between them.
pub struct Networks;

impl Field for Networks {
    type Out = NetSet;

    ghost kind = { Nets };

    ghost value = { λ nets. TheNets nets };

    ghost can_run_out = { ⊥ };

    fn read(alloc: Global, text: &[u8]) -> Result<NetSet, LineFault> {
        read_nets(text)
    }
}

/// A set of classes of addresses: `all`, or their names, with `unroutable` among them.
pub struct AddrClasses;

impl Field for AddrClasses {
    type Out = NetSet;

    ghost kind = { Classes };

    ghost value = { λ nets. TheNets nets };

    ghost can_run_out = { ⊥ };

    fn read(alloc: Global, text: &[u8]) -> Result<NetSet, LineFault> {
        read_classes(text)
    }
}
