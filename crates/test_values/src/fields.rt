//! `RowFields`: the arguments of a row, taken one after another.

use crate::unread::Unread;
use net_addr::{NetAddr, Peer, parse_addr, parse_peer};

/// The arguments that are left, one space between two of them.
#[derive(Clone, Copy)]
pub(crate) struct RowFields<'a> {
    text: &'a str,
}

/// Returns the text before the first space, and the text after it.
pub(crate) fn first_word(text: &str) -> (&str, &str) {
    match text.split_once(" ") {
        Some(parts) => parts,
        None => (text, ""),
    }
}

impl<'a> RowFields<'a> {
    /// Returns the arguments of the text.
    pub fn of(text: &'a str) -> RowFields<'a> {
        RowFields { text }
    }

    /// Takes the next argument.
    pub fn word(&mut self) -> &'a str {
        let (word, rest) = first_word(self.text);
        self.text = rest;
        word
    }

    /// Takes a number.
    pub fn number(&mut self) -> Result<u64, Unread> {
        match self.word().parse::<u64>() {
            Ok(number) => Ok(number),
            Err(_) => Err(Unread::Form),
        }
    }

    /// Takes a number below 2^32.
    pub fn small(&mut self) -> Result<u32, Unread> {
        match self.word().parse::<u32>() {
            Ok(number) => Ok(number),
            Err(_) => Err(Unread::Form),
        }
    }

    /// Takes a peer.
    pub fn peer(&mut self) -> Result<Peer, Unread> {
        match parse_peer(self.word().as_bytes()) {
            Some(peer) => Ok(peer),
            None => Err(Unread::Form),
        }
    }

    /// Takes an address.
    pub fn addr(&mut self) -> Result<NetAddr, Unread> {
        match parse_addr(self.word().as_bytes()) {
            Some(addr) => Ok(addr),
            None => Err(Unread::Form),
        }
    }
}
