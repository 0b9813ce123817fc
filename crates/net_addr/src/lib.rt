//! Addresses of the six networks, peers, entries of messages, and their texts.
//!
//! Contracts see an address as a network and its bytes, and a `NetSet` as a rising list of numbers
//! of networks.
//!
//! Proved:
//! - Whether an address is valid, local or routable, its class and its linked IPv4 address are as
//!   the definitions say by ranges of bits.
//! - `of` makes an address exactly if the bytes are those of an address of the network.
//! - The readers of texts accept exactly the grammar. The printers append exactly the text, which
//!   reads as the same address, and a text is that of one address only (`texts_have_one_meaning`).
#![tactic(auto)]

mod address;
mod address_traits;
mod law;
mod net;
mod net_set;
mod old_form;
mod peer;
mod print;
mod ranges;
mod read;
mod text;

pub use address::NetAddr;
pub use law::texts_have_one_meaning;
pub use memory::Memory;
pub use net::Net;
pub use net_set::NetSet;
pub use old_form::{INTERNAL_PREFIX, MAPPED_PREFIX, TORV2_PREFIX, array_of};
pub use peer::{Entry, Peer};
pub use print::{
    ADDR_TEXT, IPV4_TEXT, IPV6_TEXT, PEER_TEXT, addr_text, dotted, groups, ipv4_text, ipv6_text,
    peer_text, put_addr, put_ipv4, put_ipv6, put_peer,
};
pub use read::{around_last, parse_addr, parse_ipv4, parse_ipv6, parse_number, parse_peer};
pub use text::{append, put_hex, put_number, put_text};
