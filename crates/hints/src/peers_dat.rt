//! What is wrong with `peers.dat`: the chain, the format, a record, or a duplicate.

use crate::files::packed_text;
use net_addr::put_hex;
use peer_rec::{MAX_BUCKETS, MAX_NEW, MAX_TRIED};
use peers_file::{Chain, FileFault, MAX_FILE, RecordCause, Which};
use std::alloc::{AllocError, Global};

/// The chains that have a name, and their names.
pub(crate) static CHAINS: [(Chain, &str); 5] = [
    (Chain::Main, "main"),
    (Chain::Test, "test"),
    (Chain::Testnet4, "testnet4"),
    (Chain::Signet, "signet"),
    (Chain::Regtest, "regtest"),
];

/// Says what is wrong with peers.dat, which begins with these bytes: which chain and which format
/// it has, and the fault.
pub fn peers_hint(alloc: Global, fault: &FileFault, head: &[u8]) -> Result<String, AllocError> {
    if let Some(said) = packed_text(head) {
        return String::from_str(alloc, said);
    }
    let mut text = head_text(alloc, head)?;
    text.push_str(fault_text(alloc, fault, head)?.as_str())?;
    Ok(text)
}

/// Says which record of peers.dat, which begins with these bytes, has the peer of an earlier one.
pub fn duplicate_hint(alloc: Global, index: u32, head: &[u8]) -> Result<String, AllocError> {
    let mut text = head_text(alloc, head)?;
    let said = format!(in alloc; "record {index} has the same peer as an earlier record")?;
    text.push_str(said.as_str())?;
    Ok(text)
}

/// Returns the chain whose files begin with these bytes.
pub(crate) fn chain_of(head: &[u8]) -> Option<&'static str> {
    for (chain, name) in &CHAINS {
        if head.starts_with(&chain.magic()) {
            return Some(*name);
        }
    }
    None
}

/// Says which chain and format a file has, before what is wrong with it, or nothing.
fn head_text(alloc: Global, head: &[u8]) -> Result<String, AllocError> {
    match (chain_of(head), head) {
        (Some(chain), [_, _, _, _, format, compat, ..]) => {
            format!(in alloc; "chain {chain}, format {format}, compat byte {compat}: ")
        }
        _ => Ok(String::new(alloc)),
    }
}

/// Says what the fault is.
fn fault_text(alloc: Global, fault: &FileFault, head: &[u8]) -> Result<String, AllocError> {
    match fault {
        FileFault::Truncated => String::from_str(alloc, "the file ends too early: copy it again"),
        FileFault::BadMagic => magic_text(alloc, head),
        FileFault::BadSum => String::from_str(
            alloc,
            "the file was truncated or changed: copy it again",
        ),
        FileFault::Compat { byte } => {
            format_text(alloc, "the compat byte must be from 32 to 36", *byte, 36)
        }
        FileFault::Version { byte } => format_text(
            alloc,
            "only formats 1 to 4 can be read",
            *byte,
            4,
        ),
        FileFault::Count { which, value } => count_text(alloc, *which, *value),
        FileFault::Record { index, cause } => record_text(alloc, *index, *cause),
        FileFault::Buckets { value } => {
            format!(in alloc; "it claims {value} buckets; at most {MAX_BUCKETS} are allowed")
        }
        FileFault::Time { index } => {
            format!(in alloc;
                "the last success of record {index} is not from 0 to {}",
                u32::MAX
            )
        }
        FileFault::Attempts { index } => format!(in alloc;
            "record {index} has a negative number of attempts"
        ),
        FileFault::Trailing => String::from_str(
            alloc,
            "there are extra bytes after the last field",
        ),
        FileFault::TooLarge { size } => {
            format!(in alloc; "it has {size} bytes; at most {MAX_FILE} are allowed")
        }
        FileFault::Memory => Ok(String::new(alloc)),
    }
}

/// Returns `true` if what comes after the first bytes of a file is as in a peers.dat: a format that
/// there is, or a newer one, and a compat byte.
fn is_as_peers(head: &[u8]) -> bool {
    match head {
        [_, _, _, _, format, compat, ..] => *format < 32 && *compat >= 32 && *compat < 64,
        _ => false,
    }
}

/// Says of which chain a file is that has another one's first bytes.
fn magic_text(alloc: Global, head: &[u8]) -> Result<String, AllocError> {
    match chain_of(head) {
        Some(chain) => format!(in alloc; "it belongs to another chain: use --net {chain}"),
        None if !is_as_peers(head) => {
            String::from_str(alloc, "it does not begin like a peers.dat of any chain")
        }
        None => {
            let mut text = Vec::new(alloc);
            let first = head.get(..4).unwrap_or(head);
            if put_hex(
                b"its first bytes are of no known chain; to read it, use --magic ",
                first,
                &mut text,
            )
            .is_err()
            {
                return Err(AllocError);
            }
            text.extend_from_slice(b" reads it")?;
            Ok(String::from_utf8(text).unwrap_or(String::new(alloc)))
        }
    }
}

/// Says which numbers are read in the place of a byte, and who writes larger ones.
fn format_text(alloc: Global, read: &str, byte: u8, max: u8) -> Result<String, AllocError> {
    let newer = if byte > max {
        ": a newer Bitcoin Core wrote it"
    } else {
        ""
    };
    format!(in alloc; "{read}, not {byte}{newer}")
}

/// Says how many records of a table there are.
fn count_text(alloc: Global, which: Which, value: i32) -> Result<String, AllocError> {
    match which {
        Which::New => format!(in alloc;
            "it claims {value} new records; at most {MAX_NEW} are allowed"
        ),
        Which::Tried => format!(in alloc;
            "it claims {value} tried records; at most {MAX_TRIED} are allowed"
        ),
    }
}

/// Says what is wrong with the record of an index.
fn record_text(alloc: Global, index: u32, cause: RecordCause) -> Result<String, AllocError> {
    let said = match cause {
        RecordCause::Version => "has the layout of another format",
        RecordCause::NonCanonical => "has a CompactSize longer than necessary",
        RecordCause::BadLength => "has an address of the wrong length for its network",
        RecordCause::TooLong => "has an address longer than 512 bytes",
    };
    format!(in alloc; "record {index} {said}")
}
