//! The calls `index-add`, `index-remove`, `index-swap`, `index-order` and `index-find`.

ghost use Rattle.std.specs.Prelude.{◌≡◌};

use crate::fields::RowFields;
use crate::text::{decimal, owned};
use crate::unread::Unread;
use net_addr::{NetAddr, Peer};
use peer_index::PeerIndex;
use peer_rec::{Buckets, Place, Rec};
use std::alloc::Global;
use std::hash::{BuildHasherDefault, FoldHasher};
use std::marker::Brand;
use std::sync::ledger::{Blank, Ledger};
use steps::Steps;

/// The hasher of the index, and of connections.
pub(crate) type Hasher = BuildHasherDefault<FoldHasher>;

/// A call of a row.
#[derive(Clone, Copy)]
struct Call<'c> {
    name: &'c str,
    arguments: &'c str,
}

/// Returns a record of the peer.
fn record(peer: Peer) -> Rec
    ensures { result.peer ≡ peer }
{
    Rec {
        number: 0,
        peer,
        source: NetAddr::ipv4([1, 2, 3, 4]),
        time: 0,
        services: 0,
        last_success: 0,
        last_try: 0,
        last_count: 0,
        attempts: 0,
        place: Place::New(Buckets::one(0)),
    }
}

/// `index-add PEER`: the id of the new record.
fn add<L: Ledger>(
    alloc: Global,
    index: &mut PeerIndex<Hasher>,
    peer: Peer,
    steps: &mut Steps<L>,
) -> Result<String, Unread> {
    if index.len() >= 1_000_000 || index.find(&peer, steps).is_some() {
        return Err(Unread::Unmet);
    }
    match index.add(record(peer), steps) {
        Ok(id) => decimal(alloc, id as u64),
        Err(_) => Err(Unread::Memory),
    }
}

/// `index-remove PEER`: removes the record, and the last one takes its position.
fn remove<L: Ledger>(
    alloc: Global,
    index: &mut PeerIndex<Hasher>,
    peer: Peer,
    steps: &mut Steps<L>,
) -> Result<String, Unread> {
    if index.find(&peer, steps).is_none() {
        return Err(Unread::Unmet);
    }
    index.remove(&peer, steps);
    owned(alloc, "done")
}

/// `index-swap POSITION POSITION`: exchanges the records at two positions.
fn swap<L: Ledger>(
    alloc: Global,
    index: &mut PeerIndex<Hasher>,
    fields: &mut RowFields<'_>,
    steps: &mut Steps<L>,
) -> Result<String, Unread> {
    let (i, j) = (fields.number()? as usize, fields.number()? as usize);
    if i >= index.len() || j >= index.len() {
        return Err(Unread::Unmet);
    }
    index.swap(i, j, steps);
    owned(alloc, "done")
}

/// `index-order`: the number of records, and the port and the id of each, in their order, if each
/// is found by its peer.
fn order<L: Ledger>(
    alloc: Global,
    index: &PeerIndex<Hasher>,
    steps: &mut Steps<L>,
) -> Result<String, Unread> {
    let mut text = format!(in alloc; "{}", index.len())?;
    for position in 0..index.len() {
        let id = index.at(position, steps);
        let peer = index.get(id, steps).peer;
        if index.find(&peer, steps) != Some(id) {
            return owned(alloc, "another id");
        }
        text.push_str(format!(in alloc; " {}:{id}", peer.port)?.as_str())?;
    }
    Ok(text)
}

/// Makes a call with a counter of steps, one of those above or `index-find PEER`, the id of the
/// peer's record.
fn answer_counted<L: Ledger>(
    alloc: Global,
    index: &mut PeerIndex<Hasher>,
    call: Call<'_>,
    blank: Blank,
) -> Result<String, Unread>
    requires name { blank.name ≡ L.name }
    requires parts { blank.parts ≡ L.parts }
    requires one { blank.parts ≡ 1 }
{
    let mut steps = Steps::<L>::none(blank);
    let mut fields = RowFields::of(call.arguments);
    match call.name {
        "index-add" => add(alloc, index, fields.peer()?, &mut steps),
        "index-remove" => remove(alloc, index, fields.peer()?, &mut steps),
        "index-swap" => swap(alloc, index, &mut fields, &mut steps),
        "index-order" => order(alloc, index, &mut steps),
        _ => match index.find(&fields.peer()?, &mut steps) {
            Some(id) => decimal(alloc, id as u64),
            None => owned(alloc, "none"),
        },
    }
}

/// Answers the calls above.
pub(crate) fn answer(
    alloc: Global,
    index: &mut PeerIndex<Hasher>,
    name: &str,
    arguments: &str,
) -> Result<String, Unread> {
    answer_counted::<Brand>(alloc, index, Call { name, arguments }, Blank::new(1))
}
