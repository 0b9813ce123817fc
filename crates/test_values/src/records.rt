//! The call `chance`, and a record whose numbers differ.

use crate::fields::RowFields;
use crate::text::{decimal, yes_or_no};
use crate::unread::Unread;
use net_addr::{NetAddr, Peer};
use peer_rec::{Buckets, Place, Rec};
use std::alloc::Global;

/// Returns a record whose numbers all differ.
pub(crate) fn record(place: Place) -> Rec {
    Rec {
        number: 1,
        peer: Peer {
            addr: NetAddr::ipv4([8, 8, 8, 8]),
            port: 8333,
        },
        source: NetAddr::ipv4([1, 2, 3, 4]),
        time: 2,
        services: 3,
        last_success: 4,
        last_try: 5,
        last_count: 6,
        attempts: 7,
        place,
    }
}

/// Takes the numbers of a record.
fn record_of(fields: &mut RowFields<'_>) -> Result<Rec, Unread> {
    let time = fields.small()?;
    let last_success = fields.small()?;
    let last_try = fields.small()?;
    let attempts = fields.small()?;
    let mut rec = record(Place::New(Buckets::one(87)));
    rec.time = time;
    rec.last_success = last_success;
    rec.last_try = last_try;
    rec.attempts = attempts;
    Ok(rec)
}

/// `chance TIME SUCCESS TRY TRIES CLOCK`: the chance of the record, in parts of 2^30.
/// `terrible TIME SUCCESS TRY TRIES CLOCK`: whether it is terrible.
pub(crate) fn answer(alloc: Global, name: &str, arguments: &str) -> Result<String, Unread> {
    let mut fields = RowFields::of(arguments);
    let rec = record_of(&mut fields)?;
    let clock = fields.small()?;
    if name == "chance" {
        return decimal(alloc, rec.chance(clock));
    }
    yes_or_no(alloc, rec.terrible(clock))
}
