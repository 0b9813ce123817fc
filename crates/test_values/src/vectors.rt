//! The calls `facts` and `places-by`, for `vectors/`.

use crate::fields::RowFields;
use crate::places::places;
use crate::text::{bytes_of, hex_text};
use crate::unread::Unread;
use asmap_vm::check;
use placing::Placer;
use std::alloc::Global;

/// Returns `yes` or `no`.
fn word_of(yes: bool) -> &'static str {
    if yes { "yes" } else { "no" }
}

/// `facts ADDRESS`: the network and the class of the address, its group without an asmap, and
/// whether it is valid and routable.
fn facts(alloc: Global, text: &str) -> Result<String, Unread> {
    let addr = RowFields::of(text).addr()?;
    let group = Placer::make([0; 32], None).group(&addr);
    let group = hex_text(alloc, group.as_slice())?;
    let (valid, routable) = (word_of(addr.is_valid()), word_of(addr.is_routable()));
    Ok(format!(in alloc;
        "{:?} {:?} {group} {valid} {routable}",
        addr.net(),
        addr.net_class()
    )?)
}

/// `places-by KEY ASMAP PEER SOURCE`: the new bucket and slot and the tried bucket and slot under a
/// key and an asmap, which is `-` if there is none.
fn places_by(alloc: Global, arguments: &str) -> Result<String, Unread> {
    let mut fields = RowFields::of(arguments);
    let key = bytes_of(alloc, fields.word())?;
    let Ok(key) = <[u8; 32]>::try_from(key.as_slice()) else {
        return Err(Unread::Form);
    };
    let map = fields.word();
    let peer = fields.peer()?;
    let source = fields.addr()?;
    if map == "-" {
        return Ok(places(alloc, &Placer::make(key, None), &peer, &source)?);
    }
    let map = bytes_of(alloc, map)?;
    let Ok(map) = check(map.as_slice()) else {
        return Err(Unread::Form);
    };
    Ok(places(alloc, &Placer::make(key, Some(map)), &peer, &source)?)
}

/// Answers the calls above.
pub(crate) fn answer(alloc: Global, name: &str, arguments: &str) -> Result<String, Unread> {
    if name == "facts" {
        return facts(alloc, arguments);
    }
    places_by(alloc, arguments)
}
