//! Colours by network, group or age: the class of a record, and its name.

ghost use Rattle.std.specs.Prelude.{◌≡◌, ◌<◌, ◌^◌, ◌≤◌, IfOk};
ghost use Rattle.table_picture.specs.By.{address_by, age_class, age_name, class_address, name_by, newest_in};

use crate::Memory;
use net_addr::{NetAddr, put_text};
use peer_rec::Rec;
use picture_text::By;
use placing::Placer;
use std::alloc::Global;
use table_groups::name_of;

/// Seconds of a day.
const DAY: u64 = 86_400;

/// Returns the newest time of the records, 0 without one.
pub(crate) fn newest_of(recs: &[Rec]) -> u32
    ensures { result ≡ newest_in recs.now }
{
    let mut newest = 0;
    for rec in recs {
        if newest < rec.time {
            newest = rec.time;
        }
    }
    newest
}

/// Returns how much older a time is than the newest one: 0 for under a day up to 4 for four weeks
/// or more.
fn age_class(newest: u32, time: u32) -> u8
    ensures { result ≡ age_class newest time }
{
    let newest = u64::from(newest);
    let time = u64::from(time);
    if newest < time + DAY {
        0
    } else if newest < time + 3 * DAY {
        1
    } else if newest < time + 7 * DAY {
        2
    } else if newest < time + 28 * DAY {
        3
    } else {
        4
    }
}

/// Returns the name of such an age.
fn age_name(class: u8) -> &'static [u8]
    ensures { result.now ≡ age_name class }
{
    match class {
        0 => b"under a day",
        1 => b"1 to 3 days",
        2 => b"3 to 7 days",
        3 => b"1 to 4 weeks",
        _ => b"4 weeks or more",
    }
}

/// Returns an address of a group of its own that stands for a class.
fn class_address(class: u8) -> NetAddr
    ensures { result ≡ class_address class }
{
    NetAddr::from_v1(&[
        0xfd, 0x6b, 0x88, 0xc0, 0x87, 0x24, class, 0, 0, 0, 0, 0, 0, 0, 0, 0,
    ])
}

/// Returns the address whose group the colour of a record is.
pub(crate) fn address_by(by: By, newest: u32, rec: &Rec) -> NetAddr
    ensures { result ≡ address_by by newest rec.now }
{
    match by {
        By::Network => class_address(rec.network().number()),
        By::Source => rec.source,
        By::Group => rec.peer.addr,
        By::Age => class_address(age_class(newest, rec.time)),
    }
}

/// Returns a text.
fn text_of(alloc: Global, text: &[u8]) -> Result<Vec<u8>, Memory>
    ensures { IfOk result (λ copy. copy.items ≡ text.now) }
{
    let mut copy = Vec::new(alloc);
    put_text(text, &mut copy)?;
    Ok(copy)
}

/// Returns the name of the colour of a record.
pub(crate) fn name_by(
    alloc: Global,
    placer: &Placer<'_>,
    by: By,
    newest: u32,
    rec: &Rec,
) -> Result<Vec<u8>, Memory>
    ensures { IfOk result (λ name. name.items ≡ name_by by newest placer.now rec.now) }
{
    match by {
        By::Network => text_of(alloc, rec.network().name()),
        By::Source => Ok(name_of(alloc, placer, &rec.source)?),
        By::Group => Ok(name_of(alloc, placer, &rec.peer.addr)?),
        By::Age => text_of(alloc, age_name(age_class(newest, rec.time))),
    }
}
