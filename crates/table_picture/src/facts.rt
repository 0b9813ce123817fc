//! `facts_of`: which tables are drawn, by chain, date of the newest record and asmap.

ghost use Rattle.std.specs.Prelude.{◌≡◌, ◌++◌, IfOk, OnOk, length};
ghost use Rattle.table_picture.specs.Facts.{asmap_text, facts_text, newest_date, newest_day, newest_text};

use crate::Memory;
use crate::classes::newest_of;
use crate::date::{date_of, put_date};
use net_addr::{put_hex, put_text};
use peer_rec::Rec;
use placing::Placer;
use std::alloc::Global;

/// Seconds of a day.
const DAY: u32 = 86_400;

/// Returns the day of the newest time of the records, counted from 1 January 1970.
fn newest_day(recs: &[Rec]) -> u32
    ensures { result ≡ newest_day recs.now }
{
    newest_of(recs) / DAY
}

/// Appends the date of the newest time of the records.
fn put_newest_date(recs: &[Rec], out: &mut Vec<u8>) -> Result<(), Memory>
    ensures { OnOk result (out.new.items ≡ out.old.items ++ newest_date recs.now) }
{
    let date = date_of(newest_day(recs));
    put_text(b", newest time ", out)?;
    put_date(date, out)?;
    Ok(())
}

/// Appends the same, or that there are no records.
fn put_newest(recs: &[Rec], out: &mut Vec<u8>) -> Result<(), Memory>
    ensures { OnOk result (out.new.items ≡ out.old.items ++ newest_text recs.now) }
{
    if recs.len() == 0 {
        return Ok(put_text(b", no records", out)?);
    }
    put_newest_date(recs, out)
}

/// Appends which asmap has this checksum, 32 zeros without one.
fn put_asmap(sum: [u8; 32], out: &mut Vec<u8>) -> Result<(), Memory>
    ensures { OnOk result (out.new.items ≡ out.old.items ++ asmap_text sum) }
{
    if sum == [0; 32] {
        return Ok(put_text(b", no asmap", out)?);
    }
    put_hex(b", asmap ", &sum[..4], out)?;
    Ok(())
}

/// Returns which tables they are: those of a chain, with these records and this asmap.
#[tactic(auto, unfolding(crate::specs::Facts::facts_text))]
pub(crate) fn facts_of(
    alloc: Global,
    chain: &[u8],
    recs: &[Rec],
    placer: &Placer<'_>,
) -> Result<Vec<u8>, Memory>
    ensures { IfOk result (λ facts. facts.items ≡ facts_text chain.now recs.now placer.now) }
{
    let mut facts = Vec::new(alloc);
    put_text(b"chain ", &mut facts)?;
    put_text(chain, &mut facts)?;
    put_newest(recs, &mut facts)?;
    put_asmap(placer.sum(), &mut facts)?;
    Ok(facts)
}
