//! `sample` (`GetAddr_`): exchanges in the order, the percentage and the eligible records; with
//! `SampleFault` and `sample_limit`.

ghost use Rattle.std.specs.Prelude.{◌≡◌, ◌≤◌, length, ◌+◌, ◌-◌, ◌%◌, ◌<◌, option_to_list, ◌^◌, ℕ, Err, IfOk, OnOk, OnErr, vec_len, vec_capacity};
ghost use Rattle.picking.specs.declared.sampling.SampleFault.{SampleFault};
ghost use Rattle.table_machine.specs.Picks.{is_eligible, sample_limit, eligible_at, order_swap, sample, sample_from};
ghost use Rattle.table_machine.specs.Sound.{IsSound};

use crate::Peers;
use net_addr::{NetSet, Peer};
use peer_rec::Rec;
use std::alloc::{AllocError, Global};
use std::hash::BuildHasher;
use std::sync::ledger::Ledger;
use steps::Steps;
use tables::Tables;

/// Why there is no sample.
#[derive(Clone, Copy, Debug, PartialEq, Eq)]
pub enum SampleFault {
    /// There are fewer random words than records: how many records there are (`need`), and how
    /// many words (`have`).
    ShortWords { need: u32, have: u32 },
    /// Out of memory.
    Memory,
}

impl From<AllocError> for SampleFault {
    ghost from_gives = { λ _ fault. fault ≡ SampleFault.Memory };

    fn from(_error: AllocError) -> SampleFault {
        SampleFault::Memory
    }
}

/// Returns `true` if a record may be announced, at a time in seconds since 1970: its class is in
/// the set, and it is not terrible.
fn is_eligible(classes: NetSet, now: u32, rec: &Rec) -> bool
    ensures { result ≡ is_eligible classes now rec.now }
{
    classes.has(rec.peer.addr.net_class()) && !rec.terrible(now)
}

/// Returns the number of records.
pub(crate) fn count_of<H: BuildHasher>(tables: &Tables<'_, H>) -> u32
    ensures count { result ≡ length tables.now.order }
    ensures sound { IsSound tables.now }
{
    let counts = tables.counts();
    counts.new_count + counts.tried_count
}

/// Returns how many peers a sample of `count` records may have: at most `max`, and at most
/// `percent` percent of the records. For both, 0 is no limit.
pub(crate) fn sample_limit(count: u32, max: u32, percent: u32) -> u32
    requires percent { percent ≤ 100 }
    ensures limit { result ≡ sample_limit count max percent }
    ensures few { result ≤ count }
{
    let part = if percent == 0 {
        count
    } else {
        (u64::from(percent) * u64::from(count) / 100) as u32
    };
    if max == 0 { part } else { max.min(part) }
}

/// Exchanges a position of the order with one that the random word selects, itself or a later one.
/// Returns the peer that is there then, if its record is eligible.
pub(crate) fn select_at<H: BuildHasher, L: Ledger>(
    tables: &mut Tables<'_, H>,
    classes: NetSet,
    now: u32,
    position: usize,
    word: u64,
    steps: &mut Steps<L>,
) -> Option<Peer>
    requires { position < length tables.old.order }
    ensures state { tables.new ≡ order_swap tables.old position
        (position + word % (length tables.old.order - position)) }
    ensures eligible { option_to_list result ≡ eligible_at tables.new classes now position }
    ensures sound { IsSound tables.new }
{
    let left = (tables.len() - position) as u64;
    tables.order_swap(position, position + (word % left) as usize, steps);
    let rec = tables.order_at(position, steps);
    if is_eligible(classes, now, rec) {
        Some(rec.peer)
    } else {
        None
    }
}

/// Appends the peers that the random words select, from the first position of the order on, until
/// there are `limit`. The list has room for them.
fn fill<H: BuildHasher, L: Ledger>(
    tables: &mut Tables<'_, H>,
    peers: &mut Vec<Peer>,
    limit: usize,
    classes: NetSet,
    words: &[u64],
    now: u32,
    steps: &mut Steps<L>,
)
    requires empty { vec_len peers.old ≡ 0 }
    requires room { limit ≤ vec_capacity peers.old }
    requires words { length tables.old.order ≤ length words.now }
    requires sound { IsSound tables.old }
    ensures peers { peers.new.items
        ≡ (sample_from tables.old classes now 0 limit words.now).answer }
    ensures state { tables.new ≡ (sample_from tables.old classes now 0 limit words.now).state }
    ensures sound { IsSound tables.new }
{
    for position in 0..tables.len() {
        if peers.len() == limit {
            return;
        }
        if let Some(peer) = select_at(tables, classes, now, position, words[position], steps) {
            peers.push_reserved(peer);
        }
    }
}

/// Returns peers to announce to another node, at a time in seconds since 1970: at most `max`, and
/// at most `pct` percent of all records, where 0 is no limit; of the classes of networks in a set;
/// and never a terrible one. Random words select them, one word for each record, and they come in
/// that order. The tables' own order stays as the exchanges leave it (`AddrManImpl::GetAddr_` in
/// addrman.cpp of Bitcoin Core). `ShortWords` comes if there are fewer words than records. After an
/// error the tables are unchanged.
pub fn sample<H: BuildHasher, L: Ledger>(
    alloc: Global,
    tables: &mut Tables<'_, H>,
    max: u32,
    pct: u32,
    classes: NetSet,
    words: &[u64],
    now: u32,
    steps: &mut Steps<L>,
) -> Result<Peers, SampleFault>
    requires percent { pct ≤ 100 }
    requires few_words { length words.now < 2 ^ 32 }
    ensures peers { IfOk result
        (λ p. p ≡ (sample tables.old max pct classes words.now now).answer) }
    ensures state { OnOk result
        (tables.new ≡ (sample tables.old max pct classes words.now now).state) }
    ensures enough { OnOk result (length tables.old.order ≤ length words.now) }
    ensures short { (need have : ℕ) → result ≡ Err (SampleFault.ShortWords need have) →
        (need ≡ length tables.old.order) × ((have ≡ length words.now) × (have < need)) }
    ensures memory { result ≡ Err SampleFault.Memory →
        length tables.old.order ≤ length words.now }
    ensures sound { IsSound tables.new }
    ensures err { OnErr result (tables.new ≡ tables.old) }
{
    let count = count_of(tables);
    if words.len() < count as usize {
        return Err(SampleFault::ShortWords {
            need: count,
            have: words.len() as u32,
        });
    }
    let limit = sample_limit(count, max, pct) as usize;
    let mut peers = Vec::new(alloc);
    peers.reserve(limit)?;
    fill(tables, &mut peers, limit, classes, words, now, steps);
    Ok(Peers::of(peers))
}
