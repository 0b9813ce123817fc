//! `sample_by`: a sample whose random words are drawn as they are needed.

ghost use Rattle.std.specs.Prelude.{◌≡◌, ◌≤◌, ◌<◌, length, IfOk, OnOk, OnErr, vec_len, vec_capacity};
ghost use Rattle.table_machine.specs.Picks.{sample, sample_from, sample_limit};
ghost use Rattle.table_machine.specs.Sound.{IsSound};

use crate::Peers;
use crate::sampling::{count_of, sample_limit, select_at};
use net_addr::{NetSet, Peer};
use random_words::Draws;
use std::alloc::{AllocError, Global};
use std::hash::BuildHasher;
use std::sync::ledger::Ledger;
use steps::Steps;
use tables::Tables;

/// Appends the peers that the random words select, from the first position of the order on, until
/// there are `limit`. The list has room for them. Only as many words are drawn as positions are
/// passed.
fn fill_by<H: BuildHasher, L: Ledger>(
    tables: &mut Tables<'_, H>,
    peers: &mut Vec<Peer>,
    limit: usize,
    classes: NetSet,
    words: Draws<'_>,
    now: u32,
    steps: &mut Steps<L>,
)
    requires empty { vec_len peers.old ≡ 0 }
    requires room { limit ≤ vec_capacity peers.old }
    requires sound { IsSound tables.old }
    ensures peers { peers.new.items
        ≡ (sample_from tables.old classes now 0 limit words.entry).answer }
    ensures state { tables.new ≡ (sample_from tables.old classes now 0 limit words.entry).state }
    ensures few { vec_len peers.new ≤ limit }
    ensures sound { IsSound tables.new }
{
    let mut rest = words;
    for position in 0..tables.len() {
        if peers.len() == limit {
            return;
        }
        let Some(word) = rest.next() else {
            return;
        };
        if let Some(peer) = select_at(tables, classes, now, position, word, steps) {
            peers.push_reserved(peer);
        }
    }
}

/// Does what `sample` does with random words that are drawn one after another: it draws as many as
/// the sample has peers, and one for each record that it passes over. The caller has as many words
/// as records; with fewer the sample may be smaller.
pub fn sample_by<H: BuildHasher, L: Ledger>(
    alloc: Global,
    tables: &mut Tables<'_, H>,
    max: u32,
    pct: u32,
    classes: NetSet,
    words: Draws<'_>,
    now: u32,
    steps: &mut Steps<L>,
) -> Result<Peers, AllocError>
    requires percent { pct ≤ 100 }
    ensures peers { IfOk result
        (λ p. p ≡ (sample tables.old max pct classes words.entry now).answer) }
    ensures state { OnOk result
        (tables.new ≡ (sample tables.old max pct classes words.entry now).state) }
    ensures few { IfOk result (λ p. length p ≤ sample_limit (length tables.old.order) max pct) }
    ensures sound { IsSound tables.new }
    ensures err { OnErr result (tables.new ≡ tables.old) }
{
    let limit = sample_limit(count_of(tables), max, pct) as usize;
    let mut peers = Vec::new(alloc);
    peers.reserve(limit)?;
    fill_by(tables, &mut peers, limit, classes, words, now, steps);
    Ok(Peers::of(peers))
}
