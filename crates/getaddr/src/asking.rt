//! `prepare` sees to it that a key has an answer; with `MAX_PERCENT`.

ghost use Rattle.std.specs.Prelude.{◌≡◌, ◌≤◌, IfOk, OnOk, OnErr, length};
ghost use Rattle.addr_answers.specs.Runs.{after_ask};
ghost use Rattle.addr_answers.specs.declared.answers.TheConstants.{MAX_TOLD};
ghost use Rattle.getaddr.specs.Fresh.{told_nets, sample_of, entries_by, ask_of, tables_after};

use crate::Times;
use crate::entries::entries_of;
use addr_answers::{Answers, MAX_TOLD};
use ban_list::Bans;
use net_addr::{Entry, Memory, Net, NetSet};
use random_words::Draws;
use std::alloc::Global;
use std::hash::BuildHasher;
use std::marker::Brand;
use std::sync::ledger::{Blank, Ledger};
use steps::Steps;
use tables::Tables;

/// The maximum part of the records in an answer, in percent (`MAX_PCT_ADDR_TO_SEND` in
/// net_processing.cpp of Bitcoin Core).
pub const MAX_PERCENT: u32 = 23;

/// Returns the networks whose peers are announced.
fn told_nets() -> NetSet
    ensures { result ≡ told_nets }
{
    NetSet::none()
        .with(Net::Ipv4)
        .with(Net::Ipv6)
        .with(Net::Onion)
        .with(Net::I2p)
        .with(Net::Cjdns)
}

/// Sees to it that the key has an answer now, in seconds since 1970: one that is kept, or a new one
/// of at most 1,000 peers and 23 percent of the records, without terrible and banned ones.
/// `Answers::find` returns it then; it returns `None` if `addr_answers::MAX_KEYS` other keys have
/// answers. The first random word selects how long a new answer is kept and the time that hides
/// those of the records; the others select the peers (`picking::sample_by`). If an answer is kept,
/// no words are drawn and the tables stay as they are. After an error the answers are unchanged,
/// and of the tables at most the order has changed. The call counts its steps on a counter of its
/// own.
pub fn prepare<H: BuildHasher>(
    alloc: Global,
    answers: &mut Answers,
    tables: &mut Tables<'_, H>,
    bans: &Bans,
    key: u64,
    times: Times,
    now: u32,
    word: u64,
    words: Draws<'_>,
) -> Result<(), Memory>
    ensures kept { OnOk result (answers.new ≡ after_ask answers.old
        (ask_of tables.old bans.now times key now word words.entry)) }
    ensures state { OnOk result (tables.new ≡ tables_after answers.old
        (ask_of tables.old bans.now times key now word words.entry) tables.old words.entry) }
    ensures order { tables.new ≡ record tables.old { order = tables.new.order } }
    ensures err { OnErr result (answers.new ≡ answers.old) }
{
    if answers.find(key, now).is_some() || !answers.has_room(key) {
        return Ok(());
    }
    let records = tables.len();
    let time = times.for_all(now, word);
    let entries = new_entries::<H, Brand>(alloc, tables, bans, time, now, words, Blank::new(1))?;
    answers.put(key, now, records, word, entries)?;
    Ok(())
}

/// Returns the entries of a new answer, with this time if there is one. The steps are counted on
/// the counter that the token makes.
fn new_entries<H: BuildHasher, L: Ledger>(
    alloc: Global,
    tables: &mut Tables<'_, H>,
    bans: &Bans,
    time: Option<u32>,
    now: u32,
    words: Draws<'_>,
    blank: Blank,
) -> Result<Vec<Entry>, Memory>
    requires name { blank.name ≡ L.name }
    requires parts { blank.parts ≡ L.parts }
    requires one { blank.parts ≡ 1 }
    ensures found { IfOk result (λ es. es.items
        ≡ entries_by tables.old bans.now time now words.entry) }
    ensures few { IfOk result (λ es. length es.items ≤ MAX_TOLD) }
    ensures state { OnOk result (tables.new ≡ (sample_of tables.old now words.entry).state) }
    ensures order { tables.new ≡ record tables.old { order = tables.new.order } }
{
    let mut steps = Steps::<L>::none(blank);
    let peers = picking::sample_by(
        alloc,
        tables,
        MAX_TOLD as u32,
        MAX_PERCENT,
        told_nets(),
        words,
        now,
        &mut steps,
    )?;
    Ok(entries_of(alloc, tables, bans, peers.items(), time, now, &mut steps)?)
}
