//! `select`, `sample`, `resolve` and `clash_pick`.

ghost use Rattle.std.specs.Prelude.{◌≡◌, ℕ, ◌≤◌, ◌<◌, ◌^◌, length, Err, IfOk, OnOk, OnErr, IsSome};
ghost use Rattle.net_addr.specs.declared.peer.Peer.{Peer};
ghost use Rattle.peer_rec.specs.declared.answers.Picked.TheVariants.{One};
ghost use Rattle.table_machine.specs.State.{find_peer};
ghost use Rattle.node_calls.specs.Picked.{IsPicked};
ghost use Rattle.table_machine.specs.Picks.{select, sample};
ghost use Rattle.table_machine.specs.Clashes.{resolve, clash_pick};

use net_addr::{NetSet, Peer};
use picking::{Peers, Picked, SampleFault};
use std::alloc::Global;
use std::hash::BuildHasher;
use std::marker::Brand;
use std::sync::ledger::{Blank, Ledger};
use steps::Steps;
use tables::Tables;
use tried_clash::Resolved;

/// Selects a peer to connect to by random words, of one of these networks, at a time in seconds
/// since 1970 (`picking::select`).
pub fn select<H: BuildHasher>(
    tables: &Tables<'_, H>,
    new_only: bool,
    nets: NetSet,
    words: &[u64],
    now: u32,
) -> Picked
    ensures picked { result ≡ select tables.now new_only nets words.now now }
    ensures record { (peer : Peer) (last_try : ℕ) → result ≡ One peer last_try →
        IsPicked tables.now nets peer last_try }
    ensures known { (peer : Peer) (last_try : ℕ) → result ≡ One peer last_try →
        IsSome (find_peer tables.now peer) }
{
    count_select::<H, Brand>(tables, new_only, nets, words, now, Blank::new(1))
}

/// Does the same, and counts the steps on the counter that the token makes.
fn count_select<H: BuildHasher, L: Ledger>(
    tables: &Tables<'_, H>,
    new_only: bool,
    nets: NetSet,
    words: &[u64],
    now: u32,
    blank: Blank,
) -> Picked
    requires name { blank.name ≡ L.name }
    requires parts { blank.parts ≡ L.parts }
    requires one { blank.parts ≡ 1 }
    ensures picked { result ≡ select tables.now new_only nets words.now now }
{
    let mut steps = Steps::<L>::none(blank);
    picking::select(tables, new_only, nets, words, now, &mut steps)
}

/// Samples peers to announce by random words, of these classes, at a time in seconds since 1970: at
/// most `max`, and at most `pct` percent of the records. A limit of 0 is none (`picking::sample`).
pub fn sample<H: BuildHasher>(
    alloc: Global,
    tables: &mut Tables<'_, H>,
    max: u32,
    pct: u32,
    classes: NetSet,
    words: &[u64],
    now: u32,
) -> Result<Peers, SampleFault>
    requires percent { pct ≤ 100 }
    requires few_words { length words.now < 2 ^ 32 }
    ensures peers { IfOk result
        (λ p. p ≡ (sample tables.old max pct classes words.now now).answer) }
    ensures state { OnOk result
        (tables.new ≡ (sample tables.old max pct classes words.now now).state) }
    ensures enough { OnOk result (length tables.old.order ≤ length words.now) }
    ensures short { (need have : ℕ) → result ≡ Err (SampleFault.ShortWords need have) →
        (need ≡ length tables.old.order) × ((have ≡ length words.now) × (have < need)) }
    ensures memory { result ≡ Err SampleFault.Memory →
        length tables.old.order ≤ length words.now }
    ensures err { OnErr result (tables.new ≡ tables.old) }
{
    count_sample::<H, Brand>(alloc, tables, max, pct, classes, words, now, Blank::new(1))
}

/// Does the same, and counts the steps on the counter that the token makes.
fn count_sample<H: BuildHasher, L: Ledger>(
    alloc: Global,
    tables: &mut Tables<'_, H>,
    max: u32,
    pct: u32,
    classes: NetSet,
    words: &[u64],
    now: u32,
    blank: Blank,
) -> Result<Peers, SampleFault>
    requires name { blank.name ≡ L.name }
    requires parts { blank.parts ≡ L.parts }
    requires one { blank.parts ≡ 1 }
    requires percent { pct ≤ 100 }
    requires few_words { length words.now < 2 ^ 32 }
    ensures peers { IfOk result
        (λ p. p ≡ (sample tables.old max pct classes words.now now).answer) }
    ensures state { OnOk result
        (tables.new ≡ (sample tables.old max pct classes words.now now).state) }
    ensures enough { OnOk result (length tables.old.order ≤ length words.now) }
    ensures short { (need have : ℕ) → result ≡ Err (SampleFault.ShortWords need have) →
        (need ≡ length tables.old.order) × ((have ≡ length words.now) × (have < need)) }
    ensures memory { result ≡ Err SampleFault.Memory →
        length tables.old.order ≤ length words.now }
    ensures err { OnErr result (tables.new ≡ tables.old) }
{
    let mut steps = Steps::<L>::none(blank);
    picking::sample(alloc, tables, max, pct, classes, words, now, &mut steps)
}

/// Decides on all collisions, at a time in seconds since 1970 (`tried_clash::resolve`).
pub fn resolve<H: BuildHasher>(tables: &mut Tables<'_, H>, now: u32) -> Resolved
    ensures answer { result ≡ (resolve tables.old now).answer }
    ensures state { tables.new ≡ (resolve tables.old now).state }
{
    count_resolve::<H, Brand>(tables, now, Blank::new(1))
}

/// Does the same, and counts the steps on the counter that the token makes.
fn count_resolve<H: BuildHasher, L: Ledger>(
    tables: &mut Tables<'_, H>,
    now: u32,
    blank: Blank,
) -> Resolved
    requires name { blank.name ≡ L.name }
    requires parts { blank.parts ≡ L.parts }
    requires one { blank.parts ≡ 1 }
    ensures answer { result ≡ (resolve tables.old now).answer }
    ensures state { tables.new ≡ (resolve tables.old now).state }
{
    let mut steps = Steps::<L>::none(blank);
    tried_clash::resolve(tables, now, &mut steps)
}

/// Selects a collision by a random word, and returns the occupant of its slot and when that was
/// last tried (`tried_clash::clash_pick`).
pub fn clash_pick<H: BuildHasher>(tables: &mut Tables<'_, H>, word: u64) -> Option<(Peer, u32)>
    ensures answer { result ≡ (clash_pick tables.old word).answer }
    ensures state { tables.new ≡ (clash_pick tables.old word).state }
{
    count_clash_pick::<H, Brand>(tables, word, Blank::new(1))
}

/// Does the same, and counts the steps on the counter that the token makes.
fn count_clash_pick<H: BuildHasher, L: Ledger>(
    tables: &mut Tables<'_, H>,
    word: u64,
    blank: Blank,
) -> Option<(Peer, u32)>
    requires name { blank.name ≡ L.name }
    requires parts { blank.parts ≡ L.parts }
    requires one { blank.parts ≡ 1 }
    ensures answer { result ≡ (clash_pick tables.old word).answer }
    ensures state { tables.new ≡ (clash_pick tables.old word).state }
{
    let mut steps = Steps::<L>::none(blank);
    tried_clash::clash_pick(tables, word, &mut steps)
}
