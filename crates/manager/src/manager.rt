//! `Manager`: `apply` carries out a `Command` and answers a `Reply`, with a function for each
//! command.

ghost use Rattle.std.specs.Prelude.{◌≡◌, ◌+◌, ◌≤◌, ◌<◌, ◌^◌, IfOk, OnErr};
ghost use Rattle.addr_codecs.specs.declared.message.TheConstants.{MAX_ENTRIES};
ghost use Rattle.addr_codecs.specs.Layout.{IsMessage, HasMessageFault};
ghost use Rattle.manager.specs.Step.{Step, MessageStep, LeavesEntries, SavesNothing, HasPercent, NeedsMemory, LeavesPart};

use addr_codecs::Form;
use host_io::Bytes;
use log_lines::{Command, Reply, WordSource, Words};
use memory::Memory;
use net_addr::{NetAddr, NetSet, Peer};
use picking::{SampleFault, sample, select_by};
use std::alloc::Global;
use std::hash::BuildHasher;
use std::marker::Model;
use std::sync::ledger::Ledger;
use steps::Steps;
use tables::Tables;
use taking::{MessageFault, take_message};
use tried_clash::{clash_pick, resolve};

/// The tables and a clock.
#[derive(Drop)]
pub struct Manager<'a, H: BuildHasher> {
    tables: Tables<'a, H>,
    clock: u32,
}

impl<'a, H: BuildHasher> Model for Manager<'a, H> {
    ghost use Rattle.std.specs.Prelude.{◌<◌};
    ghost use Rattle.std.specs.Coded.{codes};
    ghost use Rattle.placing.specs.Places.{coded_places};
    ghost use Rattle.manager.specs.Machine.{Machine};

    ghost Value = { Machine };

    ghost coded = { Prim.hlevel (codes, coded_places) };

    ghost view = { λ m. record { tables = m.tables; clock = m.clock } };
}

impl<'a, H: BuildHasher> Manager<'a, H> {
    /// Makes the manager of these tables, with its clock at 0.
    pub fn open(tables: Tables<'a, H>) -> Manager<'a, H>
        ensures { result ≡ record { tables = tables.entry; clock = 0 } }
    {
        Manager { tables, clock: 0 }
    }

    /// Returns the time in seconds since 1970.
    pub fn clock(&self) -> u32
        ensures { result ≡ self.now.clock }
    {
        self.clock
    }

    /// Returns the tables.
    pub fn tables(&self) -> &Tables<'a, H>
        ensures { result.now ≡ self.now.tables }
    {
        &self.tables
    }

    /// Carries out a command that saves nothing, and returns its reply. The next record number must
    /// be below 2^62, so that a whole message fits. If memory runs out, nothing changes, except
    /// that some of the first entries of a message may have been taken.
    pub fn apply<L: Ledger>(
        &mut self,
        alloc: Global,
        command: &Command,
        steps: &mut Steps<L>,
    ) -> Result<Reply, Memory>
        requires no_save { SavesNothing command.now }
        requires percent { HasPercent command.now }
        requires room { self.old.tables.next_number < 2 ^ 62 }
        ensures step { IfOk result (λ answer. Step self.old command.now answer self.new) }
        ensures numbers { self.new.tables.next_number ≤ self.old.tables.next_number + MAX_ENTRIES }
        ensures cause { OnErr result (NeedsMemory command.now) }
        ensures err { OnErr result (LeavesPart self.old command.now self.new) }
    {
        match command {
            Command::Now { time } => {
                self.clock = *time;
                Ok(Reply::Now { time: *time })
            }
            Command::Addr {
                source,
                payload,
                words,
            } => self.take_payload(alloc, Form::Addr, payload, source, words, steps),
            Command::Addr2 {
                source,
                payload,
                words,
            } => self.take_payload(alloc, Form::Addrv2, payload, source, words, steps),
            Command::Good { peer, testing } => Ok(self.good(peer, *testing, steps)),
            Command::Attempt { peer, count } => Ok(self.attempt(peer, *count, steps)),
            Command::Connected { peer } => Ok(self.connected(peer, steps)),
            Command::Services { peer, services } => Ok(self.services(peer, *services, steps)),
            Command::Find { peer } => Ok(self.find(peer, steps)),
            Command::Size => Ok(Reply::Size(self.tables.counts())),
            Command::Select {
                new_only,
                nets,
                words,
            } => Ok(self.select(*new_only, *nets, words, steps)),
            Command::Sample {
                max,
                pct,
                classes,
                words,
            } => self.sample(alloc, *max, *pct, *classes, words, steps),
            Command::Resolve => Ok(self.resolve(steps)),
            Command::Clash { word } => Ok(self.clash(*word, steps)),
            Command::Dump => Ok(Reply::Dump(self.tables.recs(steps)?)),
            Command::Save | Command::SaveBegin | Command::SaveStep { .. } | Command::SaveEnd =>
                unreachable!(),
        }
    }

    /// Reads the message in a payload and adds its entries.
    fn take_payload<L: Ledger>(
        &mut self,
        alloc: Global,
        form: Form,
        payload: &Bytes,
        source: &NetAddr,
        words: &Words,
        steps: &mut Steps<L>,
    ) -> Result<Reply, Memory>
        requires more { self.old.tables.next_number < 2 ^ 62 }
        ensures step { IfOk result (λ answer. MessageStep (IsMessage form payload.now)
            (HasMessageFault form payload.now) self.old source.now words.now answer self.new) }
        ensures numbers { self.new.tables.next_number ≤ self.old.tables.next_number + MAX_ENTRIES }
        ensures err { OnErr result (LeavesEntries (IsMessage form payload.now) self.old
            source.now words.now self.new) }
    {
        match take_message(
            alloc,
            &mut self.tables,
            form,
            payload.items(),
            source,
            words.items(),
            self.clock,
            steps,
        ) {
            Ok(added) => Ok(Reply::Added {
                accepted: added.accepted,
                total: added.total,
            }),
            Err(MessageFault::Memory) => Err(Memory),
            Err(MessageFault::Refused(fault)) => Ok(Reply::Refused(fault)),
            Err(MessageFault::ShortWords { need, have }) => Ok(Reply::Short { need, have }),
        }
    }

    /// Records that a connection to a peer succeeded. With `testing`, the occupant of its tried
    /// slot stays.
    fn good<L: Ledger>(&mut self, peer: &Peer, testing: bool, steps: &mut Steps<L>) -> Reply
        ensures step { Step self.old (Command.Good peer.now testing) result self.new }
        ensures numbers { self.new.tables.next_number ≡ self.old.tables.next_number }
    {
        Reply::Good(self.tables.good(peer, testing, self.clock, steps))
    }

    /// Records that a connection to a peer was tried. With `count`, it may count as a failure.
    fn attempt<L: Ledger>(&mut self, peer: &Peer, count: bool, steps: &mut Steps<L>) -> Reply
        ensures step { Step self.old (Command.Attempt peer.now count) result self.new }
        ensures numbers { self.new.tables.next_number ≡ self.old.tables.next_number }
    {
        Reply::Known(self.tables.attempt(peer, count, self.clock, steps))
    }

    /// Records that a peer is still connected.
    fn connected<L: Ledger>(&mut self, peer: &Peer, steps: &mut Steps<L>) -> Reply
        ensures step { Step self.old (Command.Connected peer.now) result self.new }
        ensures numbers { self.new.tables.next_number ≡ self.old.tables.next_number }
    {
        Reply::Known(self.tables.connected(peer, self.clock, steps))
    }

    /// Records which services a peer offers.
    fn services<L: Ledger>(&mut self, peer: &Peer, services: u64, steps: &mut Steps<L>) -> Reply
        ensures step { Step self.old (Command.Services peer.now services) result self.new }
        ensures numbers { self.new.tables.next_number ≡ self.old.tables.next_number }
    {
        Reply::Known(self.tables.services(peer, services, steps))
    }

    /// Returns the peer's record.
    fn find<L: Ledger>(&self, peer: &Peer, steps: &mut Steps<L>) -> Reply
        ensures step { Step self.now (Command.Find peer.now) result self.now }
    {
        Reply::Found(self.tables.find(peer, steps).map(|rec| rec.copy()))
    }

    /// Selects a peer to connect to by random words, of one of these networks.
    fn select<L: Ledger>(
        &self,
        new_only: bool,
        nets: NetSet,
        words: &WordSource,
        steps: &mut Steps<L>,
    ) -> Reply
        ensures { Step self.now (Command.Select new_only nets words.now) result self.now }
    {
        Reply::Picked(select_by(
            &self.tables,
            new_only,
            nets,
            words.draws(),
            self.clock,
            steps,
        ))
    }

    /// Samples peers to announce by random words, of these classes: at most `max`, and at most
    /// `pct` percent of the records. A limit of 0 is none.
    fn sample<L: Ledger>(
        &mut self,
        alloc: Global,
        max: u32,
        pct: u32,
        classes: NetSet,
        words: &Words,
        steps: &mut Steps<L>,
    ) -> Result<Reply, Memory>
        requires part { pct ≤ 100 }
        ensures step { IfOk result (λ answer.
            Step self.old (Command.Sample max pct classes words.now) answer self.new) }
        ensures numbers { self.new.tables.next_number ≡ self.old.tables.next_number }
        ensures err { OnErr result (self.new ≡ self.old) }
    {
        match sample(
            alloc,
            &mut self.tables,
            max,
            pct,
            classes,
            words.items(),
            self.clock,
            steps,
        ) {
            Ok(peers) => Ok(Reply::Sample(peers)),
            Err(SampleFault::ShortWords { need, have }) => Ok(Reply::Short { need, have }),
            Err(SampleFault::Memory) => Err(Memory),
        }
    }

    /// Decides on all collisions, and says how many had which result.
    fn resolve<L: Ledger>(&mut self, steps: &mut Steps<L>) -> Reply
        ensures step { Step self.old Command.Resolve result self.new }
        ensures numbers { self.new.tables.next_number ≡ self.old.tables.next_number }
    {
        Reply::Resolved(resolve(&mut self.tables, self.clock, steps))
    }

    /// Selects a collision by a random word, and returns the occupant of its slot.
    fn clash<L: Ledger>(&mut self, word: u64, steps: &mut Steps<L>) -> Reply
        ensures step { Step self.old (Command.Clash word) result self.new }
        ensures numbers { self.new.tables.next_number ≡ self.old.tables.next_number }
    {
        Reply::Clash(clash_pick(&mut self.tables, word, steps))
    }
}
