//! Opens an outbound connection or a feeler, or closes one; other lines go to the manager.

ghost use Rattle.std.specs.Prelude.{◌≡◌, ◌+◌, ◌≤◌, ◌<◌, ◌^◌, ◌++◌, ◌⊎◌, OnOk, OnErr};
ghost use Rattle.log_lines.specs.Replies.{reply_text};
ghost use Rattle.log_lines.specs.declared.reply.Reply as replies;
ghost use Rattle.manager.specs.Step as machine;
ghost use Rattle.manager.specs.Step.{SavesNothing, HasPercent, LeavesPart};
ghost use Rattle.peer_open.specs.Groups.{is_open, without_peer};
ghost use Rattle.table_machine.specs.Clashes.{clash_pick};
ghost use Rattle.opener_lines.specs.Inside.{CanBeDone, Leaves};
ghost use Rattle.opener_lines.specs.State.{Answer, FeelerStep, OutboundStep, RequestStep, after_clash, state};
ghost use Rattle.opener_lines.specs.Texts.{answer_text, closed_text};

use crate::print::{closed_text, opened_text, tested_text};
use crate::tries::{Found, find_feeler, find_outbound};
use crate::{OpenerCommand, Outcome};
use log_lines::{Command, Reply, put_reply};
use manager::Manager;
use net_addr::{Memory, Peer, put_text};
use peer_open::{MAX_OUTBOUND, OpenRules, Opener};
use std::alloc::Global;
use std::hash::BuildHasher;
use std::sync::ledger::Ledger;
use steps::Steps;

/// Carries out a request, and appends the text of its answer.
pub(crate) fn carry_out<H: BuildHasher, L: Ledger>(
    alloc: Global,
    rules: &OpenRules,
    manager: &mut Manager<'_, H>,
    opener: &mut Opener,
    request: &OpenerCommand,
    out: &mut Vec<u8>,
    steps: &mut Steps<L>,
) -> Result<(), Memory>
    requires done { CanBeDone request.now }
    requires room { manager.old.tables.next_number < 2 ^ 62 }
    ensures step { OnOk result ((answer : Answer)
        × RequestStep (state rules.now manager.old opener.old) request.now
        answer (state rules.now manager.new opener.new)
        × (out.new.items ≡ out.old.items ++ answer_text answer)) }
    ensures err { OnErr result
        (Leaves (state rules.now manager.old opener.old) request.now
        (state rules.now manager.new opener.new)) }
    ensures list { OnErr result (out.new.items ≡ out.old.items) }
    ensures numbers { manager.new.tables.next_number ≤ manager.old.tables.next_number + 1000 }
{
    match request {
        OpenerCommand::Outbound { seed } => {
            outbound(alloc, rules, manager, opener, *seed, out, steps)
        },
        OpenerCommand::Feeler { seed, word } => {
            feeler(alloc, rules, manager, opener, *seed, *word, out, steps)
        }
        OpenerCommand::Close { peer } => close(opener, peer, out),
        OpenerCommand::Machine(command) => tell(alloc, manager, command, out, steps),
    }
}

/// Opens an outbound connection, unless there are ten. The answer is written before the peer is
/// added, so that nothing has changed if memory runs out.
fn outbound<H: BuildHasher, L: Ledger>(
    alloc: Global,
    rules: &OpenRules,
    manager: &Manager<'_, H>,
    opener: &mut Opener,
    seed: u32,
    out: &mut Vec<u8>,
    steps: &mut Steps<L>,
) -> Result<(), Memory>
    ensures step { OnOk result ((answer : Answer)
        × OutboundStep (state rules.now manager.now opener.old) seed
        answer (state rules.now manager.now opener.new)
        × (out.new.items ≡ out.old.items ++ answer_text answer)) }
    ensures err { OnErr result (opener.new ≡ opener.old) }
    ensures list { OnErr result (out.new.items ≡ out.old.items) }
{
    if opener.len() == MAX_OUTBOUND {
        return put_text(b"full\n", out);
    }
    match find_outbound(rules, manager, opener, seed, steps) {
        Found::Taken { peer, group, tries } => {
            let text = opened_text(alloc, &peer, group.as_slice(), tries)?;
            put_text(text.as_slice(), out)?;
            opener.add_counted(peer, group);
            Ok(())
        }
        Found::Nothing => put_text(b"none\n", out),
        Found::GaveUp => put_text(b"gave-up\n", out),
    }
}

/// Opens a connection to test a peer: the occupant of the slot of the collision that the word
/// selects, or else a peer of the new table.
fn feeler<H: BuildHasher, L: Ledger>(
    alloc: Global,
    rules: &OpenRules,
    manager: &mut Manager<'_, H>,
    opener: &Opener,
    seed: u32,
    word: u64,
    out: &mut Vec<u8>,
    steps: &mut Steps<L>,
) -> Result<(), Memory>
    requires room { manager.old.tables.next_number < 2 ^ 62 }
    ensures step { OnOk result ((answer : Answer)
        × FeelerStep (state rules.now manager.old opener.now) seed word
        answer (state rules.now manager.new opener.now)
        × (out.new.items ≡ out.old.items ++ answer_text answer)) }
    ensures err { OnErr result (manager.new ≡ after_clash manager.old word) }
    ensures list { OnErr result (out.new.items ≡ out.old.items) }
    ensures numbers { manager.new.tables.next_number ≤ manager.old.tables.next_number + 1000 }
{
    let occupant = occupant(alloc, manager, word, steps);
    match find_feeler(rules, manager, opener, &occupant, seed, steps) {
        Outcome::Taken { peer, tries } => {
            let text = tested_text(alloc, &peer, tries)?;
            put_text(text.as_slice(), out)
        }
        Outcome::Nothing => put_text(b"none\n", out),
        Outcome::GaveUp => put_text(b"gave-up\n", out),
    }
}

/// Returns the occupant of the slot of the collision that the word selects, and when it was last
/// tried, in seconds since 1970.
fn occupant<H: BuildHasher, L: Ledger>(
    alloc: Global,
    manager: &mut Manager<'_, H>,
    word: u64,
    steps: &mut Steps<L>,
) -> Option<(Peer, u32)>
    requires room { manager.old.tables.next_number < 2 ^ 62 }
    ensures answer { result ≡ (clash_pick manager.old.tables word).answer }
    ensures machine { manager.new ≡ after_clash manager.old word }
    ensures numbers { manager.new.tables.next_number ≤ manager.old.tables.next_number + 1000 }
{
    // Such a command takes no memory, and has no other reply.
    let Ok(reply) = manager.apply(alloc, &Command::Clash { word }, steps) else {
        unreachable!()
    };
    match &reply {
        Reply::Clash(found) => *found,
        _ => unreachable!(),
    }
}

/// Closes an outbound connection.
fn close(opener: &mut Opener, peer: &Peer, out: &mut Vec<u8>) -> Result<(), Memory>
    ensures open_peers { opener.new ≡ without_peer peer.now opener.old }
    ensures text { OnOk result (out.new.items
        ≡ out.old.items ++ closed_text (is_open peer.now opener.old)) }
    ensures list { OnErr result (out.new.items ≡ out.old.items) }
{
    let was_open = opener.close_peer(peer);
    put_text(closed_text(was_open), out)
}

/// Carries out a command of the address manager, and appends the text of its reply.
fn tell<H: BuildHasher, L: Ledger>(
    alloc: Global,
    manager: &mut Manager<'_, H>,
    command: &Command,
    out: &mut Vec<u8>,
    steps: &mut Steps<L>,
) -> Result<(), Memory>
    requires no_save { SavesNothing command.now }
    requires percent { HasPercent command.now }
    requires room { manager.old.tables.next_number < 2 ^ 62 }
    ensures step { OnOk result ((reply : replies.Reply)
        × machine.Step manager.old command.now reply manager.new
        × (out.new.items ≡ out.old.items ++ reply_text reply)) }
    ensures err { OnErr result (LeavesPart manager.old command.now manager.new
        ⊎ ((reply : replies.Reply) × machine.Step manager.old command.now reply manager.new)) }
    ensures list { OnErr result (out.new.items ≡ out.old.items) }
    ensures numbers { manager.new.tables.next_number ≤ manager.old.tables.next_number + 1000 }
{
    let Ok(reply) = manager.apply(alloc, command, steps) else {
        return Err(Memory);
    };
    match put_reply(&reply, out) {
        Ok(()) => Ok(()),
        Err(_) => Err(Memory),
    }
}
