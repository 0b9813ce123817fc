//! The records of `peers.dat` whose group another asmap changes: the last lines of `diff`.

ghost use Rattle.std.specs.Prelude.{◌≡◌, ◌++◌, IfOk, OnOk};
ghost use Rattle.placing.specs.Inside.{asmap_of};
ghost use Rattle.addrman_run.specs.GroupChanges.{change_line, change_lines, changes_group, changes_of, group_changes_text, groups_text, totals_line};

use asmap_vm::Sane;
use net_addr::{Memory, Peer, put_hex, put_number, put_peer, put_text};
use net_group::group;
use peer_rec::{FileRec, Snapshot};
use placing::number_of;
use std::alloc::Global;

/// Returns a line for each record whose peer has another group under the new asmap, and a line of
/// how many these are.
#[tactic(auto, unfolding(crate::specs::GroupChanges::group_changes_text))]
pub(crate) fn group_changes(
    alloc: Global,
    old: &Sane<'_>,
    new: &Sane<'_>,
    snap: &Snapshot,
) -> Result<Vec<u8>, Memory>
    ensures { IfOk result (λ text.
        text.items ≡ group_changes_text (asmap_of old.now) (asmap_of new.now) snap.now) }
{
    let mut text = Vec::new(alloc);
    let of_new = put_changes(old, new, snap.new_recs(), &mut text)?;
    let of_tried = put_changes(old, new, snap.tried_recs(), &mut text)?;
    let records = snap.new_recs().len() + snap.tried_recs().len();
    put_totals(of_new + of_tried, records as u64, &mut text)?;
    Ok(text)
}

/// Appends how many records there are, and how many of them change their group.
fn put_totals(changes: u64, records: u64, out: &mut Vec<u8>) -> Result<(), Memory>
    ensures { OnOk result (out.new.items ≡ out.old.items ++ totals_line changes records) }
{
    put_number(b"# ", changes, out)?;
    put_number(b" of ", records, out)?;
    put_text(b" records change their group\n", out)
}

/// Appends the line of each record whose group changes, and returns how many these are.
fn put_changes(
    old: &Sane<'_>,
    new: &Sane<'_>,
    recs: &[FileRec],
    out: &mut Vec<u8>,
) -> Result<u64, Memory>
    ensures count { IfOk result (λ count.
        count ≡ changes_of (asmap_of old.now) (asmap_of new.now) recs.now) }
    ensures lines { IfOk result (λ _. out.new.items
        ≡ out.old.items ++ change_lines (asmap_of old.now) (asmap_of new.now) recs.now) }
{
    let mut count = 0;
    for rec in recs {
        if put_change(old, new, rec, out)? {
            count += 1;
        }
    }
    Ok(count)
}

/// Appends the line of a record if its group changes, and returns whether it does.
#[tactic(auto, unfolding(crate::specs::GroupChanges::change_line))]
fn put_change(
    old: &Sane<'_>,
    new: &Sane<'_>,
    rec: &FileRec,
    out: &mut Vec<u8>,
) -> Result<bool, Memory>
    ensures changes { IfOk result (λ changes.
        changes ≡ changes_group (asmap_of old.now) (asmap_of new.now) rec.now) }
    ensures line { IfOk result (λ _. out.new.items
        ≡ out.old.items ++ change_line (asmap_of old.now) (asmap_of new.now) rec.now) }
{
    let addr = &rec.peer.addr;
    let old_group = group(addr, number_of(old, addr));
    let new_group = group(addr, number_of(new, addr));
    if old_group.as_slice() == new_group.as_slice() {
        return Ok(false);
    }
    put_groups(&rec.peer, new_group.as_slice(), old_group.as_slice(), out)?;
    Ok(true)
}

/// Appends the line of a peer, with the group that it has and the one that it had.
fn put_groups(peer: &Peer, group: &[u8], old_group: &[u8], out: &mut Vec<u8>) -> Result<(), Memory>
    ensures { OnOk result
        (out.new.items ≡ out.old.items ++ groups_text peer.now group.now old_group.now) }
{
    put_text(b"# ", out)?;
    put_peer(peer, out)?;
    put_hex(b" group ", group, out)?;
    put_hex(b" was ", old_group, out)?;
    put_text(b"\n", out)?;
    Ok(())
}
