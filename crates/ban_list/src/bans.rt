//! `Bans`, `BanReply` and `MAX_BANS`: ban, unban and `covering`, with one ban for each subnet.

ghost use Rattle.std.specs.Prelude.{◌≡◌, option_map, find, ◌<◌, ◌≤◌, length, Some, None, IfSome, IfNone, is_some, slice_index_or, IfOk};
ghost use Rattle.ban_list.specs.Bans.{stops, reply_outcome, current_by, without_ban, is_of, listed};
ghost use Rattle.std.specs.List.{position_or_len};
ghost use Rattle.std.specs.Vec.{vec_len, vec_capacity};
ghost use Rattle.ban_list.specs.declared.ban.Ban.{Ban};
ghost use Rattle.ban_list.specs.declared.bans.TheConstants.{MAX_BANS};
ghost use Rattle.indexmap.specs.IndexMap.{values};
ghost use Rattle.ban_list.specs.BanFile.{merged};

use crate::{Ban, BanRule, Memory, Subnet};
use indexmap::IndexMap;
use net_addr::NetAddr;
use std::alloc::Global;
use std::marker::Model;

/// The maximum number of bans of a list. This limit is our own.
pub const MAX_BANS: usize = 100_000;

/// What became of a ban.
#[derive(Clone, Copy, Debug, PartialEq, Eq)]
pub enum BanReply {
    /// The subnet is banned until the new time.
    Added,
    /// The subnet was banned until that time or later already.
    Kept,
    /// The list has no room.
    Full,
}

/// A list of bans of distinct subnets. A new one goes last.
#[derive(Debug, Drop)]
pub struct Bans {
    bans: Vec<Ban>,
}

impl Model for Bans {
    ghost use Rattle.std.specs.Prelude.{List};
    ghost use Rattle.ban_list.specs.Bans.{AreBans};
    ghost use Rattle.ban_list.specs.declared.ban.Ban.{Ban};

    ghost Value = { List Ban };

    ghost view = { λ b. b.bans.items };

    ghost invariant = { λ b. AreBans b.bans.items };
}

impl Bans {
    ghost use Rattle.std.specs.Prelude.{◌≡◌, [], IfOk, IfSome, OnOk, OnErr, option_map, find, is_some, All, length, ◌≤◌};
    ghost use Rattle.ban_list.specs.BanFile.{merged};
    ghost use Rattle.ban_list.specs.Subnet.{IsProper};
    ghost use Rattle.ban_list.specs.Bans.{AreBans, after_ban, after_ban_by, ban_of, listed, without_ban, stops};
    ghost use Rattle.ban_list.specs.declared.bans.TheConstants.{MAX_BANS};

    /// Makes an empty list.
    pub fn make(alloc: Global) -> Bans
        ensures { result ≡ [] }
    {
        Bans {
            bans: Vec::new(alloc),
        }
    }

    /// Makes the list of some bans, of which a later one takes the place of an earlier one of the
    /// same subnet.
    pub(crate) fn of(alloc: Global, bans: &[Ban]) -> Result<Bans, Memory>
        requires proper { All (λ ban. IsProper ban.subnet) bans.now }
        requires few { length bans.now ≤ MAX_BANS }
        ensures { IfOk result (λ list. list ≡ merged bans.now) }
    {
        Ok(Bans {
            bans: merge(alloc, bans)?,
        })
    }

    /// Returns the bans in their order.
    pub fn bans(&self) -> &[Ban]
        ensures value { result.now ≡ self.now }
        ensures sound { AreBans self.now }
    {
        &self.bans
    }

    /// Drops the bans that are over, and bans a subnet from `now` until a time. If it has a ban
    /// that ends as late or later, that one is kept; one that ends earlier gets the new times in
    /// its position; a new one goes last, unless there are `MAX_BANS` already. If memory runs out,
    /// the list is unchanged.
    pub fn ban(&mut self, subnet: Subnet, now: u32, until: u32) -> Result<BanReply, Memory>
        requires { IsProper subnet }
        ensures reply { IfOk result (λ reply.
            reply ≡ (after_ban (ban_of subnet now until) self.old).reply) }
        ensures bans { OnOk result (self.new
            ≡ (after_ban (ban_of subnet now until) self.old).bans) }
        ensures err { OnErr result (self.new ≡ self.old) }
        ensures max_bans { MAX_BANS ≡ 100000 }
    {
        self.ban_by(BanRule::Labels, subnet, now, until)
    }

    /// Does what `ban` does, where the bans that are over by a rule are dropped.
    pub fn ban_by(
        &mut self,
        rule: BanRule,
        subnet: Subnet,
        now: u32,
        until: u32,
    ) -> Result<BanReply, Memory>
        requires { IsProper subnet }
        ensures reply { IfOk result (λ reply.
            reply ≡ (after_ban_by rule (ban_of subnet now until) self.old).reply) }
        ensures bans { OnOk result (self.new
            ≡ (after_ban_by rule (ban_of subnet now until) self.old).bans) }
        ensures err { OnErr result (self.new ≡ self.old) }
    {
        self.bans.reserve(1)?;
        drop_over(&mut self.bans, rule, now);
        let ban = Ban {
            subnet,
            created: now,
            until,
        };
        Ok(put_longer(&mut self.bans, ban))
    }

    /// Takes the ban of a subnet out of the list. Returns `false` if the subnet is not listed.
    pub fn unban(&mut self, subnet: &Subnet) -> bool
        ensures found { result ≡ is_some (listed subnet.now self.old) }
        ensures bans { self.new ≡ without_ban subnet.now self.old }
    {
        let found = index_of(&self.bans, subnet).is_some();
        drop_subnet(&mut self.bans, subnet);
        found
    }

    /// Returns the first ban of the list that covers the address and is not over, or `None` if
    /// there is none (`BanMan::IsBanned` in banman.cpp of Bitcoin Core). It looks at each ban.
    pub fn covering(&self, addr: &NetAddr, now: u32) -> Option<&Ban>
        ensures found { option_map (λ ban. ban.now) result ≡ find (stops addr.now now) self.now }
        ensures proper { IfSome result (λ ban. IsProper ban.now.subnet) }
    {
        first_that_stops(self.bans(), addr, now)
    }
}

/// Returns the first ban that covers the address and is not over.
fn first_that_stops<'a>(bans: &'a [Ban], addr: &NetAddr, now: u32) -> Option<&'a Ban>
    ensures { option_map (λ ban. ban.now) result ≡ find (stops addr.now now) bans.now }
{
    bans.iter().find(|ban| ban.stops(addr, now))
}

/// Drops the bans that are over by a rule.
pub(crate) fn drop_over(bans: &mut Vec<Ban>, rule: BanRule, now: u32)
    ensures items { bans.new.items ≡ current_by rule now bans.old.items }
    ensures len { vec_len bans.new ≤ vec_len bans.old }
    ensures capacity { vec_capacity bans.new ≡ vec_capacity bans.old }
{
    bans.retain(|ban| ban.lasts(rule, now));
}

/// Drops the bans of a subnet.
pub(crate) fn drop_subnet(bans: &mut Vec<Ban>, subnet: &Subnet)
    ensures { bans.new.items ≡ without_ban subnet.now bans.old.items }
{
    bans.retain(|ban| !ban.is_of(subnet));
}

/// Bans a subnet, unless it is banned until that time or later already, or is not listed and there
/// is no room.
pub(crate) fn put_longer(bans: &mut Vec<Ban>, ban: Ban) -> BanReply
    requires { vec_len bans.old < vec_capacity bans.old }
    ensures reply { result ≡ (reply_outcome ban bans.old.items).reply }
    ensures bans { bans.new.items ≡ (reply_outcome ban bans.old.items).bans }
{
    if let Some(index) = index_of(bans, &ban.subnet) {
        if bans[index].lasts_until(ban.until) {
            return BanReply::Kept;
        }
        bans[index] = ban;
        return BanReply::Added;
    }
    if bans.len() >= MAX_BANS {
        return BanReply::Full;
    }
    bans.push_reserved(ban);
    BanReply::Added
}

/// Returns the index of the ban of a subnet, if it is listed.
pub(crate) fn index_of(bans: &[Ban], subnet: &Subnet) -> Option<usize>
    ensures found { IfSome result (λ i. (d : Ban)
        → listed subnet.now bans.now ≡ Some (slice_index_or bans.now i d)) }
    ensures listed { is_some result ≡ is_some (listed subnet.now bans.now) }
    ensures within { IfSome result (λ i. i < length bans.now) }
    ensures first { IfSome result (λ i. i ≡ position_or_len (is_of subnet.now) bans.now) }
    ensures none { IfNone result (listed subnet.now bans.now ≡ None) }
    ensures past { IfNone result
        (length bans.now ≤ position_or_len (is_of subnet.now) bans.now) }
{
    for i in 0..bans.len() {
        if bans[i].is_of(subnet) {
            return Some(i);
        }
    }
    None
}

/// Returns one ban for each subnet: a later one takes the position of an earlier one. It takes one
/// look-up a ban.
pub(crate) fn merge(alloc: Global, bans: &[Ban]) -> Result<Vec<Ban>, Memory>
    ensures { IfOk result (λ list. list.items ≡ merged bans.now) }
{
    let map = by_subnet(alloc, bans)?;
    let mut list = Vec::with_capacity(alloc, map.len())?;
    for ban in map.values() {
        list.push(*ban)?;
    }
    Ok(list)
}

/// Returns the last ban of each subnet under the subnet, in the order of the first ones.
fn by_subnet(alloc: Global, bans: &[Ban]) -> Result<IndexMap<Subnet, Ban>, Memory>
    ensures { IfOk result (λ map. values map ≡ merged bans.now) }
{
    let mut map = IndexMap::with_capacity(alloc, bans.len())?;
    for ban in bans {
        map.insert(ban.subnet, *ban)?;
    }
    Ok(map)
}
