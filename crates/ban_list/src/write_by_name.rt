//! `write_bans_by` writes Bitcoin Core's form: what the old file contains, and which of its
//! elements are bans.

ghost use Rattle.std.specs.Prelude.{◌≡◌, [], IfNone, IfOk, IfSome, map, option_map};
ghost use Rattle.std.specs.List.Sorted.{IsPermutation, IsSortedBy};
ghost use Rattle.json.specs.Json.{object};
ghost use Rattle.json.specs.Value.{value_view};
ghost use Rattle.serde_json.specs.View.{view};
ghost use Rattle.ban_list.specs.NewFile.{IsNamedFile, IsWritten, comes_before, members_in, members_of, subnet_cmp};
ghost use Rattle.ban_list.specs.OldFile.{AreSubnets, IsNamedOver, IsSubnetOf, list_in, member_view};

use crate::named_text::write_named;
use crate::read_file::{element_of, elements_of, parse};
use crate::{Ban, BanRule, Bans, Memory, Subnet, write_bans};
use host_io::Bytes;
use json::{Scratch, Value as Tree};
use serde_json::Value;
use std::alloc::Global;
use std::cmp::Ordering;

/// Writes a list of bans by a rule. `old` is the file that the list was read from, if there was
/// one; for bytes that are no list's file the answer is `Memory`.
pub fn write_bans_by(
    alloc: Global,
    rule: BanRule,
    old: &Option<Bytes>,
    bans: &Bans,
) -> Result<Bytes, Memory>
    ensures { IfOk result (IsWritten rule old.now bans.now) }
{
    match rule {
        BanRule::Labels => write_bans(alloc, bans),
        BanRule::Names => write_by_name(alloc, old, bans),
    }
}

/// Writes a list of bans as Bitcoin Core does, into what the old file has besides its bans.
fn write_by_name(alloc: Global, old: &Option<Bytes>, bans: &Bans) -> Result<Bytes, Memory>
    ensures { IfOk result (IsNamedFile old.now bans.now) }
{
    let list = sorted_of(alloc, bans.bans())?;
    match old {
        Some(bytes) => write_over(alloc, bytes.items(), list.as_slice()),
        None => write_named(alloc, &[], &[], &[], list.as_slice()),
    }
}

/// Writes sorted bans into what an old file has besides its own.
fn write_over(alloc: Global, bytes: &[u8], bans: &[Ban]) -> Result<Bytes, Memory>
    ensures { IfOk result (IsNamedOver bytes.now bans.now) }
{
    let value = match parse(alloc, bytes) {
        Ok(value) => value,
        Err(_) => return Err(Memory),
    };
    let Some(elements) = elements_of(&value) else {
        return Err(Memory);
    };
    let subnets = subnets_of(alloc, elements)?;
    let mut scratch = Scratch::new(alloc);
    let tree = match Tree::from_slice(alloc, bytes, &mut scratch) {
        Ok(tree) => tree,
        Err(_) => return Err(Memory),
    };
    let Some(members) = members_of(&tree) else {
        return Err(Memory);
    };
    let Some(items) = items_of(&tree) else {
        return Err(Memory);
    };
    write_named(alloc, members, items, subnets.as_slice(), bans)
}

/// Returns the subnet that each element bans, or `None` for an element that is no ban.
fn subnets_of(alloc: Global, elements: &[Value]) -> Result<Vec<Option<Subnet>>, Memory>
    ensures { IfOk result (λ subnets. AreSubnets (map view elements.now) subnets.items) }
{
    let mut subnets = Vec::new(alloc);
    for element in elements {
        subnets.push(subnet_of(element))?;
    }
    Ok(subnets)
}

/// Returns the subnet that an element bans.
fn subnet_of(element: &Value) -> Option<Subnet>
    ensures { IsSubnetOf (view element.now) result }
{
    match element_of(BanRule::Names, element) {
        Some(ban) => Some(ban.subnet),
        None => None,
    }
}

/// Returns the members of an object.
pub(crate) fn members_of<'t, 'a>(tree: &'t Tree<'a>) -> Option<&'t [(&'a str, Tree<'a>)]>
    ensures found { IfSome result (λ members. map member_view members.now
        ≡ members_in (value_view tree.now)) }
    ensures object { IfSome result (λ members. value_view tree.now
        ≡ object (members_of (map member_view members.now))) }
    ensures none { IfNone result (members_in (value_view tree.now) ≡ []) }
{
    match tree {
        Tree::Object(members) => Some(members.as_slice()),
        _ => None,
    }
}

/// Returns the elements of the list of a file.
fn items_of<'t, 'a>(tree: &'t Tree<'a>) -> Option<&'t [Tree<'a>]>
    ensures { option_map (λ items. map value_view items.now) result
        ≡ list_in (value_view tree.now) }
{
    match tree.get("banned_nets")? {
        Tree::Array(items) => Some(items.as_slice()),
        _ => None,
    }
}

/// Compares two bans by the networks, addresses and lengths of their subnets.
fn subnet_cmp(a: &Ban, b: &Ban) -> Ordering
    ensures { result ≡ subnet_cmp a.now.subnet b.now.subnet }
{
    let (one, other) = (a.subnet, b.subnet);
    let bytes = one.addr.bytes().cmp(other.addr.bytes());
    let net = one.addr.net().number().cmp(&other.addr.net().number());
    net.then(bytes.then(one.len.cmp(&other.len)))
}

/// Returns the bans in the order of their subnets.
fn sorted_of(alloc: Global, bans: &[Ban]) -> Result<Vec<Ban>, Memory>
    ensures same { IfOk result (λ list. IsPermutation bans.now list.items) }
    ensures order { IfOk result (λ list. IsSortedBy comes_before list.items) }
{
    let mut list = Vec::from_slice(alloc, bans)?;
    list.sort_unstable_by(|a, b| subnet_cmp(a, b));
    Ok(list)
}
