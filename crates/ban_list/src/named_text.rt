//! Prints the file in Bitcoin Core's form: other members and elements of the old file stay as they
//! are, and those of bans go under their subnets.

ghost use Rattle.std.specs.Prelude.{◌≡◌, ◌≤◌, ◌∷◌, ◌++◌, All, IfOk, IsUtf8, OnOk, List, drop, length, map, flat_map, codes};
ghost use Rattle.json.specs.Json.{Json};
ghost use Rattle.json.specs.Print.{print};
ghost use Rattle.json.specs.Tree.{HasNumbers, json_tokens};
ghost use Rattle.json.specs.Value.{value_view};
ghost use Rattle.ban_list.specs.NewFile.{besides, is_ban_name, is_list_name, list_tree, named_tree, own_members_with, with_list};
ghost use Rattle.ban_list.specs.OldFile.{IsAppended, IsStoredAt, ban_tokens, beside_tokens, besides_tokens, elements_with, has_name, item_tokens, list_of, member_tokens, member_view, number_member, number_members, other_tokens, places_at, places_of, tokens_of};

use crate::write_by_name::members_of;
use crate::{Ban, Memory, Subnet, subnet_name};
use host_io::Bytes;
use indexmap::IndexMap;
use json::{Value as Tree, Writer};
use std::alloc::Global;

/// The positions of the elements that ban a subnet, in their order.
type Places = IndexMap<Subnet, Vec<usize>>;

/// An object of the file, by the members that are written anew.
#[derive(Clone, Copy, Drop)]
enum Part {
    File,
    Ban,
}

impl Part {
    /// Returns `true` if the members of a name are written anew.
    fn has(self, name: &str) -> bool
        ensures { result ≡ has_name self name.now }
    {
        match self {
            Part::File => name == "banned_nets",
            Part::Ban => is_ban_name(name),
        }
    }
}

/// Returns `true` if a ban has a member of this name.
fn is_ban_name(name: &str) -> bool
    ensures { result ≡ is_ban_name name.now }
{
    name == "address" || name == "ban_created" || name == "banned_until" || name == "version"
}

/// Writes the members of an old file, with a new list: sorted bans, each with what the elements of
/// its subnet have besides, and the elements that are no bans.
pub(crate) fn write_named(
    alloc: Global,
    members: &[(&str, Tree<'_>)],
    items: &[Tree<'_>],
    subnets: &[Option<Subnet>],
    bans: &[Ban],
) -> Result<Bytes, Memory>
    requires members { All (λ m. HasNumbers (value_view m.1)) members.now }
    requires items { All (λ j. HasNumbers (value_view j)) items.now }
    requires subnets { length items.now ≡ length subnets.now }
    ensures text { IfOk result (λ bytes. bytes ≡ print (json_tokens (named_tree
        (map member_view members.now) (elements_with (map value_view items.now) subnets.now)
        bans.now))) }
    ensures utf8 { IfOk result IsUtf8 }
{
    let places = places_of(alloc, subnets)?;
    let mut writer = Writer::new(Vec::new(alloc));
    put_file(alloc, &mut writer, members, items, subnets, &places, bans)?;
    Ok(Bytes::of(writer.into_inner()))
}

/// Writes the object of the file.
fn put_file(
    alloc: Global,
    writer: &mut Writer,
    members: &[(&str, Tree<'_>)],
    items: &[Tree<'_>],
    subnets: &[Option<Subnet>],
    places: &Places,
    bans: &[Ban],
) -> Result<(), Memory>
    requires members { All (λ m. HasNumbers (value_view m.1)) members.now }
    requires items { All (λ j. HasNumbers (value_view j)) items.now }
    requires subnets { length items.now ≡ length subnets.now }
    requires places { (subnet : Subnet)
        → places_at places.now.entries subnet ≡ places_of subnet subnets.now }
    ensures { OnOk result (IsAppended writer.old writer.new (json_tokens (named_tree
        (map member_view members.now) (elements_with (map value_view items.now) subnets.now)
        bans.now))) }
{
    writer.begin_object()?;
    let count = put_before(writer, members)?;
    writer.key("banned_nets")?;
    put_list(alloc, writer, items, subnets, places, bans)?;
    put_besides(writer, Part::File, &members[count..])?;
    writer.end_object()?;
    Ok(())
}

/// Writes the new list.
fn put_list(
    alloc: Global,
    writer: &mut Writer,
    items: &[Tree<'_>],
    subnets: &[Option<Subnet>],
    places: &Places,
    bans: &[Ban],
) -> Result<(), Memory>
    requires items { All (λ j. HasNumbers (value_view j)) items.now }
    requires subnets { length items.now ≡ length subnets.now }
    requires places { (subnet : Subnet)
        → places_at places.now.entries subnet ≡ places_of subnet subnets.now }
    ensures { OnOk result (IsAppended writer.old writer.new (json_tokens (list_tree
        (elements_with (map value_view items.now) subnets.now) bans.now))) }
{
    writer.begin_array()?;
    put_bans(alloc, writer, items, places, bans)?;
    put_others(writer, items, subnets)?;
    writer.end_array()?;
    Ok(())
}

/// Returns the positions of the elements that ban each subnet.
fn places_of(alloc: Global, subnets: &[Option<Subnet>]) -> Result<Places, Memory>
    ensures { IfOk result (λ places. (subnet : Subnet)
        → places_at places.entries subnet ≡ places_of subnet subnets.now) }
{
    let mut places = IndexMap::new(alloc);
    for i in 0..subnets.len() {
        store(alloc, subnets[i], i, &mut places)?;
    }
    Ok(places)
}

/// Stores the position of an element after those that ban its subnet, unless it is no ban.
fn store(
    alloc: Global,
    subnet: Option<Subnet>,
    place: usize,
    places: &mut Places,
) -> Result<(), Memory>
    ensures { OnOk result (IsStoredAt subnet place places.old.entries places.new.entries) }
{
    let Some(subnet) = subnet else {
        return Ok(());
    };
    let before = places.swap_remove(&subnet);
    let mut list = list_of(alloc, before);
    list.push(place)?;
    places.insert(subnet, list)?;
    Ok(())
}

/// Returns the list, or an empty one if there is none.
fn list_of(alloc: Global, list: Option<Vec<usize>>) -> Vec<usize>
    ensures { result.items ≡ list_of list }
{
    match list {
        Some(list) => list,
        None => Vec::new(alloc),
    }
}

/// Writes the members before the first one that is a list, and returns how many they are.
fn put_before(writer: &mut Writer, members: &[(&str, Tree<'_>)]) -> Result<usize, Memory>
    requires { All (λ m. HasNumbers (value_view m.1)) members.now }
    ensures bound { IfOk result (λ count. count ≤ length members.now) }
    ensures tokens { IfOk result (λ count. (list : Json)
        → writer.new.tokens ++ tokens_of ((codes "banned_nets", list)
        ∷ besides is_list_name (map member_view (drop count members.now)))
        ≡ writer.old.tokens ++ tokens_of (with_list list (map member_view members.now))) }
    ensures before { OnOk result (writer.new.before ≡ writer.old.before) }
{
    for i in 0..members.len() {
        let member = &members[i];
        if Part::File.has(member.0) {
            return Ok(i);
        }
        put_member(writer, member.0, &member.1)?;
    }
    Ok(members.len())
}

/// Writes a member.
fn put_member(writer: &mut Writer, name: &str, tree: &Tree<'_>) -> Result<(), Memory>
    requires { HasNumbers (value_view tree.now) }
    ensures { OnOk result (IsAppended writer.old writer.new
        (member_tokens (name.now, value_view tree.now))) }
{
    writer.key(name)?;
    writer.value(tree)?;
    Ok(())
}

/// Writes the members that are not written anew.
fn put_besides(writer: &mut Writer, part: Part, members: &[(&str, Tree<'_>)]) -> Result<(), Memory>
    requires { All (λ m. HasNumbers (value_view m.1)) members.now }
    ensures { OnOk result (IsAppended writer.old writer.new
        (flat_map (besides_tokens part) members.now)) }
{
    for member in members {
        put_beside(writer, part, member.0, &member.1)?;
    }
    Ok(())
}

/// Writes a member, unless it is written anew.
fn put_beside(writer: &mut Writer, part: Part, name: &str, tree: &Tree<'_>) -> Result<(), Memory>
    requires { HasNumbers (value_view tree.now) }
    ensures { OnOk result (IsAppended writer.old writer.new
        (beside_tokens part (name.now, value_view tree.now))) }
{
    if part.has(name) {
        return Ok(());
    }
    put_member(writer, name, tree)
}

/// Writes the elements of the bans.
fn put_bans(
    alloc: Global,
    writer: &mut Writer,
    items: &[Tree<'_>],
    places: &Places,
    bans: &[Ban],
) -> Result<(), Memory>
    requires { All (λ j. HasNumbers (value_view j)) items.now }
    ensures { OnOk result (IsAppended writer.old writer.new
        (flat_map (ban_tokens (map value_view items.now) places.now.entries) bans.now)) }
{
    for ban in bans {
        put_ban(alloc, writer, items, places, ban)?;
    }
    Ok(())
}

/// Writes the elements that are no bans.
fn put_others(
    writer: &mut Writer,
    items: &[Tree<'_>],
    subnets: &[Option<Subnet>],
) -> Result<(), Memory>
    requires items { All (λ j. HasNumbers (value_view j)) items.now }
    requires subnets { length items.now ≡ length subnets.now }
    ensures { OnOk result (IsAppended writer.old writer.new
        (flat_map other_tokens (elements_with (map value_view items.now) subnets.now))) }
{
    for i in 0..items.len() {
        put_other(writer, &items[i], subnets[i])?;
    }
    Ok(())
}

/// Writes an element, unless it bans a subnet.
fn put_other(writer: &mut Writer, tree: &Tree<'_>, subnet: Option<Subnet>) -> Result<(), Memory>
    requires { HasNumbers (value_view tree.now) }
    ensures { OnOk result (IsAppended writer.old writer.new
        (other_tokens (value_view tree.now, subnet))) }
{
    if subnet.is_some() {
        return Ok(());
    }
    writer.value(tree)?;
    Ok(())
}

/// Writes the element of a ban, with what the old elements of its subnet have besides.
fn put_ban(
    alloc: Global,
    writer: &mut Writer,
    items: &[Tree<'_>],
    places: &Places,
    ban: &Ban,
) -> Result<(), Memory>
    requires { All (λ j. HasNumbers (value_view j)) items.now }
    ensures { OnOk result (IsAppended writer.old writer.new
        (ban_tokens (map value_view items.now) places.now.entries ban.now)) }
{
    let name = subnet_name(alloc, &ban.subnet)?;
    writer.begin_object()?;
    put_own(writer, name.as_str(), ban)?;
    put_found(writer, items, places, &ban.subnet)?;
    writer.end_object()?;
    Ok(())
}

/// Writes what the old elements of a subnet have besides the members of their bans.
fn put_found(
    writer: &mut Writer,
    items: &[Tree<'_>],
    places: &Places,
    subnet: &Subnet,
) -> Result<(), Memory>
    requires { All (λ j. HasNumbers (value_view j)) items.now }
    ensures { OnOk result (IsAppended writer.old writer.new
        (flat_map (item_tokens (map value_view items.now))
        (places_at places.now.entries subnet.now))) }
{
    match places.get(subnet) {
        Some(list) => put_old(writer, items, list.as_slice()),
        None => Ok(()),
    }
}

/// Writes the members of a ban.
fn put_own(writer: &mut Writer, name: &str, ban: &Ban) -> Result<(), Memory>
    ensures { OnOk result (IsAppended writer.old writer.new
        (tokens_of (own_members_with name.now ban.now))) }
{
    let created = u64::from(ban.created);
    let until = u64::from(ban.until);
    writer.key("address")?;
    writer.string(name)?;
    put_numbers(writer, created, until)
}

/// Writes the times of a ban, and the version of its element.
fn put_numbers(writer: &mut Writer, created: u64, until: u64) -> Result<(), Memory>
    ensures { OnOk result (IsAppended writer.old writer.new
        (tokens_of (number_members created until))) }
{
    put_number(writer, "ban_created", created)?;
    put_number(writer, "banned_until", until)?;
    put_number(writer, "version", 1)
}

/// Writes a member that is a number.
fn put_number(writer: &mut Writer, name: &str, number: u64) -> Result<(), Memory>
    ensures { OnOk result (IsAppended writer.old writer.new
        (member_tokens (number_member name.now number))) }
{
    writer.key(name)?;
    writer.u64(number)?;
    Ok(())
}

/// Writes what the elements at these positions have besides the members of their bans.
fn put_old(writer: &mut Writer, items: &[Tree<'_>], places: &[usize]) -> Result<(), Memory>
    requires { All (λ j. HasNumbers (value_view j)) items.now }
    ensures { OnOk result (IsAppended writer.old writer.new
        (flat_map (item_tokens (map value_view items.now)) places.now)) }
{
    for place in places {
        put_at(writer, items, *place)?;
    }
    Ok(())
}

/// Writes what the element at a position has besides the members of its ban.
fn put_at(writer: &mut Writer, items: &[Tree<'_>], place: usize) -> Result<(), Memory>
    requires { All (λ j. HasNumbers (value_view j)) items.now }
    ensures { OnOk result (IsAppended writer.old writer.new
        (item_tokens (map value_view items.now) place)) }
{
    if place >= items.len() {
        return Ok(());
    }
    match members_of(&items[place]) {
        Some(members) => put_besides(writer, Part::Ban, members),
        None => Ok(()),
    }
}
