//! `groups_text`: the groups with their numbers, and how well the asmap covers the records.

ghost use Rattle.std.specs.Prelude.{◌≡◌, ◌==◌, count_by, ◌≤◌, ◌∷◌, ◌++◌, [], IfOk, OnOk, codes, filter, length, map};
ghost use Rattle.std.specs.List.{flat_map};
ghost use Rattle.indexmap.specs.IndexMap.{keys};
ghost use Rattle.json.specs.Json.{string};
ghost use Rattle.json.specs.Tree.{json_tokens};
ghost use Rattle.placing.specs.Places.{asn};
ghost use Rattle.node_json.specs.Groups.{group_members, groups_json, groups_members, health_members, is_clearnet, is_clearnet_class, known_numbers, number_members, row_items, totals_by, with_number};
ghost use Rattle.node_json.specs.Inside.{items_tokens_of, rows_tokens, tokens_of};
ghost use Rattle.node_json.specs.Value.{IsJsonText, array_of, object_of};
ghost use Rattle.slot_grid.specs.declared.sizes.TheConstants.{ALL_SLOTS};
ghost use Rattle.table_groups.specs.Names.{name_of};
ghost use Rattle.table_groups.specs.Plain.{IsPlain};

use crate::Memory;
use crate::put::{put_begin, put_number, put_string, put_unless_zero, with_end};
use indexmap::IndexMap;
use json::{Pretty, Token};
use net_addr::{Net, NetAddr};
use peer_rec::Rec;
use placing::Placer;
use std::alloc::{AllocError, Global};
use std::hash::BuildHasher;
use std::sync::ledger::Ledger;
use steps::Steps;
use table_groups::{Lent, Numbers, Row, TableView, name_of, names_are_plain, new_slots, rows_of};

/// Appends the numbers of a group.
#[tactic(auto, unfolding(crate::specs::Groups::number_members))]
fn put_numbers(json: &mut Pretty, numbers: Numbers) -> Result<(), AllocError>
    ensures { OnOk result (json.new ≡ json.old ++ tokens_of (number_members numbers)) }
{
    put_number(json, "new_slots", u64::from(numbers.slots))?;
    put_number(json, "new_buckets", u64::from(numbers.buckets))?;
    put_number(json, "new_records", u64::from(numbers.records))?;
    put_number(json, "tried_records", u64::from(numbers.tried))?;
    Ok(())
}

/// Appends the name of the group of an address.
fn put_name(
    alloc: Global,
    json: &mut Pretty,
    placer: &Placer<'_>,
    addr: &NetAddr,
) -> Result<(), Memory>
    ensures { OnOk result (json.new
        ≡ json.old ++ tokens_of ((codes "group", string (name_of placer.now addr.now)) ∷ [])) }
{
    let name = name_of(alloc, placer, addr)?;
    let _own = addr.bytes();
    names_are_plain();
    put_string(json, "group", text_of(name.as_slice()))?;
    Ok(())
}

/// Returns a plain text.
fn text_of(name: &[u8]) -> &str
    requires { IsPlain name.now }
    ensures { result.now ≡ name.now }
{
    std::str::from_utf8(name).unwrap()
}

/// Appends the object of a group, of which this is an address.
#[tactic(auto, unfolding(crate::specs::Groups::group_members))]
fn put_group(
    alloc: Global,
    json: &mut Pretty,
    placer: &Placer<'_>,
    numbers: Numbers,
    addr: &NetAddr,
) -> Result<(), Memory>
    ensures { OnOk result (json.new ≡ json.old
        ++ json_tokens (object_of (group_members placer.now numbers addr.now))) }
{
    json.token(Token::BeginObject)?;
    put_name(alloc, json, placer, addr)?;
    put_unless_zero(json, "mapped_as", placer.asn(addr))?;
    put_numbers(json, numbers)?;
    json.token(Token::EndObject)?;
    Ok(())
}

/// Appends the object of a row, if a record counts for its group.
fn put_row(alloc: Global, json: &mut Pretty, placer: &Placer<'_>, row: &Row) -> Result<(), Memory>
    ensures { OnOk result (json.new ≡ json.old ++ items_tokens_of (row_items placer.now row.now)) }
{
    match &row.first {
        Some(first) => put_group(alloc, json, placer, row.numbers, first),
        None => Ok(()),
    }
}

/// Appends the objects of some rows.
fn put_rows(
    alloc: Global,
    json: &mut Pretty,
    placer: &Placer<'_>,
    rows: &[Row],
) -> Result<(), Memory>
    ensures { OnOk result (json.new ≡ json.old ++ rows_tokens placer.now rows.now) }
{
    for row in rows {
        put_row(alloc, json, placer, row)?;
    }
    Ok(())
}

/// Returns `true` for the classes of addresses that an asmap can map.
fn is_clearnet_class(class: Net) -> bool
    ensures { result ≡ is_clearnet_class class }
{
    matches!(class, Net::Ipv4 | Net::Ipv6)
}

/// Returns `true` if the address of a record is one that an asmap can map.
fn is_clearnet(rec: &Rec) -> bool
    ensures { result ≡ is_clearnet rec.now }
{
    is_clearnet_class(rec.peer.addr.net_class())
}

/// Returns the AS numbers of the records whose addresses an asmap can map.
fn clearnet_numbers(
    alloc: Global,
    placer: &Placer<'_>,
    recs: &[Rec],
) -> Result<Vec<u32>, AllocError>
    ensures { IfOk result (λ numbers. numbers.items
        ≡ map (λ r. asn placer.now.map r.peer.addr) (filter is_clearnet recs.now)) }
{
    recs.iter()
        .filter(|rec| is_clearnet(rec))
        .map(|rec| placer.asn(&rec.peer.addr))
        .collect(alloc)
}

/// Adds an AS number, unless it is 0.
fn add_number<H: BuildHasher>(
    seen: &mut IndexMap<u32, (), Lent<'_, H>>,
    number: u32,
) -> Result<(), AllocError>
    ensures { OnOk result (keys seen.new ≡ with_number (keys seen.old) number) }
{
    if number != 0 {
        seen.insert(number, ())?;
    }
    Ok(())
}

/// Returns how many AS numbers there are other than 0, of which each counts once.
fn count_known<H: BuildHasher>(alloc: Global, hasher: &H, numbers: &[u32]) -> Result<usize, Memory>
    ensures { IfOk result (λ count. count ≡ length (known_numbers numbers.now)) }
{
    let mut seen = IndexMap::with_hasher(alloc, Lent::of(hasher));
    for number in numbers {
        add_number(&mut seen, *number)?;
    }
    Ok(seen.len())
}

/// Returns how many of the AS numbers are 0.
fn count_unmapped(numbers: &[u32]) -> u32
    requires { length numbers.now ≤ ALL_SLOTS }
    ensures { result ≡ count_by (λ n. n == 0) numbers.now }
{
    let mut count = 0;
    for number in numbers {
        if *number == 0 {
            count += 1;
        }
    }
    count
}

/// Appends how well the asmap covers the records with these AS numbers.
#[tactic(auto, unfolding(crate::specs::Groups::health_members))]
fn put_health<H: BuildHasher>(
    alloc: Global,
    hasher: &H,
    json: &mut Pretty,
    numbers: &[u32],
) -> Result<(), Memory>
    requires { length numbers.now ≤ ALL_SLOTS }
    ensures { OnOk result (json.new ≡ json.old ++ tokens_of (health_members numbers.now)) }
{
    let known = count_known(alloc, hasher, numbers)?;
    put_number(json, "clearnet_peers", numbers.len() as u64)?;
    put_number(json, "as_numbers", known as u64)?;
    put_number(json, "unmapped", u64::from(count_unmapped(numbers)))?;
    Ok(())
}

/// Appends the member with the health of the asmap.
fn put_asmap<H: BuildHasher>(
    alloc: Global,
    hasher: &H,
    json: &mut Pretty,
    numbers: &[u32],
) -> Result<(), Memory>
    requires { length numbers.now ≤ ALL_SLOTS }
    ensures { OnOk result (json.new ≡ json.old
        ++ tokens_of ((codes "asmap", object_of (health_members numbers.now)) ∷ [])) }
{
    put_begin(json, "asmap")?;
    put_health(alloc, hasher, json, numbers)?;
    json.token(Token::EndObject)?;
    Ok(())
}

/// Appends how many groups there are, and the numbers of all of them.
#[tactic(auto, unfolding(crate::specs::Groups::totals_by))]
fn put_numbers_of_all(
    json: &mut Pretty,
    groups: u64,
    slots: u32,
    records: u32,
    tried: u32,
) -> Result<(), AllocError>
    ensures { OnOk result (json.new
        ≡ json.old ++ tokens_of (totals_by groups slots records tried)) }
{
    put_number(json, "groups", groups)?;
    put_number(json, "new_slots", u64::from(slots))?;
    put_number(json, "new_records", u64::from(records))?;
    put_number(json, "tried_records", u64::from(tried))?;
    Ok(())
}

/// Appends the member with the numbers of all groups.
fn put_totals(
    json: &mut Pretty,
    groups: u64,
    slots: u32,
    records: u32,
    tried: u32,
) -> Result<(), AllocError>
    ensures { OnOk result (json.new ≡ json.old ++ tokens_of (
        (codes "totals", object_of (totals_by groups slots records tried)) ∷ [])) }
{
    put_begin(json, "totals")?;
    put_numbers_of_all(json, groups, slots, records, tried)?;
    json.token(Token::EndObject)?;
    Ok(())
}

/// Appends the member with the groups.
fn put_array(
    alloc: Global,
    json: &mut Pretty,
    placer: &Placer<'_>,
    rows: &[Row],
) -> Result<(), Memory>
    ensures { OnOk result (json.new ≡ json.old ++ tokens_of (
        (codes "groups", array_of (flat_map (row_items placer.now) rows.now)) ∷ [])) }
{
    json.token(Token::Key("groups"))?;
    json.token(Token::BeginArray)?;
    put_rows(alloc, json, placer, rows)?;
    json.token(Token::EndArray)?;
    Ok(())
}

/// Appends the members of the whole, from all records.
fn put_members<L: Ledger, T: TableView, G: BuildHasher>(
    alloc: Global,
    hasher: &G,
    json: &mut Pretty,
    tables: &T,
    recs: &[Rec],
    steps: &mut Steps<L>,
) -> Result<(), Memory>
    requires { recs.now ≡ (T.view tables.now).records }
    ensures { OnOk result (json.new ≡ json.old ++ tokens_of (groups_members (T.view tables.now))) }
{
    let counts = tables.sizes();
    let rows = rows_of(alloc, hasher, tables, recs, steps)?;
    let slots = new_slots(tables, steps);
    let numbers = clearnet_numbers(alloc, tables.places(), recs)?;
    put_array(alloc, json, tables.places(), rows.as_slice())?;
    put_totals(json, rows.len() as u64, slots, counts.0, counts.1)?;
    put_asmap(alloc, hasher, json, numbers.as_slice())?;
    Ok(())
}

/// Returns the text of the groups of the tables.
pub fn groups_text<L: Ledger, T: TableView, G: BuildHasher>(
    alloc: Global,
    hasher: &G,
    tables: &T,
    steps: &mut Steps<L>,
) -> Result<Vec<u8>, Memory>
    ensures { IfOk result (λ text. IsJsonText (groups_json (T.view tables.now)) text.items) }
{
    let recs = tables.records(steps)?;
    let mut json = Pretty::new(alloc);
    json.token(Token::BeginObject)?;
    put_members(alloc, hasher, &mut json, tables, recs.items(), steps)?;
    json.token(Token::EndObject)?;
    Ok(with_end(json)?)
}
