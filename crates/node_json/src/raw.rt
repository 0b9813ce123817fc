//! `raw_text`, as `getrawaddrman`: the records under `bucket/position`.

ghost use Rattle.std.specs.Prelude.{◌≡◌, ◌<◌, [], ◌∷◌, ◌++◌, IfOk, OnOk, option_map, Some};
ghost use Rattle.json.specs.Json.{string};
ghost use Rattle.json.specs.Tree.{json_tokens};
ghost use Rattle.slot_grid.specs.declared.sizes.TheConstants.{SLOTS};
ghost use Rattle.node_json.specs.Inside.{peer_tokens, source_tokens, tokens_of};
ghost use Rattle.names.specs.Name.{name_text};
ghost use Rattle.node_json.specs.Raw.{both_members, bucket_members, buckets_of, class_name, name_of, network_name, raw_json, rec_at, slot_member, table_members};
ghost use Rattle.node_json.specs.Value.{IsJsonText, object_of};

use crate::put::{put_begin, put_number, put_string, put_unless_zero, with_end};
use crate::table::Table;
use json::{Pretty, Token};
use names::name_of;
use net_addr::{Net, NetAddr};
use peer_rec::Rec;
use placing::Placer;
use slot_grid::SLOTS;
use std::alloc::{AllocError, Global};
use std::hash::BuildHasher;
use std::sync::ledger::Ledger;
use steps::Steps;
use tables::Tables;

/// Returns the name of a network.
pub(crate) fn network_name(net: Net) -> &'static str
    ensures { result.now ≡ network_name net }
{
    match net {
        Net::Unroutable => "not_publicly_routable",
        Net::Ipv4 => "ipv4",
        Net::Ipv6 => "ipv6",
        Net::Onion => "onion",
        Net::I2p => "i2p",
        Net::Cjdns => "cjdns",
        Net::Internal => "internal",
    }
}

/// Appends a member with the name of the network that an address is reached through.
fn put_class(json: &mut Pretty, name: &str, addr: &NetAddr) -> Result<(), AllocError>
    ensures { OnOk result (json.new
        ≡ json.old ++ tokens_of ((name.now, string (class_name addr.now)) ∷ [])) }
{
    put_string(json, name, network_name(addr.net_class()))
}

/// Appends a member with the name of an address.
fn put_name(alloc: Global, json: &mut Pretty, name: &str, addr: &NetAddr) -> Result<(), AllocError>
    ensures { OnOk result (json.new
        ≡ json.old ++ tokens_of ((name.now, string (name_text addr.now)) ∷ [])) }
{
    let text = name_of(alloc, addr)?;
    put_string(json, name, text.as_str())
}

/// Appends the members of a record that say where the peer is and what is known of it.
#[tactic(auto, unfolding(crate::specs::Inside::peer_tokens))]
fn put_peer(
    alloc: Global,
    json: &mut Pretty,
    placer: &Placer<'_>,
    rec: &Rec,
) -> Result<(), AllocError>
    ensures { OnOk result (json.new ≡ json.old ++ peer_tokens placer.now rec.now) }
{
    put_name(alloc, json, "address", &rec.peer.addr)?;
    put_unless_zero(json, "mapped_as", placer.asn(&rec.peer.addr))?;
    put_number(json, "port", u64::from(rec.peer.port))?;
    put_number(json, "services", rec.services)?;
    put_number(json, "time", u64::from(rec.time))?;
    put_class(json, "network", &rec.peer.addr)
}

/// Appends the members of a record that say who announced the peer.
#[tactic(auto, unfolding(crate::specs::Inside::source_tokens))]
fn put_source(
    alloc: Global,
    json: &mut Pretty,
    placer: &Placer<'_>,
    rec: &Rec,
) -> Result<(), AllocError>
    ensures { OnOk result (json.new ≡ json.old ++ source_tokens placer.now rec.now) }
{
    put_name(alloc, json, "source", &rec.source)?;
    put_class(json, "source_network", &rec.source)?;
    put_unless_zero(json, "source_mapped_as", placer.asn(&rec.source))?;
    Ok(())
}

/// Appends a record under the name of the slot that it is in.
fn put_record(
    alloc: Global,
    json: &mut Pretty,
    placer: &Placer<'_>,
    position: (u16, u8),
    rec: &Rec,
) -> Result<(), AllocError>
    ensures { OnOk result (json.new
        ≡ json.old ++ tokens_of (slot_member placer.now position.0 position.1 (Some rec.now))) }
{
    let (bucket, slot) = position;
    let name = format!(in alloc; "{bucket}/{slot}")?;
    put_begin(json, name.as_str())?;
    put_peer(alloc, json, placer, rec)?;
    put_source(alloc, json, placer, rec)?;
    json.token(Token::EndObject)?;
    Ok(())
}

/// Returns the record in a slot of a table, or `None` if the slot is empty.
fn rec_at<'b, L: Ledger, H: BuildHasher>(
    tables: &'b Tables<'_, H>,
    table: Table,
    bucket: u16,
    slot: u8,
    steps: &mut Steps<L>,
) -> Option<&'b Rec>
    requires bucket { bucket < buckets_of table }
    requires slot { slot < SLOTS }
    ensures { option_map (λ r. r.now) result ≡ rec_at table tables.now bucket slot }
{
    match table {
        Table::New => tables.new_rec_at(bucket, slot, steps),
        Table::Tried => tables.tried_rec_at(bucket, slot, steps),
    }
}

/// Appends the record in a slot, if it is occupied.
fn put_slot<L: Ledger, H: BuildHasher>(
    alloc: Global,
    json: &mut Pretty,
    tables: &Tables<'_, H>,
    table: Table,
    position: (u16, u8),
    steps: &mut Steps<L>,
) -> Result<(), AllocError>
    requires bucket { position.0 < buckets_of table }
    requires slot { position.1 < SLOTS }
    ensures { OnOk result (json.new ≡ json.old ++ tokens_of (slot_member tables.now.places
        position.0 position.1 (rec_at table tables.now position.0 position.1))) }
{
    match rec_at(tables, table, position.0, position.1, steps) {
        Some(rec) => put_record(alloc, json, tables.placer(), position, rec),
        None => Ok(()),
    }
}

/// Appends the records in a bucket, by position.
fn put_bucket<L: Ledger, H: BuildHasher>(
    alloc: Global,
    json: &mut Pretty,
    tables: &Tables<'_, H>,
    table: Table,
    bucket: u16,
    steps: &mut Steps<L>,
) -> Result<(), AllocError>
    requires { bucket < buckets_of table }
    ensures { OnOk result (json.new
        ≡ json.old ++ tokens_of (bucket_members table tables.now bucket)) }
{
    'slots: for slot in 0..SLOTS {
        put_slot(alloc, json, tables, table, (bucket, slot), steps)?;
    }
    Ok(())
}

/// Appends the records in the buckets of a table, in order.
fn put_buckets<L: Ledger, H: BuildHasher>(
    alloc: Global,
    json: &mut Pretty,
    tables: &Tables<'_, H>,
    table: Table,
    steps: &mut Steps<L>,
) -> Result<(), AllocError>
    ensures { OnOk result (json.new ≡ json.old ++ tokens_of (table_members table tables.now)) }
{
    'buckets: for bucket in 0..table.buckets() {
        put_bucket(alloc, json, tables, table, bucket, steps)?;
    }
    Ok(())
}

/// Appends a table under its name.
fn put_table<L: Ledger, H: BuildHasher>(
    alloc: Global,
    json: &mut Pretty,
    tables: &Tables<'_, H>,
    table: Table,
    steps: &mut Steps<L>,
) -> Result<(), AllocError>
    ensures { OnOk result (json.new ≡ json.old
        ++ tokens_of ((name_of table, object_of (table_members table tables.now)) ∷ [])) }
{
    put_begin(json, table.name())?;
    put_buckets(alloc, json, tables, table, steps)?;
    json.token(Token::EndObject)?;
    Ok(())
}

/// Appends both tables under their names.
fn put_both<L: Ledger, H: BuildHasher>(
    alloc: Global,
    json: &mut Pretty,
    tables: &Tables<'_, H>,
    steps: &mut Steps<L>,
) -> Result<(), AllocError>
    ensures { OnOk result (json.new ≡ json.old ++ tokens_of (both_members tables.now)) }
{
    put_table(alloc, json, tables, Table::New, steps)?;
    put_table(alloc, json, tables, Table::Tried, steps)
}

/// Appends the object of both tables.
fn put_tables<L: Ledger, H: BuildHasher>(
    alloc: Global,
    json: &mut Pretty,
    tables: &Tables<'_, H>,
    steps: &mut Steps<L>,
) -> Result<(), AllocError>
    ensures { OnOk result (json.new ≡ json.old ++ json_tokens (raw_json tables.now)) }
{
    json.token(Token::BeginObject)?;
    put_both(alloc, json, tables, steps)?;
    json.token(Token::EndObject)?;
    Ok(())
}

/// Returns the text of both tables.
pub fn raw_text<L: Ledger, H: BuildHasher>(
    alloc: Global,
    tables: &Tables<'_, H>,
    steps: &mut Steps<L>,
) -> Result<Vec<u8>, AllocError>
    ensures { IfOk result (λ text. IsJsonText (raw_json tables.now) text.items) }
{
    let mut json = Pretty::new(alloc);
    put_tables(alloc, &mut json, tables, steps)?;
    with_end(json)
}
