//! `info_text`, as `getaddrmaninfo`: the records of each network and of all.

ghost use Rattle.std.specs.Prelude.{◌≡◌, ◌+◌, ◌<◌, [], ◌∷◌, ◌++◌, IfOk, OnOk};
ghost use Rattle.json.specs.Tree.{json_tokens};
ghost use Rattle.net_addr.specs.NetSet.{none, with_net};
ghost use Rattle.node_json.specs.Info.{all_row, counts_json, info_json, network_row};
ghost use Rattle.node_json.specs.Inside.{tokens_of};
ghost use Rattle.node_json.specs.Value.{IsJsonText};
ghost use Rattle.table_groups.specs.View.{wanted_new, wanted_tried};

use crate::put::{put_begin, put_number, with_end};
use crate::raw::network_name;
use json::{Pretty, Token};
use net_addr::{Net, NetSet};
use std::alloc::{AllocError, Global};
use table_groups::TableView;

/// Appends a row: how many records are in the new table, in the tried table, and in both.
fn put_row(json: &mut Pretty, name: &str, new: u32, tried: u32) -> Result<(), AllocError>
    ensures { OnOk result (json.new
        ≡ json.old ++ tokens_of ((name.now, counts_json new tried) ∷ [])) }
{
    let new = u64::from(new);
    let tried = u64::from(tried);
    put_begin(json, name)?;
    put_number(json, "new", new)?;
    put_number(json, "tried", tried)?;
    put_number(json, "total", new + tried)?;
    json.token(Token::EndObject)?;
    Ok(())
}

/// Returns how many records of the new and of the tried table are of the network.
fn counts_of<T: TableView>(tables: &T, net: Net) -> (u32, u32)
    ensures new { result.0 ≡ wanted_new (T.view tables.now) (with_net none net) }
    ensures tried { result.1 ≡ wanted_tried (T.view tables.now) (with_net none net) }
{
    tables.wanted_in(NetSet::none().with(net))
}

/// Appends the row of a network.
fn put_network<T: TableView>(json: &mut Pretty, tables: &T, net: Net) -> Result<(), AllocError>
    ensures { OnOk result (json.new
        ≡ json.old ++ tokens_of (network_row (T.view tables.now) net ∷ [])) }
{
    let (new, tried) = counts_of(tables, net);
    put_row(json, network_name(net), new, tried)?;
    Ok(())
}

/// Appends the row of all networks.
fn put_all<T: TableView>(json: &mut Pretty, tables: &T) -> Result<(), AllocError>
    ensures { OnOk result (json.new ≡ json.old ++ tokens_of (all_row (T.view tables.now) ∷ [])) }
{
    let counts = tables.sizes();
    put_row(json, "all_networks", counts.0, counts.1)?;
    Ok(())
}

/// Appends all rows.
fn put_rows<T: TableView>(json: &mut Pretty, tables: &T) -> Result<(), AllocError>
    ensures { OnOk result (json.new ≡ json.old ++ json_tokens (info_json (T.view tables.now))) }
{
    json.token(Token::BeginObject)?;
    put_network(json, tables, Net::Ipv4)?;
    put_network(json, tables, Net::Ipv6)?;
    put_network(json, tables, Net::Onion)?;
    put_network(json, tables, Net::I2p)?;
    put_network(json, tables, Net::Cjdns)?;
    put_all(json, tables)?;
    json.token(Token::EndObject)?;
    Ok(())
}

/// Returns the text of how many records each network has.
pub fn info_text<T: TableView>(alloc: Global, tables: &T) -> Result<Vec<u8>, AllocError>
    ensures { IfOk result (λ text. IsJsonText (info_json (T.view tables.now)) text.items) }
{
    let mut json = Pretty::new(alloc);
    put_rows(&mut json, tables)?;
    with_end(json)
}
