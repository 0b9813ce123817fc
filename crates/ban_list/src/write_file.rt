//! `write_bans` writes this program's form, without spaces.

ghost use Rattle.std.specs.Prelude.{◌≡◌, ◌<◌, ◌≤◌, All, IfOk, map, codes, string_bytes, IsUtf8};
ghost use Rattle.serde_json.specs.Data.{object, member, array, no_members};
ghost use Rattle.serde_json.specs.View.{view, items_view};
ghost use Rattle.ban_list.specs.Subnet.{IsProper};
ghost use Rattle.ban_list.specs.SubnetText.{IsSubnetText, subnet_text};
ghost use Rattle.ban_list.specs.BanFile.{IsBanFile, IsReadBack, ban_data, ban_data_with, bans_text, max_time};

use crate::{Ban, Bans, Memory, Subnet, put_subnet};
use host_io::Bytes;
use serde_json::{Map, Value, json};
use std::alloc::Global;

/// Writes a list of bans as the text of its file, which has no spaces and no line feed.
pub fn write_bans(alloc: Global, bans: &Bans) -> Result<Bytes, Memory>
    ensures text { IfOk result (λ bytes. bytes ≡ bans_text bans.now) }
    ensures reads_back { IfOk result (λ bytes. IsBanFile bytes bans.now) }
{
    let elements = elements_of(bans.bans(), alloc)?;
    let file = file_of(elements, alloc)?;
    let text = file.to_string(alloc)?;
    Ok(bytes_of(text))
}

/// Returns the bytes of a text.
pub(crate) fn bytes_of(text: String) -> Bytes
    ensures value { result ≡ string_bytes text }
    ensures utf8 { IsUtf8 result }
{
    // The contract of a `&str` says that its bytes are UTF-8.
    let _bytes = text.as_str().as_bytes();
    Bytes::of(text.into_bytes())
}

/// Returns the object of a file with these elements.
fn file_of(elements: Vec<Value>, alloc: Global) -> Result<Value, Memory>
    ensures { IfOk result (λ value. view value
        ≡ object (member (codes "banned_nets") (array (items_view elements.items)) no_members)) }
{
    let mut file = Map::new(alloc);
    serde_json::put(&mut file, alloc, "banned_nets", Value::Array(elements))?;
    Ok(Value::Object(file))
}

/// Returns the elements of the bans.
fn elements_of(bans: &[Ban], alloc: Global) -> Result<Vec<Value>, Memory>
    requires { All (λ ban. IsProper ban.subnet) bans.now }
    ensures values { IfOk result (λ list. map view list.items ≡ map ban_data bans.now) }
    ensures reads_back { IfOk result (λ _. All IsReadBack bans.now) }
{
    let mut elements = Vec::new(alloc);
    for ban in bans {
        let element = element_of(ban, alloc)?;
        serde_json::push(&mut elements, element)?;
    }
    Ok(elements)
}

/// Returns the element of a ban.
fn element_of(ban: &Ban, alloc: Global) -> Result<Value, Memory>
    requires { IsProper ban.now.subnet }
    ensures value { IfOk result (λ value. view value ≡ ban_data ban.now) }
    ensures reads_back { IfOk result (λ _. IsReadBack ban.now) }
{
    let address = text_of(&ban.subnet, alloc)?;
    element_with(alloc, address, ban)
}

/// Returns the element of a ban with this text of its subnet.
pub(crate) fn element_with(alloc: Global, address: String, ban: &Ban) -> Result<Value, Memory>
    ensures value { IfOk result (λ value. view value
        ≡ ban_data_with (string_bytes address) ban.now) }
    ensures times { (ban.now.created ≤ max_time) × (ban.now.until ≤ max_time) }
{
    let created = ban.created;
    let until = ban.until;
    Ok(json!(in alloc; {
        "address": address,
        "ban_created": created,
        "banned_until": until,
        "version": 1u64,
    })?)
}

/// Returns the text of a subnet.
fn text_of(subnet: &Subnet, alloc: Global) -> Result<String, Memory>
    requires { IsProper subnet.now }
    ensures text { IfOk result (λ text. string_bytes text ≡ subnet_text subnet.now) }
    ensures reads_back { IsSubnetText (subnet_text subnet.now) subnet.now }
{
    let mut text = Vec::new(alloc);
    put_subnet(subnet, &mut text)?;
    // The text is ASCII.
    match String::from_utf8(text) {
        Ok(text) => Ok(text),
        Err(_) => Err(Memory),
    }
}
