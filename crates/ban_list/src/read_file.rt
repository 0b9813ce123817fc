//! `read_bans`, `read_bans_by` and `read_bans_counting` read the elements of the JSON array, in a
//! file of at most `MAX_FILE` (32 MiB).

ghost use Rattle.std.specs.Prelude.{◌≡◌, ◌⊎◌, List, ◌≤◌, ◌<◌, true, false, codes, map, length, All, IfOk, IfErr, IfSome, IsErrAnd, MatchResult, option_and_then, option_map, Some};
ghost use Rattle.serde_json.specs.Data.{Data, depth};
ghost use Rattle.serde_json.specs.Find.{get, as_array, as_number, as_str, as_u64};
ghost use Rattle.serde_json.specs.Read.{max_depth};
ghost use Rattle.serde_json.specs.View.{view, items_view};
ghost use Rattle.ban_list.specs.Subnet.{IsProper};
ghost use Rattle.ban_list.specs.BanFile.{AreElements, HasBanFault, HasListFault, IsBanFile, IsJson, IsListFile, PassesOver, IsElement, time_at, number_at, clamped};
ghost use Rattle.ban_list.specs.declared.ban.Ban.{Ban};
ghost use Rattle.ban_list.specs.declared.fault.BanFault.{BanFault};
ghost use Rattle.ban_list.specs.declared.fault.BanFault.TheVariants as faults;
ghost use Rattle.ban_list.specs.declared.bans.TheConstants.{MAX_BANS};
ghost use Rattle.ban_list.specs.declared.read_file.TheConstants.{MAX_FILE};

use crate::{Ban, BanFault, BanRule, Bans, MAX_BANS, parse_subnet_by};
use serde_json::Value;
use std::alloc::{AllocError, Global};

/// The maximum size of a file of bans in bytes. `read_bans` reads longer ones too: who loads the
/// file refuses them as `TooLarge`. This limit is our own.
pub const MAX_FILE: usize = 33_554_432;

/// Reads a file of bans. Elements that do not count are passed over, and of two elements of one
/// subnet the later one's times take the place of the earlier one's.
pub fn read_bans(alloc: Global, bytes: &[u8]) -> Result<Bans, BanFault>
    ensures found { IfOk result (IsBanFile bytes.now) }
    ensures cause { IfErr result (λ fault. (fault ≡ faults.Memory) ⊎ HasBanFault bytes.now fault) }
    // A file of a list is read as that list, unless memory runs out.
    ensures only { (bans : List Ban) → IsBanFile bytes.now bans
        → MatchResult result (λ read. read ≡ bans) (λ fault. fault ≡ faults.Memory) }
    // A file that has a fault is answered with that fault, unless memory runs out.
    ensures exact { (first : BanFault) → HasBanFault bytes.now first
        → IsErrAnd result (λ fault. (fault ≡ faults.Memory) ⊎ (fault ≡ first)) }
    ensures max_file { MAX_FILE ≡ 33554432 }
{
    read_bans_by(alloc, BanRule::Labels, bytes)
}

/// Does what `read_bans` does, where the rule of the list says which elements count.
pub fn read_bans_by(alloc: Global, rule: BanRule, bytes: &[u8]) -> Result<Bans, BanFault>
    ensures found { IfOk result (IsListFile rule bytes.now) }
    ensures cause { IfErr result (λ fault.
        (fault ≡ faults.Memory) ⊎ HasListFault rule bytes.now fault) }
    ensures only { (bans : List Ban) → IsListFile rule bytes.now bans
        → MatchResult result (λ read. read ≡ bans) (λ fault. fault ≡ faults.Memory) }
    ensures exact { (first : BanFault) → HasListFault rule bytes.now first
        → IsErrAnd result (λ fault. (fault ≡ faults.Memory) ⊎ (fault ≡ first)) }
{
    match read_bans_counting(alloc, rule, bytes) {
        Ok((bans, _)) => Ok(bans),
        Err(fault) => Err(fault),
    }
}

/// Does what `read_bans_by` does, and returns with the bans how many elements do not count, and so
/// are passed over.
pub fn read_bans_counting(
    alloc: Global,
    rule: BanRule,
    bytes: &[u8],
) -> Result<(Bans, usize), BanFault>
    ensures found { IfOk result (λ read. IsListFile rule bytes.now read.0) }
    ensures passed_over { IfOk result (λ read. PassesOver rule bytes.now read.1) }
    ensures cause { IfErr result (λ fault.
        (fault ≡ faults.Memory) ⊎ HasListFault rule bytes.now fault) }
    ensures only { (bans : List Ban) → IsListFile rule bytes.now bans
        → MatchResult result (λ read. read.0 ≡ bans) (λ fault. fault ≡ faults.Memory) }
    ensures exact { (first : BanFault) → HasListFault rule bytes.now first
        → IsErrAnd result (λ fault. (fault ≡ faults.Memory) ⊎ (fault ≡ first)) }
{
    let value = match parse(alloc, bytes) {
        Ok(value) => value,
        Err(fault) => return Err(fault),
    };
    let Some(elements) = elements_of(&value) else {
        return Err(BanFault::Form);
    };
    let counted = counted_of(alloc, rule, elements)?;
    if is_too_many(counted.len()) {
        return Err(BanFault::TooMany);
    }
    let bans = Bans::of(alloc, counted.as_slice())?;
    Ok((bans, elements.len() - counted.len()))
}

/// Parses a JSON text.
pub(crate) fn parse(alloc: Global, bytes: &[u8]) -> Result<Value, BanFault>
    ensures ok { IfOk result (λ value. IsJson bytes.now (view value)) }
    ensures shallow { IfOk result (λ value. depth (view value) ≤ max_depth) }
    ensures err { IfErr result (λ fault. (fault ≡ faults.Memory)
        ⊎ ((fault ≡ faults.Json) × ((d : Data) → IsJson bytes.now d → ⊥))) }
{
    match Value::from_slice(alloc, bytes) {
        Ok(value) => Ok(value),
        Err(error) => {
            if error.is_memory() {
                Err(BanFault::Memory)
            } else {
                Err(BanFault::Json)
            }
        }
    }
}

/// Returns the elements of the array under `banned_nets`, if there is one.
pub(crate) fn elements_of(value: &Value) -> Option<&[Value]>
    ensures { option_map (λ items. items_view items.now) result
        ≡ option_and_then as_array (get (codes "banned_nets") (view value.now)) }
{
    let items = value.get("banned_nets")?.as_array()?;
    Some(items.as_slice())
}

/// Returns the bans of the elements that count, in their order.
fn counted_of(alloc: Global, rule: BanRule, elements: &[Value]) -> Result<Vec<Ban>, AllocError>
    ensures counted { IfOk result (λ bans. AreElements rule (map view elements.now) bans.items) }
    ensures proper { IfOk result (λ bans. All (λ ban. IsProper ban.subnet) bans.items) }
    ensures few { IfOk result (λ bans. length bans.items ≤ length elements.now) }
{
    let mut counted = Vec::with_capacity(alloc, elements.len().min(MAX_BANS))?;
    for element in elements {
        if let Some(ban) = element_of(rule, element) {
            counted.push(ban)?;
        }
    }
    Ok(counted)
}

/// Returns `true` if more elements count than a list has.
fn is_too_many(count: usize) -> bool
    ensures many { result ≡ true → MAX_BANS < count }
    ensures few { result ≡ false → count ≤ MAX_BANS }
{
    count > MAX_BANS
}

/// Returns the ban of an element, or `None` if the element does not count by the rule of the list.
pub(crate) fn element_of(rule: BanRule, value: &Value) -> Option<Ban>
    ensures found { IfSome result (IsElement rule (view value.now)) }
    ensures proper { IfSome result (λ ban. IsProper ban.subnet) }
    ensures only { (ban : Ban) → IsElement rule (view value.now) ban → result ≡ Some ban }
{
    if !is_version_one(value) {
        return None;
    }
    let text = address_of(value)?;
    Some(Ban {
        subnet: parse_subnet_by(rule, text.as_bytes())?,
        created: created_of(value)?,
        until: until_of(value)?,
    })
}

/// Returns `true` if the version of an element is the whole number 1.
fn is_version_one(value: &Value) -> bool
    ensures yes { result ≡ true
        → option_and_then as_u64 (number_at (codes "version") (view value.now)) ≡ Some 1 }
    ensures no { result ≡ false
        → option_and_then as_u64 (number_at (codes "version") (view value.now)) ≡ Some 1 → ⊥ }
{
    match value.get("version") {
        Some(version) => version.as_u64() == Some(1),
        None => false,
    }
}

/// Returns the text of the subnet of an element.
fn address_of(value: &Value) -> Option<&str>
    ensures { option_map (λ text. text.now) result
        ≡ option_and_then as_str (get (codes "address") (view value.now)) }
{
    value.get("address")?.as_str()
}

/// Returns the time when the ban of an element was made.
fn created_of(value: &Value) -> Option<u32>
    ensures { result ≡ time_at (codes "ban_created") (view value.now) }
{
    time_of(value.get("ban_created")?)
}

/// Returns the time when the ban of an element is over.
fn until_of(value: &Value) -> Option<u32>
    ensures { result ≡ time_at (codes "banned_until") (view value.now) }
{
    time_of(value.get("banned_until")?)
}

/// Returns a whole number, clamped to the range of times.
fn time_of(value: &Value) -> Option<u32>
    ensures { result ≡ option_and_then clamped (as_number (view value.now)) }
{
    if let Some(number) = value.as_u64() {
        return Some(number.min(4_294_967_295) as u32);
    }
    match value.as_i64() {
        Some(_) => Some(0),
        None => None,
    }
}
