//! `bans_text`: the bans still in force as `listbanned` prints them, with durations.

ghost use Rattle.std.specs.Prelude.{◌≡◌, [], ◌∷◌, ◌++◌, IfOk, OnOk, map};
ghost use Rattle.json.specs.Tree.{json_tokens};
ghost use Rattle.ban_list.specs.Bans.{current_by};
ghost use Rattle.node_json.specs.Bans.{ban_json, bans_json};
ghost use Rattle.node_json.specs.Inside.{items_tokens_of, span_tokens, time_tokens};
ghost use Rattle.node_json.specs.Value.{IsJsonText};

use crate::put::{put_number, put_string, with_end};
use ban_list::{Ban, BanRule, subnet_name};
use json::{Pretty, Token};
use std::alloc::{AllocError, Global};

/// Appends when a ban was made, when it is over, how long it lasts, and for how long still.
#[tactic(auto, unfolding(crate::specs::Inside::span_tokens))]
fn put_span(
    json: &mut Pretty,
    created: u64,
    until: u64,
    duration: u64,
    remaining: u64,
) -> Result<(), AllocError>
    ensures { OnOk result (json.new ≡ json.old ++ span_tokens created until duration remaining) }
{
    put_number(json, "ban_created", created)?;
    put_number(json, "banned_until", until)?;
    put_number(json, "ban_duration", duration)?;
    put_number(json, "time_remaining", remaining)
}

/// Appends the times of a ban.
fn put_times(json: &mut Pretty, now: u32, ban: &Ban) -> Result<(), AllocError>
    ensures { OnOk result (json.new ≡ json.old ++ time_tokens now ban.now) }
{
    let at = u64::from(now);
    let created = u64::from(ban.created);
    let until = u64::from(ban.until);
    let duration = until.saturating_sub(created);
    let remaining = until.saturating_sub(at);
    put_span(json, created, until, duration, remaining)?;
    Ok(())
}

/// Appends a ban.
fn put_ban(alloc: Global, json: &mut Pretty, now: u32, ban: &Ban) -> Result<(), AllocError>
    ensures { OnOk result (json.new ≡ json.old ++ json_tokens (ban_json now ban.now)) }
{
    let name = subnet_name(alloc, &ban.subnet)?;
    json.token(Token::BeginObject)?;
    put_string(json, "address", name.as_str())?;
    put_times(json, now, ban)?;
    json.token(Token::EndObject)?;
    Ok(())
}

/// Appends a ban unless it is over by a rule.
fn put_current(
    alloc: Global,
    json: &mut Pretty,
    rule: BanRule,
    now: u32,
    ban: &Ban,
) -> Result<(), AllocError>
    ensures { OnOk result (json.new
        ≡ json.old ++ items_tokens_of (map (ban_json now) (current_by rule now (ban.now ∷ [])))) }
{
    if ban.lasts(rule, now) {
        put_ban(alloc, json, now, ban)?;
        return Ok(());
    }
    Ok(())
}

/// Appends the bans that are not over by a rule.
fn put_list(
    alloc: Global,
    json: &mut Pretty,
    rule: BanRule,
    now: u32,
    bans: &[Ban],
) -> Result<(), AllocError>
    ensures { OnOk result (json.new
        ≡ json.old ++ items_tokens_of (map (ban_json now) (current_by rule now bans.now))) }
{
    for ban in bans {
        put_current(alloc, json, rule, now, ban)?;
    }
    Ok(())
}

/// Appends the array of the bans that are not over by a rule.
fn put_bans(
    alloc: Global,
    json: &mut Pretty,
    rule: BanRule,
    now: u32,
    bans: &[Ban],
) -> Result<(), AllocError>
    ensures { OnOk result (json.new ≡ json.old ++ json_tokens (bans_json rule now bans.now)) }
{
    json.token(Token::BeginArray)?;
    put_list(alloc, json, rule, now, bans)?;
    json.token(Token::EndArray)?;
    Ok(())
}

/// Returns the text of the bans that are not over by a rule at `now`, in their order.
pub fn bans_text(
    alloc: Global,
    rule: BanRule,
    now: u32,
    bans: &[Ban],
) -> Result<Vec<u8>, AllocError>
    ensures { IfOk result (λ text. IsJsonText (bans_json rule now bans.now) text.items) }
{
    let mut json = Pretty::new(alloc);
    put_bans(alloc, &mut json, rule, now, bans)?;
    with_end(json)
}
