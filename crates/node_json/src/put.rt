//! Appends members of JSON objects: texts, numbers, beginnings and ends.

ghost use Rattle.std.specs.Prelude.{◌≡◌, [], ◌∷◌, ◌++◌, IfOk, OnOk, ◌≤◌};
ghost use Rattle.json.specs.Json.{Json, string};
ghost use Rattle.json.specs.Token.{begin_object, key};
ghost use Rattle.json.specs.Tree.{depth, json_tokens};
ghost use Rattle.node_json.specs.Inside.{tokens_of};
ghost use Rattle.node_json.specs.Value.{IsJsonText, json_number, unless_zero};

use itoa::Buffer;
use json::{Pretty, Token};
use std::alloc::AllocError;

/// Appends a member with a text.
pub(crate) fn put_string(json: &mut Pretty, name: &str, text: &str) -> Result<(), AllocError>
    ensures { OnOk result (json.new ≡ json.old ++ tokens_of ((name.now, string text.now) ∷ [])) }
{
    json.token(Token::Key(name))?;
    json.token(Token::String(text))
}

/// Appends a member with a number.
pub(crate) fn put_number(json: &mut Pretty, name: &str, number: u64) -> Result<(), AllocError>
    ensures { OnOk result (json.new ≡ json.old ++ tokens_of ((name.now, json_number number) ∷ [])) }
{
    json.token(Token::Key(name))?;
    put_value(json, number)
}

/// Appends a number.
fn put_value(json: &mut Pretty, number: u64) -> Result<(), AllocError>
    ensures { OnOk result (json.new ≡ json.old ++ json_tokens (json_number number)) }
{
    json.token(Token::Number(Buffer::new().format(number)))
}

/// Appends a member with a number, unless it is 0.
pub(crate) fn put_unless_zero(json: &mut Pretty, name: &str, number: u32) -> Result<(), AllocError>
    ensures { OnOk result (json.new ≡ json.old ++ tokens_of (unless_zero name.now number)) }
{
    if number == 0 {
        return Ok(());
    }
    put_number(json, name, u64::from(number))
}

/// Appends the beginning of a member that is an object.
pub(crate) fn put_begin(json: &mut Pretty, name: &str) -> Result<(), AllocError>
    ensures { OnOk result (json.new ≡ json.old ++ key name.now ∷ begin_object ∷ []) }
{
    json.token(Token::Key(name))?;
    json.token(Token::BeginObject)
}

/// Returns the text of what was written, and a line feed.
pub(crate) fn with_end(json: Pretty) -> Result<Vec<u8>, AllocError>
    ensures { IfOk result (λ text. (value : Json) → json ≡ json_tokens value → depth value ≤ 128 →
        IsJsonText value text.items) }
{
    let mut text = json.into_inner();
    text.push(b'\n')?;
    Ok(text)
}
