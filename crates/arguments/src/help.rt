//! `help_text` puts together the list of commands, or a page.

ghost use Rattle.std.specs.Prelude.{◌≡◌, ◌++◌, None, IfOk, OnOk};
ghost use Rattle.std.specs.List.{flat_map};
ghost use Rattle.arguments.specs.Help.{entry_text, help_text, page_text};

use crate::name::{CommandName, NAMES};
use crate::pages::{HEAD, TAIL};
use std::alloc::{AllocError, Global};

/// Appends the form of a command, and what it does.
#[tactic(auto, unfolding(crate::specs::Help::entry_text))]
fn put_entry(name: CommandName, out: &mut Vec<u8>) -> Result<(), AllocError>
    ensures { OnOk result (out.new.items ≡ out.old.items ++ entry_text name) }
{
    let (form, sentence, _) = name.page();
    out.extend_from_slice(form.as_bytes())?;
    out.extend_from_slice(b"\n    ")?;
    out.extend_from_slice(sentence.as_bytes())?;
    out.extend_from_slice(b"\n")
}

/// Returns the page of a command.
#[tactic(auto, unfolding(crate::specs::Help::page_text))]
fn page_text(alloc: Global, name: CommandName) -> Result<Vec<u8>, AllocError>
    ensures { IfOk result (λ text. text.items ≡ page_text name) }
{
    let mut text = Vec::from_slice(alloc, b"addrman ")?;
    put_entry(name, &mut text)?;
    text.extend_from_slice(b"\n")?;
    text.extend_from_slice(name.page().2.as_bytes())?;
    Ok(text)
}

/// Appends the form of each command, and what it does.
fn put_entries(names: &[CommandName], out: &mut Vec<u8>) -> Result<(), AllocError>
    ensures { OnOk result (out.new.items
        ≡ out.old.items ++ flat_map (λ name. entry_text name) names.now) }
{
    for name in names {
        put_entry(*name, out)?;
    }
    Ok(())
}

/// Returns the list of the commands.
fn list_text(alloc: Global) -> Result<Vec<u8>, AllocError>
    ensures { IfOk result (λ text. text.items ≡ help_text None) }
{
    let mut text = Vec::from_slice(alloc, HEAD.as_bytes())?;
    put_entries(&NAMES, &mut text)?;
    text.extend_from_slice(TAIL.as_bytes())?;
    Ok(text)
}

/// Returns the help: the page of a command, or the list of all.
pub fn help_text(alloc: Global, command: Option<CommandName>) -> Result<Vec<u8>, AllocError>
    ensures { IfOk result (λ text. text.items ≡ help_text command) }
{
    match command {
        Some(name) => page_text(alloc, name),
        None => list_text(alloc),
    }
}
