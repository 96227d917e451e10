//! Changes in words: their kind, their place or places, and the new value.
use relay_patch::{Change, Place};
use relay_pointer::Pointer;
use relay_tree::Tree;
use std::alloc::Global;

/// Changes in words, each followed by a semicolon.
pub(crate) fn changes_text(alloc: Global, changes: &[Change]) -> Option<String> {
    let mut text = String::new(alloc);
    for change in changes {
        tell(alloc, &mut text, change)?;
    }
    Some(text)
}

fn tell(alloc: Global, text: &mut String, change: &Change) -> Option<()> {
    let change = change_text(alloc, change)?;
    text.push_str(change.as_str()).ok()?;
    text.push(';').ok()
}

fn change_text(alloc: Global, change: &Change) -> Option<String> {
    match change {
        Change::Set { path, value } => valued(alloc, "set", path, value),
        Change::AddMember { path, value } => valued(alloc, "add member", path, value),
        Change::AddItem { path, value } => valued(alloc, "add item", path, value),
        Change::DropMember { path } => placed(alloc, "drop member", path),
        Change::DropItem { path } => placed(alloc, "drop item", path),
        Change::Move { from, to, value } => {
            carried(alloc, "move", place_text(alloc, from)?, to, value)
        }
        Change::Copy { from, to, value } => {
            carried(alloc, "copy", from.text(alloc).ok()?, to, value)
        }
    }
}

fn placed(alloc: Global, kind: &str, path: &Pointer) -> Option<String> {
    let path = path.text(alloc).ok()?;
    format!(in alloc; "{kind} {path}").ok()
}

fn valued(alloc: Global, kind: &str, path: &Pointer, value: &Tree) -> Option<String> {
    let place = placed(alloc, kind, path)?;
    let value = value.text(alloc).ok()?;
    format!(in alloc; "{place} {value}").ok()
}

fn carried(alloc: Global, kind: &str, from: String, to: &Place, value: &Tree) -> Option<String> {
    let to = place_text(alloc, to)?;
    let value = value.text(alloc).ok()?;
    format!(in alloc; "{kind} {from} to {to} {value}").ok()
}

fn place_text(alloc: Global, place: &Place) -> Option<String> {
    if place.item {
        placed(alloc, "item", &place.path)
    } else {
        place.path.text(alloc).ok()
    }
}
