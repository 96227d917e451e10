//! The watchers of each pointer that some session watches, in the order of the pointers: those that
//! begin with a path stand side by side.
ghost use Rattle.std.specs.Prelude.{◌≡◌, ℕ, [], ◌∷◌, take, option_copied, OnOk, OnErr};
ghost use Rattle.std.specs.List.{list_any};
ghost use Rattle.relay_pointer.specs.Path.{path_of};
ghost use Rattle.relay_translate.specs.SlotIndex.{EachIsWatched, Joins, Leaves, IsSameIndex};
ghost use Rattle.relay_translate.specs.SlotIndex.{same_slot, watchers_at};

use crate::watchers::Watchers;
use relay_pointer::{copy_tokens, same_path};
use relay_view::Slot;
use std::alloc::{AllocError, Global};
use std::collections::BTreeMap;

/// The watchers of each pointer, by its tokens. None is without a watcher.
pub(crate) type SlotIndex = BTreeMap<Vec<String>, Watchers>;

/// Returns the watchers of a path.
pub(crate) fn watchers_at<'i>(index: &'i SlotIndex, path: &[String]) -> Option<&'i Watchers>
    ensures { option_copied result ≡ watchers_at index.now (path_of path.now) }
{
    index.get(path)
}

/// Adds slots of a session. If memory runs out, some of them were added.
pub(crate) fn enter(
    alloc: Global,
    index: &mut SlotIndex,
    session: u64,
    slots: &[Slot],
) -> Result<(), AllocError>
    requires watched { EachIsWatched index.old }
    ensures ok { OnOk result (Joins index.old index.new session slots.now) }
    ensures err { OnErr result ((n : ℕ) × Joins index.old index.new session (take n slots.now)) }
    ensures watched { EachIsWatched index.new }
{
    for slot in slots {
        enter_slot(alloc, index, session, slot)?;
    }
    Ok(())
}

/// Adds a slot of a session. If memory runs out, nothing changes.
fn enter_slot(
    alloc: Global,
    index: &mut SlotIndex,
    session: u64,
    slot: &Slot,
) -> Result<(), AllocError>
    requires watched { EachIsWatched index.old }
    ensures ok { OnOk result (Joins index.old index.new session (slot.now ∷ [])) }
    ensures err { OnErr result (IsSameIndex index.old index.new) }
    ensures watched { EachIsWatched index.new }
{
    let tokens = slot.pointer.tokens();
    if let Some(watchers) = index.get_mut(tokens) {
        return watchers.insert(slot.kind, session);
    }
    let mut watchers = Watchers::new(alloc);
    watchers.insert(slot.kind, session)?;
    index.insert(copy_tokens(alloc, tokens)?, watchers)?;
    Ok(())
}

/// Removes slots of a session, but for those that are among `kept`. Allocates nothing.
pub(crate) fn leave(index: &mut SlotIndex, session: u64, slots: &[Slot], kept: &[Slot])
    requires watched { EachIsWatched index.old }
    ensures left { Leaves index.old index.new session slots.now kept.now }
    ensures watched { EachIsWatched index.new }
{
    for slot in slots {
        if !is_among(slot, kept) {
            leave_slot(index, session, slot);
        }
    }
}

/// Removes a slot of a session, and the pointer with its last watcher. Allocates nothing.
fn leave_slot(index: &mut SlotIndex, session: u64, slot: &Slot)
    requires watched { EachIsWatched index.old }
    ensures left { Leaves index.old index.new session (slot.now ∷ []) [] }
    ensures watched { EachIsWatched index.new }
{
    let tokens = slot.pointer.tokens();
    let Some(watchers) = index.get_mut(tokens) else {
        return;
    };
    watchers.remove(slot.kind, session);
    if watchers.is_empty() {
        index.remove(tokens);
    }
}

fn is_among(slot: &Slot, slots: &[Slot]) -> bool
    ensures { result ≡ list_any (same_slot slot.now) slots.now }
{
    slots.iter().any(|other| is_same(slot, other))
}

fn is_same(slot: &Slot, other: &Slot) -> bool
    ensures { result ≡ same_slot slot.now other.now }
{
    same_path(slot.pointer.tokens(), other.pointer.tokens()) && slot.kind == other.kind
}
