//! The slots that a change can touch, found from the places at which it sets, adds or removes a
//! part: those whose pointers are a prefix of such a place or begin with it and, if the place is an
//! item, those that begin with the path of its list. No other slot is checked.
ghost use Rattle.std.specs.Prelude.{◌≡◌, ◌||◌, ℕ, true, take, OnOk};
ghost use Rattle.std.specs.Ordering.{nat_cmp};
ghost use Rattle.std.specs.BTreeSet.{contains};
ghost use Rattle.relay_pointer.specs.Path.{path_of, same_path, is_prefix};
ghost use Rattle.relay_translate.specs.SlotIndex.{Gains, IsWithin, container, is_near, named};
ghost use Rattle.relay_translate.specs.SlotIndex.{scope, slot_of, tells};
ghost use Rattle.relay_translate.specs.Watches.{touches};

use crate::kind::Touch;
use crate::slot_index::{SlotIndex, watchers_at};
use crate::touching::touch_tokens;
use crate::watchers::Watchers;
use relay_patch::{Change, Place};
use relay_pointer::copy_tokens;
use relay_view::SlotKind;
use std::alloc::{AllocError, Global};
use std::collections::BTreeSet;

/// Adds the sessions with a slot that the change touches. `deepest`: no pointer has more tokens.
pub(crate) fn add_touched(
    alloc: Global,
    sessions: &mut Vec<u64>,
    index: &SlotIndex,
    deepest: usize,
    change: &Change,
) -> Result<(), AllocError>
    requires { IsWithin deepest index.now }
    ensures { OnOk result
        (Gains (λ q. true) change.now index.now sessions.old.items sessions.new.items) }
{
    match change {
        Change::Set { path, .. } | Change::AddMember { path, .. } | Change::DropMember { path } => {
            add_near(alloc, sessions, index, deepest, path.tokens(), change)
        }
        Change::AddItem { path, .. } | Change::DropItem { path } => {
            add_near(
                alloc,
                sessions,
                index,
                deepest,
                container(path.tokens()),
                change,
            )
        }
        Change::Move { from, to, .. } => {
            add_near(alloc, sessions, index, deepest, scope(from), change)?;
            add_near(alloc, sessions, index, deepest, scope(to), change)
        }
        Change::Copy { to, .. } => add_near(alloc, sessions, index, deepest, scope(to), change),
    }
}

/// Like [`add_touched`], for the slots whose pointers are a prefix of the path or begin with it.
fn add_near(
    alloc: Global,
    sessions: &mut Vec<u64>,
    index: &SlotIndex,
    deepest: usize,
    path: &[String],
    change: &Change,
) -> Result<(), AllocError>
    requires { IsWithin deepest index.now }
    ensures { OnOk result
        (Gains (is_near (path_of path.now)) change.now index.now sessions.old.items
        sessions.new.items) }
{
    for depth in 0..path.len() {
        add_at(sessions, index, first_tokens(path, depth), change)?;
    }
    add_below(alloc, sessions, index, deepest, path, change)
}

/// Like [`add_touched`], for the slots whose pointer is the path.
fn add_at(
    sessions: &mut Vec<u64>,
    index: &SlotIndex,
    path: &[String],
    change: &Change,
) -> Result<(), AllocError>
    ensures { OnOk result
        (Gains (same_path (path_of path.now)) change.now index.now sessions.old.items
        sessions.new.items) }
{
    match watchers_at(index, path) {
        Some(watchers) => add_told(sessions, path, watchers, change),
        None => Ok(()),
    }
}

/// Like [`add_touched`], for the slots whose pointers begin with the path. There are none if no
/// pointer is as long.
fn add_below(
    alloc: Global,
    sessions: &mut Vec<u64>,
    index: &SlotIndex,
    deepest: usize,
    path: &[String],
    change: &Change,
) -> Result<(), AllocError>
    requires { IsWithin deepest index.now }
    ensures { OnOk result
        (Gains (is_prefix (path_of path.now)) change.now index.now sessions.old.items
        sessions.new.items) }
{
    if path.len() > deepest {
        return Ok(());
    }
    match index.get_key_value(path) {
        Some((first, _)) => add_run(sessions, index, first, change),
        None => add_run(sessions, index, &copy_tokens(alloc, path)?, change),
    }
}

/// [`add_below`], with the path as a key of the index. What begins with it stands behind it, side
/// by side.
fn add_run(
    sessions: &mut Vec<u64>,
    index: &SlotIndex,
    first: &Vec<String>,
    change: &Change,
) -> Result<(), AllocError>
    ensures { OnOk result
        (Gains (is_prefix (path_of first.now.items)) change.now index.now sessions.old.items
        sessions.new.items) }
{
    for (pointer, watchers) in index.range(first..) {
        if !pointer.starts_with(first.as_slice()) {
            break;
        }
        add_told(sessions, pointer.as_slice(), watchers, change)?;
    }
    Ok(())
}

/// Adds those watchers of a pointer whose slots the change touches.
fn add_told(
    sessions: &mut Vec<u64>,
    pointer: &[String],
    watchers: &Watchers,
    change: &Change,
) -> Result<(), AllocError>
    ensures { OnOk result
        ((s : ℕ) → named sessions.new.items s
        ≡ (named sessions.old.items s || tells change.now (path_of pointer.now) s watchers.now)) }
{
    if touches(change, pointer, SlotKind::Value) {
        add_all(sessions, &watchers.values)?;
    }
    if touches(change, pointer, SlotKind::Size) {
        add_all(sessions, &watchers.sizes)?;
    }
    Ok(())
}

fn add_all(sessions: &mut Vec<u64>, others: &BTreeSet<u64>) -> Result<(), AllocError>
    ensures { OnOk result
        ((s : ℕ) → named sessions.new.items s
        ≡ (named sessions.old.items s || contains nat_cmp others.now s)) }
{
    for session in others.iter() {
        sessions.push(*session)?;
    }
    Ok(())
}

fn touches(change: &Change, pointer: &[String], kind: SlotKind) -> bool
    ensures { result ≡ touches change.now (slot_of (path_of pointer.now) kind) }
{
    touch_tokens(change, pointer, kind) != Touch::Apart
}

/// Returns the first `depth` tokens of a path, or all of them if it has fewer.
fn first_tokens(path: &[String], depth: usize) -> &[String]
    ensures { path_of result.now ≡ take depth (path_of path.now) }
{
    match path.get(..depth) {
        Some(first) => first,
        None => path,
    }
}

/// Returns the path such that a change at the place touches only pointers that are a prefix of it
/// or begin with it. For an item it is the path of its list, since an insertion or a removal moves
/// the later elements.
fn scope(place: &Place) -> &[String]
    ensures { path_of result.now ≡ scope place.now.item place.now.path }
{
    if place.item {
        container(place.path.tokens())
    } else {
        place.path.tokens()
    }
}

/// Returns the path without its last token.
fn container(path: &[String]) -> &[String]
    ensures { path_of result.now ≡ container (path_of path.now) }
{
    match path {
        [before @ .., _] => before,
        [] => path,
    }
}
