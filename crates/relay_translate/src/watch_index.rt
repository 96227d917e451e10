//! An index of the views of all sessions, which finds the sessions that an edit touches without
//! checking every view.
//!
//! It has the watchers of each pointer, in the order of the pointers, so those that begin with one
//! path stand side by side. For each place of a change, one look-up for each of its prefixes and
//! one for all that begins with it find the slots that are compared with the change.
ghost use Rattle.std.specs.Prelude.{◌≡◌, ℕ, map as each, IfOk, OnOk, OnErr};
ghost use Rattle.std.specs.List.Sorted.{IsStrictlyIncreasing};
ghost use Rattle.std.specs.FinMap as map;
ghost use Rattle.relay_translate.specs.SlotIndex.{AreWithin, EachIsWatched, Found, IsIndex};
ghost use Rattle.relay_translate.specs.SlotIndex.{IsWithin, Leaves, named, watches_of};
ghost use Rattle.relay_translate.specs.Watches.{is_touched, slots_of};

use crate::nearby::add_touched;
use crate::slot_index::{SlotIndex, enter, leave};
use crate::view_copy::copy_view;
use relay_patch::Change;
use relay_view::View;
use std::alloc::{AllocError, Global};
use std::collections::BTreeMap;
use std::marker::Model;

/// The view of each session that watches. Contracts see it as a map from session numbers to views.
/// It holds each view, and each pointer of all views once more.
///
/// ```
/// let mut watches = WatchIndex::new(alloc);
/// let size = View::read(alloc, &read(alloc, r#"[{"size": "/cards"}]"#).ok()?).ok()?;
/// watches.put(alloc, 7, &size).ok()?;
/// let path = Pointer::read(alloc, "/cards/0", 64).ok()?;
/// let change = Change::Set { path, value: Tree::of_count(1) };
/// // An element that is replaced does not touch the size.
/// assert!(rt; watches.touched(alloc, &[&change]).ok()?.is_empty());
/// ```
#[derive(Drop)]
pub struct WatchIndex {
    views: BTreeMap<u64, View>,
    slots: SlotIndex,
    /// No pointer has had more tokens.
    deepest: usize,
}

impl Model for WatchIndex {
    ghost use Rattle.relay_view.specs.contracts.slot.Slot as slot;
    ghost use Rattle.relay_translate.specs.SlotIndex.{EachIsWatched, IsIndex, IsWithin, watches_of};
    ghost use Rattle.relay_translate.specs.Watches.{Watches, watches_code};

    ghost Value = { Watches };

    ghost coded = { watches_code slot.the_row.coded };

    ghost view = { λ i. watches_of i.views };

    ghost invariant = { λ i. IsIndex i.slots (watches_of i.views) × IsWithin i.deepest i.slots
        × EachIsWatched i.slots };
}

impl WatchIndex {
    ghost use Rattle.std.specs.Prelude.{nat_eq};
    ghost use Rattle.std.specs.List.{list_any};
    ghost use Rattle.relay_translate.specs.Watches.{OthersStay, sees};

    /// Creates an index without views. Allocates nothing.
    ///
    /// ```
    /// let watches = WatchIndex::new(alloc);
    /// let change = Change::DropItem { path: Pointer::read(alloc, "/0", 64).ok()? };
    /// assert!(rt; watches.touched(alloc, &[&change]).ok()?.is_empty());
    /// ```
    pub fn new(alloc: Global) -> WatchIndex
        ensures { result ≡ map.empty }
    {
        WatchIndex {
            views: BTreeMap::new(alloc),
            slots: BTreeMap::new(alloc),
            deepest: 0,
        }
    }

    /// Sets the view of a session, replacing any earlier one. If memory runs out, nothing changes.
    /// Costs a copy of the view, one of each pointer that is new, and a look-up for each slot of
    /// both views.
    ///
    /// ```
    /// let mut watches = WatchIndex::new(alloc);
    /// let cards = View::read(alloc, &read(alloc, r#"["/cards"]"#).ok()?).ok()?;
    /// let title = View::read(alloc, &read(alloc, r#"["/title"]"#).ok()?).ok()?;
    /// watches.put(alloc, 7, &cards).ok()?;
    /// watches.put(alloc, 7, &title).ok()?;
    /// let change = Change::DropItem { path: Pointer::read(alloc, "/cards/0", 64).ok()? };
    /// assert!(rt; watches.touched(alloc, &[&change]).ok()?.is_empty());
    /// ```
    pub fn put(&mut self, alloc: Global, session: u64, view: &View) -> Result<(), AllocError>
        ensures ok { OnOk result (self.new ≡ map.insert self.old session view.now) }
        ensures err { OnErr result (self.new ≡ self.old) }
    {
        put_view(alloc, &mut self.views, &mut self.slots, session, view)?;
        self.deepest = self.deepest.max(depth_of(view));
        Ok(())
    }

    /// Removes the view of a session; changes nothing if it has none. Allocates nothing. Costs a
    /// look-up for each of its slots.
    ///
    /// ```
    /// let mut watches = WatchIndex::new(alloc);
    /// let cards = View::read(alloc, &read(alloc, r#"["/cards"]"#).ok()?).ok()?;
    /// watches.put(alloc, 7, &cards).ok()?;
    /// watches.take_out(7);
    /// let change = Change::DropItem { path: Pointer::read(alloc, "/cards/0", 64).ok()? };
    /// assert!(rt; watches.touched(alloc, &[&change]).ok()?.is_empty());
    /// ```
    pub fn take_out(&mut self, session: u64)
        ensures { self.new ≡ map.remove self.old session }
    {
        if let Some(view) = self.views.remove(&session) {
            leave(&mut self.slots, session, view.slots(), &[]);
        }
    }

    /// Returns the sessions with a slot that some change touches, in ascending order, each once.
    /// For every other session the changes translate to no operation.
    ///
    /// For each place at which a change sets, adds or removes a part, it checks only the slots
    /// whose pointers are a prefix of the place or begin with it and, if the place is an item,
    /// those that begin with the path of its list; at the root, all slots. Costs a look-up for each
    /// token of a place, and a comparison for each pointer checked; a copy of the place too, if
    /// nobody watches it, and pointers that are as long were watched.
    ///
    /// ```
    /// let mut watches = WatchIndex::new(alloc);
    /// let cards = View::read(alloc, &read(alloc, r#"["/cards"]"#).ok()?).ok()?;
    /// let title = View::read(alloc, &read(alloc, r#"["/title"]"#).ok()?).ok()?;
    /// watches.put(alloc, 7, &cards).ok()?;
    /// watches.put(alloc, 8, &title).ok()?;
    /// let change = Change::DropItem { path: Pointer::read(alloc, "/cards/0", 64).ok()? };
    /// assert!(rt; watches.touched(alloc, &[&change]).ok()?.as_slice() == [7].as_slice());
    /// ```
    pub fn touched(&self, alloc: Global, changes: &[&Change]) -> Result<Vec<u64>, AllocError>
        ensures rising { IfOk result (λ sessions. IsStrictlyIncreasing sessions.items) }
        ensures exact { IfOk result
            (λ sessions. (s : ℕ)
            → list_any (nat_eq s) sessions.items
            ≡ sees (each (λ c. c.now) changes.now) self.now s) }
        ensures others { IfOk result
            (λ sessions. OthersStay (each (λ c. c.now) changes.now) self.now sessions.items) }
    {
        Ok(in_order(sessions_touched(alloc, &self.slots, self.deepest, changes)?))
    }
}

/// Sets the view of a session. The slots of both views stand in the index until the new view is
/// there.
fn put_view(
    alloc: Global,
    views: &mut BTreeMap<u64, View>,
    slots: &mut SlotIndex,
    session: u64,
    view: &View,
) -> Result<(), AllocError>
    requires index { IsIndex slots.old (watches_of views.old) }
    requires watched { EachIsWatched slots.old }
    ensures views { OnOk result
        (watches_of views.new ≡ map.insert (watches_of views.old) session view.now) }
    ensures err { OnErr result (watches_of views.new ≡ watches_of views.old) }
    ensures index { IsIndex slots.new (watches_of views.new) }
    ensures watched { EachIsWatched slots.new }
{
    let copy = copy_view(alloc, view)?;
    if let Err(fault) = enter(alloc, slots, session, view.slots()) {
        withdraw(views, slots, session, view);
        return Err(fault);
    }
    match views.insert(session, copy) {
        Ok(Some(former)) => {
            leave(slots, session, former.slots(), view.slots());
            Ok(())
        }
        Ok(None) => Ok(()),
        Err(_) => {
            withdraw(views, slots, session, view);
            Err(AllocError)
        }
    }
}

/// Removes those slots of a view that are not the session's.
fn withdraw(views: &BTreeMap<u64, View>, slots: &mut SlotIndex, session: u64, view: &View)
    requires watched { EachIsWatched slots.old }
    ensures left { Leaves slots.old slots.new session view.now
        (slots_of (map.get (watches_of views.now) session)) }
    ensures watched { EachIsWatched slots.new }
{
    match views.get(&session) {
        Some(kept) => leave(slots, session, view.slots(), kept.slots()),
        None => leave(slots, session, view.slots(), &[]),
    }
}

/// Returns the number of tokens of the view's longest pointer.
fn depth_of(view: &View) -> usize
    ensures { AreWithin result view.now }
{
    let mut deepest = 0;
    for slot in view.slots() {
        deepest = deepest.max(slot.pointer.tokens().len());
    }
    deepest
}

/// Returns the sessions with a slot that some change touches.
fn sessions_touched(
    alloc: Global,
    index: &SlotIndex,
    deepest: usize,
    changes: &[&Change],
) -> Result<Vec<u64>, AllocError>
    requires { IsWithin deepest index.now }
    ensures { IfOk result
        (λ sessions. Found (is_touched (each (λ c. c.now) changes.now)) index.now sessions.items) }
{
    let mut sessions = Vec::new(alloc);
    for change in changes {
        add_touched(alloc, &mut sessions, index, deepest, change)?;
    }
    Ok(sessions)
}

/// Returns the numbers of a list in ascending order, each once.
fn in_order(mut sessions: Vec<u64>) -> Vec<u64>
    ensures same { (s : ℕ) → named result.items s ≡ named sessions.items s }
    ensures rising { IsStrictlyIncreasing result.items }
{
    sessions.sort_unstable();
    sessions.dedup();
    sessions
}
