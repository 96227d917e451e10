//! A view, the list of its slots.
ghost use Rattle.std.specs.Prelude.{◌≡◌, length, option_copied, option_map, slice_get};

use crate::slot::{Slot, SlotKind};
use relay_pointer::Pointer;
use std::marker::Model;

/// The most slots that [`View::read`] accepts.
pub const MAX_SLOTS: u64 = 16;

/// A list of slots, each of which shows a value in a document, or its size. Contracts see it as
/// that list.
///
/// ```
/// let view = View::read(alloc, &read(alloc, r#"["/a", "/b"]"#).ok()?).ok()?;
/// let shown = view.of(alloc, &read(alloc, r#"{"a": null}"#).ok()?).ok()?;
/// assert!(rt; shown.text(alloc).ok()?.as_str() == "[[null],[]]");
/// ```
#[derive(Drop)]
pub struct View {
    slots: Vec<Slot>,
}

impl Model for View {
    ghost use Rattle.relay_view.specs.View.{View};

    ghost Value = { View };

    ghost use Rattle.std.specs.Coded.{codes};
    ghost use Rattle.relay_view.specs.contracts.slot.Slot as slot;

    ghost coded = { Prim.hlevel (codes, slot.the_row.coded) };

    ghost view = { λ v. v.slots.items };
}

impl View {
    /// Creates a view of these slots. Allocates nothing.
    ///
    /// ```
    /// let mut slots = Vec::new(alloc);
    /// slots.push(Slot { pointer: Pointer::root(), kind: SlotKind::Size }).ok()?;
    /// let view = View::of_slots(slots);
    /// assert!(rt; view.same(&View::read(alloc, &read(alloc, r#"[{"size": ""}]"#).ok()?).ok()?));
    /// ```
    pub fn of_slots(list: Vec<Slot>) -> View
        ensures { result ≡ list.items }
    {
        View { slots: list }
    }

    /// Returns the number of slots. Allocates nothing.
    ///
    /// ```
    /// let view = View::read(alloc, &read(alloc, r#"["/a", "/a"]"#).ok()?).ok()?;
    /// assert!(rt; view.len() == 2);
    /// ```
    pub fn len(&self) -> u64
        ensures { result ≡ length self.now }
    {
        self.slots.len() as u64
    }

    /// Returns the pointer of slot `k`, counted from 0, or `None` past the last slot. Allocates
    /// nothing.
    ///
    /// ```
    /// let view = View::read(alloc, &read(alloc, r#"["/a", {"size": "/b"}]"#).ok()?).ok()?;
    /// assert!(rt; view.pointer(1)?.text(alloc).ok()?.as_str() == "/b");
    /// assert!(rt; view.pointer(2).is_none());
    /// ```
    pub fn pointer(&self, k: u64) -> Option<&Pointer>
        ensures { option_copied result ≡ option_map (λ s. s.pointer) (slice_get self.now k) }
    {
        match self.slots.get(k as usize) {
            Some(slot) => Some(&slot.pointer),
            None => None,
        }
    }

    /// Returns what slot `k` shows, counted from 0, or `None` past the last slot. Allocates
    /// nothing.
    ///
    /// ```
    /// let view = View::read(alloc, &read(alloc, r#"["/a", {"size": "/b"}]"#).ok()?).ok()?;
    /// assert!(rt; view.kind(1) == Some(SlotKind::Size) && view.kind(2) == None);
    /// ```
    pub fn kind(&self, k: u64) -> Option<SlotKind>
        ensures { result ≡ option_map (λ s. s.kind) (slice_get self.now k) }
    {
        match self.slots.get(k as usize) {
            Some(slot) => Some(slot.kind),
            None => None,
        }
    }

    /// Returns the slots, in order.
    ///
    /// ```
    /// let view = View::read(alloc, &read(alloc, r#"["/a", {"size": "/b"}]"#).ok()?).ok()?;
    /// assert!(rt; view.slots().len() == 2 && view.slots()[0].kind == SlotKind::Value);
    /// ```
    pub fn slots(&self) -> &[Slot]
        ensures { result.now ≡ self.now }
    {
        self.slots.as_slice()
    }
}
