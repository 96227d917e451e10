//! The sessions that watch one pointer.
ghost use Rattle.std.specs.Prelude.{◌≡◌, ℕ, ◌==◌, ◌&&◌, ◌||◌, not, false, OnOk, OnErr};
ghost use Rattle.std.specs.Bool.{MatchBool};
ghost use Rattle.relay_view.specs.declared.slot.SlotKind.{SlotKind};
ghost use Rattle.relay_translate.specs.SlotIndex.{IsWatched, same_kind, watches_by};

use relay_view::SlotKind;
use std::alloc::{AllocError, Global};
use std::collections::BTreeSet;

/// The sessions that watch a pointer, by what their slots show of the value there.
#[derive(Drop)]
pub(crate) struct Watchers {
    pub values: BTreeSet<u64>,
    pub sizes: BTreeSet<u64>,
}

impl Watchers {
    /// Allocates nothing.
    pub fn new(alloc: Global) -> Watchers
        ensures { (kind : SlotKind) (s : ℕ) → watches_by kind s result ≡ false }
    {
        Watchers {
            values: BTreeSet::new(alloc),
            sizes: BTreeSet::new(alloc),
        }
    }

    /// Adds a slot of a session. If memory runs out, nothing changes.
    pub fn insert(&mut self, kind: SlotKind, session: u64) -> Result<(), AllocError>
        ensures ok { OnOk result
            ((k : SlotKind) (s : ℕ)
            → watches_by k s self.new
            ≡ (watches_by k s self.old || (same_kind k kind && (s == session)))) }
        ensures err { OnErr result
            ((k : SlotKind) (s : ℕ) → watches_by k s self.new ≡ watches_by k s self.old) }
    {
        match kind {
            SlotKind::Value => self.values.insert(session)?,
            SlotKind::Size => self.sizes.insert(session)?,
        };
        Ok(())
    }

    /// Removes a slot of a session. Allocates nothing.
    pub fn remove(&mut self, kind: SlotKind, session: u64)
        ensures { (k : SlotKind) (s : ℕ)
            → watches_by k s self.new
            ≡ (watches_by k s self.old && not (same_kind k kind && (s == session))) }
    {
        match kind {
            SlotKind::Value => self.values.remove(&session),
            SlotKind::Size => self.sizes.remove(&session),
        };
    }

    /// Returns true if no session watches.
    pub fn is_empty(&self) -> bool
        ensures { MatchBool result ((k : SlotKind) (s : ℕ) → watches_by k s self.now ≡ false)
            (IsWatched self.now) }
    {
        self.values.is_empty() && self.sizes.is_empty()
    }
}
