//! An iterator over the changes after a revision.
use crate::revision::Revision;
use circular_buffer::HeapCircularBuffer;
use relay_patch::Change;
use std::marker::Model;

/// An iterator over the changes after a revision, in the order in which they were made. Contracts
/// see it as the list of the changes not returned yet. `since.collect(alloc)?` returns them all at
/// once, as a `Vec<&Change>`.
///
/// ```
/// let mut history = History::new(alloc, 64, 0).ok()?;
/// let mut changes = Vec::new(alloc);
/// changes.push(Change::DropItem { path: Pointer::read(alloc, "/3", 64).ok()? }).ok()?;
/// history.push(ReservedRevision::new(alloc).ok()?, changes);
/// let mut since = history.since(0)?;
/// assert!(rt; matches!(since.next(), Some(Change::DropItem { .. })) && since.next().is_none());
/// ```
#[derive(Drop)]
pub struct Since<'a> {
    /// The changes of the current revision that were not returned yet.
    changes: &'a [Change],
    /// The held revisions, newest first.
    revisions: &'a HeapCircularBuffer<Revision>,
    /// The number of revisions at the front that were not started yet.
    left: usize,
}

impl<'a> Model for Since<'a> {
    ghost use Rattle.std.specs.Prelude.{List, ◌≤◌, length};
    ghost use Rattle.std.specs.Coded.{coded_list};
    ghost use Rattle.relay_patch.specs.declared.change.Change.{Change};
    ghost use Rattle.relay_patch.specs.contracts.change.Change as change;

    ghost Value = { List Change };

    ghost coded = { coded_list change.the_row.coded };

    ghost use Rattle.relay_history.specs.Representation.{left_of};

    ghost view = { left_of };

    ghost invariant = { λ s. s.left ≤ length s.revisions.now.items };
}

impl<'a> Since<'a> {
    ghost use Rattle.std.specs.Prelude.{◌≡◌, ◌≤◌, take, length};
    ghost use Rattle.relay_history.specs.History.{in_order};

    /// Returns the changes of the first `count` of these revisions, which are newest first.
    pub(crate) fn of_first(revisions: &'a HeapCircularBuffer<Revision>, count: usize) -> Since<'a>
        requires { count ≤ length revisions.now.items }
        ensures { result ≡ in_order (take count revisions.now.items) }
    {
        Since {
            changes: &[],
            revisions,
            left: count,
        }
    }
}

impl<'a> Iterator for Since<'a> {
    type Item = &'a Change;

    ghost use Rattle.std.specs.Iterator.{YieldsFirstRef, item_count};

    // `next` gives the first of the list, and leaves the others; what remains is their number.
    ghost next_gives = { YieldsFirstRef (λ s. s) };

    ghost remaining = { item_count (λ s. s) };

    #[tactic(auto, using(crate::proofs::Revisions::told_on))]
    fn next(&mut self) -> Option<&'a Change> {
        while self.changes.is_empty() && self.left > 0 {
            self.left -= 1;
            self.changes = self.revisions.get(self.left)?.changes();
        }
        let (change, rest) = self.changes.split_first()?;
        self.changes = rest;
        Some(change)
    }
}
