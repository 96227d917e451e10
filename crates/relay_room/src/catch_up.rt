//! The update that brings the view of an earlier revision to the present one.
ghost use Rattle.std.specs.Prelude.{◌≡◌, ◌<◌, ◌↔◌, map, IfOk, IfSome, IsSome, IsErrOf};
ghost use Rattle.relay_history.specs.History.{Reaches, changes_since};
ghost use Rattle.relay_room.specs.Room.{revision};
ghost use Rattle.relay_room.specs.CatchUp.{caught_up, caught_up_within, patch_or_nothing};
ghost use Rattle.relay_room.specs.CatchUp.{patch_or_snapshot, LeadsOn, Fits};
ghost use Rattle.relay_room.specs.declared.catch_up.CatchUp.TheVariants.{Nothing};
ghost use Rattle.relay_room.specs.declared.fault.CatchFault.TheVariants.{Future};

use crate::fault::CatchFault;
use crate::room::Room;
use relay_history::History;
use relay_patch::{Change, Patch};
use relay_translate::translate_within;
use relay_tree::Budget;
use relay_view::View;
use std::alloc::{AllocError, Global};

/// The changes that a client which holds the view of an earlier revision has missed.
///
/// ```
/// let mut room = Room::starting_at(alloc, read(alloc, "[1]").ok()?, 7, 64).ok()?;
/// let ops = read(alloc, r#"[{"op": "add", "path": "/-", "value": 2}]"#).ok()?;
/// let patch = Patch::from_owned(alloc, ops, PatchLimits::REQUEST).ok()?;
/// room.edit(alloc, ReservedRevision::new(alloc).ok()?, None, &patch).ok()?;
/// let view = View::read(alloc, &read(alloc, r#"["/0"]"#).ok()?).ok()?;
/// // What comes behind the first element does not touch a view of it.
/// assert!(rt; matches!(room.catch_up(alloc, 7, &view), Ok(CatchUp::Nothing)));
/// ```
#[derive(Drop)]
pub enum CatchUp {
    /// Nothing: the view is up to date.
    Nothing,
    /// A patch that turns the view into that of the present document.
    Patch(Patch),
    /// The whole view of the present document is needed: the changes since that revision are no
    /// longer all held, or the patch would weigh more than the budget.
    Snapshot,
}

impl Room {
    /// Returns what a client that holds its view of revision `rev` has missed. `Snapshot` if the
    /// changes since `rev` are no longer all held. Else `Nothing` if none of them touches the view.
    /// Else a patch that turns the old view into the present one. The patch has paths of at most 66
    /// tokens and values at most 65 deep. Returns `Future` if `rev` is above the present revision,
    /// and `NoMemory` if memory runs out.
    ///
    /// Costs the number of changes since `rev` times the number of the view's pointers, and a copy
    /// of each value that the patch carries. See `docs/PROTOCOL.md`, "What a request does".
    ///
    /// ```
    /// let mut room = Room::starting_at(alloc, read(alloc, "[1]").ok()?, 7, 64).ok()?;
    /// let ops = read(alloc, r#"[{"op": "add", "path": "/0", "value": 2}]"#).ok()?;
    /// let patch = Patch::from_owned(alloc, ops, PatchLimits::REQUEST).ok()?;
    /// let rev = room.edit(alloc, ReservedRevision::new(alloc).ok()?, None, &patch).ok()?;
    /// // A view is a list of slots, so the document is the part `/0/0` of what the client holds.
    /// let view = View::read(alloc, &read(alloc, r#"[""]"#).ok()?).ok()?;
    /// assert!(rt; matches!(room.catch_up(alloc, 7, &view), Ok(CatchUp::Patch(_))));
    /// assert!(rt; matches!(room.catch_up(alloc, rev, &view), Ok(CatchUp::Nothing)));
    /// assert!(rt; matches!(room.catch_up(alloc, 6, &view), Ok(CatchUp::Snapshot)));
    /// ```
    pub fn catch_up(&self, alloc: Global, rev: u64, view: &View) -> Result<CatchUp, CatchFault>
        ensures exact { IfOk result (λ how. how ≡ caught_up self.now rev view.now) }
        ensures present { rev ≡ revision self.now → IfOk result (λ how. how ≡ Nothing) }
        ensures leads { IfOk result (λ how. LeadsOn self.now rev view.now how) }
        ensures sizes { IfOk result (λ how. Fits how) }
        ensures future { IsErrOf result Future ↔ (revision self.now < rev) }
    {
        self.catch_up_within(alloc, rev, view, Budget::Unbounded)
    }

    /// Like [`Room::catch_up`], but returns `Snapshot` in place of a patch that weighs more than
    /// the budget. No such patch is built.
    ///
    /// ```
    /// let mut room = Room::starting_at(alloc, read(alloc, "[1]").ok()?, 7, 64).ok()?;
    /// let ops = read(alloc, r#"[{"op": "add", "path": "/-", "value": 2}]"#).ok()?;
    /// let patch = Patch::from_owned(alloc, ops, PatchLimits::REQUEST).ok()?;
    /// room.edit(alloc, ReservedRevision::new(alloc).ok()?, None, &patch).ok()?;
    /// let view = View::read(alloc, &read(alloc, r#"[""]"#).ok()?).ok()?;
    /// let missed = room.catch_up_within(alloc, 7, &view, Budget::Left(8));
    /// assert!(rt; matches!(missed, Ok(CatchUp::Snapshot)));
    /// ```
    pub fn catch_up_within(
        &self,
        alloc: Global,
        rev: u64,
        view: &View,
        budget: Budget,
    ) -> Result<CatchUp, CatchFault>
        ensures exact { IfOk result (λ how. how ≡ caught_up_within budget self.now rev view.now) }
        ensures present { rev ≡ revision self.now → IfOk result (λ how. how ≡ Nothing) }
        ensures leads { IfOk result (λ how. LeadsOn self.now rev view.now how) }
        ensures sizes { IfOk result (λ how. Fits how) }
        ensures future { IsErrOf result Future ↔ (revision self.now < rev) }
    {
        if rev > self.history.newest() {
            return Err(CatchFault::Future);
        }
        let Some(changes) = held_since(alloc, &self.history, rev)? else {
            return Ok(CatchUp::Snapshot);
        };
        let patch = translate_within(alloc, changes.as_slice(), &self.document, view, budget)?;
        Ok(patch_or_snapshot(patch))
    }
}

// Returns the changes after a revision if all of them are held.
pub(crate) fn held_since<'a>(
    alloc: Global,
    history: &'a History,
    rev: u64,
) -> Result<Option<Vec<&'a Change>>, AllocError>
    ensures reaches { IfOk result (λ found. IsSome found ↔ Reaches history.now rev) }
    ensures changes { IfOk result (λ found.
        IfSome found (λ changes. map (λ c. c.now) changes.items ≡ changes_since rev history.now)) }
{
    match history.since(rev) {
        None => Ok(None),
        Some(since) => Ok(Some(since.collect(alloc)?)),
    }
}

// A snapshot replaces a patch that is too heavy to be built.
fn patch_or_snapshot(patch: Option<Patch>) -> CatchUp
    ensures { result ≡ patch_or_snapshot patch }
{
    match patch {
        Some(patch) => patch_or_nothing(patch),
        None => CatchUp::Snapshot,
    }
}

// A patch without operations changes nothing, so it is not sent.
fn patch_or_nothing(patch: Patch) -> CatchUp
    ensures { result ≡ patch_or_nothing patch }
{
    if patch.ops().is_empty() {
        CatchUp::Nothing
    } else {
        CatchUp::Patch(patch)
    }
}
