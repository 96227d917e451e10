//! Edits, each of which makes the next revision of a room.
ghost use Rattle.std.specs.Prelude.{◌≡◌, ◌+◌, ◌↔◌, Ok, IfOk, IfErr, OnOk, OnErr, IsErrOf};
ghost use Rattle.relay_history.specs.declared.history.TheConstants.{LAST_REVISION};
ghost use Rattle.relay_history.specs.History.{with_revision};
ghost use Rattle.relay_patch.specs.Change.{Leads, all_changes};
ghost use Rattle.relay_room.specs.Room.{IsRoom, revision};
ghost use Rattle.relay_room.specs.Edit.{edited, is_for, Refuses};
ghost use Rattle.relay_room.specs.declared.fault.EditFault.TheVariants.{Exhausted};

use crate::fault::EditFault;
use crate::room::Room;
use relay_apply::{Applied, apply_within};
use relay_history::{LAST_REVISION, ReservedRevision};
use relay_patch::{Bounds, Patch};
use std::alloc::Global;

impl Room {
    /// Applies a patch to the document (RFC 6902, section 5), which must stay within
    /// `Bounds::DOCUMENT` after each operation. Returns the new revision: one higher, even if the
    /// patch changes nothing. An edit with a `base` applies only if that is the present revision.
    ///
    /// Returns `Exhausted` if the present revision is the last possible one, whatever the edit is;
    /// then `Stale` if `base` is not the present revision, whatever the patch is; then `Apply` if
    /// an operation is refused or memory runs out. An error leaves the room unchanged.
    ///
    /// The changes are kept in the memory of `reserved`, which an error frees. If the room already
    /// holds its limit of revisions, it forgets the changes of the oldest one. Costs what
    /// [`relay_apply::apply_within`] costs; the document is not measured.
    ///
    /// ```
    /// let mut room = Room::starting_at(alloc, read(alloc, "[1]").ok()?, 7, 64).ok()?;
    /// let ops = read(alloc, r#"[{"op": "add", "path": "/-", "value": 2}]"#).ok()?;
    /// let patch = Patch::from_owned(alloc, ops, PatchLimits::REQUEST).ok()?;
    /// let rev = room.edit(alloc, ReservedRevision::new(alloc).ok()?, Some(7), &patch).ok()?;
    /// assert!(rt; rev == 8 && room.document().text(alloc).ok()?.as_str() == "[1,2]");
    /// // Another client, which also made its edit for revision 7, is told so.
    /// let again = room.edit(alloc, ReservedRevision::new(alloc).ok()?, Some(7), &patch);
    /// assert!(rt; again == Err(EditFault::Stale { present: 8 }));
    /// ```
    pub fn edit(
        &mut self,
        alloc: Global,
        reserved: ReservedRevision,
        base: Option<u64>,
        patch: &Patch,
    ) -> Result<u64, EditFault>
        ensures document { OnOk result (edited self.old base patch.now ≡ Ok self.new.document) }
        ensures revision { IfOk result (λ rev. (rev ≡ revision self.old + 1)
            × (rev ≡ revision self.new)) }
        ensures history { OnOk result (self.new.history
            ≡ with_revision (all_changes self.old.document patch.now) self.old.history) }
        ensures led { OnOk result (Leads self.old.document
            (all_changes self.old.document patch.now) self.new.document) }
        ensures exhausted { IsErrOf result Exhausted ↔ (revision self.old ≡ LAST_REVISION) }
        ensures refused { IfErr result (λ fault. Refuses self.old base patch.now fault) }
        ensures unchanged { OnErr result (self.new ≡ self.old) }
        ensures kept { IsRoom self.new }
    {
        let present = self.history.newest();
        if present >= LAST_REVISION {
            return Err(EditFault::Exhausted);
        }
        if !is_for(base, present) {
            return Err(EditFault::Stale { present });
        }
        let Applied { changes, weight } = apply_within(
            alloc,
            &mut self.document,
            self.weight,
            patch,
            Bounds::DOCUMENT,
        )?;
        self.weight = weight;
        self.history.push(reserved, changes);
        Ok(self.history.newest())
    }
}

/// Returns whether an edit is for a revision: its base is that revision, or it has none.
fn is_for(base: Option<u64>, rev: u64) -> bool
    ensures { result ≡ is_for base rev }
{
    match base {
        Some(base) => base == rev,
        None => true,
    }
}
