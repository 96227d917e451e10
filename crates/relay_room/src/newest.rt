//! The changes of the newest revision.
ghost use Rattle.std.specs.Prelude.{◌≡◌, map, IfOk};
ghost use Rattle.relay_room.specs.Newest.{newest_changes};

use crate::catch_up::held_since;
use crate::room::Room;
use relay_patch::Change;
use std::alloc::{AllocError, Global};

impl Room {
    /// Returns the changes of the newest revision, in order, or none if they are not held. Costs a
    /// list of them; none is copied.
    ///
    /// ```
    /// let mut room = Room::starting_at(alloc, read(alloc, "[1]").ok()?, 7, 64).ok()?;
    /// let ops = read(alloc, r#"[{"op": "add", "path": "/-", "value": 2}]"#).ok()?;
    /// let patch = Patch::from_owned(alloc, ops, PatchLimits::REQUEST).ok()?;
    /// room.edit(alloc, ReservedRevision::new(alloc).ok()?, None, &patch).ok()?;
    /// assert!(rt; room.newest_changes(alloc).ok()?.len() == 1);
    /// ```
    pub fn newest_changes(&self, alloc: Global) -> Result<Vec<&Change>, AllocError>
        ensures { IfOk result (λ changes.
            map (λ c. c.now) changes.items ≡ newest_changes self.now.history) }
    {
        let Some(before) = self.history.newest().checked_sub(1) else {
            return Ok(Vec::new(alloc));
        };
        match held_since(alloc, &self.history, before)? {
            Some(changes) => Ok(changes),
            None => Ok(Vec::new(alloc)),
        }
    }
}
