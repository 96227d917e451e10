//! The calls of a server that begins from what a store kept: each room adopts its document, and
//! other rooms begin above the revisions that were in use.
ghost use Rattle.std.specs.Prelude.{◌≡◌, None, IsErrOf, ◌∷◌};
ghost use Rattle.relay_hub.specs.Call.{StepIf, adopting, logged};
ghost use Rattle.relay_hub.specs.Log.{Log, entry};
ghost use Rattle.relay_hub.specs.Stands.{StandsFor};
ghost use Rattle.relay_hub.specs.Step.{Step, adopt_fault, raised_floor};
ghost use Rattle.relay_hub.specs.declared.config.HubConfig.{HubConfig};
ghost use Rattle.relay_hub.specs.declared.event.Answer.TheVariants.{FloorRaised};
ghost use Rattle.relay_hub.specs.declared.event.Event.TheVariants.{Adopt, RaiseFloor};

use super::Hub;
use crate::fault::AdoptFault;
use relay_limits::MAX_COUNT;
use relay_tree::Tree;
use std::alloc::Global;

impl Hub {
    /// Begins a room anew in which nobody is, with this document at this revision, which is above
    /// its present one. A client that resumes from an earlier one gets a snapshot. A fault leaves
    /// the hub unchanged, and drops the document. `NoMemory` comes only if no other fault does.
    /// Costs a walk over the document, to measure it.
    ///
    /// ```
    /// let mut hub = Hub::new(alloc, 1, 1, 64, 32).ok()?;
    /// let session = hub.open(alloc, "board", Access::ReadWrite).ok()?.session;
    /// hub.close(session).ok()?;
    /// let kept = read(alloc, r#"{"title": "Plan"}"#).ok()?;
    /// hub.adopt(alloc, "board", 7, kept).ok()?;
    /// assert!(rt; hub.open(alloc, "board", Access::ReadWrite).ok()?.rev == 7);
    /// ```
    pub fn adopt(
        &mut self,
        alloc: Global,
        room: &str,
        rev: u64,
        document: Tree,
    ) -> Result<(), AdoptFault>
        ensures step { StepIf self.old (Adopt room.now rev document) (adopting result) self.new }
        ensures stands { (b : HubConfig) (E : Log) → StandsFor b E self.old →
            StandsFor b (logged E (Adopt room.now rev document) (adopting result)) self.new }
        ensures no_memory { IsErrOf result AdoptFault.NoMemory
            → adopt_fault self.old room.now rev document ≡ None }
    {
        let Some(index) = self.rooms.get_index_of(room) else {
            return Err(AdoptFault::NoRoom);
        };
        let Some(room_sessions) = self.rooms.get_index_mut(index) else {
            unreachable!()
        };
        room_sessions.begin_anew(alloc, document, rev, self.config.history)
    }

    /// Has rooms that begin from now on begin at this revision or above. A lower one than before
    /// changes nothing, and one above `2^53 - 1` counts as that, the last revision. Allocates
    /// nothing.
    ///
    /// ```
    /// let mut hub = Hub::new(alloc, 1, 1, 64, 32).ok()?;
    /// hub.raise_floor(9);
    /// hub.raise_floor(4);
    /// assert!(rt; hub.floor() == 9);
    /// assert!(rt; hub.open(alloc, "board", Access::ReadWrite).ok()?.rev == 9);
    /// ```
    pub fn raise_floor(&mut self, rev: u64)
        ensures step { Step self.old (RaiseFloor rev) FloorRaised self.new }
        ensures stands { (b : HubConfig) (E : Log) → StandsFor b E self.old →
            StandsFor b (entry (RaiseFloor rev) FloorRaised ∷ E) self.new }
    {
        let risen = raised_floor(rev, self.floor);
        self.floor = risen;
    }

    /// The least revision at which a room begins that there is not yet; a room that replaces
    /// another may begin above. Allocates nothing.
    ///
    /// ```
    /// let mut hub = Hub::new(alloc, 1, 1, 64, 32).ok()?;
    /// assert!(rt; hub.floor() == 0);
    /// // No revision is above 2^53 - 1.
    /// hub.raise_floor(u64::MAX);
    /// assert!(rt; hub.floor() == (1 << 53) - 1);
    /// ```
    pub fn floor(&self) -> u64
        ensures { result ≡ self.now.floor }
    {
        self.floor
    }

    /// The first reason why the room of that name would not adopt the document. Costs a walk over
    /// the document. Allocates nothing.
    pub(crate) fn adopt_fault(&self, room: &str, rev: u64, document: &Tree) -> Option<AdoptFault>
        ensures { result ≡ adopt_fault self.now room.now rev document.now }
    {
        let Some(index) = self.rooms.get_index_of(room) else {
            return Some(AdoptFault::NoRoom);
        };
        let Some((_, room_sessions)) = self.rooms.get_index(index) else {
            unreachable!()
        };
        room_sessions.may_begin(document, rev).err()
    }
}

/// The floor once it is raised to a revision, or to the last one.
fn raised_floor(rev: u64, floor: u64) -> u64
    ensures { result ≡ raised_floor rev floor }
{
    floor.max(rev.min(MAX_COUNT))
}
