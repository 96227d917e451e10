//! The wills that changes make of an empty store.
ghost use Rattle.std.specs.Prelude.{◌≡◌, ℕ, None, IfOk, OnOk, map, nat_eq};
ghost use Rattle.indexmap.specs.IndexMap.{get};
ghost use Rattle.relay_store.specs.Kept.{Kept, begun, changed, committed};
ghost use Rattle.relay_store.specs.Texts.{lent, owned};
ghost use Rattle.relay_store.specs.declared.change.Change.TheVariants.{LeaveWill, DropWill};
ghost use Rattle.relay_keeping.specs.LeftWills.{AreLeft};

use indexmap::IndexMap;
use relay_store::{Change, StoreFault};
use std::alloc::Global;

/// A will that is kept: the name of its room, and the text of the request that leaves it.
#[derive(Drop)]
pub(crate) struct LeftWill {
    pub(crate) room: String,
    pub(crate) text: String,
}

/// The wills that are kept, by the numbers of their sessions, in the order in which they were left.
#[derive(Drop)]
pub(crate) struct LeftWills {
    pub(crate) wills: IndexMap<u64, LeftWill>,
}

impl LeftWills {
    /// The wills that these changes make of an empty store.
    pub(crate) fn of(alloc: Global, changes: &Vec<Change<String>>) -> Result<LeftWills, StoreFault>
        ensures { (epoch : ℕ) → IfOk result (AreLeft
            (committed (begun epoch) (map owned changes.now.items))) }
    {
        let mut left = LeftWills {
            wills: IndexMap::new(alloc),
        };
        for change in changes {
            left.note(alloc, change.borrow())?;
        }
        Ok(left)
    }

    /// Notes a change. One of a room changes nothing here.
    fn note(&mut self, alloc: Global, change: Change<&str>) -> Result<(), StoreFault>
        ensures { (kept : Kept) → AreLeft kept self.old
            → OnOk result (AreLeft (changed kept (lent change.entry)) self.new) }
    {
        match change {
            Change::LeaveWill {
                session,
                room,
                text,
            } => self.leave(alloc, session, room, text),
            Change::DropWill { session } => {
                self.end(session);
                Ok(())
            }
            _ => Ok(()),
        }
    }

    /// Leaves a will, in place of the one that its session left before.
    fn leave(
        &mut self,
        alloc: Global,
        session: u64,
        room: &str,
        text: &str,
    ) -> Result<(), StoreFault>
        ensures { (kept : Kept) → AreLeft kept self.old → OnOk result (AreLeft
            (changed kept (LeaveWill session room.now text.now)) self.new) }
    {
        let will = LeftWill {
            room: String::from_str(alloc, room)?,
            text: String::from_str(alloc, text)?,
        };
        self.end(session);
        let _ = self.wills.insert(session, will)?;
        Ok(())
    }

    /// Ends the will of a session.
    fn end(&mut self, session: u64)
        ensures kept { (kept : Kept) → AreLeft kept self.old
            → AreLeft (changed kept (DropWill session)) self.new }
        ensures gone { get nat_eq self.new.wills session ≡ None }
    {
        let _ = self.wills.shift_remove(&session);
    }
}
