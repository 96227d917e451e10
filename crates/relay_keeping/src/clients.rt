//! The rooms that changes make of an empty store.
ghost use Rattle.std.specs.Prelude.{ℕ, IfOk, OnOk, map};
ghost use Rattle.relay_store.specs.Kept.{Kept, begun, changed, committed};
ghost use Rattle.relay_store.specs.Texts.{lent, owned};
ghost use Rattle.relay_store.specs.declared.change.Change.TheVariants.{Begin, Edit, End};
ghost use Rattle.relay_keeping.specs.Clients.{AreClientsOf};

use crate::client::Client;
use indexmap::IndexMap;
use relay_store::{Change, StoreFault};
use std::alloc::Global;

/// The clients of the rooms that are kept, by name, and the floor.
#[derive(Drop)]
pub(crate) struct Clients {
    pub(crate) rooms: IndexMap<String, Client>,
    pub(crate) floor: u64,
}

impl Clients {
    /// The rooms that these changes make of an empty store.
    pub(crate) fn of(alloc: Global, changes: &Vec<Change<String>>) -> Result<Clients, StoreFault>
        ensures { (epoch : ℕ) → IfOk result (AreClientsOf
            (committed (begun epoch) (map owned changes.now.items))) }
    {
        let mut clients = Clients {
            rooms: IndexMap::new(alloc),
            floor: 0,
        };
        for change in changes {
            clients.note(alloc, change.borrow())?;
        }
        Ok(clients)
    }

    /// Notes a change. One of a will changes nothing here.
    fn note(&mut self, alloc: Global, change: Change<&str>) -> Result<(), StoreFault>
        ensures { (kept : Kept) → AreClientsOf kept self.old
            → OnOk result (AreClientsOf (changed kept (lent change.entry)) self.new) }
    {
        match change {
            Change::Begin {
                room,
                revision,
                text,
            } => self.begin(alloc, room, revision, text),
            Change::Edit {
                room,
                revision,
                text,
            } => self.edit(alloc, room, revision, text),
            Change::End { room } => {
                self.end(room);
                Ok(())
            }
            Change::RaiseFloor { revision } => {
                self.floor = self.floor.max(revision);
                Ok(())
            }
            Change::LeaveWill { .. } | Change::DropWill { .. } => Ok(()),
        }
    }

    /// Begins a room with this record.
    fn begin(
        &mut self,
        alloc: Global,
        room: &str,
        revision: u64,
        text: &str,
    ) -> Result<(), StoreFault>
        ensures { (kept : Kept) → AreClientsOf kept self.old → OnOk result (AreClientsOf
            (changed kept (Begin room.now revision text.now)) self.new) }
    {
        let client = Client::begun(alloc, revision, text)?;
        let name = String::from_str(alloc, room)?;
        let _ = self.rooms.insert(name, client)?;
        Ok(())
    }

    /// Has the client of a room hear a patch that leads to a revision.
    fn edit(
        &mut self,
        alloc: Global,
        room: &str,
        revision: u64,
        text: &str,
    ) -> Result<(), StoreFault>
        ensures { (kept : Kept) → AreClientsOf kept self.old → OnOk result (AreClientsOf
            (changed kept (Edit room.now revision text.now)) self.new) }
    {
        match self.rooms.get_mut(room) {
            Some(client) => client.edit(alloc, revision, text),
            None => Err(StoreFault::Damaged),
        }
    }

    /// Forgets a room.
    fn end(&mut self, room: &str)
        ensures { (kept : Kept) → AreClientsOf kept self.old
            → AreClientsOf (changed kept (End room.now)) self.new }
    {
        let _ = self.rooms.swap_remove(room);
    }
}
