//! The wills of a hub as a round finds them.
ghost use Rattle.std.specs.Prelude.{◌≡◌, [], ◌∷◌, OnOk, map, slice_get};
ghost use Rattle.std.specs.List.{flat_map};
ghost use Rattle.std.specs.Option.{option_map_or};
ghost use Rattle.relay_hub.specs.Log.{left_in};
ghost use Rattle.relay_hub.specs.Stands.{named_will};
ghost use Rattle.relay_keeping.specs.Wills.{Finds, bequest_of, is_same_number, noted_number};
ghost use Rattle.relay_keeping.specs.Wills.{open_will, sessions_at, wills_in};

use indexmap::IndexMap;
use relay_hub::{Hub, SessionWill};
use relay_patch::Patch;
use relay_proto::will_text;
use relay_store::Change;
use std::alloc::{AllocError, Global};

/// The number of a will that may be any: at it a session stops counting, and the wills of an
/// earlier run are noted under it. No will is taken for one that is noted under it.
pub(crate) const UNKNOWN: u64 = u64::MAX;

/// A will of a hub that is not empty, with the name of its room.
#[derive(Clone, Copy)]
pub(crate) struct RoomWill<'a> {
    pub(crate) session: u64,
    pub(crate) number: u64,
    pub(crate) room: &'a str,
    pub(crate) patch: &'a Patch,
}

/// The numbers of the wills that were found, by their sessions, and the changes that keep them.
#[derive(Drop)]
pub(crate) struct FoundWills {
    pub(crate) numbers: IndexMap<u64, u64>,
    pub(crate) changes: Vec<Change<String>>,
}

impl FoundWills {
    /// Finds the wills of closed sessions, which wait.
    pub(crate) fn find_waiting(
        &mut self,
        alloc: Global,
        noted: &IndexMap<u64, u64>,
        hub: &Hub,
    ) -> Result<(), AllocError>
        ensures { OnOk result (Finds noted.now.entries
            (map (named_will hub.now.rooms) hub.now.wills) self.old self.new) }
    {
        for will in hub.waiting_wills() {
            let will = RoomWill {
                session: will.session,
                number: will.number,
                room: name_of(hub, will.room_index),
                patch: &will.patch,
            };
            self.find(alloc, noted, will)?;
        }
        Ok(())
    }

    /// Finds the wills of open sessions.
    pub(crate) fn find_open(
        &mut self,
        alloc: Global,
        noted: &IndexMap<u64, u64>,
        hub: &Hub,
    ) -> Result<(), AllocError>
        ensures { OnOk result (Finds noted.now.entries (flat_map wills_in hub.now.rooms)
            self.old self.new) }
    {
        for index in 0..usize::MAX {
            let Some(room) = hub.room_at(index) else {
                return Ok(());
            };
            self.find_in_room(alloc, noted, hub, index, room.name)?;
        }
        // No memory has so many rooms.
        Err(AllocError)
    }

    /// Finds the wills of the sessions that are open in the room at an index, which has this name.
    fn find_in_room(
        &mut self,
        alloc: Global,
        noted: &IndexMap<u64, u64>,
        hub: &Hub,
        index: usize,
        room: &str,
    ) -> Result<(), AllocError>
        ensures { OnOk result (Finds noted.now.entries
            (flat_map (open_will room.now) (sessions_at hub.now index)) self.old self.new) }
    {
        for place in 0..usize::MAX {
            let Some(will) = hub.will_in(index, place) else {
                return Ok(());
            };
            self.find_held(alloc, noted, room, will)?;
        }
        // No memory has so many sessions.
        Err(AllocError)
    }

    /// Finds the will of a session that is open in the room of that name, unless it is empty.
    fn find_held(
        &mut self,
        alloc: Global,
        noted: &IndexMap<u64, u64>,
        room: &str,
        will: SessionWill<'_>,
    ) -> Result<(), AllocError>
        ensures { OnOk result (Finds noted.now.entries
            (left_in will.entry.session will.entry.number room.now will.entry.patch.now)
            self.old self.new) }
    {
        if will.patch.ops().is_empty() {
            return Ok(());
        }
        let will = RoomWill {
            session: will.session,
            number: will.number,
            room,
            patch: will.patch,
        };
        self.find(alloc, noted, will)
    }

    /// Finds a will, which is left if it is not noted with its number.
    fn find(
        &mut self,
        alloc: Global,
        noted: &IndexMap<u64, u64>,
        will: RoomWill<'_>,
    ) -> Result<(), AllocError>
        ensures { OnOk result (Finds noted.now.entries (bequest_of will.entry ∷ [])
            self.old self.new) }
    {
        let _ = self.numbers.insert(will.session, will.number)?;
        if is_noted(noted, will.session, will.number) {
            return Ok(());
        }
        self.changes.push(Change::LeaveWill {
            session: will.session,
            room: String::from_str(alloc, will.room)?,
            text: will_text(alloc, will.patch)?,
        })?;
        Ok(())
    }
}

/// The name of the room at an index; empty if there is none.
fn name_of(hub: &Hub, index: usize) -> &str
    ensures { result.now ≡ option_map_or (λ r. r.0) (slice_get hub.now.rooms index) [] }
{
    match hub.room_at(index) {
        Some(room) => room.name,
        None => "",
    }
}

/// True if that will of a session is noted.
fn is_noted(noted: &IndexMap<u64, u64>, session: u64, number: u64) -> bool
    ensures { result ≡ is_same_number number (noted_number noted.now.entries session) }
{
    match noted.get(&session) {
        Some(kept) => number < UNKNOWN && *kept == number,
        None => false,
    }
}
