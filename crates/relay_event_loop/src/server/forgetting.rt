//! The room that is forgotten when there are as many as may be.
//!
//! A new room replaces one in which nobody is and whose document is `null`. If there is none,
//! whoever asks for a new room is refused. A server that forgets rooms forgets one then: of those
//! in which nobody is, the one that has been empty for the longest time begins anew. So whoever
//! asks again finds a place, and no document is forgotten as long as no place is asked for.
ghost use Rattle.std.specs.Prelude.{◌≡◌, false, true};
ghost use Rattle.relay_event_loop.specs.Advances.{KeepsFewer};
ghost use Rattle.relay_event_loop.specs.Connections.{connections_of, limit_of, hub_of, made_by};
ghost use Rattle.relay_event_loop.specs.Connections.{entrance_of, origins_of, peer_limit_of};
ghost use Rattle.relay_event_loop.specs.Limits.{forgets_rooms, output_limit_of};
ghost use Rattle.relay_event_loop.specs.Rounds.{RoundsOf};

use super::Server;
use crate::connection_log::ConnectionLog;
use relay_hub::ForgetFault;
use relay_readiness::Readiness;
use relay_schedule::EmptyRooms;
use std::alloc::{AllocError, Global};
use std::io::{Read, Write};
use std::net::OpenStream;

/// The state that a server knows of its rooms besides the hub.
#[derive(Drop)]
pub(super) struct RoomVacancies {
    /// Since when they are empty.
    pub empty: EmptyRooms,
    /// In which order they were left: the number of the leaving in place of the second.
    order: EmptyRooms,
    /// The number of times that a session left a room.
    leavings: u64,
    /// True if the server forgets rooms.
    pub is_enabled: bool,
}

impl RoomVacancies {
    /// Of a hub without rooms, none of which is forgotten.
    pub fn new(alloc: Global) -> RoomVacancies
        ensures { result.is_enabled ≡ false }
    {
        RoomVacancies {
            empty: EmptyRooms::new(alloc),
            order: EmptyRooms::new(alloc),
            leavings: 0,
            is_enabled: false,
        }
    }

    /// Takes the memory for the room at an index. Without it the room counts as left first.
    pub fn admit(&mut self, index: usize) -> Result<(), AllocError>
        ensures { self.new.is_enabled ≡ self.old.is_enabled }
    {
        self.empty.admit(index)?;
        self.order.admit(index)
    }

    /// Notes that a session left the room at an index, in this second.
    pub fn note_left(&mut self, index: usize, second: u64)
        ensures { self.new.is_enabled ≡ self.old.is_enabled }
    {
        self.leavings = self.leavings.saturating_add(1);
        self.empty.note_left(index, second);
        self.order.note_left(index, self.leavings);
    }
}

impl<S: Read + Write + OpenStream + Drop, R: Readiness<S>> Server<S, R> {
    /// From now on, once a new room is refused since there are as many as may be, the room that has
    /// been empty for the longest time is forgotten ([`relay_hub::Hub::forget`]), so that the next
    /// one who asks finds a place.
    #[tactic(auto, using(crate::proofs::Rules::rounds))]
    pub fn forget_rooms(&mut self)
        ensures hub { hub_of self.new ≡ hub_of self.old }
        ensures limit { limit_of self.new ≡ limit_of self.old }
        ensures made { made_by self.new ≡ made_by self.old }
        ensures connections { connections_of self.new ≡ connections_of self.old }
        ensures rounds { RoundsOf S.remaining S.contents self.old self.new }
        ensures forgets { forgets_rooms self.new ≡ true }
        ensures entrance { entrance_of self.new ≡ entrance_of self.old }
        ensures origins { origins_of self.new ≡ origins_of self.old }
        ensures per_peer { peer_limit_of self.new ≡ peer_limit_of self.old }
        ensures output { output_limit_of self.new ≡ output_limit_of self.old }
    {
        self.vacancies.is_enabled = true;
    }

    /// Forgets the room that has been empty for the longest time, if the server forgets rooms: a
    /// new room was refused just now. As long as a will is left that is no sign that a place is
    /// needed, since none is given then. Out of memory leaves all rooms as they are.
    #[tactic(auto, using(crate::proofs::Rules::advances))]
    pub(super) fn make_room<J: ConnectionLog>(&mut self, alloc: Global, log: &mut J)
        ensures { KeepsFewer S.remaining S.contents self.old self.new }
    {
        if !self.vacancies.is_enabled || self.hub.has_wills() {
            return;
        }
        if let Some(index) = self.longest_empty() {
            if self.forget_at(alloc, index).is_err() {
                self.shed(log);
            }
        }
    }

    /// The index of the room that has been empty for the longest time: of those that nobody has
    /// left yet, as at the start, the first.
    fn longest_empty(&self) -> Option<usize> {
        let mut found = None;
        let mut least = u64::MAX;
        for index in 0..self.hub.config().rooms as usize {
            let Some(room) = self.hub.room_at(index) else {
                return found;
            };
            let left = self.vacancies.order.since(index);
            if room.sessions == 0 && left < least {
                found = Some(index);
                least = left;
            }
        }
        found
    }

    /// Forgets the room at an index.
    #[tactic(auto, using(crate::proofs::Rules::house))]
    fn forget_at(&mut self, alloc: Global, index: usize) -> Result<(), AllocError>
        ensures { KeepsFewer S.remaining S.contents self.old self.new }
    {
        let Some(room) = self.hub.room_at(index) else {
            return Ok(());
        };
        let name = String::from_str(alloc, room.name)?;
        match self.hub.forget(alloc, name.as_str()) {
            Err(ForgetFault::NoMemory) => Err(AllocError),
            _ => Ok(()),
        }
    }
}
