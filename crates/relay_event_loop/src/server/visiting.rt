//! Visits: sessions within one call, for a caller that has no connection.
//!
//! A visit is made between rounds. Those whom its text told something are queued, and written to in
//! the next round, which does not wait.
ghost use Rattle.std.specs.Prelude.{◌≡◌, IfOk, OnErr, string_bytes};
ghost use Rattle.relay_event_loop.specs.Advances.{KeepsFewer};
ghost use Rattle.relay_event_loop.specs.Connections.{hub_of};
ghost use Rattle.relay_event_loop.specs.Visited.{Visited};

use super::Server;
use crate::connection_log::ConnectionLog;
use relay_access::Access;
use relay_hub::{OpenFault, Text};
use relay_link::{Visit, VisitOutcome};
use relay_readiness::Readiness;
use std::alloc::{AllocError, Global};
use std::io::{Read, Write};
use std::net::OpenStream;

impl<S: Read + Write + OpenStream + Drop, R: Readiness<S>> Server<S, R> {
    /// Visits a room ([`Visit::make`]). Those whom its text told something are queued for a write
    /// turn. If memory is refused, the hub gives memory back; the visit is not made again.
    #[tactic(auto, using(crate::proofs::Rules::advances))]
    pub(super) fn visit<J: ConnectionLog>(
        &mut self,
        alloc: Global,
        room: String,
        access: Access,
        text: Text,
        log: &mut J,
    ) -> Result<Visit, AllocError>
        ensures kept { KeepsFewer S.remaining S.contents self.old self.new }
        ensures visited { IfOk result
            (λ visit. Visited (string_bytes room) access text (hub_of self.old) visit) }
    {
        let bytes = text.as_str().len() as u64;
        let made = self.make_visit(alloc, room, access, text);
        self.note_visit(alloc, &made, bytes, log);
        made
    }

    /// Makes a visit. After `AllocError` nothing has changed.
    #[tactic(auto, using(crate::proofs::Rules::house))]
    fn make_visit(
        &mut self,
        alloc: Global,
        room: String,
        access: Access,
        text: Text,
    ) -> Result<Visit, AllocError>
        ensures kept { KeepsFewer S.remaining S.contents self.old self.new }
        ensures visited { IfOk result
            (λ visit. Visited (string_bytes room) access text (hub_of self.old) visit) }
        ensures unchanged { OnErr result (hub_of self.new ≡ hub_of self.old) }
    {
        Visit::make(alloc, &mut self.hub, room, access, text)
    }

    /// Notes a visit, whose text has so many bytes. If it was refused for want of a place, one is
    /// made.
    #[tactic(auto, using(crate::proofs::Rules::advances))]
    fn note_visit<J: ConnectionLog>(
        &mut self,
        alloc: Global,
        made: &Result<Visit, AllocError>,
        bytes: u64,
        log: &mut J,
    )
        ensures { KeepsFewer S.remaining S.contents self.old self.new }
    {
        let Ok(visit) = made else {
            self.shed(log);
            return;
        };
        if let Some(index) = visit.room_index {
            self.note_visited(index, log);
        }
        if visit.outcome.is_heard() {
            self.texts_heard = self.texts_heard.saturating_add(1);
            self.queue_after_visit_or_will(bytes);
        }
        if visit.outcome == VisitOutcome::Refused(OpenFault::RoomsFull) {
            self.make_room(alloc, log);
        }
        if visit.outcome.lacked_memory() {
            self.shed(log);
        }
    }

    /// Notes that a session entered and left the room at an index, which takes memory for what is
    /// kept of the room.
    #[tactic(auto, using(crate::proofs::Rules::advances))]
    fn note_visited<J: ConnectionLog>(&mut self, index: usize, log: &mut J)
        ensures { KeepsFewer S.remaining S.contents self.old self.new }
    {
        let admitted = self.vacancies.admit(index);
        self.vacancies.note_left(index, self.seconds);
        if admitted.is_err() {
            self.shed(log);
        }
    }
}
