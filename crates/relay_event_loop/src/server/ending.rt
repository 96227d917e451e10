//! The end of connections: what is said of them in the log, and what gives memory back.
ghost use Rattle.std.specs.Prelude.{◌≡◌, ◌≤◌, ◌⊎◌, ℕ, Some, nat_eq};
ghost use Rattle.indexmap.specs.IndexMap.{get};
ghost use Rattle.relay_event_loop.specs.Advances.{KeepsFewer};
ghost use Rattle.relay_event_loop.specs.Connections.{connections_of, limit_of, made_by, hub_of};
ghost use Rattle.relay_event_loop.specs.Index.{GainsOwn};
ghost use Rattle.relay_event_loop.specs.Rounds.{RoundsOf};
ghost use Rattle.relay_hub.specs.Shed.{shed};

use super::Server;
use super::queueing::uncount_writer;
use crate::connection_log::{ConnectionLog, LogEntry};
use indexmap::IndexMap;
use relay_hub::{Event, OpenFault};
use relay_link::{DrawStop, EndCause, Stage, Turn};
use relay_readiness::Readiness;
use relay_schedule::{CROWDED_PATIENCE, LinkOutput, PATIENCE};
use std::alloc::Global;
use std::io::{Read, Write};
use std::net::OpenStream;

/// The maximum number of links that are ended in a second, so that the others have room for their
/// output.
const MAX_ENDS: u32 = 64;

/// Links that may be ended so that others have room for their output.
#[derive(Clone, Copy)]
enum Holds {
    /// Output waits, and its stream takes it too slowly for so little room.
    Unsent,
    /// Everything was sent.
    Nothing,
}

impl Holds {
    fn includes(self, output: LinkOutput, second: u64) -> bool {
        match self {
            Holds::Unsent => output.is_over_due(second, CROWDED_PATIENCE),
            Holds::Nothing => output.unsent == 0,
        }
    }
}

/// So many rounds, at least, lie between two entries of the log that say that memory was refused.
const SHED_ROUNDS: u64 = 1_024;

impl<S: Read + Write + OpenStream + Drop, R: Readiness<S>> Server<S, R> {
    /// Ends every connection, by rising key, and does the wills that are left. If memory is refused
    /// for the end of one, it stays, with its session; if it is refused for a will, that is left.
    ///
    /// ```
    /// let (wire, script) = (Wire::new(alloc), ReadinessScript::new(alloc));
    /// let listener = MemoryListener::new(alloc);
    /// let hub = Hub::new(alloc, 1, 1, 64, 32).ok()?;
    /// let mut server = Server::new(alloc, hub, ScriptedReadiness::of(&script), 1_000_000);
    /// listener.add(&wire)?;
    /// server.round(alloc, &listener, &mut NotKept, &mut NoLog);
    /// server.end(alloc, &mut NoLog);
    /// assert!(rt; server.connections() == 0);
    /// ```
    #[tactic(auto, using(crate::proofs::Rules::rounds))]
    pub fn end<J: ConnectionLog>(&mut self, alloc: Global, log: &mut J)
        ensures rounds { RoundsOf S.remaining S.contents self.old self.new }
        ensures made { made_by self.new ≡ made_by self.old }
        ensures limit { limit_of self.new ≡ limit_of self.old }
        ensures fewer { connections_of self.new ≤ connections_of self.old }
    {
        for key in 0..self.key_limit() {
            self.end_link(alloc, key, EndCause::Ended, log);
        }
        let _ = self.finish_wills(alloc, log);
    }

    /// Ends a link for a cause. Out of memory leaves it as it is, with its session.
    #[tactic(auto, using(crate::proofs::Rules::advances))]
    pub(super) fn end_link<J: ConnectionLog>(
        &mut self,
        alloc: Global,
        key: usize,
        cause: EndCause,
        log: &mut J,
    )
        ensures { KeepsFewer S.remaining S.contents self.old self.new }
    {
        let Some(connection) = self.connections.get_mut(key) else {
            return;
        };
        let before = connection.link.stage();
        let Ok(mut turn) = connection.link.end(alloc, &mut self.hub) else {
            self.shed(log);
            return;
        };
        turn.cause = turn.cause.and(Some(cause));
        self.finish_turn(alloc, key, before, &turn, log);
    }

    /// Logs what a turn did to a connection, queues those whom its text told something, and drops
    /// the connection if its link is gone.
    #[tactic(auto, using(crate::proofs::Rules::advances))]
    pub(super) fn finish_turn<J: ConnectionLog>(
        &mut self,
        alloc: Global,
        key: usize,
        before: Stage,
        turn: &Turn,
        log: &mut J,
    )
        ensures { KeepsFewer S.remaining S.contents self.old self.new }
    {
        self.count_output(key, turn);
        self.note_events(alloc, key, turn, log);
        if turn.has_received() {
            self.queue_told(key, turn);
        }
        self.log_end(key, before, turn, log);
        if lacked_memory(turn) {
            self.shed(log);
        }
        self.remove_gone(key);
    }

    /// Counts what a connection holds of output after a turn.
    #[tactic(auto, using(crate::proofs::Rules::advances))]
    fn count_output(&mut self, key: usize, turn: &Turn)
        ensures { KeepsFewer S.remaining S.contents self.old self.new }
    {
        let Some(connection) = self.connections.get(key) else {
            return;
        };
        let before = connection.note_turn(turn, self.seconds);
        self.output.change(before, connection.standing().output);
    }

    /// Once a second, ends the links whose streams take their output too slowly
    /// ([`LinkOutput::is_over_due`]), and if the reserve of output is in use, those that hold much.
    #[tactic(auto, using(crate::proofs::Rules::advances))]
    pub(super) fn relieve<J: ConnectionLog>(&mut self, alloc: Global, before: u64, log: &mut J)
        ensures { KeepsFewer S.remaining S.contents self.old self.new }
    {
        if self.seconds == before {
            return;
        }
        self.end_slow(alloc, log);
        if self.output.is_crowded() {
            self.end_fullest(alloc, log);
        }
    }

    /// Ends the links whose streams take their output too slowly.
    #[tactic(auto, using(crate::proofs::Rules::advances))]
    fn end_slow<J: ConnectionLog>(&mut self, alloc: Global, log: &mut J)
        ensures { KeepsFewer S.remaining S.contents self.old self.new }
    {
        for key in 0..self.key_limit() {
            if self.is_slow(key) {
                self.end_link(alloc, key, EndCause::Slow, log);
            }
        }
    }

    /// True if a connection is held whose stream takes its output too slowly.
    fn is_slow(&self, key: usize) -> bool {
        match self.connections.get(key) {
            Some(connection) => connection
                .standing()
                .output
                .is_over_due(self.seconds, PATIENCE),
            None => false,
        }
    }

    /// Ends at most [`MAX_ENDS`] links, until half of the limit on output is free. The largest
    /// buffer goes first.
    #[tactic(auto, using(crate::proofs::Rules::advances))]
    fn end_fullest<J: ConnectionLog>(&mut self, alloc: Global, log: &mut J)
        ensures { KeepsFewer S.remaining S.contents self.old self.new }
    {
        for _ in 0..MAX_ENDS {
            match self.first_to_end() {
                Some(key) if !self.output.is_relieved() => {
                    self.end_link(alloc, key, EndCause::Full, log)
                }
                _ => return,
            }
        }
    }

    /// The key of the connection that is ended first so that others have room for their output: of
    /// those whose streams take it too slowly the one that holds most, or else of those that have
    /// sent everything.
    fn first_to_end(&self) -> Option<usize> {
        match self.fullest(Holds::Unsent) {
            Some(key) => Some(key),
            None => self.fullest(Holds::Nothing),
        }
    }

    /// The key of the connection that holds the most output, at least the average of all, among
    /// those of one kind.
    fn fullest(&self, kind: Holds) -> Option<usize> {
        let mut first = None;
        let mut most = self.output.share(self.connections.len()).saturating_sub(1);
        for key in 0..self.key_limit() {
            if let Some(connection) = self.connections.get(key) {
                let output = connection.standing().output;
                if output.held > most && kind.includes(output, self.seconds) {
                    first = Some(key);
                    most = output.held;
                }
            }
        }
        first
    }

    /// Notes the session that a turn opened or closed, or why the hub opened none. If that was for
    /// want of a place, one is made.
    #[tactic(auto, using(crate::proofs::Rules::advances))]
    fn note_events<J: ConnectionLog>(&mut self, alloc: Global, key: usize, turn: &Turn, log: &mut J)
        ensures { KeepsFewer S.remaining S.contents self.old self.new }
    {
        match (session_event(turn), turn.fault) {
            (_, Some(fault)) => {
                self.note_fault(key, fault);
                if fault == OpenFault::RoomsFull {
                    self.make_room(alloc, log);
                }
            }
            (Some(Event::Open { room, .. }), None) => {
                let index = self.room_index_of(key);
                self.note_opened(key, room.as_str(), index);
                if !self.index_opened(key) {
                    self.shed(log);
                }
                self.log_opened(key, log);
            }
            (Some(Event::Close { session }), None) => {
                let _ = self.sessions.swap_remove(session);
                self.note_left(key);
            }
            (_, None) => {}
        }
    }

    #[tactic(auto, using(crate::proofs::Rules::advances))]
    fn note_fault(&mut self, key: usize, fault: OpenFault)
        ensures { KeepsFewer S.remaining S.contents self.old self.new }
    {
        let Some(connection) = self.connections.get_mut(key) else {
            return;
        };
        connection.note_fault(fault);
    }

    #[tactic(auto, using(crate::proofs::Rules::advances))]
    fn note_opened(&mut self, key: usize, room: &str, index: Option<usize>)
        ensures { KeepsFewer S.remaining S.contents self.old self.new }
    {
        let Some(connection) = self.connections.get_mut(key) else {
            return;
        };
        connection.note_opened(room, index);
    }

    /// Notes that the session of a connection left its room.
    #[tactic(auto, using(crate::proofs::Rules::advances))]
    fn note_left(&mut self, key: usize)
        ensures { KeepsFewer S.remaining S.contents self.old self.new }
    {
        let Some(connection) = self.connections.get(key) else {
            return;
        };
        if let Some(index) = connection.room_index() {
            self.vacancies.note_left(index, self.seconds);
        }
    }

    /// Puts the session of a connection, if it has one, into the index. Without memory the index
    /// stays as it is, and no error is reported. Then takes the memory for what is kept of its
    /// room, and returns whether there was some.
    #[tactic(auto, using(crate::proofs::Rules::advances, crate::proofs::Held::gains_own))]
    fn index_opened(&mut self, key: usize) -> bool
        ensures kept { KeepsFewer S.remaining S.contents self.old self.new }
        ensures own { GainsOwn key self.old self.new }
    {
        let Some(connection) = self.connections.get(key) else {
            return true;
        };
        index_session(&mut self.sessions, connection.link.session(), key);
        match connection.room_index() {
            Some(index) => self.rooms.admit(index).is_ok() && self.vacancies.admit(index).is_ok(),
            None => true,
        }
    }

    /// The index in the hub of the room of a connection's session.
    fn room_index_of(&self, key: usize) -> Option<usize> {
        self.hub.room_of(self.connections.get(key)?.link.session()?)
    }

    /// Logs the session that was opened for a connection, if there is one.
    fn log_opened<J: ConnectionLog>(&self, key: usize, log: &mut J) {
        let Some(connection) = self.connections.get(key) else {
            return;
        };
        if let Some(session) = connection.opened() {
            log.record(LogEntry::Opened {
                connection: connection.id(key),
                session,
            });
        }
    }

    /// Logs the end of a connection, or of its handshake, if a turn made it.
    fn log_end<J: ConnectionLog>(&self, key: usize, before: Stage, turn: &Turn, log: &mut J) {
        let Some(connection) = self.connections.get(key) else {
            return;
        };
        match turn.cause {
            Some(EndCause::Refused(status)) => log.record(LogEntry::Refused {
                connection: connection.id(key),
                refusal: connection.refusal(status),
            }),
            // The end was logged when the closing began.
            Some(cause) if before != Stage::Closing => log.record(LogEntry::Ended {
                connection: connection.id(key),
                session: connection.opened(),
                cause,
                rounds: self.rounds.saturating_sub(connection.since),
            }),
            _ => {}
        }
    }

    /// Makes the hub give memory back, because an allocation failed. Logs it once in 1,024 rounds
    /// at most.
    #[tactic(auto, using(crate::proofs::Rules::advances))]
    pub(super) fn shed<J: ConnectionLog>(&mut self, log: &mut J)
        ensures keeps { KeepsFewer S.remaining S.contents self.old self.new }
        ensures hub { hub_of self.new ≡ shed (hub_of self.old) }
    {
        self.hub.shed();
        if self.rounds >= self.next_shed_entry {
            log.record(LogEntry::OutOfMemory);
            self.next_shed_entry = self.rounds.saturating_add(SHED_ROUNDS);
        }
    }

    /// Drops a connection whose link is gone, and so has no session.
    #[tactic(auto, using(crate::proofs::Rules::advances))]
    fn remove_gone(&mut self, key: usize)
        ensures { KeepsFewer S.remaining S.contents self.old self.new }
    {
        let Some(connection) = self.connections.get(key) else {
            return;
        };
        if connection.link.stage() == Stage::Gone {
            uncount_writer(&mut self.rooms, connection);
            self.output
                .change(connection.standing().output, LinkOutput::NONE);
            let _ = self.connections.try_remove(key);
        }
    }
}

/// Notes in an index of sessions which connection has this one, if there is one, and memory for it.
fn index_session(sessions: &mut IndexMap<u64, usize>, session: Option<u64>, key: usize)
    ensures { (s other : ℕ) → get nat_eq sessions.new s ≡ Some other
        → (get nat_eq sessions.old s ≡ Some other) ⊎ ((other ≡ key) × (session ≡ Some s)) }
{
    if let Some(session) = session {
        let _ = sessions.insert(session, key);
    }
}

/// True if memory was refused to a turn.
fn lacked_memory(turn: &Turn) -> bool {
    turn.stop == Some(DrawStop::Memory)
        || turn.cause == Some(EndCause::Memory)
        || turn.fault == Some(OpenFault::NoMemory)
}

/// The event of a turn that opened or closed its link's session: the last one, if there are two.
fn session_event(turn: &Turn) -> Option<&Event> {
    let mut found = None;
    for event in turn.events.iter() {
        if matches!(event, Event::Open { .. } | Event::Close { .. }) {
            found = Some(event);
        }
    }
    found
}
