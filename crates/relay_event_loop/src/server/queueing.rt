//! The connections that are queued for a turn.
//!
//! After each round every connection that wants a turn is queued for it ([`Server::unqueued`]).
//! What it wants changes by its own turns and events, after which it is queued again; and by the
//! texts and wills of other sessions, which bring it messages. Of these the hub says whom they told
//! something ([`relay_hub::Hub::told`]), so no other connection is looked at.
//!
//! A room counts its connections that are queued to be written to. It may be said more than its
//! limits only once there are none.
ghost use Rattle.relay_event_loop.specs.Advances.{KeepsFewer};

use super::Server;
use crate::connection::Connection;
use relay_link::Turn;
use relay_readiness::Readiness;
use relay_schedule::ReadAheadByRoom;
use std::io::{Read, Write};
use std::net::OpenStream;

impl<S: Read + Write + OpenStream + Drop, R: Readiness<S>> Server<S, R> {
    /// The first connection that wants a turn for which it is not queued. A round leaves none, so
    /// that the next one need not walk over all connections as this does: it is for tests.
    ///
    /// ```
    /// let script = ReadinessScript::new(alloc);
    /// let hub = Hub::new(alloc, 1, 1, 64, 32).ok()?;
    /// let readiness = ScriptedReadiness::of(&script);
    /// let server: Server<End<'_>, _> = Server::new(alloc, hub, readiness, 1_000_000);
    /// assert!(rt; server.unqueued() == None);
    /// ```
    pub fn unqueued(&self) -> Option<usize> {
        for key in 0..self.key_limit() {
            if let Some(connection) = self.connections.get(key) {
                if !self.queues.has(key, connection.wants(&self.hub)) {
                    return Some(key);
                }
            }
        }
        None
    }

    /// Queues a connection for each turn that it wants, if it is held. Allocates nothing.
    #[tactic(auto, using(crate::proofs::Rules::advances))]
    pub(super) fn queue(&mut self, key: usize)
        ensures { KeepsFewer S.remaining S.contents self.old self.new }
    {
        let Some(connection) = self.connections.get(key) else {
            return;
        };
        let wants = connection.wants(&self.hub);
        let credit = connection.credit(self.queues.ready.round());
        self.queues.push(key, wants, credit);
        if wants.corked || wants.waiting {
            count_writer(&mut self.rooms, connection);
        }
    }

    /// Notes the text that a turn passed to the hub: its room was said more, and the connections
    /// that it told something are queued for a write turn.
    #[tactic(auto, using(crate::proofs::Rules::advances))]
    pub(super) fn queue_told(&mut self, key: usize, turn: &Turn)
        ensures { KeepsFewer S.remaining S.contents self.old self.new }
    {
        self.texts_heard = self.texts_heard.saturating_add(1);
        if let Some(room) = self.room_index(key) {
            self.rooms.add_text(room, turn.received());
        }
        self.queue_each_told();
    }

    /// Notes the text of a visit, or a will, with its size in bytes (0 for a will, since the hub
    /// does not tell it). If it notified watchers, it counts for their room, and they are queued
    /// for a write turn.
    #[tactic(auto, using(crate::proofs::Rules::advances))]
    pub(super) fn queue_after_visit_or_will(&mut self, bytes: u64)
        ensures { KeepsFewer S.remaining S.contents self.old self.new }
    {
        if let Some(room) = self.told_room() {
            self.rooms.add_text(room, bytes);
        }
        self.queue_each_told();
    }

    /// Queues each connection that the last text or will told something for a write turn.
    #[tactic(auto, using(crate::proofs::Rules::advances))]
    fn queue_each_told(&mut self)
        ensures { KeepsFewer S.remaining S.contents self.old self.new }
    {
        for index in 0..self.told() {
            if let Some(key) = self.told_at(index) {
                self.queue_writer(key);
            }
        }
    }

    /// The index of the room of the watchers that the last text or will notified. `None` if there
    /// are none, or if memory was refused for the list of them.
    fn told_room(&self) -> Option<usize> {
        let told = self.hub.told();
        self.hub.room_of(*told.sessions.first()?)
    }

    /// True if that room may be said more.
    pub(super) fn told_may_read_ahead(&self) -> bool {
        match self.told_room() {
            Some(room) => self.rooms.may_read_ahead(room),
            None => true,
        }
    }

    /// The index of a connection's room.
    fn room_index(&self, key: usize) -> Option<usize> {
        self.connections.get(key)?.room_index()
    }

    /// The number of connections that the last text or will may have told something, besides the
    /// one that sent it.
    fn told(&self) -> usize {
        let told = self.hub.told();
        if told.all {
            self.key_limit()
        } else {
            told.sessions.len()
        }
    }

    /// The key of one of these.
    fn told_at(&self, index: usize) -> Option<usize> {
        let told = self.hub.told();
        if told.all {
            return Some(index);
        }
        self.sessions.get(told.sessions.get(index)?).copied()
    }

    /// Queues a connection for a write turn, if it is held and can be written. Allocates nothing.
    #[tactic(auto, using(crate::proofs::Rules::advances))]
    fn queue_writer(&mut self, key: usize)
        ensures { KeepsFewer S.remaining S.contents self.old self.new }
    {
        let Some(connection) = self.connections.get(key) else {
            return;
        };
        if connection.readiness.is_writable() {
            self.queues.push_writer(key);
            count_writer(&mut self.rooms, connection);
        }
    }

    /// Notes that a connection waits no longer to be written to.
    #[tactic(auto, using(crate::proofs::Rules::advances))]
    pub(super) fn uncount(&mut self, key: usize)
        ensures { KeepsFewer S.remaining S.contents self.old self.new }
    {
        let Some(connection) = self.connections.get(key) else {
            return;
        };
        uncount_writer(&mut self.rooms, connection);
    }
}

/// Notes that a connection waits no longer to be written to.
pub(super) fn uncount_writer<S: Read + Write + Drop>(
    rooms: &mut ReadAheadByRoom,
    connection: &Connection<S>,
) {
    if let (true, Some(index)) = (connection.set_counted(false), connection.room_index()) {
        rooms.take_writer(index);
    }
}

/// Notes that a connection waits to be written to, once.
fn count_writer<S: Read + Write + Drop>(rooms: &mut ReadAheadByRoom, connection: &Connection<S>) {
    if let (false, Some(index)) = (connection.set_counted(true), connection.room_index()) {
        rooms.add_writer(index);
    }
}
