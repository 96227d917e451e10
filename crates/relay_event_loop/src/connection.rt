//! A connection of a server: its link and stream, who is on the other side, what it may still cost,
//! and which turns would do something.
ghost use Rattle.std.specs.Prelude.{◌≡◌, ◌↔◌, ◌&&◌, ◌||◌, IfOk, IsTrue, is_none, not};
ghost use Rattle.relay_link.specs.Stage.{stage_of, session_of, is_idle};
ghost use Rattle.relay_link.specs.declared.stage.Stage.TheVariants.{Closing};
ghost use Rattle.relay_event_loop.specs.Connections.{has_space};
ghost use Rattle.relay_event_loop.specs.Ready.{IsFreshOn};

use crate::connection_log::{ConnectionId, HandshakeRefusal, RoomSession};
use crate::ready::{StreamReadiness, TrackedStream};
use relay_hub::{Hub, OpenFault};
use relay_link::{Link, Stage, Turn};
use relay_readiness::StreamReady;
use relay_schedule::{Credit, LinkOutput, Output, Wants};
use std::alloc::{AllocError, Global};
use std::cell::Cell;
use std::io::{Read, Write};
use std::net::{IpAddr, SocketAddr};

/// The most bytes of a room's name.
const MAX_NAME: usize = 64;

/// The state of a connection that rounds know. It is kept in a cell: no contract speaks of it.
#[derive(Clone, Copy)]
pub(crate) struct Standing {
    credit: Credit,
    /// True if its room counts it among those that wait to be written to.
    is_counted: bool,
    pub output: LinkOutput,
}

/// A link, and what the server knows about it.
#[derive(Drop)]
pub(crate) struct Connection<S: Write + Drop> {
    pub link: Link<TrackedStream<S>>,
    pub readiness: StreamReadiness,
    /// True if something became ready since the last read turn of the link, or that turn left
    /// something to read in the stream.
    pub read_pending: bool,
    /// True if it has sent a byte.
    pub has_sent: bool,
    /// Its position in the order of arrival, from 0.
    pub arrival: u64,
    /// The round in which it was accepted.
    pub since: u64,
    standing: Cell<Standing>,
    /// Its other side.
    peer: SocketAddr,
    /// The session that was opened for it, also once that is closed.
    opened: Option<u64>,
    /// The room of that session: its name, for which the memory is taken at the beginning, and its
    /// index in the hub.
    room: String,
    room_index: Option<usize>,
    /// The cause for which the hub opened none.
    fault: Option<OpenFault>,
}

impl<S: Read + Write + Drop> Connection<S> {
    /// A connection that was just accepted. Nothing is read of its stream, nor written to it.
    pub(crate) fn new(
        alloc: Global,
        stream: S,
        peer: SocketAddr,
        credit: Credit,
        arrival: u64,
        since: u64,
    ) -> Result<Connection<S>, AllocError>
        ensures { IfOk result (λ connection. IsFreshOn stream connection.link) }
    {
        let room = String::with_capacity(alloc, MAX_NAME)?;
        let (stream, readiness) = TrackedStream::new(alloc, stream)?;
        Ok(Connection {
            link: Link::new(alloc, stream)?,
            readiness,
            read_pending: true,
            has_sent: false,
            arrival,
            since,
            standing: Cell::new(Standing {
                credit,
                is_counted: false,
                output: LinkOutput::NONE,
            }),
            peer,
            opened: None,
            room,
            room_index: None,
            fault: None,
        })
    }

    /// Notes the session that the link has now, its room, and the room's index in the hub.
    pub(crate) fn note_opened(&mut self, room: &str, index: Option<usize>)
        ensures { self.new.link ≡ self.old.link }
    {
        self.opened = self.link.session();
        self.room.clear();
        let _ = self.room.push_str(room);
        self.room_index = index;
    }

    /// Notes why the hub opened no session.
    pub(crate) fn note_fault(&mut self, fault: OpenFault)
        ensures { self.new.link ≡ self.old.link }
    {
        self.fault = Some(fault);
    }

    /// Notes that the link had a read turn. Returns the number of bytes that were read.
    pub(crate) fn note_read(&mut self) -> u64
        ensures { self.new.link ≡ self.old.link }
    {
        let read = self.readiness.take_read();
        self.has_sent |= read > 0;
        self.read_pending = self.readiness.may_go_on();
        read
    }

    /// The address of its other side.
    pub(crate) fn address(&self) -> IpAddr {
        self.peer.ip()
    }

    /// Its identity, for the log.
    pub(crate) fn id(&self, key: usize) -> ConnectionId {
        ConnectionId {
            key,
            peer: self.peer,
        }
    }

    /// The session that was opened for it, and its room, for the log.
    pub(crate) fn opened(&self) -> Option<RoomSession<'_>> {
        match self.opened {
            Some(number) => Some(RoomSession {
                number,
                room: self.room.as_str(),
            }),
            None => None,
        }
    }

    /// The index of the room in which a session was opened for it.
    pub(crate) fn room_index(&self) -> Option<usize> {
        self.room_index
    }

    /// The cause for which its handshake was refused with this status. A hub that was not asked for
    /// a session gave no reason: then 503 says that clients may not enter.
    pub(crate) fn refusal(&self, status: u16) -> HandshakeRefusal {
        match self.fault {
            Some(fault) => HandshakeRefusal::of(fault),
            None if status == 503 => HandshakeRefusal::Closed,
            None => HandshakeRefusal::Status(status),
        }
    }

    /// Its credit in this round of credit.
    pub(crate) fn credit(&self, round: u64) -> Credit {
        let mut standing = self.standing.get();
        standing.credit.renew(round);
        self.standing.set(standing);
        standing.credit
    }

    /// Takes what a turn cost from its credit.
    pub(crate) fn charge(&self, cost: u64) {
        let mut standing = self.standing.get();
        standing.credit.charge(cost);
        self.standing.set(standing);
    }

    /// Notes whether its room counts it among those that wait to be written to. Returns whether it
    /// did before.
    pub(crate) fn set_counted(&self, is_counted: bool) -> bool {
        let mut standing = self.standing.get();
        let was_counted = standing.is_counted;
        standing.is_counted = is_counted;
        self.standing.set(standing);
        was_counted
    }

    /// Notes what a turn did to its output, in a second of the server. Returns the output before.
    pub(crate) fn note_turn(&self, turn: &Turn, second: u64) -> LinkOutput {
        let mut standing = self.standing.get();
        let before = standing.output;
        let taken = self.readiness.take_written();
        standing.output.note(turn.drawn, taken, second);
        self.standing.set(standing);
        before
    }

    /// The state that rounds know of it.
    pub(crate) fn standing(&self) -> Standing {
        self.standing.get()
    }

    /// True if a snapshot is due for its session.
    pub(crate) fn is_due(&self, hub: &Hub) -> bool {
        match self.link.session() {
            Some(session) => hub.is_due(session),
            None => false,
        }
    }

    /// The number of replies that wait for its session. They leave before all other messages.
    pub(crate) fn replies(&self, hub: &Hub) -> u64 {
        match self.link.session() {
            Some(session) => hub.replies(session).unwrap_or(0),
            None => 0,
        }
    }

    /// Records what became ready.
    pub(crate) fn wake(&mut self, ready: StreamReady)
        ensures { self.new.link ≡ self.old.link }
    {
        self.readiness.add(ready);
        self.read_pending = true;
    }

    /// Gives the link a read turn if it is closing, so that a wait without events counts toward its
    /// limit of turns.
    pub(crate) fn mark_closing(&mut self)
        ensures { self.new.link ≡ self.old.link }
    {
        if self.is_closing() {
            self.read_pending = true;
        }
    }

    /// True if a read turn might do something: something became ready, or the link is not idle, and
    /// the hub has space for a reply.
    pub(crate) fn may_read(&self, hub: &Hub) -> bool
        ensures { result ≡ (self.now.read_pending || not (is_idle self.now.link))
            && has_space hub.now (session_of self.now.link) }
    {
        if !self.read_pending && self.link.is_idle() {
            return false;
        }
        match self.link.session() {
            Some(session) => hub.may_hear(session),
            None => true,
        }
    }

    /// The turns that would do something now.
    pub(crate) fn wants(&self, hub: &Hub) -> Wants {
        Wants {
            read: self.may_read(hub),
            corked: self.has_output(hub, Output::Corked),
            waiting: self.has_output(hub, Output::Waiting),
            closing: self.is_closing(),
        }
    }

    /// True if the link has such output that could be sent.
    pub(crate) fn has_output(&self, hub: &Hub, output: Output) -> bool {
        self.readiness.is_writable()
            && match (output, self.link.session()) {
                (Output::Corked, _) => self.link.has_corked_output(),
                (Output::Waiting, Some(session)) => self.link.has_corked_output()
                    || matches!(hub.waiting(session), Some(1..)),
                (Output::Waiting, None) => self.link.has_corked_output(),
            }
    }

    /// True if anything waits to be written to the session, whether the stream is writable or not.
    pub(crate) fn has_unsent(&self, hub: &Hub) -> bool {
        match self.link.session() {
            Some(session) => {
                !self.readiness.is_writable()
                    || self.link.has_corked_output()
                    || matches!(hub.waiting(session), Some(1..))
            }
            None => false,
        }
    }

    /// True if the link waits for the other side's close.
    pub(crate) fn is_closing(&self) -> bool
        ensures { IsTrue result ↔ (stage_of self.now.link ≡ Closing) }
    {
        self.link.stage() == Stage::Closing
    }

    /// True if the connection has no session: none was opened, or it is closed.
    pub(crate) fn has_no_session(&self) -> bool
        ensures { result ≡ is_none (session_of self.now.link) }
    {
        self.link.session().is_none()
    }
}
