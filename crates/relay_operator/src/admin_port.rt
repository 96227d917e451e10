//! The port of a server at which an operator asks how it is, reads, edits and forgets rooms, lets
//! clients in, and stops it.
ghost use Rattle.std.specs.Prelude.{◌≡◌, ◌<◌, ◌≤◌, ◌+◌, ◌^◌, ◌⊎◌, IfSome, IsTrue, [], drop};
ghost use Rattle.std.specs.Prelude.{IfNone, IfOk, None, false, option_copied, string_bytes};
ghost use Rattle.std.specs.Prelude.{is_some, take, vec_len};
ghost use Rattle.std.specs.List.{remove};
ghost use Rattle.relay_admin.specs.declared.request.AdminRequest.TheVariants.{Open, Stop};
ghost use Rattle.relay_operator.specs.Turning.{request_in};
ghost use Rattle.relay_operator.specs.declared.admin_port.TheConstants.{MAX_CONNECTIONS};

use crate::admin_connection::{AdminConnection, Found, Heard};
use crate::admin_view::AdminView;
use crate::admission::Admission;
use crate::counters::Counters;
use crate::room_request::{self, Kind, Prepared, RoomRequest, RoomVisit};
use relay_admin::{AdminRequest, Ask, response_text};
use relay_hub::{ForgetFault, Hub};
use relay_link::{EntranceFault, Visit};
use relay_readiness::{ADMIN_STREAM, Readiness};
use std::alloc::{AllocError, Global};
use std::io::{Read, Write};
use std::mem;
use std::net::{OpenListener, OpenStream};

/// The maximum number of connections that are held. A further one takes the place of the oldest.
pub const MAX_CONNECTIONS: usize = 8;

/// A listener, and the connections to it, the oldest first. None waits for
/// another's socket, nor does a client of the relay. Visits are made one after another, and those
/// beyond a round's cost wait for the next round.
#[derive(Drop)]
pub struct AdminPort<L: OpenListener> {
    listener: L,
    connections: Vec<AdminConnection<L::Stream>>,
    /// True if a response that was given between turns is still to be sent.
    is_behind: bool,
    /// The entries of the server's log so far, which the server counts.
    pub counters: Counters,
    /// No more connections are held than may be.
    ghost few: { vec_len connections ≤ MAX_CONNECTIONS },
}

/// The result of a turn of the admin port.
#[derive(Clone, Copy, Debug, PartialEq, Eq)]
pub struct AdminTurn {
    /// True if it left work for the next round.
    pub has_more: bool,
    /// True if it was asked that clients may enter.
    pub is_opening: bool,
    /// True if a stop was asked.
    pub is_stopping: bool,
}

impl AdminTurn {
    ghost use Rattle.relay_operator.specs.Port.{is_more, is_open, is_stop, noted};

    /// Notes what a connection's turn found, and the request that has its response now.
    fn note(&mut self, found: Found, served: Option<AdminRequest>)
        ensures { self.new ≡ noted found served self.old }
    {
        self.has_more = self.has_more || matches!(found, Found::More);
        self.is_opening = self.is_opening || matches!(served, Some(AdminRequest::Open));
        self.is_stopping = self.is_stopping || matches!(served, Some(AdminRequest::Stop));
    }
}

impl<L: OpenListener> AdminPort<L>
where
    L::Stream: Read + Write + OpenStream + Drop,
{
    /// A port with no connection. The listener must be non-blocking.
    pub fn new(alloc: Global, listener: L) -> AdminPort<L>
    where
        L: Drop,
        ensures { result.connections.items ≡ [] }
    {
        AdminPort {
            listener,
            connections: Vec::new(alloc),
            is_behind: false,
            counters: Counters::new(),
        }
    }

    ghost use Rattle.relay_operator.specs.Response.{AnswersAsk};
    ghost use Rattle.relay_operator.specs.Port.{Admits, Answered, AsksAt, AsksRoomAt, Holds};
    ghost use Rattle.relay_operator.specs.Port.{OnlyAt, SomeAdmits, SomeAsks, SomeForgets};
    ghost use Rattle.relay_operator.specs.Port.{SomeVisits};
    ghost use Rattle.relay_operator.specs.Turning.{ServesAll, ServesAt, ServesEach, WaitsNotAt};
    ghost use Rattle.relay_operator.specs.Turning.{kept_before};
    ghost use Rattle.relay_operator.specs.Answering.{AdmitsAt, AnswersAt, FindsNext, FirstAdmits};
    ghost use Rattle.relay_operator.specs.Answering.{FirstForgets, GivesAt, PreparesAt};
    ghost use Rattle.relay_operator.specs.Answering.{SaysAdmitted, SaysForgotten, SaysVisited};
    ghost use Rattle.relay_operator.specs.Answering.{asked_at, first_to};
    ghost use Rattle.relay_operator.specs.RoomRequest.{is_some_of};
    ghost use Rattle.relay_operator.specs.declared.room_request.Kind.TheVariants as kind;

    /// Accepts connections that wait, at most as many as may be held. Returns whether more may
    /// wait. A connection that cannot be held is dropped.
    #[tactic(auto, using(crate::proofs::Holding::admits_same, crate::proofs::Holding::admits_then))]
    pub fn accept<R: Readiness<L::Stream>>(&mut self, alloc: Global, readiness: &mut R) -> bool
        ensures { Admits self.old.connections.items self.new.connections.items }
    {
        for _ in 0..MAX_CONNECTIONS {
            let Ok((stream, _)) = self.listener.accept() else {
                return false;
            };
            self.admit(alloc, stream, readiness);
        }
        true
    }

    /// Holds a new connection, if its stream does not block and is watched. Another is dropped.
    #[tactic(auto, using(crate::proofs::Holding::admits_same))]
    fn admit<R: Readiness<L::Stream>>(
        &mut self,
        alloc: Global,
        stream: L::Stream,
        readiness: &mut R,
    )
        ensures { Admits self.old.connections.items self.new.connections.items }
    {
        if stream.set_nonblocking(true).is_ok() && readiness.watch(ADMIN_STREAM, &stream).is_ok() {
            self.hold(AdminConnection::new(alloc, stream));
        }
    }

    /// Holds a connection, in place of the oldest if there are as many as may be. Without memory it
    /// is dropped.
    fn hold(&mut self, connection: AdminConnection<L::Stream>)
        ensures { Holds connection self.old.connections.items self.new.connections.items }
    {
        if self.connections.len() >= MAX_CONNECTIONS {
            let _ = self.connections.remove(0);
        }
        let _ = self.connections.push(connection);
    }

    /// Gives each connection a turn, in which its request is read and the response is written; but
    /// for those that ask something of a room, which have their responses once
    /// [`AdminPort::answer_admission`], [`AdminPort::answer_forget`] or [`AdminPort::answer_visit`]
    /// says what came of it.
    pub fn turn(&mut self, alloc: Global, view: &AdminView<'_>) -> AdminTurn
        // The flags are set only by a request to stop, or to open.
        ensures stopping { IsTrue result.is_stopping →
            SomeAsks L.Stream.remaining Stop self.old.connections.items }
        ensures opening { IsTrue result.is_opening →
            SomeAsks L.Stream.remaining Open self.old.connections.items }
        // Each connection is sent a part of its response, or is read from, or has its response now.
        ensures serves { ServesEach L.Stream.remaining L.Stream.contents view.now
            self.old.counters result self.old.connections.items self.new.connections.items }
        ensures counters { self.new.counters ≡ self.old.counters }
    {
        let was_behind = mem::replace(&mut self.is_behind, false);
        let mut turn = self.turn_each(alloc, view);
        turn.has_more = turn.has_more || was_behind;
        turn
    }

    /// Gives each connection a turn.
    fn turn_each(&mut self, alloc: Global, view: &AdminView<'_>) -> AdminTurn
        ensures stopping { IsTrue result.is_stopping →
            SomeAsks L.Stream.remaining Stop self.old.connections.items }
        ensures opening { IsTrue result.is_opening →
            SomeAsks L.Stream.remaining Open self.old.connections.items }
        ensures serves { ServesAll L.Stream.remaining L.Stream.contents view.now
            self.old.counters result self.old.connections.items self.new.connections.items }
        ensures counters { self.new.counters ≡ self.old.counters }
    {
        let mut turn = AdminTurn {
            has_more: false,
            is_opening: false,
            is_stopping: false,
        };
        let mut index = 0;
        for _turn in 0..self.connections.len() {
            let (found, served) = self.turn_at(alloc, index, view);
            turn.note(found, served);
            index = self.next_after(index, found);
        }
        turn
    }

    /// Drops the connection at an index if it is over. Returns the index of the one behind it.
    #[tactic(auto, using(crate::proofs::Holding::drop_removed))]
    fn next_after(&mut self, index: usize, found: Found) -> usize
        requires { index + 1 < 2 ^ 64 }
        ensures behind { drop result self.new.connections.items
            ≡ drop (index + 1) self.old.connections.items }
        ensures before { take result self.new.connections.items
            ≡ kept_before found index self.old.connections.items }
        ensures next { result ≤ index + 1 }
        ensures counters { self.new.counters ≡ self.old.counters }
    {
        if found == Found::Over && index < self.connections.len() {
            let _ = self.connections.remove(index);
            index
        } else {
            index + 1
        }
    }

    /// Gives the connection at an index a turn. Returns what it found, and the request that has its
    /// response now. A connection for which there is no memory is over.
    fn turn_at(
        &mut self,
        alloc: Global,
        index: usize,
        view: &AdminView<'_>,
    ) -> (Found, Option<AdminRequest>)
        ensures asks { AsksAt L.Stream.remaining index result.1 self.old.connections.items }
        ensures serves { (result ≡ (Found.Over, None)) ⊎ ServesAt L.Stream.remaining
            L.Stream.contents view.now self.old.counters index result
            self.old.connections.items self.new.connections.items }
        ensures stays { result.0 ≡ Found.Over → WaitsNotAt index self.old.connections.items }
        ensures others { OnlyAt index self.old.connections.items self.new.connections.items }
        ensures counters { self.new.counters ≡ self.old.counters }
    {
        let Some(connection) = self.connections.get_mut(index) else {
            return (Found::Over, None);
        };
        match connection.turn(alloc) {
            Ok(Heard::Found(found)) => (found, None),
            Ok(Heard::Answer(answer)) => self.reply_at(alloc, index, &answer, view),
            Err(AllocError) => (Found::Over, None),
        }
    }

    /// Gives the connection at an index the response to a request that asks nothing of a room.
    /// Returns as [`AdminPort::turn_at`].
    fn reply_at(
        &mut self,
        alloc: Global,
        index: usize,
        asked: &Ask,
        view: &AdminView<'_>,
    ) -> (Found, Option<AdminRequest>)
        ensures served { IfSome result.1 (λ request. asked.now ≡ Ask.Request request) }
        ensures responds { (result ≡ (Found.Over, None)) ⊎ ((result.1 ≡ request_in asked.now)
            × Answered L.Stream.contents index (AnswersAsk view.now self.old.counters asked.now)
            self.old.connections.items self.new.connections.items) }
        ensures others { OnlyAt index self.old.connections.items self.new.connections.items }
        ensures counters { self.new.counters ≡ self.old.counters }
    {
        let served = request_in(asked);
        let reply = view.answer(alloc, &self.counters, asked);
        match (self.connections.get_mut(index), reply) {
            (Some(connection), Ok(reply)) => {
                connection.answer(reply);
                (connection.tell(), served)
            }
            (_, _) => (Found::Over, None),
        }
    }

    /// The request of the oldest connection that asks for a room to be opened or closed.
    pub fn next_admission(&self) -> Option<Admission<'_>>
        // A room is named only if a connection received a head that asks for it.
        ensures some { IfSome result (λ asked. SomeAdmits asked self.now.connections.items) }
        ensures first { IfSome result (λ asked. FirstAdmits asked self.now.connections.items) }
        ensures none { IfNone result
            (first_to kind.Admission self.now.connections.items ≡ None) }
    {
        self.admission_at(self.first_to(Kind::Admission)?)
    }

    /// The request that the connection at an index makes of a room, while that has no response.
    fn asked_at(&self, index: usize) -> Option<&RoomRequest>
        ensures is { option_copied result ≡ asked_at index self.now.connections.items }
        // The bytes that were received make it.
        ensures asks { IfSome result
            (λ request. AsksRoomAt index request.now self.now.connections.items) }
    {
        match self.connections.get(index) {
            Some(connection) => connection.request.asked(),
            None => None,
        }
    }

    /// The request at an index, if it is one for the way into a room.
    fn admission_at(&self, index: usize) -> Option<Admission<'_>>
        ensures at { IfSome result
            (λ asked. AdmitsAt index asked self.now.connections.items) }
        ensures none { IfNone result
            (is_some_of kind.Admission (asked_at index self.now.connections.items) ≡ false) }
    {
        match self.asked_at(index)? {
            RoomRequest::Open(room) => Some(Admission::Open(room.as_str())),
            RoomRequest::Close(room) => Some(Admission::Close(room.as_str())),
            _ => None,
        }
    }

    /// Responds to that connection, by what came of it. A connection for which there is no memory
    /// is dropped.
    pub fn answer_admission(&mut self, alloc: Global, came: Result<(), EntranceFault>)
        ensures { AnswersAt L.Stream.contents (first_to kind.Admission self.old.connections.items)
            (λ index. SaysAdmitted (asked_at index self.old.connections.items) came)
            self.old.connections.items self.new.connections.items }
    {
        let Some(index) = self.first_to(Kind::Admission) else {
            return;
        };
        let Some(asked) = self.admission_at(index) else {
            unreachable!()
        };
        let reply = response_text(alloc, &asked.response(came));
        self.answer_at(index, reply);
    }

    /// The room that the oldest connection names which asks for a room to be forgotten.
    pub fn room_to_forget(&self) -> Option<&str>
        // A room is named only if a connection received a head that asks for that.
        ensures some { IfSome result (λ room. SomeForgets room.now self.now.connections.items) }
        ensures first { IfSome result
            (λ room. FirstForgets room.now self.now.connections.items) }
        ensures none { IfNone result
            (first_to kind.Forgetting self.now.connections.items ≡ None) }
    {
        match self.asked_at(self.first_to(Kind::Forgetting)?)? {
            RoomRequest::Forget(room) => Some(room.as_str()),
            _ => None,
        }
    }

    /// Responds to that connection, by what came of it. A connection for which there is no memory
    /// is dropped.
    pub fn answer_forget(&mut self, alloc: Global, came: Result<u64, ForgetFault>)
        ensures { AnswersAt L.Stream.contents (first_to kind.Forgetting self.old.connections.items)
            (λ index. SaysForgotten came) self.old.connections.items self.new.connections.items }
    {
        let Some(index) = self.first_to(Kind::Forgetting) else {
            return;
        };
        let reply = response_text(alloc, &room_request::forgotten(came));
        self.answer_at(index, reply);
    }

    /// The visit that the oldest connection needs which asks to read or to edit a room. The
    /// connections before it that need none get their responses here; one for whose response there
    /// is no memory is dropped.
    pub fn next_visit(&mut self, alloc: Global, hub: &Hub) -> Option<RoomVisit>
        // A visit is named only if a connection received a head that asks for it.
        ensures some { IfSome result (λ visit. SomeVisits visit self.new.connections.items) }
        ensures next { FindsNext L.Stream.contents hub.now self.old.connections.items
            self.new.connections.items result }
    {
        for _ in 0..MAX_CONNECTIONS {
            let Some(index) = self.first_to(Kind::Visit) else {
                return None;
            };
            match self.prepare_at(alloc, hub, index) {
                Ok(Prepared::Visit(visit)) => return Some(visit),
                Ok(Prepared::Response(reply)) => self.answer_at(index, Ok(reply)),
                Err(AllocError) => self.answer_at(index, Err(AllocError)),
            }
        }
        None
    }

    /// The result of the request at an index, by the hub as it is.
    fn prepare_at(&self, alloc: Global, hub: &Hub, index: usize) -> Result<Prepared, AllocError>
        ensures { IfOk result (PreparesAt hub.now self.now.connections.items index) }
    {
        let Some(connection) = self.connections.get(index) else {
            return Err(AllocError);
        };
        match connection.request.asked() {
            Some(RoomRequest::Read(part)) => room_request::prepare_read(alloc, hub, part),
            Some(RoomRequest::Edit(edit)) => {
                room_request::prepare_edit(alloc, hub, edit, connection.request.body(edit))
            }
            _ => Err(AllocError),
        }
    }

    /// Responds to that connection, by what came of its visit. A connection for which there is no
    /// memory is dropped.
    pub fn answer_visit(&mut self, alloc: Global, hub: &Hub, came: Result<Visit, AllocError>)
        ensures { AnswersAt L.Stream.contents (first_to kind.Visit self.old.connections.items)
            (λ index. SaysVisited hub.now (asked_at index self.old.connections.items) came)
            self.old.connections.items self.new.connections.items }
    {
        let Some(index) = self.first_to(Kind::Visit) else {
            return;
        };
        let reply = self.visited_at(alloc, hub, index, came);
        self.answer_at(index, reply);
    }

    /// The response to the request at an index, by what came of its visit.
    fn visited_at(
        &self,
        alloc: Global,
        hub: &Hub,
        index: usize,
        came: Result<Visit, AllocError>,
    ) -> Result<String, AllocError>
        ensures { IfOk result
            (λ text. SaysVisited hub.now (asked_at index self.now.connections.items) came
            (string_bytes text)) }
    {
        let request = self.asked_at(index).ok_or(AllocError)?;
        let visit = came?;
        room_request::visited(alloc, hub, request, &visit)
    }

    /// Gives the connection at an index its response, and sends it; drops the connection if there
    /// was no memory for one.
    fn answer_at(&mut self, index: usize, reply: Result<String, AllocError>)
        ensures { GivesAt L.Stream.contents index reply self.old.connections.items
            self.new.connections.items }
    {
        let Ok(reply) = reply else {
            self.drop_at(index);
            return;
        };
        let Some(connection) = self.connections.get_mut(index) else {
            return;
        };
        connection.answer(reply);
        let found = connection.tell();
        if found == Found::Over {
            self.drop_at(index);
            return;
        }
        self.is_behind = self.is_behind || found == Found::More;
    }

    /// Drops the connection at an index, if there is one.
    fn drop_at(&mut self, index: usize)
        ensures { self.new.connections.items ≡ remove self.old.connections.items index }
    {
        if index < self.connections.len() {
            let _ = self.connections.remove(index);
        }
    }

    /// True if a response that was given between turns is still to be sent, or a visit to be made.
    pub fn is_behind(&self) -> bool
        // Nobody whose request for a visit was received waits for another event.
        ensures { IsTrue (is_some (first_to kind.Visit self.now.connections.items))
            → IsTrue result }
    {
        self.is_behind || self.first_to(Kind::Visit).is_some()
    }

    /// The index of the oldest connection that asks for something of a kind.
    fn first_to(&self, kind: Kind) -> Option<usize>
        ensures { result ≡ first_to kind self.now.connections.items }
    {
        self.connections
            .iter()
            .position(|connection| connection.request.asks_for(kind))
    }
}

/// The request that an answer accepts, if that asks nothing of a room.
fn request_in(asked: &Ask) -> Option<AdminRequest>
    ensures is { result ≡ request_in asked.now }
    ensures asked { IfSome result (λ request. asked.now ≡ Ask.Request request) }
{
    match asked {
        Ask::Request(request) => Some(*request),
        _ => None,
    }
}
