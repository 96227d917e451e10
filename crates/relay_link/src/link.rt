//! A link: one socket, driven by turns.
ghost use Rattle.std.specs.Prelude.{◌≡◌, ◌+◌, ◌≤◌, [], Some, None, is_some, IfOk, OnOk, OnErr};
ghost use Rattle.std.specs.Prelude.{length};
ghost use Rattle.relay_link.specs.Adds.{Adds, texts_of};
ghost use Rattle.relay_link.specs.Asks.{asked_by, IsFresh, Receives};
ghost use Rattle.relay_link.specs.BinaryAnswered.{BinaryAnsweredIfOpen};
ghost use Rattle.relay_link.specs.Ends.{turns_left};
ghost use Rattle.relay_link.specs.EntryRules.{Within, denial, none_denied};
ghost use Rattle.relay_link.specs.Follows.{Follows, no_opening, at, closing_of};
ghost use Rattle.relay_link.specs.Hears.{PassesTexts};
ghost use Rattle.relay_link.specs.Replies.{Replies};
ghost use Rattle.relay_link.specs.Stage.{stage_of, session_of, has_corked_output, is_idle, leaves};
ghost use Rattle.relay_link.specs.Stage.{ended, IsForward, IsSound};
ghost use Rattle.relay_link.specs.Stops.{StopsIfOpen};
ghost use Rattle.relay_link.specs.Tells.{IsServing, Talks, WhileOpen, Told, Answered};
ghost use Rattle.relay_link.specs.Turns.{Turns};
ghost use Rattle.relay_link.specs.declared.end_cause.EndCause.TheVariants.{Silent};
ghost use Rattle.relay_link.specs.declared.event_log.TheConstants.{MAX_EVENTS};
ghost use Rattle.relay_link.specs.declared.stage.Stage.TheVariants.{Head, Closing, Gone};

use crate::corked_writer::CorkedWriter;
use crate::end_cause::EndCause;
use crate::entry_rules::EntryRules;
use crate::event_log::EventLog;
use crate::socket::close;
use crate::stage::Stage;
use crate::state::State;
use crate::transition::Transition;
use crate::turn::Turn;
use crate::turn_phase::TurnPhase;
use crate::{closing, events, head, opened};
use relay_hub::Hub;
use std::alloc::{AllocError, Global};
use std::io::{Read, Write};
use std::marker::Model;
use std::mem;
use tungstenite::CloseCode;

/// The maximum number of messages that a turn draws.
pub const MAX_DRAWS: u64 = 32;

/// The initial capacity for a head, in bytes.
const HEAD_CAPACITY: usize = 512;

/// A stream and its session in the hub. Contracts see the whole [`State`], with the head that was
/// received, the reply to it, and the socket.
///
/// ```
/// let wire = Wire::new(alloc);
/// let mut hub = Hub::new(alloc, 1, 1, 64, 32).ok()?;
/// let mut link = Link::new(alloc, End { wire: &wire }).ok()?;
/// // This request asks for no room.
/// wire.try_borrow_mut().ok()?.perform(alloc, "asks 13 /other").ok()?;
/// let turn = link.turn(alloc, &mut hub, MAX_DRAWS).ok()?;
/// assert!(rt; turn.stage == Stage::Gone && turn.cause == Some(EndCause::Refused(404)));
/// assert!(rt; wire.try_borrow_mut().ok()?.output.as_slice().starts_with(b"HTTP/1.1 404 "));
/// ```
#[derive(Drop)]
pub struct Link<S: Write + Drop> {
    state: State<S>,
}

impl<S: Write + Drop> Model for Link<S> {
    ghost use Rattle.relay_link.specs.Tells.{IsServing};
    ghost use Rattle.relay_link.specs.declared.state.State.{State};

    ghost Value = { State S };

    ghost view = { λ link. link.state };

    ghost invariant = { λ link. IsServing link.state };
}

impl<S: Read + Write + Drop> Link<S> {
    /// A link that waits for a handshake, and has no session. After `AllocError` the stream is
    /// dropped.
    ///
    /// ```
    /// let wire = Wire::new(alloc);
    /// let link = Link::new(alloc, End { wire: &wire }).ok()?;
    /// assert!(rt; link.stage() == Stage::Head && link.session() == None);
    /// ```
    pub fn new(alloc: Global, stream: S) -> Result<Link<S>, AllocError>
        ensures stage { IfOk result (λ link. stage_of link ≡ Head) }
        ensures session { IfOk result (λ link. session_of link ≡ None) }
        ensures fresh { IfOk result (IsFresh stream) }
        ensures sound { IfOk result IsSound }
    {
        Ok(Link {
            state: State::Head {
                stream: CorkedWriter::new(alloc, stream)?,
                bytes: Vec::with_capacity(alloc, HEAD_CAPACITY)?,
            },
        })
    }

    /// The session that the link has in the hub, if any. Allocates nothing.
    ///
    /// ```
    /// let wire = Wire::new(alloc);
    /// let mut hub = Hub::new(alloc, 1, 7, 64, 32).ok()?;
    /// let mut link = Link::new(alloc, End { wire: &wire }).ok()?;
    /// wire.try_borrow_mut().ok()?.perform(alloc, "asks 13 /rooms/a").ok()?;
    /// link.turn(alloc, &mut hub, MAX_DRAWS).ok()?;
    /// assert!(rt; link.session() == Some(7));
    /// link.end(alloc, &mut hub).ok()?;
    /// assert!(rt; link.session() == None);
    /// ```
    pub fn session(&self) -> Option<u64>
        ensures { result ≡ session_of self.now }
    {
        self.state.session()
    }

    /// The stage of the link. Allocates nothing.
    ///
    /// ```
    /// let wire = Wire::new(alloc);
    /// let mut hub = Hub::new(alloc, 1, 1, 64, 32).ok()?;
    /// let mut link = Link::new(alloc, End { wire: &wire }).ok()?;
    /// // Half a head is no handshake yet.
    /// wire.try_borrow_mut().ok()?.perform(alloc, "line GET /rooms/a HTTP/1.1").ok()?;
    /// link.turn(alloc, &mut hub, MAX_DRAWS).ok()?;
    /// assert!(rt; link.stage() == Stage::Head);
    /// ```
    pub fn stage(&self) -> Stage
        ensures { result ≡ stage_of self.now }
    {
        self.state.stage()
    }

    /// Returns true if a further turn has no work until either the stream is ready or a message
    /// waits for the session. `false` in three cases: the last read turn found a close; it found a
    /// message, and more bytes were read or may be in the stream; a turn since then was interrupted
    /// or out of memory.
    ///
    /// ```
    /// let wire = Wire::new(alloc);
    /// let mut hub = Hub::new(alloc, 1, 1, 64, 32).ok()?;
    /// let mut link = Link::new(alloc, End { wire: &wire }).ok()?;
    /// wire.try_borrow_mut().ok()?.perform(alloc, "asks 13 /rooms/a").ok()?;
    /// link.turn(alloc, &mut hub, MAX_DRAWS).ok()?;
    /// link.turn(alloc, &mut hub, MAX_DRAWS).ok()?;
    /// // The welcome is sent, and the client says nothing.
    /// assert!(rt; link.is_idle());
    /// ```
    pub fn is_idle(&self) -> bool
        ensures { result ≡ is_idle self.now }
    {
        self.state.is_idle()
    }

    /// Returns true if output of [`Link::read_turn`] is corked. Allocates nothing.
    ///
    /// ```
    /// let wire = Wire::new(alloc);
    /// let mut hub = Hub::new(alloc, 1, 1, 64, 32).ok()?;
    /// let mut link = Link::new(alloc, End { wire: &wire }).ok()?;
    /// wire.try_borrow_mut().ok()?.perform(alloc, "asks 13 /rooms/a").ok()?;
    /// link.turn(alloc, &mut hub, MAX_DRAWS).ok()?;
    /// // The turn draws the welcome.
    /// link.read_turn(alloc, &EntryRules::none(alloc), &mut hub, MAX_DRAWS).ok()?;
    /// assert!(rt; link.has_corked_output());
    /// ```
    pub fn has_corked_output(&self) -> bool
        ensures { result ≡ has_corked_output self.now }
    {
        self.state.has_corked_output()
    }

    /// Runs one turn: it reads a little, changes the hub by the events that it reports, and writes
    /// until its stream is blocked. It draws at most `draws` messages, and at most 32. `AllocError`
    /// comes before anything is read, written or changed.
    ///
    /// - Head: the turn writes the rest of an unfinished reply. Otherwise it reads up to 4,096
    ///   bytes, and checks all bytes received so far as a handshake. A valid one opens a session;
    ///   if the hub opens none the reply is 503. Once the reply is written the link is Open, or
    ///   Gone with [`EndCause::Refused`]. If the bytes end, the stream fails, or memory runs out
    ///   before that, it is Gone, and a session that was opened is closed.
    /// - Open: while output is unsent the turn only sends. Otherwise it reads one message: a text
    ///   is passed to the hub, a ping is answered, a pong has no effect, a binary message is
    ///   answered by a close with 1003, and a close is answered. If the session is busy
    ///   ([`Hub::may_hear`] is false before the turn), it reads nothing, and passes no text to the
    ///   hub. Then it draws messages, and sends them together, 64 KiB at a time, until its stream
    ///   is blocked; a draw that is out of memory ends the turn. After a binary message or a close
    ///   the link is Closing. If the bytes end, the stream fails, frames violate the protocol, or
    ///   memory runs out, it is Gone.
    /// - Closing: the turn reads one message and drops it. If the other side's close has not
    ///   arrived after 16 such turns, the link is Gone with [`EndCause::Silent`]. If that close or
    ///   the end of the bytes comes, the stream fails, frames violate the protocol, or memory runs
    ///   out, it is Gone at once.
    /// - Gone: the turn does nothing.
    ///
    /// The turn has a cause exactly if the link went from Head to Gone, from Open to another stage,
    /// or from Closing to Gone. It has a [`DrawStop`](crate::DrawStop) exactly if the link was Open
    /// before it and is so after it.
    /// [`EndCause::Stream`] comes only if in this very turn a call on the stream failed or a write
    /// accepted no byte.
    ///
    /// A link that the turn finds and leaves Open has framed, after its read, the texts that it
    /// drew, whole, in order, and nothing else (`frames`). It has read once, unless its session is
    /// busy or its stream takes no output. A link is Open only once its whole reply was written
    /// (`replies`).
    ///
    /// ```
    /// let wire = Wire::new(alloc);
    /// let mut hub = Hub::new(alloc, 1, 1, 64, 32).ok()?;
    /// let mut link = Link::new(alloc, End { wire: &wire }).ok()?;
    /// // A client's handshake for the room `a` arrives, and the session is told where it is.
    /// wire.try_borrow_mut().ok()?.perform(alloc, "asks 13 /rooms/a").ok()?;
    /// let turn = link.turn(alloc, &mut hub, MAX_DRAWS).ok()?;
    /// assert!(rt; link.stage() == Stage::Open && link.session() == Some(1));
    /// assert!(rt; matches!(&turn.events[0], Event::Open { .. }));
    /// assert!(rt; hub.waiting(1) == Some(1));
    /// let turn = link.turn(alloc, &mut hub, MAX_DRAWS).ok()?;
    /// assert!(rt; matches!(&turn.events[0], Event::Draw { session: 1 }) && link.is_idle());
    /// ```
    #[tactic(auto, using(crate::proofs::Telling::answers_if))]
    pub fn turn(&mut self, alloc: Global, hub: &mut Hub, draws: u64) -> Result<Turn, AllocError>
        ensures turns { IfOk result (Turns S.remaining 1 draws hub.old self.old hub.new self.new) }
        ensures frames { IfOk result (λ turn.
            WhileOpen (Answered S.remaining S.contents) hub.old [] self.old
            hub.new turn.events.items self.new) }
        ensures replies { OnOk result
            (Replies S.remaining S.contents none_denied self.old self.new) }
        ensures binary { IfOk result
            (λ turn. BinaryAnsweredIfOpen S.contents self.old self.new turn.cause) }
        ensures forward { IsForward (stage_of self.old) (stage_of self.new) }
        ensures unchanged { OnErr result (self.new ≡ self.old) }
        ensures hub_unchanged { OnErr result (hub.new ≡ hub.old) }
    {
        self.take_turn(alloc, TurnPhase::Both, &EntryRules::none(alloc), hub, draws)
    }

    /// Runs the read part of a turn, for a link that reads more than once before it writes. As
    /// [`Link::turn`], but up to 640 bytes of an open link's output are corked until
    /// [`Link::write_turn`]. A link that ends sends its output first. A valid handshake that the
    /// rules deny opens no session, and the reply says why: 403 to a page of another origin; 503,
    /// with `Retry-After: 1`, if clients may not enter in that room yet; 404 if it would only watch
    /// a room that is not there; 503 if it would only watch, and the places that are left are for
    /// those who edit. A link that has a session is heard as ever.
    ///
    /// ```
    /// let wire = Wire::new(alloc);
    /// let mut hub = Hub::new(alloc, 1, 1, 64, 32).ok()?;
    /// let mut link = Link::new(alloc, End { wire: &wire }).ok()?;
    /// wire.try_borrow_mut().ok()?.perform(alloc, "asks 13 /rooms/a").ok()?;
    /// let closed = EntryRules { entrance: Entrance::closed(alloc), ..EntryRules::none(alloc) };
    /// let turn = link.read_turn(alloc, &closed, &mut hub, MAX_DRAWS).ok()?;
    /// assert!(rt; turn.cause == Some(EndCause::Refused(503)) && link.session() == None);
    /// assert!(rt; turn.turned_away?.as_str() == "a");
    /// ```
    #[tactic(auto, using(crate::proofs::Telling::answers_if))]
    pub fn read_turn(
        &mut self,
        alloc: Global,
        rules: &EntryRules,
        hub: &mut Hub,
        draws: u64,
    ) -> Result<Turn, AllocError>
        ensures turns { IfOk result (Turns S.remaining 1 draws hub.old self.old hub.new self.new) }
        ensures entrance { IfOk result (λ turn.
            Follows (Within rules.now hub.old) (at hub.old (session_of self.old) [])
            (at hub.new (session_of self.new) turn.events.items)) }
        ensures frames { IfOk result (λ turn.
            WhileOpen (Answered S.remaining S.contents) hub.old [] self.old
            hub.new turn.events.items self.new) }
        ensures replies { OnOk result
            (Replies S.remaining S.contents (denial rules.now hub.old) self.old self.new) }
        ensures binary { IfOk result
            (λ turn. BinaryAnsweredIfOpen S.contents self.old self.new turn.cause) }
        ensures forward { IsForward (stage_of self.old) (stage_of self.new) }
        ensures unchanged { OnErr result (self.new ≡ self.old) }
        ensures hub_unchanged { OnErr result (hub.new ≡ hub.old) }
    {
        self.take_turn(alloc, TurnPhase::Read, rules, hub, draws)
    }

    /// Runs the write part of a turn, which reads nothing: it writes the rest of an unfinished
    /// reply, and an open link draws messages, and sends them and its corked output as in
    /// [`Link::turn`]. A link in any other state is unchanged. `AllocError` comes before anything
    /// is written or changed. A link that stays open has framed the drawn texts, in order, and
    /// nothing else.
    ///
    /// ```
    /// let wire = Wire::new(alloc);
    /// let mut hub = Hub::new(alloc, 1, 1, 64, 32).ok()?;
    /// let mut link = Link::new(alloc, End { wire: &wire }).ok()?;
    /// wire.try_borrow_mut().ok()?.perform(alloc, "asks 13 /rooms/a").ok()?;
    /// link.read_turn(alloc, &EntryRules::none(alloc), &mut hub, MAX_DRAWS).ok()?;
    /// let turn = link.write_turn(alloc, &mut hub, MAX_DRAWS).ok()?;
    /// // The welcome.
    /// assert!(rt; turn.has_drawn() && !turn.has_received() && hub.waiting(1) == Some(0));
    /// ```
    pub fn write_turn(
        &mut self,
        alloc: Global,
        hub: &mut Hub,
        draws: u64,
    ) -> Result<Turn, AllocError>
        ensures turns { IfOk result (Turns S.remaining 0 draws hub.old self.old hub.new self.new) }
        ensures frames { IfOk result (λ turn.
            WhileOpen (Told S.contents) hub.old [] self.old hub.new turn.events.items self.new) }
        ensures replies { OnOk result
            (Replies S.remaining S.contents none_denied self.old self.new) }
        ensures binary { IfOk result
            (λ turn. BinaryAnsweredIfOpen S.contents self.old self.new turn.cause) }
        ensures forward { IsForward (stage_of self.old) (stage_of self.new) }
        ensures unchanged { OnErr result (self.new ≡ self.old) }
        ensures hub_unchanged { OnErr result (hub.new ≡ hub.old) }
    {
        self.take_turn(
            alloc,
            TurnPhase::Write,
            &EntryRules::none(alloc),
            hub,
            draws,
        )
    }

    /// Ends the link: closes its session, if it has one, and leaves it Gone with
    /// [`EndCause::Ended`]. An open link tries once to send a close frame with 1001. A link that is
    /// already Gone is unchanged, and has no cause. `AllocError` comes before anything is written
    /// or changed.
    ///
    /// ```
    /// let wire = Wire::new(alloc);
    /// let mut hub = Hub::new(alloc, 1, 1, 64, 32).ok()?;
    /// let mut link = Link::new(alloc, End { wire: &wire }).ok()?;
    /// let turn = link.end(alloc, &mut hub).ok()?;
    /// assert!(rt; link.stage() == Stage::Gone && turn.cause == Some(EndCause::Ended));
    /// ```
    pub fn end(&mut self, alloc: Global, hub: &mut Hub) -> Result<Turn, AllocError>
        ensures follows { IfOk result (λ turn.
            Follows no_opening (at hub.old (session_of self.old) [])
            (at hub.new (session_of self.new) turn.events.items)) }
        ensures closes { IfOk result
            (λ turn. turn.events.items ≡ closing_of (session_of self.old)) }
        ensures gone { OnOk result (stage_of self.new ≡ Gone) }
        ensures forward { IsForward (stage_of self.old) (stage_of self.new) }
        ensures stage { IfOk result (λ turn. turn.stage ≡ Gone) }
        ensures cause { IfOk result (λ turn. turn.cause ≡ ended (stage_of self.old)) }
        ensures unchanged { OnErr result (self.new ≡ self.old) }
        ensures hub_unchanged { OnErr result (hub.new ≡ hub.old) }
    {
        let mut events = EventLog::new(alloc)?;
        events::end(hub, self.session(), &mut events);
        let cause = match mem::replace(&mut self.state, State::Gone) {
            State::Gone => None,
            State::Open { mut socket, .. } => {
                socket.get_ref().set_corked(false);
                let _ = close(&mut socket, CloseCode::Away);
                Some(EndCause::Ended)
            }
            State::Head { .. } | State::Replying { .. } | State::Closing { .. } => {
                Some(EndCause::Ended)
            }
        };
        Ok(Turn {
            drawn: events.drawn(),
            cost: 0,
            fault: None,
            turned_away: None,
            events: events.into_events(),
            stage: Stage::Gone,
            cause,
            stop: None,
        })
    }

    /// Runs a turn, or a part of one.
    fn take_turn(
        &mut self,
        alloc: Global,
        phase: TurnPhase,
        rules: &EntryRules,
        hub: &mut Hub,
        draws: u64,
    ) -> Result<Turn, AllocError>
        ensures turns { IfOk result (Turns S.remaining (texts_of phase) draws hub.old self.old
            hub.new self.new) }
        ensures entrance { IfOk result (λ turn.
            Follows (Within rules.now hub.old) (at hub.old (session_of self.old) [])
            (at hub.new (session_of self.new) turn.events.items)) }
        ensures talks { IfOk result (λ turn.
            WhileOpen (Talks S.remaining S.contents (texts_of phase)) hub.old [] self.old hub.new
            turn.events.items self.new) }
        ensures serving { OnOk result (IsServing self.old) }
        ensures replies { OnOk result
            (Replies S.remaining S.contents (denial rules.now hub.old) self.old self.new) }
        ensures binary { IfOk result
            (λ turn. BinaryAnsweredIfOpen S.contents self.old self.new turn.cause) }
        ensures forward { IsForward (stage_of self.old) (stage_of self.new) }
        ensures unchanged { OnErr result (self.new ≡ self.old) }
        ensures hub_unchanged { OnErr result (hub.new ≡ hub.old) }
    {
        let mut events = EventLog::new(alloc)?;
        let before = hub.cost();
        let state = mem::replace(&mut self.state, State::Gone);
        let draws = draws.min(MAX_DRAWS);
        let next = advance(alloc, state, phase, rules, draws, hub, &mut events);
        self.state = next.state;
        Ok(Turn {
            drawn: events.drawn(),
            cost: hub.cost().saturating_sub(before),
            fault: events.fault(),
            turned_away: events.take_turned_away(),
            events: events.into_events(),
            stage: self.stage(),
            cause: next.cause,
            stop: next.stop,
        })
    }
}

/// Runs a turn by the state of the link. In a write turn a link that waits for a head or a close is
/// unchanged.
#[tactic(auto, using(crate::proofs::Following::follows_same, crate::proofs::Following::follows_none, crate::proofs::Heads::received_none, crate::proofs::Heads::received_past, crate::proofs::Heads::received_open, crate::proofs::Heads::received_closing, crate::proofs::Hearing::passes_closing, crate::proofs::Hearing::passes_unchanged, crate::proofs::Replying::passes_replying, crate::proofs::Replying::passes_listening, crate::proofs::Replying::replies_unchanged, crate::proofs::Heads::sound_open, crate::proofs::Heads::sound_closing))]
fn advance<S: Read + Write + Drop>(
    alloc: Global,
    state: State<S>,
    phase: TurnPhase,
    rules: &EntryRules,
    draws: u64,
    hub: &mut Hub,
    events: &mut EventLog,
) -> Transition<S>
    requires space { length events.old + draws + 2 ≤ MAX_EVENTS }
    requires serving { IsServing state }
    ensures follows { Follows (asked_by S.remaining state)
        (at hub.old (session_of state) events.old)
        (at hub.new (session_of result.state) events.new) }
    ensures received { Receives S.remaining state result.state }
    ensures talks { WhileOpen (Talks S.remaining S.contents (texts_of phase)) hub.old events.old
        state hub.new events.new result.state }
    ensures stop { StopsIfOpen state result.state result.stop draws hub.new events.old events.new }
    ensures serving { IsServing result.state }
    ensures sound { IsSound state → IsSound result.state }
    ensures entrance { Follows (Within rules.now hub.old) (at hub.old (session_of state) events.old)
        (at hub.new (session_of result.state) events.new) }
    ensures replies { Replies S.remaining S.contents (denial rules.now hub.old) state result.state }
    ensures binary { BinaryAnsweredIfOpen S.contents state result.state result.cause }
    ensures passes { PassesTexts S.remaining (texts_of phase) hub.old state result.state events.old
        events.new }
    ensures adds { Adds (draws + 2) (texts_of phase) draws events.old events.new }
    ensures cause { is_some result.cause ≡ leaves (stage_of state) (stage_of result.state) }
    ensures forward { IsForward (stage_of state) (stage_of result.state) }
    ensures gone { stage_of state ≡ Gone → (events.new ≡ events.old) × (result.state ≡ state) }
    ensures silent { result.cause ≡ Some Silent → turns_left state ≤ 1 }
    ensures patient { stage_of result.state ≡ Closing
        → turns_left state ≤ turns_left result.state + 1 }
{
    match state {
        State::Replying { stream, reply } => head::reply(alloc, stream, reply, hub, events),
        State::Open { socket, session } => {
            opened::turn(alloc, socket, session, phase, draws, hub, events)
        }
        State::Head { stream, bytes } if phase != TurnPhase::Write => {
            head::listen(alloc, stream, bytes, rules, hub, events)
        }
        State::Closing { socket, turns } if phase != TurnPhase::Write => closing::turn(
            socket, turns,
        ),
        State::Head { .. } | State::Closing { .. } | State::Gone => Transition::on(state),
    }
}
