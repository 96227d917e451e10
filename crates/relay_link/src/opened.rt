//! The turn of an open link: it sends unsent output, hears a text, then draws and sends messages.
ghost use Rattle.std.specs.Prelude.{◌≡◌, ◌≢◌, ◌+◌, ◌≤◌, length, is_some, true, [], Some, IfOk};
ghost use Rattle.std.specs.Prelude.{OnOk, OnErr, IfErr};
ghost use Rattle.relay_link.specs.Adds.{Adds, texts_of};
ghost use Rattle.relay_link.specs.BinaryAnswered.{BinaryAnswered, BinaryAnsweredIn};
ghost use Rattle.relay_link.specs.Ends.{IsNotSilent, cause_of, settled, turns_left};
ghost use Rattle.relay_link.specs.Follows.{Follows, no_opening, at, given};
ghost use Rattle.relay_link.specs.Stops.{Stops, StopsIn};
ghost use Rattle.relay_link.specs.Stage.{leaves, stage_of, session_of, is_over, IsForward};
ghost use Rattle.relay_link.specs.Hears.{allowed_reads, Finds, Passes, PassesOn, SendsAndPassesOn};
ghost use Rattle.relay_link.specs.Hears.{ReadsTexts};
ghost use Rattle.relay_link.specs.Tells.{Drew, Hearing, Tells, Exchanges, Talks, IfOpen, IsServing};
ghost use Rattle.relay_link.specs.Terms.{Serves, KeepsTerms};
ghost use Rattle.relay_link.specs.declared.end_cause.EndCause.TheVariants.{Silent};
ghost use Rattle.relay_link.specs.declared.closing.TheConstants.{MAX_TURNS};
ghost use Rattle.relay_link.specs.declared.event_log.TheConstants.{MAX_EVENTS};
ghost use Rattle.relay_link.specs.declared.stage.Stage.TheVariants.{Open};

use crate::draw_stop::DrawStop;
use crate::end_cause::EndCause;
use crate::event_log::EventLog;
use crate::events;
use crate::socket::{Socket, close, flush, grow_read_buffer, read, write};
use crate::state::State;
use crate::transition::Transition;
use crate::turn_phase::TurnPhase;
use relay_hub::{Hub, Text};
use std::alloc::Global;
use std::io::{Read, Write};
use tungstenite::{CloseCode, Message};

/// The end of an open link.
#[derive(Clone, Copy)]
enum Ending {
    /// The closing handshake goes on: a close was sent, and the other side's is awaited; or that
    /// was read, and the answer to it is still to be sent.
    Closing(EndCause),
    /// The link is dropped as it is.
    Gone(EndCause),
}

impl From<EndCause> for Ending {
    ghost use Rattle.relay_link.specs.declared.opened.Ending.TheVariants as ending;

    ghost from_gives = { λ cause given. given ≡ ending.Gone cause };

    fn from(cause: EndCause) -> Ending {
        Ending::Gone(cause)
    }
}

/// A turn of an open link.
#[tactic(auto, using(crate::proofs::Following::follows_same, crate::proofs::Following::follows_then, crate::proofs::Telling::serves_on, crate::proofs::BinaryAnswered::answered_settled, crate::proofs::Stopping::stops_into))]
pub(crate) fn turn<S: Read + Write + Drop>(
    alloc: Global,
    mut socket: Socket<S>,
    session: u64,
    phase: TurnPhase,
    draws: u64,
    hub: &mut Hub,
    events: &mut EventLog,
) -> Transition<S>
    requires space { length events.old + draws + 2 ≤ MAX_EVENTS }
    requires serves { Serves socket.conn }
    ensures follows { Follows no_opening (at hub.old (Some session) events.old)
        (at hub.new (session_of result.state) events.new) }
    ensures talks { IfOpen (Talks S.remaining S.contents (texts_of phase))
        (at hub.old (Some session) events.old) socket hub.new events.new result.state }
    ensures stop { StopsIn result.state result.stop draws hub.new events.old events.new }
    ensures binary { BinaryAnsweredIn S.contents result.state result.cause }
    ensures serving { IsServing result.state }
    ensures passes { ReadsTexts S.remaining (allowed_reads hub.old (Some session) (texts_of phase))
        socket result.state events.old events.new }
    ensures adds { Adds (draws + 2) (texts_of phase) draws events.old events.new }
    ensures cause { is_some result.cause ≡ leaves Open (stage_of result.state) }
    ensures forward { IsForward Open (stage_of result.state) }
    ensures not_silent { result.cause ≢ Some Silent }
    ensures patient { MAX_TURNS ≤ turns_left result.state }
{
    grow_read_buffer(&mut socket);
    if phase != TurnPhase::Write {
        socket.get_ref().begin_read_turn();
    }
    let turned = serve(alloc, &mut socket, session, phase, draws, hub, events);
    finish(turned, socket, session, hub, events)
}

/// The link after a turn: still open, or its session is closed.
#[tactic(auto, using(crate::proofs::Following::follows_same, crate::proofs::Following::follows_then, crate::proofs::Hearing::passes_same))]
fn finish<S: Read + Write + Drop>(
    turned: Result<DrawStop, Ending>,
    socket: Socket<S>,
    session: u64,
    hub: &mut Hub,
    events: &mut EventLog,
) -> Transition<S>
    requires space { length events.old + 1 ≤ MAX_EVENTS }
    requires not_silent { IfErr turned (λ ending. IsNotSilent (cause_of ending)) }
    ensures follows { Follows no_opening (at hub.old (Some session) events.old)
        (at hub.new (session_of result.state) events.new) }
    ensures settled { result ≡ settled turned socket session }
    ensures stays { OnOk turned ((result.state ≡ State.Open socket session) × (hub.new ≡ hub.old)
        × (events.new ≡ events.old)) }
    ensures over { OnErr turned (is_over (stage_of result.state) ≡ true) }
    ensures passes { Passes events.old events.new [] }
    ensures adds { Adds 1 0 0 events.old events.new }
    ensures cause { is_some result.cause ≡ leaves Open (stage_of result.state) }
    ensures forward { IsForward Open (stage_of result.state) }
    ensures not_silent { result.cause ≢ Some Silent }
    ensures patient { MAX_TURNS ≤ turns_left result.state }
{
    match turned {
        Ok(stop) => Transition::open(socket, session, stop),
        Err(ending) => {
            events::close(hub, session, events);
            match ending {
                Ending::Closing(cause) => Transition::closing(socket, cause),
                Ending::Gone(cause) => Transition::gone(cause),
            }
        }
    }
}

/// Sends unsent output that is not corked. When none is left, the link may hear a text and draws
/// messages; its output is sent, or corked until a write turn. Returns why it drew no more.
#[tactic(auto, using(crate::proofs::Following::follows_same, crate::proofs::Following::follows_then, crate::proofs::Hearing::sends_none, crate::proofs::Hearing::sends_and_passes, crate::proofs::Telling::talked_none, crate::proofs::Telling::talked, crate::proofs::BinaryAnswered::answered_and_sent))]
fn serve<S: Read + Write + Drop>(
    alloc: Global,
    socket: &mut Socket<S>,
    session: u64,
    phase: TurnPhase,
    draws: u64,
    hub: &mut Hub,
    events: &mut EventLog,
) -> Result<DrawStop, Ending>
    requires { length events.old + draws + 1 ≤ MAX_EVENTS }
    ensures follows { Follows no_opening (at hub.old (Some session) events.old)
        (at hub.new (Some session) events.new) }
    ensures stop { IfOk result (λ stop.
        Stops stop draws session hub.new events.old events.new socket.new) }
    ensures talks { OnOk result (Talks S.remaining S.contents (texts_of phase)
        (at hub.old (Some session) events.old) (at hub.new (Some session) events.new)
        socket.old socket.new) }
    ensures binary { BinaryAnswered S.contents result socket.new }
    ensures passes { SendsAndPassesOn S.remaining
        (allowed_reads hub.old (Some session) (texts_of phase)) socket.old events.old events.new }
    ensures adds { Adds (draws + 1) (texts_of phase) draws events.old events.new }
    ensures not_silent { IfErr result (λ ending. IsNotSilent (cause_of ending)) }
{
    if !flush(socket)? {
        return Ok(DrawStop::Pending);
    }
    let exchanged = hear_and_draw(alloc, socket, session, phase, draws, hub, events);
    // A link that ends still sends the messages that were framed before. If it is Gone, the
    // cause is the one found before; an error of this flush is ignored.
    socket
        .get_ref()
        .set_corked(phase == TurnPhase::Read && exchanged.is_ok());
    // The stream has just taken no output, and is not asked again.
    if matches!(exchanged, Ok(DrawStop::Pending)) {
        return exchanged;
    }
    let sent = flush(socket);
    if !matches!(exchanged, Err(Ending::Gone(_))) {
        sent?;
    }
    exchanged
}

/// Hears a text, if it may, then draws messages and frames them. Returns why it drew no more.
#[tactic(auto, using(crate::proofs::Following::follows_same, crate::proofs::Following::follows_then, crate::proofs::Hearing::passes_on_none, crate::proofs::Hearing::passes_on_heard, crate::proofs::Telling::exchanged))]
fn hear_and_draw<S: Read + Write + Drop>(
    alloc: Global,
    socket: &mut Socket<S>,
    session: u64,
    phase: TurnPhase,
    draws: u64,
    hub: &mut Hub,
    events: &mut EventLog,
) -> Result<DrawStop, Ending>
    requires { length events.old + draws + 1 ≤ MAX_EVENTS }
    ensures follows { Follows no_opening (at hub.old (Some session) events.old)
        (at hub.new (Some session) events.new) }
    ensures stop { IfOk result (λ stop.
        Stops stop draws session hub.new events.old events.new socket.new) }
    ensures exchanges { OnOk result (Exchanges S.remaining S.contents (texts_of phase)
        (at hub.old (Some session) events.old) (at hub.new (Some session) events.new)
        socket.old socket.new) }
    ensures binary { BinaryAnswered S.contents result socket.new }
    ensures passes { PassesOn S.remaining (allowed_reads hub.old (Some session) (texts_of phase))
        socket.old events.old events.new }
    ensures adds { Adds (draws + 1) (texts_of phase) draws events.old events.new }
    ensures not_silent { IfErr result (λ ending. IsNotSilent (cause_of ending)) }
{
    hear(alloc, socket, session, phase, hub, events)?;
    let stop = draw_messages(alloc, socket, session, draws, hub, events)?;
    Ok(stop)
}

/// Reads one message and passes its text to the hub, if the turn reads and the session is not busy.
#[tactic(auto, using(crate::proofs::Following::follows_same, crate::proofs::Telling::drew_same, crate::proofs::Hearing::passes_same, crate::proofs::Hearing::hearing_none, crate::proofs::Hearing::hearing_most, crate::proofs::Hearing::reads_none_of, crate::proofs::Hearing::reads_none_busy))]
fn hear<S: Read + Write + Drop>(
    alloc: Global,
    socket: &mut Socket<S>,
    session: u64,
    phase: TurnPhase,
    hub: &mut Hub,
    events: &mut EventLog,
) -> Result<(), Ending>
    requires { length events.old + 1 ≤ MAX_EVENTS }
    ensures follows { Follows no_opening (at hub.old (Some session) events.old)
        (at hub.new (Some session) events.new) }
    ensures drew { OnOk result (Drew [] (at hub.old (Some session) events.old)
        (at hub.new (Some session) events.new)) }
    ensures hears { OnOk result (Hearing S.remaining
        (allowed_reads hub.old (Some session) (texts_of phase)) events.old events.new
        socket.old socket.new) }
    ensures binary { BinaryAnswered S.contents result socket.new }
    ensures quiet { OnErr result (Passes events.old events.new []) }
    ensures adds { Adds 1 (texts_of phase) 0 events.old events.new }
    ensures not_silent { IfErr result (λ ending. IsNotSilent (cause_of ending)) }
{
    if !phase.reads() || !hub.may_hear(session) {
        return Ok(());
    }
    hear_text(alloc, socket, session, hub, events)
}

/// Reads one message, and passes its text to the hub if it is a text.
#[tactic(auto, using(crate::proofs::Following::follows_same, crate::proofs::Telling::drew_same, crate::proofs::Hearing::passes_same, crate::proofs::Hearing::hearing_found))]
fn hear_text<S: Read + Write + Drop>(
    alloc: Global,
    socket: &mut Socket<S>,
    session: u64,
    hub: &mut Hub,
    events: &mut EventLog,
) -> Result<(), Ending>
    requires { length events.old + 1 ≤ MAX_EVENTS }
    ensures follows { Follows no_opening (at hub.old (Some session) events.old)
        (at hub.new (Some session) events.new) }
    ensures drew { OnOk result (Drew [] (at hub.old (Some session) events.old)
        (at hub.new (Some session) events.new)) }
    ensures hears { OnOk result
        (Hearing S.remaining 1 events.old events.new socket.old socket.new) }
    ensures binary { BinaryAnswered S.contents result socket.new }
    ensures quiet { OnErr result (Passes events.old events.new []) }
    ensures adds { Adds 1 1 0 events.old events.new }
    ensures not_silent { IfErr result (λ ending. IsNotSilent (cause_of ending)) }
{
    let Some(text) = next_text(socket)? else {
        return Ok(());
    };
    match events::receive(alloc, hub, session, text, events) {
        Ok(()) => Ok(()),
        Err(_) => Err(Ending::Gone(EndCause::Memory)),
    }
}

/// Reads a message, and takes its text if it is a text. A binary one is answered by a close with
/// 1003.
#[tactic(auto, using(crate::proofs::Hearing::finds_texts, crate::proofs::BinaryAnswered::closed_now))]
fn next_text<S: Read + Write + Drop>(socket: &mut Socket<S>) -> Result<Option<Text>, Ending>
    ensures finds { IfOk result (λ text. Finds S.remaining socket.old socket.new (given text)) }
    ensures terms { OnOk result (KeepsTerms socket.old.conn socket.new.conn) }
    ensures binary { BinaryAnswered S.contents result socket.new }
    ensures not_silent { IfErr result (λ ending. IsNotSilent (cause_of ending)) }
{
    let Some(message) = read(socket)? else {
        return Ok(None);
    };
    match message {
        Message::Text(words) => Ok(Some(Text::shared(words))),
        Message::Binary(_) => {
            close(socket, CloseCode::Unsupported)?;
            Err(Ending::Closing(EndCause::Binary))
        }
        Message::Close(_) => Err(Ending::Closing(EndCause::Peer)),
        Message::Ping(_) | Message::Pong(_) => Ok(None),
    }
}

/// Draws messages and frames each: up to `draws`, until none waits, the stream takes no output, or
/// memory is refused for a draw (then another turn is asked for). Returns which one it was. If
/// memory is refused for the frame of a drawn message, the link ends.
#[tactic(auto, using(crate::proofs::Following::follows_same, crate::proofs::Following::follows_then, crate::proofs::Hearing::passes_same, crate::proofs::Hearing::passes_then, crate::proofs::Telling::tells_start, crate::proofs::Telling::tells_on, crate::proofs::Telling::tells_text))]
fn draw_messages<S: Read + Write + Drop>(
    alloc: Global,
    socket: &mut Socket<S>,
    session: u64,
    draws: u64,
    hub: &mut Hub,
    events: &mut EventLog,
) -> Result<DrawStop, EndCause>
    requires { length events.old + draws ≤ MAX_EVENTS }
    ensures follows { Follows no_opening (at hub.old (Some session) events.old)
        (at hub.new (Some session) events.new) }
    ensures stop { IfOk result (λ stop.
        Stops stop draws session hub.new events.old events.new socket.new) }
    ensures tells { OnOk result (Tells S.contents (at hub.old (Some session) events.old)
        (at hub.new (Some session) events.new) socket.old socket.new) }
    ensures passes { Passes events.old events.new [] }
    ensures adds { Adds draws 0 draws events.old events.new }
    ensures not_silent { IfErr result IsNotSilent }
{
    for _ in 0..draws {
        let words = match events::draw(alloc, hub, session, events) {
            Ok(Some(words)) => words,
            Ok(None) => return Ok(DrawStop::Empty),
            Err(_) => {
                socket.get_ref().request_turn();
                return Ok(DrawStop::Memory);
            }
        };
        if !write(socket, words)? {
            return Ok(DrawStop::Pending);
        }
    }
    Ok(DrawStop::Limit)
}
