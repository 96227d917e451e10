//! The handshake of a link: its request head, then the reply.
ghost use Rattle.std.specs.Prelude.{◌≡◌, ◌≢◌, ◌+◌, ◌≤◌, length, [], is_some, Some, None};
ghost use Rattle.std.specs.Prelude.{string_bytes, option_map, Option, false};
ghost use Rattle.std.specs.Global.{Global};
ghost use Rattle.std.specs.declared.string.String.{String};
ghost use Rattle.relay_link.specs.Adds.{Adds};
ghost use Rattle.relay_link.specs.Asks.{Asks, Receives, awaits_head};
ghost use Rattle.relay_link.specs.EntryRules.{Denials, Within, denial, reply_to, status_of};
ghost use Rattle.relay_link.specs.Ends.{turns_left};
ghost use Rattle.relay_link.specs.Follows.{Follows, no_opening, is_room, at};
ghost use Rattle.relay_link.specs.Stage.{entered, leaves, stage_of, session_of, IsSound};
ghost use Rattle.relay_link.specs.Hears.{Passes};
ghost use Rattle.relay_link.specs.Replies.{Replies, RepliesTo, WritesReply};
ghost use Rattle.relay_link.specs.Stream.{stream_of, written};
ghost use Rattle.relay_shake.specs.declared.answer.Shake.TheVariants.{Accept};
ghost use Rattle.relay_link.specs.Tells.{IsServing};
ghost use Rattle.relay_link.specs.declared.end_cause.EndCause.TheVariants.{Silent};
ghost use Rattle.relay_link.specs.declared.handshake_reply.Verdict.TheVariants.{Refused};
ghost use Rattle.relay_link.specs.declared.closing.TheConstants.{MAX_TURNS};
ghost use Rattle.relay_link.specs.declared.event_log.TheConstants.{MAX_EVENTS};
ghost use Rattle.relay_link.specs.declared.stage.Stage.TheVariants.{Head};

use crate::corked_writer::CorkedWriter;
use crate::end_cause::EndCause;
use crate::entry_rules::{Denial, EntryRules};
use crate::event_log::EventLog;
use crate::events;
use crate::handshake_reply::{HandshakeReply, Verdict};
use crate::non_blocking::is_nothing_now;
use crate::socket::socket_on;
use crate::state::State;
use crate::transition::Transition;
use relay_access::Access;
use relay_hub::Hub;
use relay_shake::{Shake, refusal, shake};
use std::alloc::Global;
use std::io::{Read, Write};

/// The most bytes of a head that a turn reads.
pub(crate) const MAX_READ: usize = 4_096;

/// Reads once, and checks the bytes received so far as a handshake.
#[tactic(auto, using(crate::proofs::Following::follows_same, crate::proofs::Following::follows_none, crate::proofs::Heads::received_past, crate::proofs::Hearing::passes_same))]
pub(crate) fn listen<S: Read + Write + Drop>(
    alloc: Global,
    mut stream: CorkedWriter<S>,
    mut bytes: Vec<u8>,
    rules: &EntryRules,
    hub: &mut Hub,
    events: &mut EventLog,
) -> Transition<S>
    requires { length events.old + 2 ≤ MAX_EVENTS }
    ensures follows { Follows (Asks bytes.items (S.remaining (stream_of stream)))
        (at hub.old None events.old) (at hub.new (session_of result.state) events.new) }
    ensures received { Receives S.remaining (State.Head stream bytes) result.state }
    ensures entrance { Follows (Within rules.now hub.old) (at hub.old None events.old)
        (at hub.new (session_of result.state) events.new) }
    ensures replies { Replies S.remaining S.contents (denial rules.now hub.old)
        (State.Head stream bytes) result.state }
    ensures passes { Passes events.old events.new [] }
    ensures adds { Adds 2 0 0 events.old events.new }
    ensures serving { IsServing result.state }
    ensures cause { is_some result.cause ≡ leaves Head (stage_of result.state) }
    ensures not_silent { result.cause ≢ Some Silent }
    ensures stop { result.stop ≡ None }
    ensures sound { IsSound result.state }
    ensures patient { MAX_TURNS ≤ turns_left result.state }
{
    stream.begin_read_turn();
    let mut chunk = [0u8; MAX_READ];
    match stream.read(&mut chunk) {
        Ok(0) => return Transition::gone(EndCause::Peer),
        Ok(len) => {
            stream.note_taken(len);
            if bytes.extend_from_slice(&chunk[..len]).is_err() {
                return Transition::gone(EndCause::Memory);
            }
        }
        Err(error) if is_nothing_now(&error) => return Transition::on(State::Head {
            stream,
            bytes,
        }),
        Err(_) => return Transition::gone(EndCause::Stream),
    }
    match shake(alloc, bytes.as_slice()) {
        Ok(Shake::More) => Transition::on(State::Head { stream, bytes }),
        Ok(
            Shake::Accept {
                room,
                access,
                origin,
                reply,
            },
        ) => match rules.denial(hub, room.as_str(), access, origin.as_deref()) {
            None => admit(alloc, stream, room, access, reply, hub, events),
            Some(reason) => turn_away(alloc, stream, room, reason, hub, events),
        },
        Ok(Shake::Refuse { status, reply }) => {
            answer(alloc, stream, reply, Verdict::Refused(status), hub, events)
        }
        Err(_) => Transition::gone(EndCause::Memory),
    }
}

/// Opens a session, and begins to write the reply. If the hub opens none, the handshake is refused
/// with 503.
#[tactic(auto, using(crate::proofs::Following::follows_same, crate::proofs::Following::follows_then, crate::proofs::Following::follows_none, crate::proofs::Hearing::passes_then, crate::proofs::Replying::replies_open, crate::proofs::Replying::replies_refused, crate::proofs::Replying::replies_gone))]
fn admit<S: Read + Write + Drop>(
    alloc: Global,
    stream: CorkedWriter<S>,
    room: String,
    access: Access,
    accepted: Vec<u8>,
    hub: &mut Hub,
    events: &mut EventLog,
) -> Transition<S>
    requires { length events.old + 2 ≤ MAX_EVENTS }
    ensures follows { Follows (is_room (string_bytes room) access) (at hub.old None events.old)
        (at hub.new (session_of result.state) events.new) }
    ensures past { awaits_head result.state ≡ false }
    ensures replies { (denied : Denials) (origin : Option (String Global))
        → denied (string_bytes room) access (option_map string_bytes origin) ≡ None
        → RepliesTo S.contents denied (written S.contents stream)
        (Accept room access origin accepted) result.state }
    ensures passes { Passes events.old events.new [] }
    ensures adds { Adds 2 0 0 events.old events.new }
    ensures serving { IsServing result.state }
    ensures cause { is_some result.cause ≡ leaves Head (stage_of result.state) }
    ensures not_silent { result.cause ≢ Some Silent }
    ensures stop { result.stop ≡ None }
    ensures sound { IsSound result.state }
    ensures patient { MAX_TURNS ≤ turns_left result.state }
{
    match events::open(alloc, hub, room, access, events) {
        Some(session) => answer(
            alloc,
            stream,
            accepted,
            Verdict::Entered(session),
            hub,
            events,
        ),
        None => match refusal(alloc, 503) {
            Ok(refused) => answer(alloc, stream, refused, Verdict::Refused(503), hub, events),
            Err(_) => Transition::gone(EndCause::Memory),
        },
    }
}

/// Begins to write the refusal of a good handshake that the rules deny.
#[tactic(auto, using(crate::proofs::Following::follows_same, crate::proofs::Hearing::passes_same))]
fn turn_away<S: Read + Write + Drop>(
    alloc: Global,
    stream: CorkedWriter<S>,
    room: String,
    reason: Denial,
    hub: &mut Hub,
    events: &mut EventLog,
) -> Transition<S>
    requires { length events.old + 1 ≤ MAX_EVENTS }
    ensures follows { Follows no_opening (at hub.old None events.old)
        (at hub.new (session_of result.state) events.new) }
    ensures past { awaits_head result.state ≡ false }
    ensures writes { WritesReply S.contents (written S.contents stream)
        (Refused (status_of reason)) (reply_to reason) result.state }
    ensures passes { Passes events.old events.new [] }
    ensures adds { Adds 1 0 0 events.old events.new }
    ensures serving { IsServing result.state }
    ensures cause { is_some result.cause ≡ leaves Head (stage_of result.state) }
    ensures not_silent { result.cause ≢ Some Silent }
    ensures stop { result.stop ≡ None }
    ensures sound { IsSound result.state }
    ensures patient { MAX_TURNS ≤ turns_left result.state }
{
    events.note_denial(reason, room);
    match reason.reply(alloc) {
        Ok(refused) => {
            let verdict = Verdict::Refused(reason.status());
            answer(alloc, stream, refused, verdict, hub, events)
        }
        Err(_) => Transition::gone(EndCause::Memory),
    }
}

/// Begins to write a reply.
fn answer<S: Read + Write + Drop>(
    alloc: Global,
    stream: CorkedWriter<S>,
    rest: Vec<u8>,
    verdict: Verdict,
    hub: &mut Hub,
    events: &mut EventLog,
) -> Transition<S>
    requires { length events.old + 1 ≤ MAX_EVENTS }
    ensures follows { Follows no_opening (at hub.old (entered verdict) events.old)
        (at hub.new (session_of result.state) events.new) }
    ensures past { awaits_head result.state ≡ false }
    ensures writes { WritesReply S.contents (written S.contents stream) verdict rest.items
        result.state }
    ensures passes { Passes events.old events.new [] }
    ensures adds { Adds 1 0 0 events.old events.new }
    ensures serving { IsServing result.state }
    ensures cause { is_some result.cause ≡ leaves Head (stage_of result.state) }
    ensures not_silent { result.cause ≢ Some Silent }
    ensures stop { result.stop ≡ None }
    ensures sound { IsSound result.state }
    ensures patient { MAX_TURNS ≤ turns_left result.state }
{
    reply(alloc, stream, HandshakeReply { rest, verdict }, hub, events)
}

/// Writes the rest of a reply. Once it is written the link is open, or gone if the reply is a
/// refusal. If the stream fails, the session that was opened is closed.
#[tactic(auto, using(crate::proofs::Following::follows_same, crate::proofs::Hearing::passes_same, crate::proofs::Replying::writes_all))]
pub(crate) fn reply<S: Read + Write + Drop>(
    alloc: Global,
    mut stream: CorkedWriter<S>,
    mut reply: HandshakeReply,
    hub: &mut Hub,
    events: &mut EventLog,
) -> Transition<S>
    requires { length events.old + 1 ≤ MAX_EVENTS }
    ensures follows { Follows no_opening (at hub.old (entered reply.verdict) events.old)
        (at hub.new (session_of result.state) events.new) }
    ensures past { awaits_head result.state ≡ false }
    ensures writes { WritesReply S.contents (written S.contents stream) reply.verdict
        reply.rest.items result.state }
    ensures passes { Passes events.old events.new [] }
    ensures adds { Adds 1 0 0 events.old events.new }
    ensures serving { IsServing result.state }
    ensures cause { is_some result.cause ≡ leaves Head (stage_of result.state) }
    ensures not_silent { result.cause ≢ Some Silent }
    ensures stop { result.stop ≡ None }
    ensures sound { IsSound result.state }
    ensures patient { MAX_TURNS ≤ turns_left result.state }
{
    match reply.send(&mut stream) {
        Ok(()) => match reply.verdict {
            Verdict::Entered(session) => Transition::on(State::Open {
                socket: socket_on(alloc, stream),
                session,
            }),
            Verdict::Refused(status) => Transition::gone(EndCause::Refused(status)),
        },
        Err(error) if is_nothing_now(&error) && !stream.has_failed() => {
            Transition::on(State::Replying { stream, reply })
        }
        Err(_) => {
            if let Verdict::Entered(session) = reply.verdict {
                events::close(hub, session, events);
            }
            Transition::gone(EndCause::Stream)
        }
    }
}
