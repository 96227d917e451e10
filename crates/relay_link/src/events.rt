//! The hub calls that a link makes, each recorded as an event.
ghost use Rattle.std.specs.Prelude.{◌≡◌, ◌+◌, ◌<◌, [], ◌∷◌, ◌++◌, length, is_some, Some, None};
ghost use Rattle.std.specs.Prelude.{option_to_list, string_bytes, IfOk, OnOk, OnErr};
ghost use Rattle.relay_hub.specs.Call.{opening};
ghost use Rattle.relay_link.specs.Follows.{Follows, no_opening, is_room, at, given, closing_of};
ghost use Rattle.relay_link.specs.Hears.{Passes};
ghost use Rattle.relay_link.specs.Stops.{NothingWaits, SomethingWaits};
ghost use Rattle.relay_link.specs.Tells.{Drew};
ghost use Rattle.relay_link.specs.Visits.{Opens, entered_as};
ghost use Rattle.relay_hub.specs.declared.event.Event.TheVariants.{Receive, Draw, Close};
ghost use Rattle.relay_link.specs.Adds.{Adds, draws};
ghost use Rattle.relay_link.specs.declared.event_log.TheConstants.{MAX_EVENTS};

use crate::event_log::EventLog;
use relay_access::Access;
use relay_hub::{Event, Hub, HubFault, NoSession, OpenFault, Opening, Text};
use std::alloc::{AllocError, Global};
use tungstenite::Utf8Bytes;

/// Opens the link's session in a room, with the access that its head asks for. `None` if the hub
/// refuses it or is out of memory; only the refusal is recorded as an event.
#[tactic(auto, using(crate::proofs::Visiting::follows_opened))]
pub(crate) fn open(
    alloc: Global,
    hub: &mut Hub,
    room: String,
    access: Access,
    events: &mut EventLog,
) -> Option<u64>
    requires { length events.old < MAX_EVENTS }
    ensures follows { Follows (is_room (string_bytes room) access) (at hub.old None events.old)
        (at hub.new result events.new) }
    ensures passes { Passes events.old events.new [] }
    ensures adds { Adds 1 0 0 events.old events.new }
{
    match enter(alloc, hub, room, access, events) {
        Ok(opening) => Some(opening.session),
        Err(fault) => {
            events.note_fault(fault);
            None
        }
    }
}

/// Opens a session in a room. A fault is recorded as an event, unless the hub is out of memory.
#[tactic(auto, using(crate::proofs::Hearing::passes_same, crate::proofs::Hearing::passes_none))]
pub(crate) fn enter(
    alloc: Global,
    hub: &mut Hub,
    room: String,
    access: Access,
    events: &mut EventLog,
) -> Result<Opening, OpenFault>
    requires { length events.old < MAX_EVENTS }
    ensures opens { Opens (is_room (string_bytes room) access) (option_to_list (opening result)) []
        (at hub.old None events.old) (at hub.new (entered_as result) events.new) }
    ensures passes { Passes events.old events.new [] }
    ensures adds { Adds 1 0 0 events.old events.new }
{
    let room = Text::of(room);
    let opened = hub.open(alloc, room.as_str(), access);
    if !is_answered(opened) {
        return opened;
    }
    events.note(Event::Open { room, access });
    opened
}

/// True if the hub answered an opening. Out of memory is no answer.
fn is_answered(opened: Result<Opening, OpenFault>) -> bool
    ensures { result ≡ is_some (opening opened) }
{
    match opened {
        Ok(_) => true,
        Err(fault) => fault != OpenFault::NoMemory,
    }
}

/// Passes a text of the link's session to the hub. After `AllocError` nothing has changed.
#[tactic(auto, using(crate::proofs::Hearing::passes_same, crate::proofs::Hearing::passes_text))]
pub(crate) fn receive(
    alloc: Global,
    hub: &mut Hub,
    session: u64,
    text: Text,
    events: &mut EventLog,
) -> Result<(), AllocError>
    requires { length events.old < MAX_EVENTS }
    ensures follows { Follows no_opening (at hub.old (Some session) events.old)
        (at hub.new (Some session) events.new) }
    ensures drew { Drew [] (at hub.old (Some session) events.old)
        (at hub.new (Some session) events.new) }
    ensures event { OnOk result (events.new ≡ events.old ++ Receive session text ∷ []) }
    ensures passes { OnOk result (Passes events.old events.new (text ∷ [])) }
    ensures passes_none { OnErr result (Passes events.old events.new []) }
    ensures adds { Adds 1 1 0 events.old events.new }
{
    match hub.receive(alloc, session, text.as_str()) {
        Ok(_) => {}
        Err(HubFault::NoSession) => {}
        Err(HubFault::NoMemory) => return Err(AllocError),
    }
    events.note(Event::Receive { session, text });
    Ok(())
}

/// Draws a text from the outbox of the link's session. `None` if there is none. After `AllocError`
/// nothing has changed, and a message waits.
#[tactic(auto, using(crate::proofs::Hearing::passes_same, crate::proofs::Hearing::passes_none, crate::proofs::Stopping::draws_one))]
pub(crate) fn draw(
    alloc: Global,
    hub: &mut Hub,
    session: u64,
    events: &mut EventLog,
) -> Result<Option<Utf8Bytes>, AllocError>
    requires { length events.old < MAX_EVENTS }
    ensures follows { Follows no_opening (at hub.old (Some session) events.old)
        (at hub.new (Some session) events.new) }
    ensures drew { IfOk result (λ text.
        Drew (given text) (at hub.old (Some session) events.old)
        (at hub.new (Some session) events.new)) }
    ensures drew_none { OnErr result (Drew [] (at hub.old (Some session) events.old)
        (at hub.new (Some session) events.new)) }
    ensures empty { IfOk result (λ text. text ≡ None → NothingWaits hub.new session) }
    ensures waits { OnErr result (SomethingWaits hub.new session) }
    ensures event { OnOk result (events.new ≡ events.old ++ Draw session ∷ []) }
    ensures count { OnOk result (draws events.new ≡ draws events.old + 1) }
    ensures passes { Passes events.old events.new [] }
    ensures adds { Adds 1 0 1 events.old events.new }
{
    let text = match hub.draw(alloc, session) {
        Ok(text) => text,
        Err(HubFault::NoSession) => None,
        Err(HubFault::NoMemory) => return Err(AllocError),
    };
    events.note_draw(session, text.as_ref());
    Ok(text)
}

/// Closes the link's session. Allocates nothing.
#[tactic(auto, using(crate::proofs::Hearing::passes_none))]
pub(crate) fn close(hub: &mut Hub, session: u64, events: &mut EventLog)
    requires { length events.old < MAX_EVENTS }
    ensures follows { Follows no_opening (at hub.old (Some session) events.old)
        (at hub.new None events.new) }
    ensures drew { Drew [] (at hub.old (Some session) events.old) (at hub.new None events.new) }
    ensures adds { Adds 1 0 0 events.old events.new }
    ensures passes { Passes events.old events.new [] }
    ensures events { events.new ≡ events.old ++ Close session ∷ [] }
{
    match hub.close(session) {
        Ok(()) | Err(NoSession) => events.note(Event::Close { session }),
    }
}

/// Closes the link's session, if it has one.
#[tactic(auto, using(crate::proofs::Following::follows_same))]
pub(crate) fn end(hub: &mut Hub, session: Option<u64>, events: &mut EventLog)
    requires { length events.old < MAX_EVENTS }
    ensures follows { Follows no_opening (at hub.old session events.old)
        (at hub.new None events.new) }
    ensures events { events.new ≡ events.old ++ closing_of session }
{
    if let Some(session) = session {
        close(hub, session, events);
    }
}
