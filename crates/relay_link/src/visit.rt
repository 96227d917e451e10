//! A visit: a session that opens, says one text, draws what waits and closes, all in one call.
//!
//! It is for a caller without a socket, who asks one thing. Its events are a session's own, like
//! those of a link's turns, so that what a log says of sessions holds of visits too.
ghost use Rattle.std.specs.Prelude.{◌≡◌, ◌+◌, ◌≤◌, [], Some, None, Ok, length, IfOk, OnOk};
ghost use Rattle.std.specs.Prelude.{OnErr, string_bytes, vec_capacity};
ghost use Rattle.relay_link.specs.Adds.{Adds};
ghost use Rattle.relay_link.specs.Follows.{at};
ghost use Rattle.relay_link.specs.Hears.{Passes};
ghost use Rattle.relay_link.specs.Tells.{Drew};
ghost use Rattle.relay_link.specs.Visits.{Visits, DrewAll, IfAnswered, heard_in, opening_of};
ghost use Rattle.relay_link.specs.declared.event_log.TheConstants.{MAX_EVENTS};

use crate::event_log::EventLog;
use crate::events;
use crate::visit_outcome::VisitOutcome;
use relay_access::Access;
use relay_hub::{Event, Hub, Opening, Text};
use std::alloc::{AllocError, Global};

/// The maximum number of texts that a visit draws: the welcome, the reply, and the message that a
/// watch or a resume makes due.
const MAX_TEXTS: usize = 3;

/// The work of a visit, and its outcome.
///
/// ```
/// let mut hub = Hub::new(alloc, 1, 1, 64, 32).ok()?;
/// let room = String::from_str(alloc, "board").ok()?;
/// let watch = r#"{"do": "watch", "id": 1, "view": [""]}"#;
/// let text = Text::of(String::from_str(alloc, watch).ok()?);
/// let visit = Visit::make(alloc, &mut hub, room, Access::ReadOnly, text).ok()?;
/// // The welcome, the reply, and the snapshot.
/// assert!(rt; visit.texts[2].as_str() == r#"{"kind":"snapshot","rev":0,"view":[[null]]}"#);
/// ```
#[derive(Drop)]
pub struct Visit {
    /// The hub events that the visit made, in order: at most 6.
    pub events: Vec<Event>,
    /// The texts that it drew, in order: at most 3.
    pub texts: Vec<Text>,
    pub outcome: VisitOutcome,
    /// The index of its room in the hub ([`Hub::room_of`]), if it entered one.
    pub room_index: Option<usize>,
    /// The cost of the hub's work, in microseconds ([`Hub::cost`]).
    pub cost: u64,
}

impl Visit {
    /// Visits a room: opens a session there with an access, passes its text to the hub, draws what
    /// waits for it, at most 3 texts, and closes it. Whatever comes of it, no session is left. If
    /// the hub opens none, or is out of memory, the outcome says so. `AllocError` comes before
    /// anything is changed.
    ///
    /// ```
    /// let mut hub = Hub::new(alloc, 1, 1, 64, 32).ok()?;
    /// let room = String::from_str(alloc, "board").ok()?;
    /// let edit = r#"{"do": "edit", "id": 1, "patch": [{"op": "add", "path": "", "value": []}]}"#;
    /// let text = Text::of(String::from_str(alloc, edit).ok()?);
    /// let visit = Visit::make(alloc, &mut hub, room, Access::ReadWrite, text).ok()?;
    /// assert!(rt; matches!(visit.outcome, VisitOutcome::Answered(_)));
    /// assert!(rt; visit.texts[1].as_str() == r#"{"id":1,"kind":"done","rev":1}"#);
    /// ```
    #[tactic(auto, using(crate::proofs::Visiting::visits_refused, crate::proofs::Visiting::visits_stayed))]
    pub fn make(
        alloc: Global,
        hub: &mut Hub,
        room: String,
        access: Access,
        text: Text,
    ) -> Result<Visit, AllocError>
        ensures visits { IfOk result
            (λ visit. Visits (string_bytes room) access text hub.old hub.new visit) }
        ensures unchanged { OnErr result (hub.new ≡ hub.old) }
    {
        let mut events = EventLog::new(alloc)?;
        let mut texts = Vec::with_capacity(alloc, MAX_TEXTS)?;
        let before = hub.cost();
        let outcome = match events::enter(alloc, hub, room, access, &mut events) {
            Ok(opening) => stay(alloc, hub, opening, text, &mut texts, &mut events),
            Err(fault) => VisitOutcome::Refused(fault),
        };
        Ok(Visit {
            cost: hub.cost().saturating_sub(before),
            room_index: events.room_index(),
            events: events.into_events(),
            texts,
            outcome,
        })
    }
}

/// Passes the text of a session to the hub, draws what waits, and closes the session.
#[tactic(auto, using(crate::proofs::Visiting::drew_on, crate::proofs::Visiting::drew_all_within, crate::proofs::Hearing::passes_then))]
fn stay(
    alloc: Global,
    hub: &mut Hub,
    opening: Opening,
    text: Text,
    texts: &mut Vec<Text>,
    events: &mut EventLog,
) -> VisitOutcome
    requires none { texts.old.items ≡ [] }
    requires capacity { MAX_TEXTS ≤ vec_capacity texts.old }
    requires space { length events.old + MAX_TEXTS + 2 ≤ MAX_EVENTS }
    ensures drew { Drew texts.new.items
        (at hub.old (Some opening.session) events.old) (at hub.new None events.new) }
    ensures opening { opening_of result ≡ Ok opening }
    ensures passes { Passes events.old events.new (heard_in result text) }
    ensures drew_all { IfAnswered result (DrewAll events.old events.new texts.new.items) }
    ensures few { length texts.new.items ≤ MAX_TEXTS }
    ensures adds { Adds (MAX_TEXTS + 2) 1 MAX_TEXTS events.old events.new }
{
    events.note_room_index(hub.room_of(opening.session));
    let outcome = say(alloc, hub, opening, text, texts, events);
    events::close(hub, opening.session, events);
    outcome
}

/// Passes the text of a session to the hub, and draws what waits.
#[tactic(auto, using(crate::proofs::Telling::drew_then, crate::proofs::Hearing::passes_then))]
fn say(
    alloc: Global,
    hub: &mut Hub,
    opening: Opening,
    text: Text,
    texts: &mut Vec<Text>,
    events: &mut EventLog,
) -> VisitOutcome
    requires none { texts.old.items ≡ [] }
    requires capacity { MAX_TEXTS ≤ vec_capacity texts.old }
    requires space { length events.old + MAX_TEXTS + 1 ≤ MAX_EVENTS }
    ensures drew { Drew texts.new.items
        (at hub.old (Some opening.session) events.old)
        (at hub.new (Some opening.session) events.new) }
    ensures opening { opening_of result ≡ Ok opening }
    ensures passes { Passes events.old events.new (heard_in result text) }
    ensures drew_all { IfAnswered result (DrewAll events.old events.new texts.new.items) }
    ensures few { length texts.new.items ≤ MAX_TEXTS }
    ensures adds { Adds (MAX_TEXTS + 1) 1 MAX_TEXTS events.old events.new }
{
    if events::receive(alloc, hub, opening.session, text, events).is_err() {
        return VisitOutcome::Unheard(opening);
    }
    match draw_texts(alloc, hub, opening.session, texts, events) {
        Ok(()) => VisitOutcome::Answered(opening),
        Err(AllocError) => VisitOutcome::Undrawn(opening),
    }
}

/// Draws what waits for a session, until nothing does or there are as many texts as a visit draws.
#[tactic(auto, using(crate::proofs::Visiting::drew_text, crate::proofs::Visiting::drew_on, crate::proofs::Telling::drew_same, crate::proofs::Hearing::passes_same, crate::proofs::Hearing::passes_then))]
fn draw_texts(
    alloc: Global,
    hub: &mut Hub,
    session: u64,
    texts: &mut Vec<Text>,
    events: &mut EventLog,
) -> Result<(), AllocError>
    requires none { texts.old.items ≡ [] }
    requires capacity { MAX_TEXTS ≤ vec_capacity texts.old }
    requires space { length events.old + MAX_TEXTS ≤ MAX_EVENTS }
    ensures drew { Drew texts.new.items
        (at hub.old (Some session) events.old) (at hub.new (Some session) events.new) }
    ensures passes { Passes events.old events.new [] }
    ensures drew_all { OnOk result (DrewAll events.old events.new texts.new.items) }
    ensures few { length texts.new.items ≤ MAX_TEXTS }
    ensures adds { Adds MAX_TEXTS 0 MAX_TEXTS events.old events.new }
{
    for _ in 0..MAX_TEXTS {
        let Some(text) = events::draw(alloc, hub, session, events)? else {
            return Ok(());
        };
        texts.push_reserved(Text::shared(text));
    }
    Ok(())
}
