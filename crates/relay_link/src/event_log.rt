//! The events of a turn, in a buffer that is allocated before the turn begins.
use crate::entry_rules::Denial;
use relay_hub::{Event, OpenFault};
use std::alloc::{AllocError, Global};
use std::cell::Cell;
use std::marker::Model;
use tungstenite::Utf8Bytes;

/// The maximum number of events of a turn.
pub(crate) const MAX_EVENTS: usize = 34;

/// The events that a turn has made so far. Contracts see only the list.
#[derive(Drop)]
pub(crate) struct EventLog {
    events: Vec<Event>,
    /// The bytes of the texts that were drawn.
    drawn: u64,
    /// The cause for which the hub opened no session, if it was asked for one.
    fault: Cell<Option<OpenFault>>,
    /// The index of the room of the session that it opened.
    room_index: Cell<Option<usize>>,
    /// The room in which a client may not enter, if it asked for one.
    turned_away: Option<String>,
}

impl Model for EventLog {
    ghost use Rattle.std.specs.Prelude.{List, ◌≤◌, vec_capacity};
    ghost use Rattle.std.specs.Coded.{coded_list};
    ghost use Rattle.relay_hub.specs.contracts.event.Event as event;
    ghost use Rattle.relay_hub.specs.declared.event.Event.{Event};
    ghost use Rattle.relay_link.specs.declared.event_log.TheConstants.{MAX_EVENTS};

    ghost Value = { List Event };

    ghost coded = { coded_list event.the_row.coded };

    ghost view = { λ log. log.events.items };

    ghost invariant = { λ log. MAX_EVENTS ≤ vec_capacity log.events };
}

impl EventLog {
    ghost use Rattle.std.specs.Prelude.{◌≡◌, ◌<◌, [], ◌∷◌, ◌++◌, length, option_copied, IfOk};
    ghost use Rattle.std.specs.Prelude.{IsUtf8};
    ghost use Rattle.std.specs.List.{AllByRecursion};
    ghost use Rattle.relay_hub.specs.declared.event.Event.TheVariants.{Draw};
    ghost use Rattle.relay_link.specs.Follows.{given};

    /// An empty log, with capacity for the events of a turn.
    pub(crate) fn new(alloc: Global) -> Result<EventLog, AllocError>
        ensures { IfOk result (λ events. events ≡ []) }
    {
        Ok(EventLog {
            events: Vec::with_capacity(alloc, MAX_EVENTS)?,
            drawn: 0,
            fault: Cell::new(None),
            room_index: Cell::new(None),
            turned_away: None,
        })
    }

    /// Appends an event. Allocates nothing.
    pub(crate) fn note(&mut self, event: Event)
        requires { length self.old < MAX_EVENTS }
        ensures { self.new ≡ self.old ++ event ∷ [] }
    {
        self.events.push_reserved(event);
    }

    /// Appends a draw, and counts the text that was drawn. Allocates nothing.
    pub(crate) fn note_draw(&mut self, session: u64, text: Option<&Utf8Bytes>)
        requires { length self.old < MAX_EVENTS }
        ensures event { self.new ≡ self.old ++ Draw session ∷ [] }
        ensures utf8 { AllByRecursion IsUtf8 (given (option_copied text.entry)) }
    {
        if let Some(text) = text {
            self.drawn = self.drawn.saturating_add(text.as_bytes().len() as u64);
        }
        self.note(Event::Draw { session });
    }

    /// The bytes of the texts that were drawn.
    pub(crate) fn drawn(&self) -> u64 {
        self.drawn
    }

    /// Notes why the hub opened no session. Allocates nothing.
    pub(crate) fn note_fault(&self, fault: OpenFault) {
        self.fault.set(Some(fault));
    }

    /// Returns the cause for which the hub opened no session, if it was asked for one.
    pub(crate) fn fault(&self) -> Option<OpenFault> {
        self.fault.get()
    }

    /// Notes the index of the room of the session that the hub opened. Allocates nothing.
    pub(crate) fn note_room_index(&self, index: Option<usize>) {
        self.room_index.set(index);
    }

    /// The index of the room of the session that the hub opened, if it opened one.
    pub(crate) fn room_index(&self) -> Option<usize> {
        self.room_index.get()
    }

    /// Notes that a client may not enter in a room, and why. Allocates nothing.
    pub(crate) fn note_denial(&mut self, reason: Denial, room: String)
        ensures { self.new ≡ self.old }
    {
        match reason {
            Denial::Closed => self.turned_away = Some(room),
            Denial::Full => self.note_fault(OpenFault::SessionsFull),
            Denial::Origin | Denial::NoRoom => {}
        }
    }

    /// Takes the room in which a client may not enter, if it asked for one.
    pub(crate) fn take_turned_away(&mut self) -> Option<String>
        ensures { self.new ≡ self.old }
    {
        self.turned_away.take()
    }

    pub(crate) fn into_events(self) -> Vec<Event>
        ensures { result.items ≡ self }
    {
        self.events
    }
}
