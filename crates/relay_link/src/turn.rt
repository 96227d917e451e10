//! The result of one turn of a link.
ghost use Rattle.std.specs.Prelude.{◌≡◌, min};
ghost use Rattle.std.specs.List.{list_any};
ghost use Rattle.relay_link.specs.Adds.{is_receive, is_draw};
ghost use Rattle.relay_link.specs.Hears.{received_len, received_bytes};

use crate::draw_stop::DrawStop;
use crate::end_cause::EndCause;
use crate::stage::Stage;
use relay_hub::{Event, OpenFault};

/// The work of a turn, and the stage that it left the link in.
///
/// ```
/// let wire = Wire::new(alloc);
/// let config = HubConfig { rooms: 1, ..HubConfig::new(1, 1, 64, 32) };
/// let mut hub = Hub::with_config(alloc, config).ok()?;
/// hub.open(alloc, "only", Access::ReadWrite).ok()?;
/// let mut link = Link::new(alloc, End { wire: &wire }).ok()?;
/// wire.try_borrow_mut().ok()?.perform(alloc, "asks 13 /rooms/a").ok()?;
/// let turn = link.turn(alloc, &mut hub, MAX_DRAWS).ok()?;
/// assert!(rt; turn.fault == Some(OpenFault::RoomsFull) && turn.stage == Stage::Gone);
/// ```
#[derive(Drop)]
pub struct Turn {
    /// The hub events that the turn made, in order: at most 34.
    pub events: Vec<Event>,
    /// The link's stage after the turn.
    pub stage: Stage,
    /// The cause, if the turn ended the handshake without opening the link, ended an open link, or
    /// ended its closing.
    pub cause: Option<EndCause>,
    /// The cause for which it drew no more, if it found the link open and left it so.
    pub stop: Option<DrawStop>,
    /// The number of bytes in the texts that the turn drew.
    pub drawn: u64,
    /// The cost of the hub's work, in microseconds: an estimate that counts the work
    /// ([`relay_hub::Hub::cost`]). No clock is read.
    pub cost: u64,
    /// The cause for which the hub opened no session, if the turn asked it for one.
    pub fault: Option<OpenFault>,
    /// The room of a valid handshake that was turned away, since clients may not enter there.
    pub turned_away: Option<String>,
}

impl Turn {
    /// Returns true if the turn passed a text to the hub. Allocates nothing.
    ///
    /// ```
    /// let wire = Wire::new(alloc);
    /// let mut hub = Hub::new(alloc, 1, 1, 64, 32).ok()?;
    /// let mut link = Link::new(alloc, End { wire: &wire }).ok()?;
    /// wire.try_borrow_mut().ok()?.perform(alloc, "asks 13 /rooms/a").ok()?;
    /// link.turn(alloc, &mut hub, MAX_DRAWS).ok()?;
    /// wire.try_borrow_mut().ok()?.perform(alloc, r#"says {"id":7}"#).ok()?;
    /// let turn = link.turn(alloc, &mut hub, MAX_DRAWS).ok()?;
    /// assert!(rt; turn.has_received());
    /// ```
    pub fn has_received(&self) -> bool
        ensures { result ≡ list_any is_receive self.now.events.items }
    {
        self.events
            .iter()
            .any(|event| matches!(event, Event::Receive { .. }))
    }

    /// Returns the number of bytes in the texts that the turn passed to the hub; `u64::MAX` if they
    /// have more. Allocates nothing.
    ///
    /// ```
    /// let wire = Wire::new(alloc);
    /// let mut hub = Hub::new(alloc, 1, 1, 64, 32).ok()?;
    /// let mut link = Link::new(alloc, End { wire: &wire }).ok()?;
    /// wire.try_borrow_mut().ok()?.perform(alloc, "asks 13 /rooms/a").ok()?;
    /// link.turn(alloc, &mut hub, MAX_DRAWS).ok()?;
    /// wire.try_borrow_mut().ok()?.perform(alloc, r#"says {"id":7}"#).ok()?;
    /// let turn = link.turn(alloc, &mut hub, MAX_DRAWS).ok()?;
    /// assert!(rt; turn.received() == r#"{"id":7}"#.len() as u64);
    /// ```
    pub fn received(&self) -> u64
        ensures { result ≡ min (received_bytes self.now.events.items) u64.MAX }
    {
        bytes_received(self.events.as_slice())
    }

    /// Returns true if the turn made a draw, with or without a text. Allocates nothing.
    ///
    /// ```
    /// let wire = Wire::new(alloc);
    /// let mut hub = Hub::new(alloc, 1, 1, 64, 32).ok()?;
    /// let mut link = Link::new(alloc, End { wire: &wire }).ok()?;
    /// wire.try_borrow_mut().ok()?.perform(alloc, "asks 13 /rooms/a").ok()?;
    /// let handshake = link.turn(alloc, &mut hub, MAX_DRAWS).ok()?;
    /// let welcome = link.turn(alloc, &mut hub, MAX_DRAWS).ok()?;
    /// assert!(rt; !handshake.has_drawn() && welcome.has_drawn());
    /// ```
    pub fn has_drawn(&self) -> bool
        ensures { result ≡ list_any is_draw self.now.events.items }
    {
        self.events
            .iter()
            .any(|event| matches!(event, Event::Draw { .. }))
    }
}

fn bytes_received(events: &[Event]) -> u64
    ensures { result ≡ min (received_bytes events.now) u64.MAX }
{
    let mut bytes = 0u64;
    for event in events {
        bytes = bytes.saturating_add(len_received(event));
    }
    bytes
}

/// The number of bytes in the text that an event passes to the hub; 0 if it passes none.
fn len_received(event: &Event) -> u64
    ensures { result ≡ received_len event.now }
{
    match event {
        Event::Receive { text, .. } => text.as_str().len() as u64,
        _ => 0,
    }
}
