//! The events of a hub, and its answers.
use crate::fault::{AdoptFault, ForgetFault, OpenFault};
use crate::text::Text;
use relay_access::Access;
use relay_tree::Tree;

/// One event: one call of the hub.
///
/// ```
/// let mut hub = Hub::new(alloc, 1, 1, 64, 32).ok()?;
/// let room = Text::of(String::from_str(alloc, "board").ok()?);
/// let text = Text::of(String::from_str(alloc, r#"{"do": "unwatch", "id": 1}"#).ok()?);
/// let access = Access::ReadOnly;
/// let events = [Event::Open { room, access }, Event::Receive { session: 1, text }];
/// let answers = hub.run(alloc, events.as_slice()).ok()?;
/// assert!(rt; matches!(&answers[1], Answer::Heard(Heard::Answered { short: 0 })));
/// ```
#[derive(Drop)]
pub enum Event {
    Open {
        room: Text,
        access: Access,
    },
    Receive {
        session: u64,
        text: Text,
    },
    Draw {
        session: u64,
    },
    Close {
        session: u64,
    },
    /// Of the wills that closed sessions left, the oldest is done.
    DoWill,
    /// The room of that name begins anew.
    Forget {
        room: Text,
    },
    /// The room of that name begins anew, with this document at this revision.
    Adopt {
        room: Text,
        rev: u64,
        document: Tree,
    },
    /// Rooms that begin from now on begin at this revision or above.
    RaiseFloor {
        rev: u64,
    },
}

/// A session that was opened.
///
/// ```
/// let mut hub = Hub::new(alloc, 1, 7, 64, 32).ok()?;
/// let first = hub.open(alloc, "board", Access::ReadWrite).ok()?;
/// hub.close(first.session).ok()?;
/// let second = hub.open(alloc, "board", Access::ReadWrite).ok()?;
/// assert!(rt; first.session == 7 && second == Opening { session: 8, rev: 0 });
/// ```
#[derive(Clone, Copy, Debug, PartialEq, Eq)]
pub struct Opening {
    /// The number of the session, which is never used again.
    pub session: u64,
    /// The revision of its room, as `welcome` says it.
    pub rev: u64,
}

/// The outcome of a received text.
///
/// ```
/// let mut hub = Hub::new(alloc, 1, 1, 64, 32).ok()?;
/// let session = hub.open(alloc, "board", Access::ReadWrite).ok()?.session;
/// // The welcome waits, and then 31 replies.
/// for _ in 0..31 {
///     hub.receive(alloc, session, r#"{"do": "unwatch", "id": 1}"#).ok()?;
/// }
/// assert!(rt; hub.receive(alloc, session, "anything") == Ok(Heard::Busy));
/// ```
#[derive(Clone, Copy, Debug, PartialEq, Eq)]
pub enum Heard {
    /// One reply was added to the outbox. `short` is the number of watchers whose outboxes folded
    /// because memory ran out while they were notified.
    Answered { short: u64 },
    /// 32 replies wait already. The text was not read.
    Busy,
}

/// The answer to an event.
///
/// ```
/// let mut hub = Hub::new(alloc, 1, 1, 64, 32).ok()?;
/// let room = Text::of(String::from_str(alloc, "two words").ok()?);
/// let events = [Event::Open { room, access: Access::ReadWrite }, Event::Draw { session: 1 }];
/// let answers = hub.run(alloc, events.as_slice()).ok()?;
/// // No room may have that name, so no session was opened.
/// assert!(rt; matches!(&answers[0], Answer::NotOpened(OpenFault::RoomName)));
/// assert!(rt; matches!(&answers[1], Answer::NoSession));
/// ```
#[derive(Debug, Drop)]
pub enum Answer {
    Opened(Opening),
    NotOpened(OpenFault),
    Heard(Heard),
    /// The text at the front of the session's outbox; `None` if nothing waited.
    Drawn(Option<Text>),
    Closed,
    /// A will is done, and the room's next revision made if it accepts the patch. `short` is as in
    /// [`Heard::Answered`].
    WillDone { short: u64 },
    /// No will is left to be done.
    NoWill,
    /// The room began anew, at revision `rev`.
    Forgotten { rev: u64 },
    NotForgotten(ForgetFault),
    /// The room began anew, with the document and at the revision of the event.
    Adopted,
    NotAdopted(AdoptFault),
    FloorRaised,
    NoSession,
}
