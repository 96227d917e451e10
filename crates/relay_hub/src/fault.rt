//! The errors of the hub's calls.
use crate::event::Answer;
use thiserror::Error;

/// The cause for which a hub cannot be made.
///
/// ```
/// // Rooms keep the changes of at most 1,024 revisions.
/// assert!(rt; matches!(Hub::new(alloc, 1, 1, 1_025, 32), Err(HubNewFault::BadLimit)));
/// // 2^53 is no count, and so no epoch.
/// assert!(rt; matches!(Hub::new(alloc, 1 << 53, 1, 64, 32), Err(HubNewFault::BadLimit)));
/// ```
#[derive(Clone, Copy, Debug, PartialEq, Eq, Error)]
pub enum HubNewFault {
    /// `epoch` or `first` is not a count, or `rooms`, `sessions`, `history` or
    /// `max_waiting_patches` is out of its range.
    #[error("a limit out of range")]
    BadLimit,
    #[error("out of memory")]
    NoMemory,
}

/// The causes for which a session cannot be opened, in the order of the checks. The hub is
/// unchanged.
///
/// ```
/// let config = HubConfig { rooms: 1, sessions: 1, ..HubConfig::new(1, 1, 64, 32) };
/// let mut hub = Hub::with_config(alloc, config).ok()?;
/// hub.open(alloc, "board", Access::ReadWrite).ok()?;
/// assert!(rt; hub.open(alloc, "a/b", Access::ReadWrite) == Err(OpenFault::RoomName));
/// assert!(rt; hub.open(alloc, "another", Access::ReadWrite) == Err(OpenFault::RoomsFull));
/// assert!(rt; hub.open(alloc, "board", Access::ReadWrite) == Err(OpenFault::SessionsFull));
/// ```
#[derive(Clone, Copy, Debug, PartialEq, Eq, Error)]
pub enum OpenFault {
    /// The name is not 1 to 64 ASCII letters, digits, `-` and `_`.
    #[error("no name of a room")]
    RoomName,
    /// No room has this name, there are as many rooms as the configuration allows, and none of them
    /// is evictable.
    #[error("too many rooms")]
    RoomsFull,
    /// As many sessions are open, or have left a will that is not done yet, as the configuration
    /// allows.
    #[error("too many sessions")]
    SessionsFull,
    /// No session number is left.
    #[error("no session number is left")]
    Exhausted,
    #[error("out of memory")]
    NoMemory,
}

/// The causes for which a room cannot be forgotten, in the order of the checks. The hub is
/// unchanged.
///
/// ```
/// let mut hub = Hub::new(alloc, 1, 1, 64, 32).ok()?;
/// hub.open(alloc, "board", Access::ReadOnly).ok()?;
/// assert!(rt; hub.forget(alloc, "another") == Err(ForgetFault::NoRoom));
/// assert!(rt; hub.forget(alloc, "board") == Err(ForgetFault::Occupied));
/// ```
#[derive(Clone, Copy, Debug, PartialEq, Eq, Error)]
pub enum ForgetFault {
    /// No room has that name.
    #[error("no such room")]
    NoRoom,
    /// A session is open in the room.
    #[error("somebody is in the room")]
    Occupied,
    /// No revision is left.
    #[error("no revision is left")]
    Exhausted,
    #[error("out of memory")]
    NoMemory,
}

/// The causes for which a room adopts no document, in the order of the checks. The hub is
/// unchanged.
///
/// ```
/// let mut hub = Hub::new(alloc, 1, 1, 64, 32).ok()?;
/// let session = hub.open(alloc, "board", Access::ReadOnly).ok()?.session;
/// let null = || Tree::from(Node::Null);
/// assert!(rt; hub.adopt(alloc, "another", 1, null()) == Err(AdoptFault::NoRoom));
/// assert!(rt; hub.adopt(alloc, "board", 1, null()) == Err(AdoptFault::Occupied));
/// hub.close(session).ok()?;
/// assert!(rt; hub.adopt(alloc, "board", 0, null()) == Err(AdoptFault::NotAbove));
/// ```
#[derive(Clone, Copy, Debug, PartialEq, Eq, Error)]
pub enum AdoptFault {
    /// No room has that name.
    #[error("no such room")]
    NoRoom,
    /// A session is open in the room.
    #[error("somebody is in the room")]
    Occupied,
    /// The revision is not above that of the room, or is above `2^53 - 1`.
    #[error("the revision is not above the present one")]
    NotAbove,
    /// The document is deeper than `Bounds::DOCUMENT` allows.
    #[error("too deep")]
    TooDeep,
    /// The document weighs more than `Bounds::DOCUMENT` allows.
    #[error("too heavy")]
    TooHeavy,
    #[error("out of memory")]
    NoMemory,
}

/// The cause for which a session cannot be served. The hub is unchanged.
///
/// ```
/// let mut hub = Hub::new(alloc, 1, 1, 64, 32).ok()?;
/// let session = hub.open(alloc, "board", Access::ReadWrite).ok()?.session;
/// hub.close(session).ok()?;
/// assert!(rt; hub.draw(alloc, session) == Err(HubFault::NoSession));
/// assert!(rt; hub.receive(alloc, session, "{}") == Err(HubFault::NoSession));
/// ```
#[derive(Clone, Copy, Debug, PartialEq, Eq, Error)]
pub enum HubFault {
    /// No open session has that number.
    #[error("no such session")]
    NoSession,
    #[error("out of memory")]
    NoMemory,
}

/// No open session has that number. The hub is unchanged.
///
/// ```
/// let mut hub = Hub::new(alloc, 1, 1, 64, 32).ok()?;
/// assert!(rt; hub.close(1) == Err(NoSession));
/// ```
#[derive(Clone, Copy, Debug, PartialEq, Eq, Error)]
#[error("no such session")]
pub struct NoSession;

/// A run stopped because memory ran out. The events of `answers` were done, and the next one
/// changed nothing.
#[derive(Drop)]
pub struct RunFault {
    pub answers: Vec<Answer>,
}
