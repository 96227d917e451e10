//! Changes of what a store keeps.
ghost use Rattle.std.specs.Prelude.{◌≡◌, IfOk, map};
ghost use Rattle.relay_store.specs.Texts.{lent, owned};

use std::alloc::{AllocError, Global};

/// A change of what a store keeps. `T` is a text: `&str` for a commit, `String` for what is read
/// back. A session is the number by which the hub knows it. The texts of a room are the messages
/// that a client which watches its whole document is told.
///
/// ```
/// let edit = Change::Edit { room: "board", revision: 3, text: "{}" };
/// let kept = edit.into_owned(alloc).ok()?;
/// assert!(rt; matches!(kept.borrow(), Change::Edit { room: "board", revision: 3, text: "{}" }));
/// ```
#[derive(Clone, Copy, Debug, Drop)]
pub enum Change<T> {
    /// A room's record begins with a snapshot message, at its revision: the room is new, or its
    /// record is taken anew. It replaces all that was kept of the room.
    Begin { room: T, revision: u64, text: T },
    /// A room goes on to a revision, by a patch message that leads there. If no room of that name
    /// is kept, nothing changes.
    Edit { room: T, revision: u64, text: T },
    /// A room is forgotten.
    End { room: T },
    /// No room begins below this revision any more. The floor never falls.
    RaiseFloor { revision: u64 },
    /// A session left a will, in place of the one that it left before.
    LeaveWill { session: u64, room: T, text: T },
    /// The will of a session is done or withdrawn.
    DropWill { session: u64 },
}

impl<'a> Change<&'a str> {
    /// Copies the texts.
    pub fn into_owned(self, alloc: Global) -> Result<Change<String>, AllocError>
        ensures { IfOk result (λ change. owned change ≡ lent self.entry) }
    {
        Ok(match self {
            Change::Begin {
                room,
                revision,
                text,
            } => Change::Begin {
                room: room.to_string(alloc)?,
                revision,
                text: text.to_string(alloc)?,
            },
            Change::Edit {
                room,
                revision,
                text,
            } => Change::Edit {
                room: room.to_string(alloc)?,
                revision,
                text: text.to_string(alloc)?,
            },
            Change::End { room } => Change::End {
                room: room.to_string(alloc)?,
            },
            Change::RaiseFloor { revision } => Change::RaiseFloor { revision },
            Change::LeaveWill {
                session,
                room,
                text,
            } => Change::LeaveWill {
                session,
                room: room.to_string(alloc)?,
                text: text.to_string(alloc)?,
            },
            Change::DropWill { session } => Change::DropWill { session },
        })
    }
}

impl Change<String> {
    /// Borrows the texts. Allocates nothing.
    pub fn borrow(&self) -> Change<&str>
        ensures { lent result ≡ owned self.now }
    {
        match self {
            Change::Begin {
                room,
                revision,
                text,
            } => Change::Begin {
                room: room.as_str(),
                revision: *revision,
                text: text.as_str(),
            },
            Change::Edit {
                room,
                revision,
                text,
            } => Change::Edit {
                room: room.as_str(),
                revision: *revision,
                text: text.as_str(),
            },
            Change::End { room } => Change::End {
                room: room.as_str(),
            },
            Change::RaiseFloor { revision } => Change::RaiseFloor {
                revision: *revision,
            },
            Change::LeaveWill {
                session,
                room,
                text,
            } => Change::LeaveWill {
                session: *session,
                room: room.as_str(),
                text: text.as_str(),
            },
            Change::DropWill { session } => Change::DropWill { session: *session },
        }
    }
}
