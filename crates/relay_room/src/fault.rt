//! The errors of creating a room, of editing it, and of catching up.
ghost use Rattle.std.specs.Prelude.{◌≡◌};
ghost use Rattle.relay_history.specs.declared.fault.HistoryFault.TheVariants as history;
ghost use Rattle.relay_room.specs.declared.fault.RoomFault.TheVariants as room;
ghost use Rattle.relay_room.specs.declared.fault.EditFault.TheVariants as edit;
ghost use Rattle.relay_room.specs.declared.fault.CatchFault.TheVariants as catch;

use relay_history::HistoryFault;
use relay_patch::ApplyFault;
use std::alloc::AllocError;
use thiserror::Error;

/// The reason why no room is created, in the order of the checks.
///
/// ```
/// assert!(rt; matches!(Room::new(alloc, 0), Err(RoomFault::BadLimit)));
/// let late = Room::starting_at(alloc, read(alloc, "[1]").ok()?, 1 << 53, 64);
/// assert!(rt; matches!(late, Err(RoomFault::BadRevision)));
/// ```
#[derive(Clone, Copy, Debug, PartialEq, Eq, Error)]
pub enum RoomFault {
    /// The document is deeper than `Bounds::DOCUMENT` allows.
    #[error("too deep")]
    TooDeep,
    /// The document weighs more than `Bounds::DOCUMENT` allows.
    #[error("too heavy")]
    TooHeavy,
    /// The revision is above `2^53 - 1`.
    #[error("a revision is at most 2^53 - 1")]
    BadRevision,
    /// The number of revisions to hold is not 1 to 1,024.
    #[error("a room holds the changes of 1 to 1,024 revisions")]
    BadLimit,
    #[error("out of memory")]
    NoMemory,
}

impl From<HistoryFault> for RoomFault {
    ghost use Rattle.relay_room.specs.Fault.{of_history};

    ghost from_gives = { λ fault result. result ≡ of_history fault };

    fn from(fault: HistoryFault) -> RoomFault {
        match fault {
            HistoryFault::BadLimit => RoomFault::BadLimit,
            HistoryFault::NoMemory => RoomFault::NoMemory,
        }
    }
}

/// The reason why an edit makes no revision, in the order of the checks. The room is unchanged.
///
/// ```
/// let mut room = Room::starting_at(alloc, read(alloc, "[1]").ok()?, 7, 64).ok()?;
/// let ops = read(alloc, r#"[{"op": "remove", "path": "/5"}]"#).ok()?;
/// let patch = Patch::from_owned(alloc, ops, PatchLimits::REQUEST).ok()?;
/// let stale = room.edit(alloc, ReservedRevision::new(alloc).ok()?, Some(6), &patch);
/// assert!(rt; stale == Err(EditFault::Stale { present: 7 }));
/// let refused = room.edit(alloc, ReservedRevision::new(alloc).ok()?, Some(7), &patch);
/// assert!(rt; refused == Err(EditFault::Apply(ApplyFault { at: 0, cause: Cause::Missing })));
/// ```
#[derive(Clone, Copy, Debug, PartialEq, Eq, Error)]
pub enum EditFault {
    /// The present revision is `2^53 - 1`, the last possible one.
    #[error("no revision is left")]
    Exhausted,
    /// The edit has a base that is not the present revision.
    #[error("the present revision is {present}")]
    Stale { present: u64 },
    /// The patch is refused, or memory ran out.
    #[error("{0}")]
    Apply(ApplyFault),
}

impl From<ApplyFault> for EditFault {
    ghost from_gives = { λ fault result. result ≡ edit.Apply fault };

    fn from(fault: ApplyFault) -> EditFault {
        EditFault::Apply(fault)
    }
}

/// The reason why a client cannot catch up, in the order of the checks.
///
/// ```
/// let room = Room::starting_at(alloc, read(alloc, "[1]").ok()?, 7, 64).ok()?;
/// let view = View::read(alloc, &read(alloc, r#"["/0"]"#).ok()?).ok()?;
/// assert!(rt; matches!(room.catch_up(alloc, 8, &view), Err(CatchFault::Future)));
/// ```
#[derive(Clone, Copy, Debug, PartialEq, Eq, Error)]
pub enum CatchFault {
    /// The revision is above the present one.
    #[error("a revision that is still to come")]
    Future,
    #[error("out of memory")]
    NoMemory,
}

impl From<AllocError> for CatchFault {
    ghost from_gives = { λ _ result. result ≡ catch.NoMemory };

    fn from(_: AllocError) -> CatchFault {
        CatchFault::NoMemory
    }
}
