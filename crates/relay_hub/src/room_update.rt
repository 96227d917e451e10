//! The message that brings a client of a room from an earlier revision to the present one, for
//! whoever keeps rooms without a session.
ghost use Rattle.std.specs.Prelude.{◌≡◌, ◌≤◌, IfOk, string_bytes};
ghost use Rattle.relay_room.specs.Room.{revision};
ghost use Rattle.relay_hub.specs.EncodedPatch.{IsTextOf};
ghost use Rattle.relay_hub.specs.Since.{is_snapshot, message_since, update_from, update_message};
ghost use Rattle.relay_hub.specs.Since.{Tells, Writes};

use relay_patch::Patch;
use relay_proto::{patch_text, shown_text};
use relay_room::{CatchUp, Room};
use relay_tree::Budget;
use relay_view::View;
use std::alloc::{AllocError, Global};

/// A message about a room to a client that watches it.
///
/// ```
/// let mut hub = Hub::new(alloc, 1, 1, 64, 32).ok()?;
/// hub.open(alloc, "board", Access::ReadWrite).ok()?;
/// let whole = View::read(alloc, &read(alloc, r#"[""]"#).ok()?).ok()?;
/// let update = hub.update_since(alloc, 0, None, &whole).ok()??;
/// assert!(rt; update.is_snapshot && update.revision == 0);
/// assert!(rt; update.text.as_str() == r#"{"kind":"snapshot","rev":0,"view":[[null]]}"#);
/// ```
#[derive(Drop)]
pub struct RoomUpdate {
    /// The revision to which it leads.
    pub revision: u64,
    /// True if it is a snapshot, and no patch.
    pub is_snapshot: bool,
    /// Its text (`docs/PROTOCOL.md`, "Messages").
    pub text: String,
}

/// The message for a client that holds its view of revision `held`, or nothing. `None` if that is
/// the present revision.
pub(crate) fn update_since(
    alloc: Global,
    room: &Room,
    held: Option<u64>,
    view: &View,
) -> Result<Option<RoomUpdate>, AllocError>
    ensures { IfOk result (λ update.
        Tells (revision room.now) (message_since room.now view.now held) update) }
{
    let how = match held {
        None => CatchUp::Snapshot,
        Some(rev) if rev == room.revision() => return Ok(None),
        Some(rev) => update_from(alloc, room, rev, view)?,
    };
    Ok(Some(write(alloc, room, view, how)?))
}

/// The update for a client that holds its view of a revision.
fn update_from(alloc: Global, room: &Room, rev: u64, view: &View) -> Result<CatchUp, AllocError>
    ensures { IfOk result (λ how. how ≡ update_from room.now view.now rev) }
{
    if rev > room.revision() {
        return Ok(CatchUp::Snapshot);
    }
    match room.catch_up_within(alloc, rev, view, Budget::Left(room.weight())) {
        Ok(how) => Ok(how),
        Err(_) => Err(AllocError),
    }
}

/// Writes the message of an update.
fn write(alloc: Global, room: &Room, view: &View, how: CatchUp) -> Result<RoomUpdate, AllocError>
    ensures { IfOk result (λ update.
        Writes (revision room.now) (update_message room.now view.now how) update) }
{
    let revision = room.revision();
    let (is_snapshot, text) = match how {
        CatchUp::Nothing => (
            false,
            patch_text(alloc, revision, &Patch::from_ops(Vec::new(alloc)))?,
        ),
        CatchUp::Patch(patch) => (false, patch_text(alloc, revision, &patch)?),
        CatchUp::Snapshot => (true, shown_text(alloc, revision, view, room.document())?),
    };
    Ok(RoomUpdate {
        revision,
        is_snapshot,
        text,
    })
}
