//! The bound of the texts of snapshots that the rooms of a hub keep together.
ghost use Rattle.std.specs.Prelude.{◌≡◌};
ghost use Rattle.relay_hub.specs.Representation.{rooms_of};

use crate::room_sessions::RoomSessions;
use crate::snapshot_text::MAX_KEPT_BYTES;
use indexmap::IndexMap;

/// Counts the text that the room at `index` keeps after a draw; the one before had so many bytes.
/// `total` is at least what the texts of all rooms have together. If it is above
/// [`MAX_KEPT_BYTES`], all other rooms drop theirs. Until then a text that a room drops by itself
/// stays counted. Allocates nothing.
pub fn bound_texts(
    rooms: &mut IndexMap<String, RoomSessions>,
    total: &mut u64,
    index: usize,
    before: u64,
)
    ensures { rooms_of rooms.new.entries ≡ rooms_of rooms.old.entries }
{
    let after = bytes_at(rooms, index);
    if after == before {
        return;
    }
    *total = total.saturating_sub(before).saturating_add(after);
    if *total > MAX_KEPT_BYTES {
        drop_others(rooms, index);
        *total = after;
    }
}

/// The length in bytes of the text that the room at `index` keeps; 0 if it keeps none.
fn bytes_at(rooms: &IndexMap<String, RoomSessions>, index: usize) -> u64 {
    match rooms.get_index(index) {
        Some((_, room_sessions)) => room_sessions.snapshot_bytes(),
        None => 0,
    }
}

/// All rooms but the one at `index` drop their texts.
fn drop_others(rooms: &mut IndexMap<String, RoomSessions>, index: usize)
    ensures { rooms_of rooms.new.entries ≡ rooms_of rooms.old.entries }
{
    for other in 0..rooms.len() {
        if other != index {
            drop_at(rooms, other);
        }
    }
}

/// The room at `index`, if there is one, drops its text.
fn drop_at(rooms: &mut IndexMap<String, RoomSessions>, index: usize)
    ensures { rooms_of rooms.new.entries ≡ rooms_of rooms.old.entries }
{
    if let Some(room_sessions) = rooms.get_index_mut(index) {
        room_sessions.drop_snapshot();
    }
}
