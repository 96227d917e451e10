//! An operator's view of a room: its name and its size, but not its document.
ghost use Rattle.std.specs.Prelude.{◌≡◌, string_bytes};
ghost use Rattle.relay_hub.specs.Summary.{shown_by, summary_of};

use crate::room_sessions::RoomSessions;

/// A room's name and size.
///
/// ```
/// let mut hub = Hub::new(alloc, 1, 1, 64, 32).ok()?;
/// hub.open(alloc, "board", Access::ReadWrite).ok()?;
/// let board = hub.room_named("board")?;
/// assert!(rt; board.name == "board" && board.sessions == 1 && board.revision == 0);
/// // The document is null, and each value weighs 8.
/// assert!(rt; board.weight == 8);
/// ```
#[derive(Clone, Copy, Debug)]
pub struct RoomSummary<'h> {
    pub name: &'h str,
    pub revision: u64,
    /// The number of sessions that are open in it.
    pub sessions: usize,
    /// The weight of its present document.
    pub weight: u64,
    /// The weight of the changes that it holds together.
    pub history: u64,
}

/// The summary of a room with this name. Allocates nothing.
pub(crate) fn summary_of<'h>(name: &'h String, room_sessions: &RoomSessions) -> RoomSummary<'h>
    ensures { shown_by result ≡ summary_of (string_bytes name.now, room_sessions.now) }
{
    RoomSummary {
        name: name.as_str(),
        revision: room_sessions.room().revision(),
        sessions: room_sessions.len(),
        weight: room_sessions.room().weight(),
        history: room_sessions.room().history_weight(),
    }
}
