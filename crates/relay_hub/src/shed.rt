//! Memory that a hub gives back when there is no more: what its rooms remember, and patches that
//! wait.
ghost use Rattle.std.specs.Prelude.{◌≡◌, map};
ghost use Rattle.relay_hub.specs.Representation.{rooms_of};
ghost use Rattle.relay_hub.specs.Shed.{shed_budget, shed_named, shed_session};

use crate::room_sessions::RoomSessions;
use crate::session::Session;
use indexmap::IndexMap;
use relay_tree::Budget;

/// The weight that a room's history may have afterwards: none, if its weight has a bound. Without
/// one a room is promised its last revisions, whatever they weigh, and keeps them.
pub fn shed_budget(budget: Budget) -> Budget
    ensures { result ≡ shed_budget budget }
{
    match budget {
        Budget::Unbounded => Budget::Unbounded,
        Budget::Left(_) => Budget::Left(0),
    }
}

/// Each room forgets the oldest changes that the budget does not pay for, and the patches that wait
/// for its sessions fold.
pub fn shed_rooms(rooms: &mut IndexMap<String, RoomSessions>, budget: Budget)
    ensures { rooms_of rooms.new.entries ≡ map (shed_named budget) (rooms_of rooms.old.entries) }
{
    for index in 0..rooms.len() {
        let Some(room_sessions) = rooms.get_index_mut(index) else {
            unreachable!()
        };
        room_sessions.shed(budget);
    }
}

/// The patches that wait for each session fold.
pub fn shed_sessions(sessions: &mut Vec<Session>)
    ensures { sessions.new.items ≡ map shed_session sessions.old.items }
{
    for index in 0..sessions.len() {
        sessions[index].shed();
    }
}
