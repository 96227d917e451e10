//! Opening a session in a room. All memory is allocated before anything changes.
ghost use Rattle.std.specs.Prelude.{◌≡◌, ◌≤◌, Some, None, [], ◌∷◌, ◌++◌, ◌<◌, IfOk, IfSome, OnOk};
ghost use Rattle.std.specs.Prelude.{OnErr, length, position};
ghost use Rattle.relay_room.specs.Room.{begun, revision};
ghost use Rattle.relay_tree.specs.Document.{null};
ghost use Rattle.relay_limits.specs.declared.TheConstants.{MAX_COUNT};
ghost use Rattle.relay_hub.specs.Call.{IsAbove, IsFresh};
ghost use Rattle.relay_hub.specs.Representation.{rooms_of};
ghost use Rattle.relay_hub.specs.Session.{newcomer};
ghost use Rattle.relay_hub.specs.State.{IsConfig, room_sessions, is_evictable, index_named};
ghost use Rattle.relay_hub.specs.State.{vacant_index};
ghost use Rattle.relay_hub.specs.Step.{ChangesOnly, EntersRooms, Founds, opening_of};

use crate::config::HubConfig;
use crate::room_sessions::RoomSessions;
use crate::session::Session;
use crate::will::Will;
use indexmap::IndexMap;
use relay_access::Access;
use relay_room::{Room, RoomFault};
use relay_tree::{Node, Tree};
use std::alloc::{AllocError, Global};

/// A session to be opened.
#[derive(Clone, Copy)]
pub struct NewSession {
    pub number: u64,
    pub access: Access,
    /// The configuration of its hub.
    pub config: HubConfig,
    /// The revision at which its room begins, if it is new.
    pub floor: u64,
    /// The index of the room that a new one replaces; `None`: it comes last.
    pub vacant: Option<usize>,
}

impl NewSession {
    /// Makes the session, for a room at revision `rev`.
    fn session(self, alloc: Global, rev: u64) -> Result<Session, AllocError>
        requires config { IsConfig self.config }
        ensures { IfOk result (λ x. x ≡ newcomer self.config self.access rev self.number) }
    {
        Session::new(alloc, self.config, self.access, rev, self.number)
    }
}

/// Opens a session in the room at `index`, or in a new room if `index` is `None`. Returns the
/// room's index, and its revision. Out of memory changes nothing.
pub fn open_session(
    alloc: Global,
    rooms: &mut IndexMap<String, RoomSessions>,
    name: &str,
    index: Option<usize>,
    new_session: NewSession,
) -> Result<(usize, u64), AllocError>
    requires index { index ≡ index_named name.now (rooms_of rooms.old.entries) }
    requires fresh { IsFresh new_session.number (rooms_of rooms.old.entries) }
    requires config { IsConfig new_session.config }
    requires floor { new_session.floor ≤ MAX_COUNT }
    requires vacant { IfSome new_session.vacant (λ i. i < length (rooms_of rooms.old.entries)) }
    ensures ok { IfOk result (λ at. EntersRooms (opening_of new_session.number at.1) (λ rev.
        newcomer new_session.config new_session.access rev new_session.number) new_session.vacant
        new_session.config.history new_session.floor name.now index (rooms_of rooms.old.entries)
        at.0 (rooms_of rooms.new.entries)) }
    ensures err { OnErr result (rooms_of rooms.new.entries ≡ rooms_of rooms.old.entries) }
{
    let Some(index) = index else {
        let index = begin_room(alloc, rooms, name, new_session)?;
        return Ok((index, new_session.floor));
    };
    let Some(room_sessions) = rooms.get_index_mut(index) else {
        unreachable!()
    };
    let rev = room_sessions.room().revision();
    join_room(alloc, room_sessions, new_session)?;
    Ok((index, rev))
}

/// Opens a session in a room that is there.
fn join_room(
    alloc: Global,
    room_sessions: &mut RoomSessions,
    new_session: NewSession,
) -> Result<(), AllocError>
    requires fresh { IsAbove new_session.number room_sessions.old.sessions }
    requires config { IsConfig new_session.config }
    ensures ok { OnOk result (ChangesOnly new_session.number
        (Some (newcomer new_session.config new_session.access (revision room_sessions.old.room)
        new_session.number)) room_sessions.old room_sessions.new) }
    ensures err { OnErr result (room_sessions.new ≡ room_sessions.old) }
{
    let session = new_session.session(alloc, room_sessions.room().revision())?;
    room_sessions.join(session)?;
    Ok(())
}

/// Makes a room for a new session. Returns the room's index.
fn begin_room(
    alloc: Global,
    rooms: &mut IndexMap<String, RoomSessions>,
    name: &str,
    new_session: NewSession,
) -> Result<usize, AllocError>
    requires absent { index_named name.now (rooms_of rooms.old.entries) ≡ None }
    requires config { IsConfig new_session.config }
    requires floor { new_session.floor ≤ MAX_COUNT }
    requires vacant { IfSome new_session.vacant (λ i. i < length (rooms_of rooms.old.entries)) }
    ensures ok { IfOk result (λ at. Founds new_session.vacant (
      name.now,
      room_sessions (begun null new_session.floor new_session.config.history)
          (newcomer new_session.config new_session.access new_session.floor new_session.number
          ∷ []),
    )
        (rooms_of rooms.old.entries) at (rooms_of rooms.new.entries)) }
    ensures err { OnErr result (rooms_of rooms.new.entries ≡ rooms_of rooms.old.entries) }
{
    let floor = new_session.floor;
    let room = match Room::starting_at(
        alloc,
        Tree::from(Node::Null),
        floor,
        new_session.config.history,
    ) {
        Ok(room) => room,
        Err(RoomFault::NoMemory) => return Err(AllocError),
        Err(_) => unreachable!(),
    };
    let room_sessions = RoomSessions::begin(alloc, room, new_session.session(alloc, floor)?)?;
    let last = rooms.len();
    rooms.insert(String::from_str(alloc, name)?, room_sessions)?;
    match new_session.vacant {
        Some(index) => {
            let _ = rooms.swap_remove_index(index);
            Ok(index)
        }
        None => Ok(last),
    }
}

/// The index of the first room that is evictable, if there are as many as there may be. None is
/// while a will is left to be done.
pub fn vacant_index(
    most: u64,
    wills: &Vec<Will>,
    rooms: &IndexMap<String, RoomSessions>,
) -> Option<usize>
    ensures { result ≡ vacant_index most wills.now.items (rooms_of rooms.now.entries) }
{
    if !wills.is_empty() || (rooms.len() as u64) < most {
        return None;
    }
    first_vacant(rooms)
}

fn first_vacant(rooms: &IndexMap<String, RoomSessions>) -> Option<usize>
    ensures { result ≡ position (λ room. is_evictable room.1) (rooms_of rooms.now.entries) }
{
    for index in 0..rooms.len() {
        let Some((_, room_sessions)) = rooms.get_index(index) else {
            unreachable!()
        };
        if room_sessions.is_evictable() {
            return Some(index);
        }
    }
    None
}
