//! The rowids of the rows that a later change may replace.
use relay_store::Change;
use std::alloc::{AllocError, Global};
use std::collections::BTreeMap;

/// The rowids of the rows of each room, of each session's will and of the floor. They only say
/// where to look: a row is removed once it was read, so no clause rests on them.
#[derive(Drop)]
pub(crate) struct LiveRows {
    alloc: Global,
    rooms: BTreeMap<String, Vec<u64>>,
    wills: BTreeMap<u64, Vec<u64>>,
    floors: Vec<u64>,
}

impl LiveRows {
    /// Begins with no rows. Allocates nothing yet.
    pub fn new(alloc: Global) -> LiveRows {
        LiveRows {
            alloc,
            rooms: BTreeMap::new(alloc),
            wills: BTreeMap::new(alloc),
            floors: Vec::new(alloc),
        }
    }

    /// Takes out the rowids of the rows that a change may replace.
    pub fn take(&mut self, change: Change<&str>) -> Vec<u64> {
        let taken = match change {
            Change::Begin { room, .. } => self.rooms.remove(room),
            Change::Edit { .. } => None,
            Change::End { room } => self.rooms.remove(room),
            Change::RaiseFloor { .. } => {
                Some(std::mem::replace(&mut self.floors, Vec::new(self.alloc)))
            }
            Change::LeaveWill { session, .. } => self.wills.remove(&session),
            Change::DropWill { session } => self.wills.remove(&session),
        };
        taken.unwrap_or(Vec::new(self.alloc))
    }

    /// Notes the rowid of the row of a change.
    pub fn note(&mut self, id: u64, change: Change<&str>) -> Result<(), AllocError> {
        match change {
            Change::Begin { room, .. } => note_room(self.alloc, &mut self.rooms, room, id),
            Change::Edit { room, .. } => note_room(self.alloc, &mut self.rooms, room, id),
            Change::End { room } => note_room(self.alloc, &mut self.rooms, room, id),
            Change::RaiseFloor { .. } => Ok(self.floors.push(id)?),
            Change::LeaveWill { session, .. } => {
                note_will(self.alloc, &mut self.wills, session, id)
            }
            Change::DropWill { session } => note_will(self.alloc, &mut self.wills, session, id),
        }
    }
}

fn note_room(
    alloc: Global,
    rooms: &mut BTreeMap<String, Vec<u64>>,
    room: &str,
    id: u64,
) -> Result<(), AllocError> {
    let mut ids = rooms.remove(room).unwrap_or(Vec::new(alloc));
    ids.push(id)?;
    rooms.insert(room.to_string(alloc)?, ids)?;
    Ok(())
}

fn note_will(
    alloc: Global,
    wills: &mut BTreeMap<u64, Vec<u64>>,
    session: u64,
    id: u64,
) -> Result<(), AllocError> {
    let mut ids = wills.remove(&session).unwrap_or(Vec::new(alloc));
    ids.push(id)?;
    wills.insert(session, ids)?;
    Ok(())
}
