//! Since when each room is empty.
use std::alloc::{AllocError, Global};
use std::marker::Model;

/// For each room, by its index in the hub, the second in which a session last left it. If nobody is
/// in the room, it has been empty since then.
///
/// ```
/// let mut empty = EmptyRooms::new(alloc);
/// empty.admit(1).ok()?;
/// empty.note_left(1, 60);
/// assert!(rt; empty.since(1) == 60 && empty.since(0) == 0);
/// ```
#[derive(Drop)]
pub struct EmptyRooms {
    left: Vec<u64>,
}

impl Model for EmptyRooms {
    ghost use Rattle.std.specs.Prelude.{ℕ, List};

    ghost Value = { List ℕ };

    ghost view = { λ rooms. rooms.left.items };
}

impl EmptyRooms {
    ghost use Rattle.std.specs.Prelude.{◌≡◌, ◌<◌, [], length, IsOk, OnOk, OnErr};
    ghost use Rattle.relay_schedule.specs.Empty.{admitting, with_left, since};

    /// A table without rooms.
    ///
    /// ```
    /// assert!(rt; EmptyRooms::new(alloc).as_slice().is_empty());
    /// ```
    pub fn new(alloc: Global) -> EmptyRooms
        ensures { result ≡ [] }
    {
        EmptyRooms {
            left: Vec::new(alloc),
        }
    }

    /// Takes the memory for a room, and for those of lower indexes. Without it the room counts as
    /// empty since the beginning. `AllocError` leaves the others as they were.
    ///
    /// ```
    /// let mut empty = EmptyRooms::new(alloc);
    /// empty.admit(2).ok()?;
    /// assert!(rt; empty.as_slice() == [0, 0, 0].as_slice());
    /// ```
    pub fn admit(&mut self, index: usize) -> Result<(), AllocError>
        ensures ok { OnOk result (self.new ≡ admitting index self.old) }
        ensures err { OnErr result (self.new ≡ self.old) }
        ensures admitted { index < length self.old → IsOk result }
    {
        let count = index.saturating_add(1);
        if count <= self.left.len() {
            return Ok(());
        }
        self.left.resize(count, 0)
    }

    /// Notes that a session left a room in this second, if the room is admitted.
    ///
    /// ```
    /// let mut empty = EmptyRooms::new(alloc);
    /// empty.admit(0).ok()?;
    /// empty.note_left(0, 60);
    /// empty.note_left(1, 61);
    /// assert!(rt; empty.as_slice() == [60].as_slice());
    /// ```
    pub fn note_left(&mut self, index: usize, second: u64)
        ensures { self.new ≡ with_left index second self.old }
    {
        if let Some(left) = self.left.get_mut(index) {
            *left = second;
        }
    }

    /// The second in which a session last left each room, by the room's index.
    ///
    /// ```
    /// let mut empty = EmptyRooms::new(alloc);
    /// empty.admit(1).ok()?;
    /// empty.note_left(1, 60);
    /// assert!(rt; empty.as_slice() == [0, 60].as_slice());
    /// ```
    pub fn as_slice(&self) -> &[u64]
        ensures { result.now ≡ self.now }
    {
        self.left.as_slice()
    }

    /// The second in which a session last left a room.
    ///
    /// ```
    /// let mut empty = EmptyRooms::new(alloc);
    /// empty.admit(0).ok()?;
    /// empty.note_left(0, 60);
    /// empty.note_left(0, 75);
    /// assert!(rt; empty.since(0) == 75);
    /// ```
    pub fn since(&self, index: usize) -> u64
        ensures { result ≡ since index self.now }
    {
        self.left.get(index).copied().unwrap_or(0)
    }
}
