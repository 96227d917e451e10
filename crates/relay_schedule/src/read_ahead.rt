//! The extent to which a room may be read ahead.
use std::alloc::{AllocError, Global};
use std::marker::Model;

/// The texts that a room was said since the last time that none of its connections waited to be
/// written to, and the number of connections that wait now.
///
/// ```
/// let room = ReadAhead { texts: 3, bytes: 120, writers: 1 };
/// assert!(rt; room.may_read_ahead(ReadAheadLimits { texts: 16, bytes: 32_768 }));
/// assert!(rt; !room.may_read_ahead(ReadAheadLimits { texts: 3, bytes: 32_768 }));
/// ```
#[derive(Clone, Copy, Debug, PartialEq, Eq)]
pub struct ReadAhead {
    pub texts: u64,
    pub bytes: u64,
    pub writers: u64,
}

/// The number of texts, and of bytes in them, that may be read of a room before its watchers are
/// written to.
///
/// ```
/// let limits = ReadAheadLimits { texts: 16, bytes: 100 };
/// assert!(rt; ReadAhead { texts: 1, bytes: 99, writers: 1 }.may_read_ahead(limits));
/// assert!(rt; !ReadAhead { texts: 1, bytes: 100, writers: 1 }.may_read_ahead(limits));
/// ```
#[derive(Clone, Copy, Debug, PartialEq, Eq)]
pub struct ReadAheadLimits {
    pub texts: u64,
    pub bytes: u64,
}

impl ReadAhead {
    ghost use Rattle.std.specs.Prelude.{◌≡◌};
    ghost use Rattle.relay_schedule.specs.ReadAhead.{may_read_ahead, with_text, with_writer};
    ghost use Rattle.relay_schedule.specs.ReadAhead.{without_writer};

    const NONE: ReadAhead = ReadAhead {
        texts: 0,
        bytes: 0,
        writers: 0,
    };

    /// True if the room may be read ahead: said more before its watchers are written to.
    ///
    /// ```
    /// let limits = ReadAheadLimits { texts: 2, bytes: 100 };
    /// assert!(rt; !ReadAhead { texts: 2, bytes: 40, writers: 1 }.may_read_ahead(limits));
    /// // Nobody waits for what was said.
    /// assert!(rt; ReadAhead { texts: 2, bytes: 40, writers: 0 }.may_read_ahead(limits));
    /// ```
    pub fn may_read_ahead(self, limits: ReadAheadLimits) -> bool
        ensures { result ≡ may_read_ahead limits self }
    {
        self.writers == 0 || (self.texts < limits.texts && self.bytes < limits.bytes)
    }

    /// Adds a text of so many bytes. If nobody waits to be written to, it is the first.
    ///
    /// ```
    /// let mut room = ReadAhead { texts: 1, bytes: 40, writers: 1 };
    /// room.add_text(50);
    /// assert!(rt; room.texts == 2 && room.bytes == 90);
    /// room.take_writer();
    /// room.add_text(7);
    /// assert!(rt; room.texts == 1 && room.bytes == 7);
    /// ```
    pub fn add_text(&mut self, bytes: u64)
        ensures { self.new ≡ with_text bytes self.old }
    {
        if self.writers == 0 {
            *self = ReadAhead::NONE;
        }
        self.texts = self.texts.saturating_add(1);
        self.bytes = self.bytes.saturating_add(bytes);
    }

    /// Adds one that waits to be written to.
    ///
    /// ```
    /// let mut room = ReadAhead { texts: 1, bytes: 40, writers: 0 };
    /// room.add_writer();
    /// assert!(rt; room.writers == 1);
    /// ```
    pub fn add_writer(&mut self)
        ensures { self.new ≡ with_writer self.old }
    {
        self.writers = self.writers.saturating_add(1);
    }

    /// Takes out one that was written to, or is gone.
    ///
    /// ```
    /// let mut room = ReadAhead { texts: 1, bytes: 40, writers: 2 };
    /// room.take_writer();
    /// assert!(rt; room.writers == 1);
    /// ```
    pub fn take_writer(&mut self)
        ensures { self.new ≡ without_writer self.old }
    {
        self.writers = self.writers.saturating_sub(1);
    }
}

/// The texts that each room was said, by the room's index in the hub. Contracts see it as
/// `ReadAheads`.
///
/// ```
/// let mut rooms = ReadAheadByRoom::new(alloc, ReadAheadLimits { texts: 1, bytes: 100 });
/// rooms.admit(0).ok()?;
/// rooms.add_writer(0);
/// rooms.add_text(0, 40);
/// assert!(rt; !rooms.may_read_ahead(0));
/// rooms.take_writer(0);
/// assert!(rt; rooms.may_read_ahead(0));
/// ```
#[derive(Drop)]
pub struct ReadAheadByRoom {
    rooms: Vec<ReadAhead>,
    limits: ReadAheadLimits,
}

impl Model for ReadAheadByRoom {
    ghost use Rattle.relay_schedule.specs.contracts.read_ahead.ReadAhead as room;
    ghost use Rattle.relay_schedule.specs.contracts.read_ahead.ReadAheadLimits as read_ahead_limits;
    ghost use Rattle.relay_schedule.specs.ReadAhead.{ReadAheads, read_aheads_code};

    ghost Value = { ReadAheads };

    ghost coded = { read_aheads_code room.the_row.coded read_ahead_limits.the_row.coded };

    ghost use Rattle.relay_schedule.specs.Representation.{read_aheads_of};

    ghost view = { read_aheads_of };
}

impl ReadAheadByRoom {
    ghost use Rattle.std.specs.Prelude.{◌≡◌, ◌<◌, length, IsOk, OnOk, OnErr};
    ghost use Rattle.relay_schedule.specs.ReadAhead.{may_read_ahead, with_text, with_writer};
    ghost use Rattle.relay_schedule.specs.ReadAhead.{without_writer, no_rooms, admitting};
    ghost use Rattle.relay_schedule.specs.ReadAhead.{read_ahead_of};
    ghost use Rattle.relay_schedule.specs.ReadAhead.{in_room};

    /// A table without rooms.
    ///
    /// ```
    /// let rooms = ReadAheadByRoom::new(alloc, ReadAheadLimits { texts: 1, bytes: 100 });
    /// assert!(rt; rooms.may_read_ahead(0));
    /// ```
    pub fn new(alloc: Global, limits: ReadAheadLimits) -> ReadAheadByRoom
        ensures { result ≡ no_rooms limits }
    {
        ReadAheadByRoom {
            rooms: Vec::new(alloc),
            limits,
        }
    }

    /// Takes the memory for a room, and for those of lower indexes. A room for which there was none
    /// may always be read ahead. `AllocError` leaves the others as they were.
    ///
    /// ```
    /// let mut rooms = ReadAheadByRoom::new(alloc, ReadAheadLimits { texts: 1, bytes: 100 });
    /// rooms.admit(0).ok()?;
    /// for room in 0..2 {
    ///     rooms.add_writer(room);
    ///     rooms.add_text(room, 40);
    /// }
    /// // Room 1 was not admitted.
    /// assert!(rt; !rooms.may_read_ahead(0) && rooms.may_read_ahead(1));
    /// ```
    pub fn admit(&mut self, index: usize) -> Result<(), AllocError>
        ensures ok { OnOk result (self.new ≡ admitting index self.old) }
        ensures err { OnErr result (self.new ≡ self.old) }
        ensures admitted { index < length self.old.rooms → IsOk result }
    {
        let count = index.saturating_add(1);
        if count <= self.rooms.len() {
            return Ok(());
        }
        self.rooms.resize(count, ReadAhead::NONE)
    }

    /// True if a room may be read ahead ([`ReadAhead::may_read_ahead`]).
    ///
    /// ```
    /// let mut rooms = ReadAheadByRoom::new(alloc, ReadAheadLimits { texts: 16, bytes: 100 });
    /// rooms.admit(0).ok()?;
    /// rooms.add_writer(0);
    /// rooms.add_text(0, 99);
    /// assert!(rt; rooms.may_read_ahead(0));
    /// rooms.add_text(0, 1);
    /// assert!(rt; !rooms.may_read_ahead(0));
    /// ```
    pub fn may_read_ahead(&self, index: usize) -> bool
        ensures { result ≡ may_read_ahead self.now.limits (read_ahead_of index self.now) }
    {
        match self.rooms.get(index) {
            Some(room) => room.may_read_ahead(self.limits),
            None => true,
        }
    }

    /// Notes that a room was said a text of so many bytes.
    ///
    /// ```
    /// let mut rooms = ReadAheadByRoom::new(alloc, ReadAheadLimits { texts: 1, bytes: 100 });
    /// rooms.admit(1).ok()?;
    /// rooms.add_writer(1);
    /// rooms.add_text(1, 40);
    /// assert!(rt; !rooms.may_read_ahead(1) && rooms.may_read_ahead(0));
    /// ```
    pub fn add_text(&mut self, index: usize, bytes: u64)
        ensures { self.new ≡ in_room index (with_text bytes) self.old }
    {
        if let Some(room) = self.rooms.get_mut(index) {
            room.add_text(bytes);
        }
    }

    /// Notes that a connection of a room waits to be written to.
    ///
    /// ```
    /// let mut rooms = ReadAheadByRoom::new(alloc, ReadAheadLimits { texts: 1, bytes: 100 });
    /// rooms.admit(0).ok()?;
    /// rooms.add_text(0, 40);
    /// assert!(rt; rooms.may_read_ahead(0));
    /// rooms.add_writer(0);
    /// assert!(rt; !rooms.may_read_ahead(0));
    /// ```
    pub fn add_writer(&mut self, index: usize)
        ensures { self.new ≡ in_room index with_writer self.old }
    {
        if let Some(room) = self.rooms.get_mut(index) {
            room.add_writer();
        }
    }

    /// Notes that one of these was written to, or is gone.
    ///
    /// ```
    /// let mut rooms = ReadAheadByRoom::new(alloc, ReadAheadLimits { texts: 1, bytes: 100 });
    /// rooms.admit(0).ok()?;
    /// rooms.add_writer(0);
    /// rooms.add_text(0, 40);
    /// rooms.take_writer(0);
    /// assert!(rt; rooms.may_read_ahead(0));
    /// ```
    pub fn take_writer(&mut self, index: usize)
        ensures { self.new ≡ in_room index without_writer self.old }
    {
        if let Some(room) = self.rooms.get_mut(index) {
            room.take_writer();
        }
    }
}
