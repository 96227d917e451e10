//! The rooms that clients asked for, and may not enter.
use std::alloc::Global;

/// The maximum number of names that are kept.
const MAX_WANTED: usize = 512;

/// The names of rooms from which clients were turned away, each once: first those from which one
/// was turned away again, then the others, each the oldest first. A new name takes the place of the
/// oldest one that was asked for once, so that made-up names do not take that of a client which
/// waits and asks again.
#[derive(Drop)]
pub(crate) struct WantedRooms {
    names: Vec<String>,
    /// The number of names that were asked for more than once.
    again: usize,
}

impl WantedRooms {
    /// Without a name. Allocates nothing.
    pub(crate) fn new(alloc: Global) -> WantedRooms {
        WantedRooms {
            names: Vec::new(alloc),
            again: 0,
        }
    }

    /// Notes the room from which a client was turned away, if one was. Without memory it is not
    /// noted: the client comes again.
    pub(crate) fn note(&mut self, turned_away: Option<String>) {
        let Some(room) = turned_away else {
            return;
        };
        match self.position(room.as_str()) {
            Some(index) => self.note_again(index),
            None => self.note_first(room),
        }
    }

    /// Drops a name, since clients may enter now.
    pub(crate) fn remove(&mut self, room: &str) {
        if let Some(index) = self.position(room) {
            self.remove_at(index);
        }
    }

    /// Drops all names.
    pub(crate) fn clear(&mut self) {
        self.names.clear();
        self.again = 0;
    }

    /// The names.
    pub(crate) fn as_slice(&self) -> &[String] {
        self.names.as_slice()
    }

    fn position(&self, room: &str) -> Option<usize> {
        self.names.iter().position(|name| name.as_str() == room)
    }

    /// Notes a name that is not there yet.
    fn note_first(&mut self, room: String) {
        if self.names.len() >= MAX_WANTED {
            let first = if self.again < self.names.len() {
                self.again
            } else {
                0
            };
            self.remove_at(first);
        }
        let _ = self.names.push(room);
    }

    /// Notes that the name at an index was asked for again.
    fn note_again(&mut self, index: usize) {
        if index >= self.again && index < self.names.len() {
            self.names.as_mut_slice()[self.again..=index].rotate_right(1);
            self.again += 1;
        }
    }

    fn remove_at(&mut self, index: usize) {
        if index < self.names.len() {
            let _ = self.names.remove(index);
            if index < self.again {
                self.again -= 1;
            }
        }
    }
}
