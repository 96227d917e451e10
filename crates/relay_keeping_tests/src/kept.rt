//! A hub whose rooms and wills are kept in memory, as tests act on it.
use relay_access::Access;
use relay_hub::{Hub, HubConfig};
use relay_keeping::{RoomStore, take_up};
use relay_store::{Change, Keeps, MemoryStore};
use relay_test_stream::{Subject, cut};
use relay_tree::read;
use relay_view::View;
use std::alloc::{AllocGlobal, Global};

/// A hub, and the store of its rooms and wills.
///
/// `keep` tells how many changes are kept, `commits` which of them this call added, `texts` which
/// are kept, and `holds` the message of a room's present document. `takes` tells the revision of a
/// room whose record is this text, of this revision, and `does` that of a room whose record is
/// `[7]`, of revision 4, when this will is kept of a room.
#[derive(Drop)]
pub struct Kept {
    hub: Hub,
    rooms: RoomStore<MemoryStore>,
}

/// A hub of at most two rooms.
fn config() -> HubConfig {
    HubConfig {
        rooms: 2,
        ..HubConfig::new(1, 1, 64, 32)
    }
}

/// The words of a change, without its text, but for that of a will.
fn words(alloc: Global, change: &Change<String>) -> Option<String> {
    let told = match change {
        Change::Begin { room, revision, .. } => format!(in alloc; "begin {room} {revision};"),
        Change::Edit { room, revision, .. } => format!(in alloc; "edit {room} {revision};"),
        Change::End { room } => format!(in alloc; "end {room};"),
        Change::RaiseFloor { revision } => format!(in alloc; "floor {revision};"),
        Change::LeaveWill {
            session,
            room,
            text,
        } => format!(in alloc; "will {session} {room} {text};"),
        Change::DropWill { session } => format!(in alloc; "drop {session};"),
    };
    told.ok()
}

/// The words of changes behind the first ones; `nothing` if there is none.
fn words_from(alloc: Global, changes: &Vec<Change<String>>, from: usize) -> Option<String> {
    if changes.len() == from {
        return String::from_str(alloc, "nothing").ok();
    }
    let mut all = String::new(alloc);
    for index in from..changes.len() {
        all.push_str(words(alloc, &changes[index])?.as_str()).ok()?;
    }
    Some(all)
}

/// A store in memory with the same changes.
fn copied(alloc: Global, changes: &Vec<Change<String>>) -> Option<MemoryStore> {
    let mut store = MemoryStore::new(alloc, 1);
    for change in changes {
        store.commit(&[change.borrow()]).ok()?;
    }
    Some(store)
}

/// A hub of what changes make of an empty store.
pub fn begun(alloc: Global, changes: &Vec<Change<String>>) -> Option<Kept> {
    let taken = take_up(alloc, config(), copied(alloc, changes)?, changes).ok()?;
    Some(Kept {
        hub: taken.hub,
        rooms: taken.rooms,
    })
}

/// A store of a room whose record is this text, of this revision.
fn store_of(alloc: Global, revision: u64, text: &str) -> Option<MemoryStore> {
    let mut store = MemoryStore::new(alloc, 1);
    let begin = Change::Begin {
        room: "board",
        revision,
        text,
    };
    store.commit(&[begin]).ok()?;
    Some(store)
}

/// A store of a room and of a will for a room.
fn store_with_will(alloc: Global, room: &str, text: &str) -> Option<MemoryStore> {
    let mut store = store_of(alloc, 4, r#"{"kind":"snapshot","rev":4,"view":[[[7]]]}"#)?;
    let session = 9;
    let will = Change::LeaveWill {
        session,
        room,
        text,
    };
    store.commit(&[will]).ok()?;
    Some(store)
}

/// The revision of the room of a store, or why it is not taken up.
fn taken(alloc: Global, store: MemoryStore) -> Option<String> {
    let changes = store.read().ok()?;
    match take_up(alloc, config(), store, &changes) {
        Ok(taken) => {
            let revision = taken.hub.room_named("board")?.revision;
            format!(in alloc; "{revision}").ok()
        }
        Err(fault) => format!(in alloc; "{fault}").ok(),
    }
}

impl Kept {
    /// The words of the changes that keeping adds.
    fn commits(&mut self, alloc: Global) -> Option<String> {
        let before = self.rooms.store().read().ok()?.len();
        self.rooms.keep(alloc, &self.hub).ok()?;
        words_from(alloc, &self.rooms.store().read().ok()?, before)
    }

    /// The message of the present document of a room.
    fn holds(&self, alloc: Global, name: &str) -> Option<String> {
        let whole = View::read(alloc, &read(alloc, r#"[""]"#).ok()?).ok()?;
        for index in 0..2 {
            if matches!(self.hub.room_at(index), Some(room) if room.name == name) {
                let update = self.hub.update_since(alloc, index, None, &whole).ok()??;
                return Some(update.text);
            }
        }
        String::from_str(alloc, "nothing").ok()
    }
}

impl<R: AllocGlobal> Subject<R> for Kept {
    fn act(&mut self, rt: &R, act: &str) -> Option<String> {
        let alloc = rt.alloc();
        let (verb, rest) = cut(act);
        match verb {
            "open" => {
                let opening = self.hub.open(alloc, rest, Access::ReadWrite).ok()?;
                let session = opening.session;
                return format!(in alloc; "{session}").ok();
            }
            "says" => {
                let (session, text) = cut(rest);
                self.hub.receive(alloc, session.parse().ok()?, text).ok()?;
            }
            "close" => self.hub.close(rest.parse().ok()?).ok()?,
            "do" => {
                self.hub.do_will(alloc).ok()??;
            }
            "forget" => {
                let rev = self.hub.forget(alloc, rest).ok()?;
                return format!(in alloc; "{rev}").ok();
            }
            "keep" => {
                self.rooms.keep(alloc, &self.hub).ok()?;
                let count = self.rooms.store().read().ok()?.len();
                return format!(in alloc; "{count}").ok();
            }
            "commits" => return self.commits(alloc),
            "texts" => return words_from(alloc, &self.rooms.store().read().ok()?, 0),
            "holds" => return self.holds(alloc, rest),
            "takes" => {
                let (revision, text) = cut(rest);
                return taken(alloc, store_of(alloc, revision.parse().ok()?, text)?);
            }
            "does" => {
                let (room, text) = cut(rest);
                return taken(alloc, store_with_will(alloc, room, text)?);
            }
            "restart" => *self = begun(alloc, &self.rooms.store().read().ok()?)?,
            _ => return None,
        }
        Some(String::new(alloc))
    }
}
