//! Tests of a store in memory and of a database in memory, which read back the same changes.
ghost use Rattle.std.specs.Prelude.{IfOk, OnSome};
ghost use Rattle.sqlite_trees.specs.Memory.{memory_view};
ghost use Rattle.sqlite_trees.specs.View.{IsClean};
ghost use Rattle.relay_store_sqlite.specs.Table.{IsReady};

use relay_store::{Change, Keeps, MemoryStore, StoreFault};
use relay_store_sqlite::{Opened, SqliteStore, adopt};
use relay_test_stream::{Subject, cut, play};
use sqlite::{Connection, MemStore};
use std::alloc::{AllocGlobal, Global};
use std::test::Fail;

/// Each act is a commit of one change, or a checkpoint, and `read` tells all changes.
const ROWS: &str = "
read
floor 12
begin board 4 null
edit board 6 [1, 2]
will 3 board []
undo 3
checkpoint
end board
checkpoint
read => floor 12;begin board 4 null;edit board 6 [1, 2];will 3 board [];undo 3;end board;
";

/// The words of a change.
fn words(alloc: Global, change: &Change<String>) -> Option<String> {
    let text = match change {
        Change::Begin {
            room,
            revision,
            text,
        } => format!(in alloc; "begin {room} {revision} {text};"),
        Change::Edit {
            room,
            revision,
            text,
        } => format!(in alloc; "edit {room} {revision} {text};"),
        Change::End { room } => format!(in alloc; "end {room};"),
        Change::RaiseFloor { revision } => format!(in alloc; "floor {revision};"),
        Change::LeaveWill {
            session,
            room,
            text,
        } => format!(in alloc; "will {session} {room} {text};"),
        Change::DropWill { session } => format!(in alloc; "undo {session};"),
    };
    text.ok()
}

/// The words of changes.
fn all_words(alloc: Global, changes: &[Change<String>]) -> Option<String> {
    let mut all = String::new(alloc);
    for change in changes {
        all.push_str(words(alloc, change)?.as_str()).ok()?;
    }
    Some(all)
}

/// The change that words stand for.
fn change_of(act: &str) -> Option<Change<&str>> {
    let (verb, rest) = cut(act);
    let (first, second) = cut(rest);
    Some(match verb {
        "begin" => {
            let (revision, text) = cut(second);
            Change::Begin {
                room: first,
                revision: revision.parse().ok()?,
                text,
            }
        }
        "edit" => {
            let (revision, text) = cut(second);
            Change::Edit {
                room: first,
                revision: revision.parse().ok()?,
                text,
            }
        }
        "end" => Change::End { room: first },
        "floor" => Change::RaiseFloor {
            revision: first.parse().ok()?,
        },
        "will" => {
            let (room, text) = cut(second);
            Change::LeaveWill {
                session: first.parse().ok()?,
                room,
                text,
            }
        }
        "undo" => Change::DropWill {
            session: first.parse().ok()?,
        },
        _ => return None,
    })
}

/// Does what words say: a checkpoint, or the commit of a change.
fn done<K: Keeps>(store: &mut K, act: &str) -> Option<()>
    requires { K.is_settled store.old }
    ensures { OnSome result (K.is_settled store.new) }
{
    match act {
        "checkpoint" => store.checkpoint().ok(),
        _ => store.commit(&[change_of(act)?]).ok(),
    }
}

/// A store in memory.
#[derive(Drop)]
struct InMemory {
    store: MemoryStore,
}

impl<R: AllocGlobal> Subject<R> for InMemory {
    fn act(&mut self, rt: &R, act: &str) -> Option<String> {
        if act == "read" {
            return all_words(rt.alloc(), &self.store.read().ok()?);
        }
        done(&mut self.store, act)?;
        Some(String::new(rt.alloc()))
    }
}

#[test]
fn memory_keeps_changes(rt: HostRuntime) -> Result<(), Fail> {
    let store = MemoryStore::new(rt.alloc(), 7);
    assert_eq!(rt; store.epoch(), 7);
    let mut subject = InMemory { store };
    play(&rt, &mut subject, ROWS)?;
    Ok(())
}

/// A store over an empty database in memory, if it may be made with this epoch.
fn opened(alloc: Global, new_epoch: Option<u64>) -> Result<Opened<MemStore>, StoreFault>
    ensures { IfOk result (λ o. IsClean (memory_view o.store.store) →
        IsReady (memory_view o.store.store) o.store.next) }
{
    let Ok(conn) = Connection::open_in_memory(alloc) else {
        return Err(StoreFault::NoMemory);
    };
    match adopt(alloc, conn, new_epoch) {
        Ok(opened) => Ok(opened),
        Err((fault, _)) => Err(fault),
    }
}

#[test]
fn an_empty_database_is_made_a_store_only_if_it_may_be(rt: HostRuntime) {
    assert!(rt; matches!(opened(rt.alloc(), None).err(), Some(StoreFault::NotAStore)));
}

#[test]
fn a_database_keeps_changes(rt: HostRuntime) -> Result<(), Fail> {
    let opened = opened(rt.alloc(), Some(7))?;
    assert_eq!(rt; opened.epoch, 7);
    assert!(rt; opened.changes.is_empty());
    let mut store: SqliteStore<MemStore> = opened.store;
    let begin = Change::Begin {
        room: "board",
        revision: 4,
        text: "null",
    };
    store.commit(&[begin, Change::RaiseFloor { revision: 12 }])?;
    let words = all_words(rt.alloc(), &store.read(rt.alloc())?);
    assert!(rt; words.is_some_and(|words| words.as_str() == "begin board 4 null;floor 12;"));
    Ok(())
}

fn begin(room: &str, revision: u64) -> Change<&str> {
    Change::Begin {
        room,
        revision,
        text: "{}",
    }
}

fn edit(room: &str, revision: u64) -> Change<&str> {
    Change::Edit {
        room,
        revision,
        text: "[]",
    }
}

#[test]
fn a_database_removes_what_is_replaced(rt: HostRuntime) -> Result<(), Fail> {
    let mut store = opened(rt.alloc(), Some(7))?.store;
    store.commit(&[
        begin("board", 4),
        edit("board", 6),
        begin("lobby", 0),
        edit("lobby", 1),
    ])?;
    store.checkpoint()?;
    store.commit(&[
        Change::RaiseFloor { revision: 3 },
        begin("board", 6),
        edit("board", 9),
    ])?;
    store.commit(&[
        Change::RaiseFloor { revision: 5 },
        Change::End { room: "lobby" },
    ])?;
    store.checkpoint()?;
    let words = all_words(rt.alloc(), &store.read(rt.alloc())?);
    let left = "begin board 6 {};edit board 9 [];floor 5;end lobby;";
    assert!(rt; words.is_some_and(|words| words.as_str() == left));
    Ok(())
}
