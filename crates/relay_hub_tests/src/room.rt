//! Tests of rooms: how they start, the last revision, and each call once. What edits do to a
//! document, and what a client missed, is data in `tests/scripts`.
ghost use Rattle.std.specs.Prelude.{◌≡◌, IfOk};
ghost use Rattle.relay_audience.specs.Audiences.{view_of};

use crate::shared::{Came, number, owned, patch_of, repeated, tree_of, view_of, words};
use relay_audience::{Audiences, SharedView};
use relay_history::ReservedRevision;
use relay_patch::Patch;
use relay_room::{CatchFault, CatchUp, Room, RoomFault};
use relay_test_stream::{Subject, cut, play};
use relay_tree::{Node, Tree};
use std::alloc::{AllocError, AllocGlobal, Global};

/// `start-nested 65 0 64` starts a room with lists that are 65 deep, at revision 0, and with a
/// history of 64 revisions; `start-long` with a text of so many bytes. The last revision is
/// 9,007,199,254,740,991, and a history holds 1,024 revisions at most. In front of a patch stands
/// the revision that the edit is for, if there is one.
const ROWS: &str = r#"
# Starts with a document that is not too deep.
start-nested 65 0 64 => Err(TooDeep)
start-nested 65 9007199254740992 0 => Err(TooDeep)
start-nested 64 0 64 => Ok(0)
start-nested 1 9007199254740992 0 => Err(BadRevision)
start-nested 1 9007199254740991 0 => Err(BadLimit)
start-nested 1 9007199254740991 1025 => Err(BadLimit)
start-nested 1 9007199254740991 1024 => Ok(9007199254740991)

# Starts with a document that is not too heavy.
start-long 262137 0 64 => Err(TooHeavy)
start-long 262137 9007199254740992 64 => Err(TooHeavy)
start-long 262136 0 64 => Ok(0)

# A new room holds at least one revision.
new 0 => Err(BadLimit)

# Begins with null, and tells what was missed.
new 1 => Ok(0)
missed 0 [""] => nothing
missed 1 [""] => Future
edit - [{"op":"add","path":"","value":[]}] => Ok(1): []
edit 1 [{"op":"add","path":"/-","value":1}] => Ok(2): [1]
missed 0 [""] => snapshot
missed 1 [""] => [{"op":"add","path":"/0/0/0","value":1}]

# Makes no revision after the last. If none is left, that is the first reason to refuse, whatever the edit is for.
start 9007199254740990 1 [] => Ok(9007199254740990)
edit 0 [{"op":"add","path":"/-","value":1}] => Err(Stale { present: 9007199254740990 }): []
edit - [{"op":"add","path":"/-","value":1}] => Ok(9007199254740991): [1]
edit - [{"op":"add","path":"/-","value":1}] => Err(Exhausted): [1]
edit 0 [] => Err(Exhausted): [1]
edit - [{"op":"remove","path":""}] => Err(Exhausted): [1]

# Tells whom the newest revision concerns.
start 5 1 {"a":1,"b":[2]} => Ok(5)
watch 1 ["/a"]
watch 2 ["/b/0"]
watch 3 ["","/a"]
concerned => []
edit - [{"op":"add","path":"/b/0","value":3}] => Ok(6): {"a":1,"b":[3,2]}
concerned => [2, 3]
edit - [] => Ok(7): {"a":1,"b":[3,2]}
concerned => []
"#;

/// A room, and the audiences of its sessions.
#[derive(Drop)]
struct WatchedRoom {
    room: Room,
    audiences: Audiences,
}

impl<R: AllocGlobal> Subject<R> for WatchedRoom {
    fn act(&mut self, rt: &R, act: &str) -> Option<String> {
        let alloc = rt.alloc();
        let (word, rest) = cut(act);
        match word {
            "new" => self.begin(alloc, Room::new(alloc, number(rest)?)),
            "start" => self.start(alloc, rest),
            "start-nested" => self.start_nested(alloc, rest),
            "start-long" => self.start_long(alloc, rest),
            "edit" => edit(alloc, &mut self.room, rest),
            "missed" => missed(alloc, &self.room, rest),
            "watch" => watch(alloc, &mut self.audiences, rest),
            "concerned" => concerned(alloc, &self.room, &self.audiences),
            _ => None,
        }
    }
}

impl WatchedRoom {
    /// Goes on with this room. Tells its revision, or why there is none.
    fn begin(&mut self, alloc: Global, made: Result<Room, RoomFault>) -> Came {
        match made {
            Ok(room) => {
                self.room = room;
                words(alloc, Ok::<u64, RoomFault>(self.room.revision()))
            }
            Err(fault) => words(alloc, Err::<u64, RoomFault>(fault)),
        }
    }

    fn start(&mut self, alloc: Global, rest: &str) -> Came {
        let (rev, rest) = cut(rest);
        let (limit, document) = cut(rest);
        self.start_with(alloc, tree_of(alloc, document)?, rev, limit)
    }

    fn start_nested(&mut self, alloc: Global, rest: &str) -> Came {
        let (levels, rest) = cut(rest);
        let (rev, limit) = cut(rest);
        let document = nested(alloc, number(levels)?)?;
        self.start_with(alloc, document, rev, limit)
    }

    fn start_long(&mut self, alloc: Global, rest: &str) -> Came {
        let (bytes, rest) = cut(rest);
        let (rev, limit) = cut(rest);
        let text = repeated(alloc, "a", number(bytes)?)?;
        self.start_with(alloc, Tree::from(Node::Text(text)), rev, limit)
    }

    fn start_with(&mut self, alloc: Global, document: Tree, rev: &str, limit: &str) -> Came {
        let (rev, limit) = (number(rev)?, number(limit)?);
        self.begin(alloc, Room::starting_at(alloc, document, rev, limit))
    }
}

/// Nested lists, one in the other, so many levels deep.
fn nested(alloc: Global, levels: u64) -> Option<Tree> {
    let mut text = repeated(alloc, "[", levels)?;
    let ends = repeated(alloc, "]", levels)?;
    text.push_str(ends.as_str()).ok()?;
    tree_of(alloc, text.as_str())
}

/// The answer to an edit, and the document after it.
fn edit(alloc: Global, room: &mut Room, rest: &str) -> Came {
    let (base, patch) = cut(rest);
    let patch = patch_of(alloc, patch)?;
    edit_by(alloc, room, base.parse::<u64>().ok(), &patch)
}

fn edit_by(alloc: Global, room: &mut Room, base: Option<u64>, patch: &Patch) -> Came {
    let answer = room.edit(alloc, ReservedRevision::new(alloc).ok()?, base, patch);
    let document = room.document().text(alloc).ok()?;
    format!(in alloc; "{answer:?}: {document}").ok()
}

/// The changes that a client missed, as text, or the cause for which nothing tells them.
fn missed(alloc: Global, room: &Room, rest: &str) -> Came {
    let (rev, view) = cut(rest);
    let view = view_of(alloc, view)?;
    missed_in_words(alloc, room.catch_up(alloc, number(rev)?, &view))
}

/// The changes that a client missed, as text: a patch is written out.
fn missed_in_words(alloc: Global, missed: Result<CatchUp, CatchFault>) -> Came {
    match missed {
        Ok(CatchUp::Patch(patch)) => patch.to_tree(alloc).ok()?.text(alloc).ok(),
        Ok(CatchUp::Nothing) => owned(alloc, "nothing"),
        Ok(CatchUp::Snapshot) => owned(alloc, "snapshot"),
        Err(fault) => words(alloc, fault),
    }
}

fn watch(alloc: Global, audiences: &mut Audiences, rest: &str) -> Came {
    let (session, view) = cut(rest);
    let (session, view) = (number(session)?, view_of(alloc, view)?);
    let former = former(audiences, session).ok()?;
    audiences.watch(alloc, session, former.as_ref(), view).ok()?;
    owned(alloc, "")
}

fn former(audiences: &Audiences, session: u64) -> Result<Option<SharedView>, AllocError>
    ensures { IfOk result (λ former. former ≡ view_of session audiences.now) }
{
    match audiences.view_of(session) {
        Some(view) => Ok(Some(view.share()?)),
        None => Ok(None),
    }
}

/// The sessions that the newest revision touches, in the order of their numbers.
fn concerned(alloc: Global, room: &Room, audiences: &Audiences) -> Came {
    let changes = room.newest_changes(alloc).ok()?;
    let mut sessions = Vec::new(alloc);
    for audience in audiences.touched(alloc, changes.as_slice()).ok()? {
        for session in audiences.audience(audience)?.sessions.as_slice() {
            sessions.push(*session).ok()?;
        }
    }
    sessions.sort_unstable();
    words(alloc, sessions)
}

#[test]
fn keeps_a_document_and_its_changes(rt: HostRuntime) {
    let mut room = WatchedRoom {
        room: Room::new(rt.alloc(), 1).expect(&rt, "a room"),
        audiences: Audiences::new(rt.alloc()),
    };
    play(&rt, &mut room, ROWS).expect(&rt, "each row holds");
}
