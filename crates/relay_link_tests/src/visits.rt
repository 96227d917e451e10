//! Visits of a hub beside sessions that stay.
use crate::link_fixture::tell_event;
use relay_access::Access;
use relay_hub::{Hub, HubConfig, Text};
use relay_link::{Visit, VisitOutcome};
use relay_test_stream::{Subject, cut, play};
use std::alloc::{AllocError, AllocGlobal, Global};
use std::process::Abort;
use std::test::Fail;

const ROWS: &str = r#"
# A visit edits a room, and tells the one who watches there. It leaves no session.
watch a
visit a {"do":"edit","id":7,"patch":[{"op":"add","path":"","value":{"x":5}}]} => open a; receive 2; draw 2; draw 2; draw 2; close 2; Answered at 0 > {"epoch":1,"kind":"welcome","rev":0,"session":2} > {"id":7,"kind":"done","rev":1}
told => [1]
room a => sessions 1, revision 1
draw 1 => {"kind":"patch","patch":[{"op":"replace","path":"/0","value":[{"x":5}]}],"rev":1}

# A visit watches, and so reads a part of the document.
visit a {"do":"watch","id":1,"view":["/x"]} => open a; receive 3; draw 3; draw 3; draw 3; close 3; Answered at 1 > {"epoch":1,"kind":"welcome","rev":1,"session":3} > {"id":1,"kind":"watching"} > {"kind":"snapshot","rev":1,"view":[[5]]}
visit-read-only a {"do":"watch","id":1,"view":["/y"]} => open a read-only; receive 4; draw 4; draw 4; draw 4; close 4; Answered at 1 > {"epoch":1,"kind":"welcome","rev":1,"session":4} > {"id":1,"kind":"watching"} > {"kind":"snapshot","rev":1,"view":[[]]}
room a => sessions 1, revision 1

# It resumes from the revision that it knows.
visit a {"do":"resume","id":1,"epoch":1,"rev":0,"view":["/x"]} => open a; receive 5; draw 5; draw 5; draw 5; close 5; Answered at 1 > {"epoch":1,"kind":"welcome","rev":1,"session":5} > {"how":"patch","id":1,"kind":"resumed"} > {"kind":"patch","patch":[{"op":"replace","path":"/0","value":[5]}],"rev":1}

# One that may only watch edits nothing, and a text that is no request has its reply.
visit-read-only a {"do":"edit","id":7,"patch":[]} => open a read-only; receive 6; draw 6; draw 6; draw 6; close 6; Answered at 1 > {"epoch":1,"kind":"welcome","rev":1,"session":6} > {"at":null,"fault":"read-only","id":7,"kind":"refused"}
visit a x => open a; receive 7; draw 7; draw 7; draw 7; close 7; Answered at 1 > {"epoch":1,"kind":"welcome","rev":1,"session":7} > {"at":null,"fault":"not-json","id":null,"kind":"refused"}
told => []
room a => sessions 1, revision 1

# The will that it leaves is left to be done.
visit a {"do":"will","id":1,"patch":[{"op":"add","path":"","value":7}]} => open a; receive 8; draw 8; draw 8; draw 8; close 8; Answered at 1 > {"epoch":1,"kind":"welcome","rev":1,"session":8} > {"id":1,"kind":"willing"}
wills => true

# The hub opens no session.
hub 1
watch a
visit b {"do":"watch","id":1,"view":[""]} => open b; Refused(RoomsFull)
visit a/b {"do":"watch","id":1,"view":[""]} => open a/b; Refused(RoomName)
room a => sessions 1, revision 0
room b => none

# A room that was not there begins.
hub 2
visit a {"do":"edit","id":7,"patch":[]} => open a; receive 1; draw 1; draw 1; draw 1; close 1; Answered at 0 > {"epoch":1,"kind":"welcome","rev":0,"session":1} > {"id":7,"kind":"done","rev":1}
room a => sessions 0, revision 1
"#;

#[test]
fn visits_a_room_within_one_call(rt: HostRuntime) {
    let mut visitor = Visitor::of(rt.alloc(), 2).expect(&rt, "memory");
    play(&rt, &mut visitor, ROWS).expect(&rt, "each row holds");
}

/// A hub that is visited.
#[derive(Drop)]
struct Visitor {
    hub: Hub,
}

/// A hub that has so many rooms.
fn hub_with_rooms(alloc: Global, rooms: u64) -> Option<Hub> {
    let config = HubConfig {
        rooms,
        ..HubConfig::new(1, 1, 64, 32)
    };
    Hub::with_config(alloc, config).ok()
}

impl<R: AllocGlobal> Subject<R> for Visitor {
    /// Does an act, and tells what came of it:
    ///
    /// - `hub N` is a new hub that has so many rooms;
    /// - `watch ROOM` opens a session there that watches the whole document, and draws what waits;
    /// - `visit ROOM TEXT` and `visit-read-only ROOM TEXT` visit a room, and tell the events, the
    ///   outcome, and each text that was drawn, after a ` > `;
    /// - `told` tells whom the last text told something, and `draw N` the next text of a session;
    /// - `room NAME` tells how many sessions are in a room, and its revision, or `none`;
    /// - `wills` tells whether a will is left to be done.
    fn act(&mut self, rt: &R, act: &str) -> Option<String> {
        let alloc = rt.alloc();
        let (word, rest) = cut(act);
        match word {
            "hub" => self.begin(alloc, rest.parse::<u64>().ok()?),
            "watch" => self.watch(alloc, rest),
            "visit" => self.visit(alloc, rest, Access::ReadWrite),
            "visit-read-only" => self.visit(alloc, rest, Access::ReadOnly),
            "told" => format!(in alloc; "{:?}", self.hub.told().sessions.as_slice()).ok(),
            "draw" => self.draw(alloc, rest.parse::<u64>().ok()?),
            "room" => self.room(alloc, rest),
            "wills" => format!(in alloc; "{}", self.hub.has_wills()).ok(),
            _ => None,
        }
    }
}

impl Visitor {
    /// The next text of a session.
    fn draw(&mut self, alloc: Global, session: u64) -> Option<String> {
        let text = self.hub.draw(alloc, session).ok()??;
        text.as_str().to_owned(alloc).ok()
    }

    fn of(alloc: Global, rooms: u64) -> Option<Visitor> {
        Some(Visitor {
            hub: hub_with_rooms(alloc, rooms)?,
        })
    }

    fn begin(&mut self, alloc: Global, rooms: u64) -> Option<String> {
        self.hub = hub_with_rooms(alloc, rooms)?;
        Some(String::new(alloc))
    }

    fn watch(&mut self, alloc: Global, room: &str) -> Option<String> {
        watch(alloc, &mut self.hub, room)?;
        Some(String::new(alloc))
    }

    fn visit(&mut self, alloc: Global, words: &str, access: Access) -> Option<String> {
        let (room, text) = cut(words);
        let visit = visited(alloc, &mut self.hub, room, access, text)?;
        told(alloc, &visit).ok()
    }

    /// The number of sessions in a room, and its revision.
    fn room(&self, alloc: Global, name: &str) -> Option<String> {
        for place in 0..2 {
            match self.hub.room_at(place) {
                Some(room) if room.name == name => {
                    let (sessions, revision) = (room.sessions, room.revision);
                    return format!(in alloc; "sessions {sessions}, revision {revision}").ok();
                }
                _ => {}
            }
        }
        "none".to_owned(alloc).ok()
    }
}

/// Opens a session that watches the whole document, and draws what waits.
fn watch(alloc: Global, hub: &mut Hub, room: &str) -> Option<()> {
    let session = hub.open(alloc, room, Access::ReadWrite).ok()?.session;
    let text = r#"{"do":"watch","id":1,"view":[""]}"#;
    drop(hub.receive(alloc, session, text).ok()?);
    for _ in 0..3 {
        drop(hub.draw(alloc, session).ok()?);
    }
    Some(())
}

fn visited(alloc: Global, hub: &mut Hub, room: &str, access: Access, text: &str) -> Option<Visit> {
    let room = room.to_owned(alloc).ok()?;
    let text = Text::of(text.to_owned(alloc).ok()?);
    Visit::make(alloc, hub, room, access, text).ok()
}

/// The events of a visit, its outcome, and each text that it drew.
fn told(alloc: Global, visit: &Visit) -> Result<String, AllocError> {
    let mut told = String::new(alloc);
    for event in visit.events.iter() {
        tell_event(&mut told, event)?;
    }
    match visit.outcome {
        VisitOutcome::Refused(fault) => write!(told, "Refused({fault:?})")?,
        VisitOutcome::Unheard(opening) => write!(told, "Unheard at {}", opening.rev)?,
        VisitOutcome::Undrawn(opening) => write!(told, "Undrawn at {}", opening.rev)?,
        VisitOutcome::Answered(opening) => write!(told, "Answered at {}", opening.rev)?,
    }
    for text in visit.texts.iter() {
        write!(told, " > {}", text.as_str())?;
    }
    Ok(told)
}

/// An edit of a visit to which memory is refused.
const EDIT: &str = r#"{"do":"edit","id":1,"patch":[{"op":"add","path":"","value":{"x":[1]}}]}"#;

/// True if the hub heard the text of a visit.
fn is_heard(visit: &Result<Visit, AllocError>) -> bool {
    match visit {
        Ok(visit) => matches!(
            visit.outcome,
            VisitOutcome::Undrawn(_) | VisitOutcome::Answered(_)
        ),
        Err(_) => false,
    }
}

/// A visit to which memory is refused leaves no session, and the room is another one exactly if the
/// visit says that its text was heard. `tests/refuse-allocations` refuses each allocation in turn.
#[test]
fn a_visit_did_what_it_says(rt: HostRuntime) -> Result<(), Fail> {
    let mut hub = Hub::new(rt.alloc(), 1, 1, 64, 32)?;
    watch(rt.alloc(), &mut hub, "a").ok_or("no memory")?;
    let room = "a".to_owned(rt.alloc())?;
    let text = Text::of(EDIT.to_owned(rt.alloc())?);
    let visit = Visit::make(rt.alloc(), &mut hub, room, Access::ReadWrite, text);
    is_left_as_said(&rt, &hub, is_heard(&visit))
}

fn is_left_as_said(rt: &(impl Abort + AllocGlobal), hub: &Hub, is_heard: bool) -> Result<(), Fail> {
    let room = hub.room_at(0).ok_or("no room")?;
    assert_eq!(rt; room.sessions, 1);
    assert_eq!(rt; room.revision, u64::from(is_heard));
    assert_eq!(rt; hub.waiting(1), Some(u64::from(is_heard)));
    Ok(())
}
