//! Audiences: who watches one view together, and which audiences an edit touches.
ghost use Rattle.std.specs.Prelude.{◌≡◌, IfOk};
ghost use Rattle.relay_audience.specs.Audiences.{view_of};

use crate::shared::{nothing, shown, view_of};
use crate::stage::{Stage, play_anew};
use relay_audience::{Audience, Audiences, SharedView};
use relay_patch::Change;
use relay_test_stream::cut;
use relay_view::{Slot, SlotKind};
use std::alloc::{AllocError, Global};

const JOINING: &str = r#"
# Equal views are one audience, whoever comes first; a size is another view than a value.
audiences =>
join 7 ["/cards"]
join 3 ["/cards"]
audiences => 0 /cards [3, 7];
join 8 [{"size":"/cards"}]
join 9 ["/cards","/title"]
join 5 ["/title","/cards"]
join 6 []
join 4 []
audiences => 0 /cards [3, 7];1 size /cards [8];2 /cards /title [9];3 /title /cards [5];4 [4, 6];
audience 2 => 2 /cards /title [9];
audience 5 => nothing
watched 8 => size /cards
watched 6 =>
watched 1 => nothing

# Who watches a view already stays where it is.
join 7 ["/cards"]
join 9 ["/cards","/title"]
audiences => 0 /cards [3, 7];1 size /cards [8];2 /cards /title [9];3 /title /cards [5];4 [4, 6];

# A session that watches another view moves to its audience, which may be a new one.
join 7 ["/title","/cards"]
join 3 ["/owner"]
audiences => 1 size /cards [8];2 /cards /title [9];3 /title /cards [5, 7];4 [4, 6];5 /owner [3];
watched 7 => /title /cards
"#;

const LEAVING: &str = r#"
# An audience goes with its last session, and its view is found anew afterwards.
join 1 ["/a"]
join 2 ["/b"]
join 3 ["/a"]
join 4 ["/c"]
part 1
audiences => 0 /a [3];1 /b [2];2 /c [4];
watched 1 => nothing
part 2
audiences => 0 /a [3];2 /c [4];
join 5 ["/b"]
join 6 ["/c"]
audiences => 0 /a [3];2 /c [4, 6];3 /b [5];
part 5
part 3
part 4
part 6
audiences =>
join 9 ["/c"]
audiences => 0 /c [9];
"#;

const TOUCHED: &str = r#"
# Each audience that an edit touches is named once, in the order in which they came.
join 4 ["/a/x"]
join 1 ["","/a"]
join 2 [{"size":"/b"}]
join 3 ["/a/x"]
join 9 ["/b/0"]
tree {"a":{"x":0},"b":[0]}
patch [{"op":"replace","path":"/a/x","value":1}]
apply => set /a/x 1;
touched => [0, 1]
patch [{"op":"add","path":"/b/1","value":1}]
apply => add item /b/1 1;
touched => [1, 2]
patch [{"op":"replace","path":"/b/0","value":1}]
apply => set /b/0 1;
touched => [1, 3]
part 1
touched => [3]
join 1 [{"size":"/b"}]
join 2 ["/b/0"]
touched => [3]
patch []
apply =>
touched => []
"#;

#[test]
fn sessions_of_one_view_are_one_audience(rt: HostRuntime) {
    play_anew(&rt, JOINING);
    play_anew(&rt, LEAVING);
}

#[test]
fn an_edit_names_the_audiences_that_it_touches(rt: HostRuntime) {
    play_anew(&rt, TOUCHED);
}

/// Does an act on audiences. An act that is unknown here too gives nothing.
pub(crate) fn done(alloc: Global, stage: &mut Stage, verb: &str, rest: &str) -> Option<String> {
    let audiences = &mut stage.audiences;
    match verb {
        "join" => join(alloc, audiences, rest),
        "part" => part(alloc, audiences, rest.parse::<u64>().ok()?),
        "audiences" => audiences_text(alloc, audiences.all()),
        "audience" => match audiences.audience(rest.parse::<u64>().ok()?) {
            Some(audience) => audience_text(alloc, audience),
            None => String::from_str(alloc, "nothing").ok(),
        },
        "watched" => match audiences.view_of(rest.parse::<u64>().ok()?) {
            Some(view) => view_text(alloc, view),
            None => String::from_str(alloc, "nothing").ok(),
        },
        "touched" => touched(alloc, audiences, stage.changes.first()),
        _ => None,
    }
}

fn join(alloc: Global, audiences: &mut Audiences, act: &str) -> Option<String> {
    let (session, view) = cut(act);
    let (session, view) = (session.parse::<u64>().ok()?, view_of(alloc, view)?);
    let former = former(audiences, session).ok()?;
    audiences.watch(alloc, session, former.as_ref(), view).ok()?;
    nothing(alloc)
}

fn part(alloc: Global, audiences: &mut Audiences, session: u64) -> Option<String> {
    let view = former(audiences, session).ok()??;
    audiences.unwatch(session, &view);
    nothing(alloc)
}

fn former(audiences: &Audiences, session: u64) -> Result<Option<SharedView>, AllocError>
    ensures { IfOk result (λ former. former ≡ view_of session audiences.now) }
{
    match audiences.view_of(session) {
        Some(view) => Ok(Some(view.share()?)),
        None => Ok(None),
    }
}

// The audiences that at most one change touches.
fn touched(alloc: Global, audiences: &Audiences, change: Option<&Change>) -> Option<String> {
    let found = match change {
        Some(change) => audiences.touched(alloc, &[change]),
        None => audiences.touched(alloc, &[]),
    };
    shown(alloc, found.ok()?)
}

// The audiences, each followed by a semicolon.
fn audiences_text(alloc: Global, audiences: &[Audience]) -> Option<String> {
    let mut text = String::new(alloc);
    for audience in audiences {
        let audience = audience_text(alloc, audience)?;
        text.push_str(audience.as_str()).ok()?;
    }
    Some(text)
}

// The number, the view and the sessions of an audience.
fn audience_text(alloc: Global, audience: &Audience) -> Option<String> {
    let number = audience.number;
    let view = view_text(alloc, &audience.view)?;
    let sessions = audience.sessions.as_slice();
    if view.is_empty() {
        return format!(in alloc; "{number} {sessions:?};").ok();
    }
    format!(in alloc; "{number} {view} {sessions:?};").ok()
}

// The slots of a view, in one line.
fn view_text(alloc: Global, view: &SharedView) -> Option<String> {
    let mut slots = Vec::new(alloc);
    for slot in view.get().slots() {
        slots.push(slot_text(alloc, slot)?).ok()?;
    }
    slots.join(alloc, " ").ok()
}

fn slot_text(alloc: Global, slot: &Slot) -> Option<String> {
    let pointer = slot.pointer.text(alloc).ok()?;
    match slot.kind {
        SlotKind::Value => Some(pointer),
        SlotKind::Size => format!(in alloc; "size {pointer}").ok(),
    }
}
