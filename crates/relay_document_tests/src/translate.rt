use crate::audience;
use crate::shared::{nothing, shown, view_of};
use crate::stage::{Stage, play_anew};
use relay_patch::Change;
use relay_test_stream::cut;
use relay_translate::{WatchIndex, touch, translate};
use relay_view::SlotKind;
use std::alloc::Global;

const SLOTS: &str = r#"
# Leaves what no change touches: the patch for a view of two slots after a change, and after none.
view ["/items","/x"]
tree {"items":["a","b"]}
patch [{"op":"add","path":"/items/0","value":"z"}]
apply => add item /items/0 "z";
text => {"items":["z","a","b"]}
relay
to_tree => [{"op":"add","path":"/0/0/0","value":"z"}]
patch []
apply =>
relay
to_tree => []

# Judges moves at both ends: of an item of a list to a member of an object.
tree {"a":{},"list":[0,1]}
patch [{"op":"move","from":"/list/1","path":"/a/x"}]
apply => move item /list/1 to /a/x 1;
pointer
value => Inside
size => Apart
pointer /list
value => Inside
size => Reset
pointer /a
value => Inside
size => Reset
pointer /list/0
value => Apart
size => Apart
pointer /list/1
value => Reset
size => Reset
pointer /list/2/deep
value => Reset
pointer /list/-
value => Apart
pointer /list/02
value => Apart
pointer /a/x/y
value => Reset
size => Reset
pointer /a/y
value => Apart
pointer /b
value => Apart
size => Apart
"#;

const SESSIONS: &str = r#"
# Finds the sessions that a change touches.
watch 3 ["","/a"]
watch 1 ["/a"]
watch 2 ["/b/0"]
tree {"b":[]}
patch [{"op":"add","path":"/b/0","value":null}]
apply => add item /b/0 null;
sessions => [2, 3]
tree {"b":[0]}
patch [{"op":"add","path":"/b/1","value":null}]
apply => add item /b/1 null;
sessions => [3]
tree {"a":0}
patch [{"op":"replace","path":"/a","value":null}]
apply => set /a null;
sessions => [1, 3]
tree {"a":{"x":0}}
patch [{"op":"replace","path":"/a/x","value":null}]
apply => set /a/x null;
sessions => [1, 3]
tree {"a":null}
patch [{"op":"copy","from":"/a","path":"/c"}]
apply => copy /a to /c null;
sessions => [3]
patch []
apply =>
sessions => []
leave 3
tree {"a":0}
patch [{"op":"replace","path":"/a","value":null}]
apply => set /a null;
sessions => [1]
watch 1 ["/b",{"size":"/b"}]
sessions => []
tree {"b":[0]}
patch [{"op":"add","path":"/b/1","value":null}]
apply => add item /b/1 null;
sessions => [1]
"#;

const BEHIND: &str = r#"
# Finds those behind an item.
watch 1 ["/b/10/x"]
watch 2 ["/b/2"]
watch 3 ["/b/9"]
watch 4 ["/b!"]
watch 5 [{"size":"/b"}]
watch 6 []
tree {"b":[0,1,2]}
patch [{"op":"add","path":"/b/3","value":null}]
apply => add item /b/3 null;
sessions => [1, 3, 5]
tree 0
patch [{"op":"replace","path":"","value":null}]
apply => set  null;
sessions => [1, 2, 3, 4, 5]
"#;

const STAYING: &str = r#"
# Keeps the slots that stay.
watch 1 ["/a","/b"]
watch 2 ["/a",{"size":"/a"}]
watch 1 ["/a","/c/d"]
tree {"a":0}
patch [{"op":"replace","path":"/a","value":null}]
apply => set /a null;
sessions => [1, 2]
tree {"b":0}
patch [{"op":"replace","path":"/b","value":null}]
apply => set /b null;
sessions => []
tree {"c":0}
patch [{"op":"replace","path":"/c","value":null}]
apply => set /c null;
sessions => [1]
leave 2
tree {"a":0}
patch [{"op":"replace","path":"/a","value":null}]
apply => set /a null;
sessions => [1]
tree 0
patch [{"op":"replace","path":"","value":null}]
apply => set  null;
sessions => [1]
leave 1
sessions => []
"#;

#[test]
fn a_change_is_told_to_the_slots_that_it_touches(rt: HostRuntime) {
    play_anew(&rt, SLOTS);
    play_anew(&rt, SESSIONS);
    play_anew(&rt, BEHIND);
    play_anew(&rt, STAYING);
}

/// Does an act on the last change, or on the views of sessions.
pub(crate) fn done(alloc: Global, stage: &mut Stage, verb: &str, rest: &str) -> Option<String> {
    match verb {
        "relay" => relay(alloc, stage),
        "value" => shown(
            alloc,
            touch(stage.changes.first()?, &stage.pointer, SlotKind::Value),
        ),
        "size" => shown(
            alloc,
            touch(stage.changes.first()?, &stage.pointer, SlotKind::Size),
        ),
        "watch" => watch(alloc, &mut stage.index, rest),
        "leave" => {
            stage.index.take_out(rest.parse::<u64>().ok()?);
            nothing(alloc)
        },
        "sessions" => sessions(alloc, &stage.index, stage.changes.first()),
        _ => audience::done(alloc, stage, verb, rest),
    }
}

// Makes the patch for the view after at most one change.
fn relay(alloc: Global, stage: &mut Stage) -> Option<String> {
    let patch = match stage.changes.first() {
        Some(change) => translate(alloc, &[change], &stage.tree, &stage.view),
        None => translate(alloc, &[], &stage.tree, &stage.view),
    };
    stage.patch = patch.ok()?;
    nothing(alloc)
}

fn watch(alloc: Global, index: &mut WatchIndex, act: &str) -> Option<String> {
    let (session, view) = cut(act);
    let (session, view) = (session.parse::<u64>().ok()?, view_of(alloc, view)?);
    index.put(alloc, session, &view).ok()?;
    nothing(alloc)
}

// The sessions that at most one change touches.
fn sessions(alloc: Global, index: &WatchIndex, change: Option<&Change>) -> Option<String> {
    let found = match change {
        Some(change) => index.touched(alloc, &[change]),
        None => index.touched(alloc, &[]),
    };
    shown(alloc, found.ok()?)
}
