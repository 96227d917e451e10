use crate::shared::{shown, taken_text, view_of};
use crate::stage::{Stage, play_anew};
use crate::translate;
use relay_tree::{Tree, begin_text, end_text};
use relay_view::View;
use std::alloc::Global;

const ROWS: &str = r#"
# Shows its slots of a document: as a tree, and as a text that is written from the document itself.
tree {"a":null}
view ["/a","/b",{"size":""}]
slots => [[null],[],[1]]
slots_text => [[null],[],[1]]

# Tells equal views.
view []
equals [] => true
view ["/a/b",{"size":"/c"}]
equals ["/a/b",{"size":"/c"}] => true
view ["/a","/b"]
equals ["/b","/a"] => false
view ["/a"]
equals ["/a","/b"] => false
equals [{"size":"/a"}] => false
view ["/a/b"]
equals ["/a~1b"] => false

# Tells its pointers and kinds.
view ["/a",{"size":"/b"}]
slot_count => 2
slot_pointer 1 => /b
no_slot 2 => true
slot_kind 0 => Some(Value)
slot_kind 1 => Some(Size)
slot_kind 2 => None
"#;

#[test]
fn a_view_shows_its_slots(rt: HostRuntime) {
    play_anew(&rt, ROWS);
}

/// Does an act on the view.
pub(crate) fn done(alloc: Global, stage: &mut Stage, verb: &str, rest: &str) -> Option<String> {
    let view = &stage.view;
    match verb {
        "slots" => taken_text(alloc, view.of(alloc, &stage.tree).ok()),
        "slots_text" => written(alloc, view, &stage.tree),
        "equals" => shown(alloc, view.same(&view_of(alloc, rest)?)),
        "slot_count" => shown(alloc, view.len()),
        "slot_pointer" => view.pointer(rest.parse::<u64>().ok()?)?.text(alloc).ok(),
        "no_slot" => shown(alloc, view.pointer(rest.parse::<u64>().ok()?).is_none()),
        "slot_kind" => shown(alloc, view.kind(rest.parse::<u64>().ok()?)),
        _ => translate::done(alloc, stage, verb, rest),
    }
}

fn written(alloc: Global, view: &View, document: &Tree) -> Option<String> {
    let mut out = begin_text(alloc).ok()?;
    view.write(document, &mut out).ok()?;
    Some(end_text(out))
}
