//! The stage on which the acts of rows are done.
use crate::change::changes_text;
use crate::shared::{nothing, patch_of, view_of};
use crate::tree;
use relay_apply::apply;
use relay_audience::Audiences;
use relay_patch::{Bounds, Change, Patch};
use relay_pointer::{MAX_TOKENS, Pointer};
use relay_test_stream::{Subject, cut, play};
use relay_translate::WatchIndex;
use relay_tree::{Tree, read};
use relay_view::View;
use std::alloc::{AllocGlobal, Global};
use std::process::Abort;

/// The document, the pointer, the view and the patch that were named last, the changes that were
/// made last, the views that sessions watch, and the audiences of a room.
#[derive(Drop)]
pub(crate) struct Stage {
    pub(crate) tree: Tree,
    pub(crate) pointer: Pointer,
    pub(crate) view: View,
    pub(crate) patch: Patch,
    pub(crate) changes: Vec<Change>,
    pub(crate) index: WatchIndex,
    pub(crate) audiences: Audiences,
}

impl Stage {
    /// Begins with the count 7 as the document, the root as the pointer, and nothing else.
    pub(crate) fn new(alloc: Global) -> Option<Stage> {
        Some(Stage {
            tree: Tree::of_count(7),
            pointer: Pointer::root(),
            view: View::of_slots(Vec::new(alloc)),
            patch: Patch::from_ops(Vec::new(alloc)),
            changes: Vec::new(alloc),
            index: WatchIndex::new(alloc),
            audiences: Audiences::new(alloc),
        })
    }
}

impl<R: AllocGlobal> Subject<R> for Stage {
    fn act(&mut self, rt: &R, act: &str) -> Option<String> {
        let (verb, rest) = cut(act);
        done(rt.alloc(), self, verb, rest)
    }
}

/// Plays rows on a new stage.
pub(crate) fn play_anew(rt: &(impl Abort + AllocGlobal), rows: &str) {
    let mut stage = Stage::new(rt.alloc()).expect(rt, "memory");
    play(rt, &mut stage, rows).expect(rt, "each row holds");
}

/// Does an act, and tells what came of it. The acts that name or tell what several subjects act on
/// stand here. The subjects are asked one after the other, so no two of their acts have one name.
fn done(alloc: Global, stage: &mut Stage, verb: &str, rest: &str) -> Option<String> {
    match verb {
        "tree" => stage.tree = read(alloc, rest).ok()?,
        "pointer" => stage.pointer = Pointer::read(alloc, rest, MAX_TOKENS).ok()?,
        "view" => stage.view = view_of(alloc, rest)?,
        "patch" => stage.patch = patch_of(alloc, rest)?,
        "apply" => {
            let changes = apply(alloc, &mut stage.tree, &stage.patch, Bounds::FREE);
            stage.changes = changes.ok()?;
            return changes_text(alloc, stage.changes.as_slice());
        }
        "text" => return stage.tree.text(alloc).ok(),
        _ => return tree::done(alloc, stage, verb, rest),
    }
    nothing(alloc)
}
