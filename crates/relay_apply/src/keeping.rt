//! Changes that are made so that they can be taken back. Each step allocates all its memory,
//! including space for its [`Undo`], before it changes the tree.
//!
//! A move within one list slides the element to its new index. Any other move is a transfer, of two
//! steps: the value is removed, and then put at its new place. If the second step runs out of
//! memory, the value goes back.
ghost use Rattle.std.specs.Prelude.{◌≡◌, ◌<◌, false, is_some, Ok, Some, OnOk, OnErr, IfOk, IfErr};
ghost use Rattle.std.specs.Prelude.{IfSome, IsOk, vec_len, vec_capacity};
ghost use Rattle.relay_tree.specs.Document.{Document};
ghost use Rattle.relay_patch.specs.Measure.{displaced, gone, is_transfer};
ghost use Rattle.relay_patch.specs.Change.{Makes, inserted};
ghost use Rattle.relay_patch.specs.declared.change.Change.TheVariants.{Move};
ghost use Rattle.relay_apply.specs.Undo.{target, reinserted, taken_back, undone, removed_part};

use crate::making::{make, put};
use crate::reinsertion::{
    RemovedValue, reinsert, remove_item_with_undo, remove_member_with_undo, remove_with_undo,
};
use crate::sliding::{in_one_list, slide};
use crate::undo::{Undo, undo_of_put};
use relay_patch::{Change, Place};
use relay_pointer::Pointer;
use relay_tree::Tree;
use std::alloc::{AllocError, AllocFailed, Global};

/// Makes a change and keeps what takes it back. If memory runs out, nothing has changed.
pub(crate) fn make_keeping(
    alloc: Global,
    tree: &mut Tree,
    kept: &mut Vec<Undo>,
    change: &Change,
) -> Result<(), AllocError>
    requires { (next : Document) × Makes tree.old change.now next }
    ensures made { OnOk result (Makes tree.old change.now tree.new) }
    ensures back { taken_back tree.new kept.new.items ≡ taken_back tree.old kept.old.items }
{
    let Some((from, to)) = as_transfer(change) else {
        kept.reserve(1)?;
        let undo = make_with_undo(alloc, tree, change)?;
        kept.push_reserved(undo);
        return Ok(());
    };
    let removed = remove_with_undo(alloc, tree, from)?;
    finish_transfer(alloc, tree, kept, to, removed)
}

/// The old and the new place of the value, if the change is a transfer.
pub(crate) fn as_transfer(change: &Change) -> Option<(&Place, &Place)>
    ensures places { IfSome result (λ m. (v : Document) × (change.now ≡ Move m.0.now m.1.now v)) }
    ensures is { is_some result ≡ is_transfer change.now }
{
    match change {
        Change::Move { from, to, .. } if !in_one_list(from, to) => Some((from, to)),
        _ => None,
    }
}

/// Makes a change that is no transfer, and returns what takes it back. If memory runs out, the tree
/// is unchanged.
#[tactic(auto, using(relay_patch::proofs::Walks::at_reached))]
pub(crate) fn make_with_undo(
    alloc: Global,
    tree: &mut Tree,
    change: &Change,
) -> Result<Undo, AllocError>
    requires makes { (next : Document) × Makes tree.old change.now next }
    requires in_place { is_transfer change.now ≡ false }
    ensures made { OnOk result (Makes tree.old change.now tree.new) }
    ensures back { IfOk result (λ undo. undone undo tree.new ≡ tree.old) }
    ensures went { IfOk result (λ undo. removed_part undo ≡ gone tree.old change.now) }
    ensures err { OnErr result (tree.new ≡ tree.old) }
{
    match change {
        Change::Set { path, .. } => put_with_undo(alloc, tree, path, change),
        Change::AddMember { path, .. } => put_with_undo(alloc, tree, path, change),
        Change::AddItem { path, .. } => put_with_undo(alloc, tree, path, change),
        Change::DropMember { path } => {
            Ok(Undo::Removed(remove_member_with_undo(alloc, tree, path.tokens())?))
        }
        Change::DropItem { path } => Ok(Undo::Removed(remove_item_with_undo(
            alloc,
            tree,
            path.tokens(),
        )?)),
        Change::Move { from, to, .. } => slide(alloc, tree, from, to),
        Change::Copy { to, .. } => put_with_undo(alloc, tree, &to.path, change),
    }
}

// Makes a change that only puts a value at the path, and returns what takes it back.
fn put_with_undo(
    alloc: Global,
    tree: &mut Tree,
    path: &Pointer,
    change: &Change,
) -> Result<Undo, AllocError>
    requires makes { (next : Document) × Makes tree.old change.now next }
    requires here { target change.now ≡ Some path.now }
    ensures made { OnOk result (Makes tree.old change.now tree.new) }
    ensures back { IfOk result (λ undo. undone undo tree.new ≡ tree.old) }
    ensures went { IfOk result (λ undo. removed_part undo ≡ gone tree.old change.now) }
    ensures err { OnErr result (tree.new ≡ tree.old) }
{
    let path = path.copy()?;
    let part = make(alloc, tree, change)?;
    Ok(undo_of_put(path, part))
}

/// Puts a removed value at its new place, without a copy, and keeps what takes the whole transfer
/// back. If memory runs out, the value goes back to its old place.
pub(crate) fn finish_transfer(
    alloc: Global,
    tree: &mut Tree,
    kept: &mut Vec<Undo>,
    place: &Place,
    removed: RemovedValue,
) -> Result<(), AllocError>
    requires { IsOk (inserted place.now removed.value tree.old) }
    ensures made { OnOk result (inserted place.now removed.value tree.old ≡ Ok tree.new) }
    ensures back { taken_back tree.new kept.new.items
        ≡ taken_back (reinserted removed.reinsertion removed.value tree.old) kept.old.items }
{
    let RemovedValue { reinsertion, value } = removed;
    match reserve_and_put(alloc, tree, kept, place, value) {
        Ok((to, part)) => {
            kept.push_reserved(Undo::Transferred {
                reinsertion,
                to,
                part,
            });
            Ok(())
        }
        Err(refused) => {
            reinsert(tree, reinsertion, refused.value);
            Err(AllocError)
        }
    }
}

// Reserves space for the record, then puts a value at a place. Returns a copy of the path, and the
// part that the value replaced, if any. If memory runs out, the tree is unchanged, and the value
// comes back.
fn reserve_and_put(
    alloc: Global,
    tree: &mut Tree,
    kept: &mut Vec<Undo>,
    place: &Place,
    value: Tree,
) -> Result<(Pointer, Option<Tree>), AllocFailed<Tree>>
    requires { IsOk (inserted place.now value tree.old) }
    ensures made { OnOk result (inserted place.now value tree.old ≡ Ok tree.new) }
    ensures place { IfOk result (λ it. it.0 ≡ place.now.path) }
    ensures part { IfOk result (λ it. it.1 ≡ displaced place.now tree.old) }
    ensures reserved { OnOk result (vec_len kept.new < vec_capacity kept.new) }
    ensures kept { kept.new.items ≡ kept.old.items }
    ensures err { OnErr result (tree.new ≡ tree.old) }
    ensures given_back { IfErr result (λ back. back.value ≡ value) }
{
    let Ok(path) = place.path.copy() else {
        return Err(AllocFailed { value });
    };
    if kept.reserve(1).is_err() {
        return Err(AllocFailed { value });
    }
    match put(alloc, tree, place, value) {
        Ok(part) => Ok((path, part)),
        Err(refused) => Err(refused),
    }
}
