//! Changes made to a tree.
ghost use Rattle.std.specs.Prelude.{◌≡◌, Ok, None, false, OnOk, OnErr, IfOk, IfErr, IsOk, is_some};
ghost use Rattle.relay_tree.specs.Document.{Document};
ghost use Rattle.relay_pointer.specs.Path.{path_of};
ghost use Rattle.relay_patch.specs.Walk.{walk};
ghost use Rattle.relay_patch.specs.Patch.{added, at_path, drop_child};
ghost use Rattle.relay_patch.specs.Change.{Makes, inserted};
ghost use Rattle.relay_patch.specs.Measure.{displaced, gone, is_transfer};

use crate::container::{drop_child, insert_child};
use crate::exchange::exchange;
use crate::sliding::slide;
use relay_patch::{Change, Place};
use relay_pointer::{child_mut, resolve};
use relay_tree::Tree;
use std::alloc::{AllocError, AllocFailed, Global};

/// Makes a change that is no transfer, and returns the value that it removed or replaced. If memory
/// runs out, the tree is unchanged.
pub(crate) fn make(
    alloc: Global,
    tree: &mut Tree,
    change: &Change,
) -> Result<Option<Tree>, AllocError>
    requires makes { (next : Document) × Makes tree.old change.now next }
    requires in_place { is_transfer change.now ≡ false }
    ensures made { OnOk result (Makes tree.old change.now tree.new) }
    ensures went { IfOk result (λ went. went ≡ gone tree.old change.now) }
    ensures err { OnErr result (tree.new ≡ tree.old) }
{
    match change {
        Change::Set { path, value } => {
            let value = value.copy(alloc)?;
            Ok(Some(exchange(tree, path, value)))
        }
        Change::AddMember { path, value } => insert_copy(alloc, tree, path.tokens(), value),
        Change::AddItem { path, value } => insert_copy(alloc, tree, path.tokens(), value),
        Change::DropMember { path } => Ok(Some(remove_at(tree, path.tokens()))),
        Change::DropItem { path } => Ok(Some(remove_at(tree, path.tokens()))),
        Change::Move { from, to, .. } => {
            drop(slide(alloc, tree, from, to)?);
            Ok(None)
        }
        Change::Copy { to, value, .. } => {
            let value = value.copy(alloc)?;
            Ok(put(alloc, tree, to, value)?)
        }
    }
}

/// Puts a value at a place and returns the one that it replaced, if any. If memory runs out, the
/// tree is unchanged, and the value comes back.
pub(crate) fn put(
    alloc: Global,
    tree: &mut Tree,
    place: &Place,
    value: Tree,
) -> Result<Option<Tree>, AllocFailed<Tree>>
    requires { IsOk (inserted place.now value tree.old) }
    ensures made { OnOk result (added place.now.path value tree.old ≡ Ok tree.new) }
    ensures went { IfOk result (λ went. went ≡ displaced place.now tree.old) }
    ensures err { OnErr result (tree.new ≡ tree.old) }
    ensures given_back { IfErr result (λ back. back.value ≡ value) }
{
    if is_taken(tree, place) {
        return Ok(Some(exchange(tree, &place.path, value)));
    }
    match insert_at(alloc, tree, place.path.tokens(), value) {
        Ok(()) => Ok(None),
        Err(refused) => Err(refused),
    }
}

fn is_taken(tree: &Tree, place: &Place) -> bool
    ensures { result ≡ is_some (displaced place.now tree.now) }
{
    !place.item && resolve(tree, &place.path).is_some()
}

// Inserts a copy of a value that replaces none.
fn insert_copy(
    alloc: Global,
    tree: &mut Tree,
    path: &[String],
    value: &Tree,
) -> Result<Option<Tree>, AllocError>
    requires { IsOk (added (path_of path.now) value.now tree.old) }
    ensures made { OnOk result (added (path_of path.now) value.now tree.old ≡ Ok tree.new) }
    ensures went { IfOk result (λ went. went ≡ None) }
    ensures err { OnErr result (tree.new ≡ tree.old) }
{
    let value = value.copy(alloc)?;
    insert_at(alloc, tree, path, value)?;
    Ok(None)
}

fn insert_at(
    alloc: Global,
    tree: &mut Tree,
    path: &[String],
    value: Tree,
) -> Result<(), AllocFailed<Tree>>
    requires { IsOk (added (path_of path.now) value tree.old) }
    ensures ok { OnOk result (added (path_of path.now) value tree.old ≡ Ok tree.new) }
    ensures err { OnErr result (tree.new ≡ tree.old) }
    ensures given_back { IfErr result (λ back. back.value ≡ value) }
{
    let [token, rest @ ..] = path else {
        *tree = value;
        return Ok(());
    };
    if rest.is_empty() {
        return insert_child(alloc, tree, token.as_str(), value);
    }
    let part = child_mut(&mut tree.node, token.as_str()).unwrap();
    insert_at(alloc, part, rest, value)
}

/// Removes the value at the path and returns it.
pub(crate) fn remove_at(tree: &mut Tree, path: &[String]) -> Tree
    requires { IsOk (at_path drop_child (path_of path.now) tree.old) }
    ensures value { walk tree.old (path_of path.now) ≡ Ok result }
    ensures rest { at_path drop_child (path_of path.now) tree.old ≡ Ok tree.new }
{
    let [token, rest @ ..] = path else {
        unreachable!()
    };
    if rest.is_empty() {
        return drop_child(tree, token.as_str());
    }
    let part = child_mut(&mut tree.node, token.as_str()).unwrap();
    remove_at(part, rest)
}
