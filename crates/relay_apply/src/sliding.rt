//! Moves within one list: an element slides from its place to another. No tree is moved or copied,
//! only pointers to elements. Over a few places the element is exchanged with its neighbours; over
//! more, the elements behind each place move as a block.
ghost use Rattle.std.specs.Prelude.{◌≡◌, ◌<◌, ◌^◌, ℕ, true, Some, None, length, OnOk, OnErr, IfOk};
ghost use Rattle.std.specs.Prelude.{vec_len};
ghost use Rattle.relay_tree.specs.Document.{Document, list, Items, items_of};
ghost use Rattle.relay_tree.specs.Part.{items_length};
ghost use Rattle.relay_tree.specs.Seen.{document_of};
ghost use Rattle.relay_pointer.specs.Index.{index_of};
ghost use Rattle.relay_pointer.specs.Path.{path_of, at};
ghost use Rattle.relay_patch.specs.Place.{front, last_of, beside, in_one_list};
ghost use Rattle.relay_patch.specs.Change.{Moves};
ghost use Rattle.relay_apply.specs.Undo.{slid_items, slid, with_part, undone, removed_part};

use crate::reinsertion::index_or_zero;
use crate::undo::Undo;
use relay_patch::Place;
use relay_pointer::{Pointer, resolve_mut, same_path};
use relay_tree::{Element, Node, Tree};
use std::alloc::{AllocError, Global};

// The most places over which an element is exchanged with its neighbours.
const NEAR: usize = 64;

/// Returns whether both places are items of one list.
pub(crate) fn in_one_list(from: &Place, to: &Place) -> bool
    ensures { result ≡ in_one_list from.now to.now }
{
    from.item && to.item && beside(from.path.tokens(), to.path.tokens())
}

// Whether both paths lead to parts of one container.
fn beside(path: &[String], other: &[String]) -> bool
    ensures { result ≡ beside (path_of path.now) (path_of other.now) }
{
    let [before @ .., _] = path else {
        return false;
    };
    let [parent @ .., _] = other else {
        return false;
    };
    same_path(before, parent)
}

/// Makes a move within one list and returns what takes it back. Allocates only the list's path. If
/// memory runs out, the tree is unchanged.
pub(crate) fn slide(
    alloc: Global,
    tree: &mut Tree,
    from: &Place,
    to: &Place,
) -> Result<Undo, AllocError>
    requires list { in_one_list from.now to.now ≡ true }
    requires moves { (v next : Document) × Moves tree.old from.now to.now v next }
    ensures made { OnOk result ((v next : Document) → Moves tree.old from.now to.now v next
        → tree.new ≡ next) }
    ensures back { IfOk result (λ kept. undone kept tree.new ≡ tree.old) }
    ensures went { IfOk result (λ kept. removed_part kept ≡ None) }
    ensures err { OnErr result (tree.new ≡ tree.old) }
{
    let list = container_of(alloc, from.path.tokens())?;
    let from = index_at(from.path.tokens());
    let to = index_at(to.path.tokens());
    slide_at(tree, &list, from, to);
    Ok(Undo::Slid {
        list,
        from: to,
        to: from,
    })
}

// The path of the container that holds the part at the path.
fn container_of(alloc: Global, path: &[String]) -> Result<Pointer, AllocError>
    ensures { IfOk result (λ container. container ≡ front (path_of path.now)) }
{
    let [before @ .., _] = path else {
        return Ok(Pointer::root());
    };
    Pointer::copied(alloc, before)
}

// The index that the last token of the path spells.
fn index_at(path: &[String]) -> usize
    ensures { (i : ℕ) → index_of (last_of (path_of path.now)) ≡ Some i → i < 2 ^ 64 → result ≡ i }
{
    match path {
        [.., last] => index_or_zero(last.as_str()),
        [] => 0,
    }
}

/// Slides an element of the list at the path from one index to another, if both exist. Allocates
/// nothing.
pub(crate) fn slide_at(tree: &mut Tree, path: &Pointer, from: usize, to: usize)
    ensures slid { tree.new ≡ with_part (slid from to) path.now (at tree.old path.now) tree.old }
    ensures few { (ds : Items) → at tree.old path.now ≡ Some (list ds) → items_length ds < 2 ^ 64 }
{
    if let Some(node) = resolve_mut(tree, path) {
        slide_in(node, from, to);
    }
}

fn slide_in(node: &mut Node, from: usize, to: usize)
    ensures slid { document_of node.new ≡ slid from to (document_of node.old) }
    ensures few { (ds : Items) → document_of node.old ≡ list ds → items_length ds < 2 ^ 64 }
{
    if let Node::List(items) = node {
        slide_item(items, from, to);
    }
}

// The removal leaves capacity for the insertion.
fn slide_item(items: &mut Vec<Element>, from: usize, to: usize)
    ensures slid { items_of items.new.items ≡ slid_items from to (items_of items.old.items) }
    ensures few { length items.old.items < 2 ^ 64 }
{
    if from.max(to) >= items.len() {
        return;
    }
    if from.abs_diff(to) <= NEAR {
        return slide_near(items, from, to);
    }
    let element = items.remove(from);
    items.insert(to, element).unwrap();
}

// Exchanges neighbours, one pair after another. At most one of the two loops runs.
fn slide_near(items: &mut Vec<Element>, from: usize, to: usize)
    requires from_in_bounds { from < vec_len items.old }
    requires to_in_bounds { to < vec_len items.old }
    ensures { items_of items.new.items ≡ slid_items from to (items_of items.old.items) }
{
    for index in from..to {
        items.swap(index, index + 1);
    }
    for index in (to..from).rev() {
        items.swap(index, index + 1);
    }
}
