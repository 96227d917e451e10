//! Removals that can be taken back: what puts the value back is allocated before it is removed, so
//! that nothing has to be allocated then.
ghost use Rattle.std.specs.Prelude.{◌≡◌, ◌^◌, ◌<◌, ℕ, Ok, Some, IsOk, IfOk, OnOk, OnErr, vec_len};
ghost use Rattle.std.specs.Prelude.{vec_capacity, string_bytes};
ghost use Rattle.relay_tree.specs.Document.{Items, Members as members_type, list, object, items_of};
ghost use Rattle.relay_tree.specs.Part.{items_length, members_length, IsOrdered};
ghost use Rattle.relay_tree.specs.Seen.{document_of};
ghost use Rattle.relay_pointer.specs.Index.{index_of};
ghost use Rattle.relay_pointer.specs.Path.{path_of, at};
ghost use Rattle.relay_patch.specs.Walk.{walk};
ghost use Rattle.relay_patch.specs.Patch.{at_path, drop_child};
ghost use Rattle.relay_patch.specs.Change.{in_list, in_object, dropped};
ghost use Rattle.relay_apply.specs.Undo.{reinserted_items, reinserted_item, reinserted_member};
ghost use Rattle.relay_apply.specs.Undo.{with_part, reinserted};

use crate::making::remove_at;
use crate::walk::walk;
use relay_patch::Place;
use relay_pointer::{Pointer, index_of, resolve_mut};
use relay_tree::{Element, Members, Node, Tree};
use std::alloc::{AllocError, Global};

/// Puts a removed value back into its list or object without allocating.
///
/// `spare` has capacity for as many parts as the container had before the removal. If the container
/// has no free capacity when the value comes back, its parts move to `spare`. No contract can say
/// whether it has some, since a tree's model does not show capacities.
#[derive(Drop)]
pub enum Reinsertion {
    /// Into a list, at the index. The value goes into `element`, which was allocated for it.
    Item {
        list: Pointer,
        index: usize,
        element: Element,
        spare: Vec<Element>,
    },
    /// Into an object, under the name.
    Member {
        object: Pointer,
        name: String,
        spare: Members,
    },
}

/// A value that was removed, and what puts it back.
#[derive(Drop)]
pub struct RemovedValue {
    pub reinsertion: Reinsertion,
    pub value: Tree,
}

/// Removes the value at a place, and returns it with what puts it back. If memory runs out, the
/// tree is unchanged.
pub(crate) fn remove_with_undo(
    alloc: Global,
    tree: &mut Tree,
    place: &Place,
) -> Result<RemovedValue, AllocError>
    requires { IsOk (dropped place.now tree.old) }
    ensures made { OnOk result (dropped place.now tree.old ≡ Ok tree.new) }
    ensures value { IfOk result (λ gone. walk tree.old place.now.path ≡ Ok gone.value) }
    ensures back { IfOk result (λ gone.
        reinserted gone.reinsertion gone.value tree.new ≡ tree.old) }
    ensures err { OnErr result (tree.new ≡ tree.old) }
{
    if place.item {
        remove_item_with_undo(alloc, tree, place.path.tokens())
    } else {
        remove_member_with_undo(alloc, tree, place.path.tokens())
    }
}

/// Removes an element from its list, as [`remove_with_undo`] does.
pub(crate) fn remove_item_with_undo(
    alloc: Global,
    tree: &mut Tree,
    path: &[String],
) -> Result<RemovedValue, AllocError>
    requires { IsOk (at_path (in_list drop_child) (path_of path.now) tree.old) }
    ensures made { OnOk result (at_path (in_list drop_child) (path_of path.now) tree.old
        ≡ Ok tree.new) }
    ensures value { IfOk result (λ gone. walk tree.old (path_of path.now) ≡ Ok gone.value) }
    ensures back { IfOk result (λ gone.
        reinserted gone.reinsertion gone.value tree.new ≡ tree.old) }
    ensures err { OnErr result (tree.new ≡ tree.old) }
{
    let [before @ .., last] = path else {
        unreachable!()
    };
    let list = Pointer::copied(alloc, before)?;
    let spare = Vec::with_capacity(alloc, length_at(tree, before))?;
    let element = Element::new(alloc, Tree::from(Node::Null))?;
    let index = index_or_zero(last.as_str());
    let value = remove_at(tree, path);
    let reinsertion = Reinsertion::Item {
        list,
        index,
        element,
        spare,
    };
    Ok(RemovedValue { reinsertion, value })
}

// The number of elements of the list at the path.
fn length_at(tree: &Tree, path: &[String]) -> usize
    ensures { (ds : Items) → walk tree.now (path_of path.now) ≡ Ok (list ds)
        → result ≡ items_length ds }
{
    match walk(tree, path) {
        Ok(part) => part.node.list_len().unwrap_or(0),
        Err(_) => 0,
    }
}

/// Returns the index that a token spells, or 0 if it spells none.
pub(crate) fn index_or_zero(token: &str) -> usize
    ensures { (i : ℕ) → index_of token.now ≡ Some i → i < 2 ^ 64 → result ≡ i }
{
    match index_of(token) {
        Some(index) => index as usize,
        None => 0,
    }
}

/// Removes a member from its object, as [`remove_with_undo`] does.
pub(crate) fn remove_member_with_undo(
    alloc: Global,
    tree: &mut Tree,
    path: &[String],
) -> Result<RemovedValue, AllocError>
    requires { IsOk (at_path (in_object drop_child) (path_of path.now) tree.old) }
    ensures made { OnOk result (at_path (in_object drop_child) (path_of path.now) tree.old
        ≡ Ok tree.new) }
    ensures value { IfOk result (λ gone. walk tree.old (path_of path.now) ≡ Ok gone.value) }
    ensures back { IfOk result (λ gone.
        reinserted gone.reinsertion gone.value tree.new ≡ tree.old) }
    ensures err { OnErr result (tree.new ≡ tree.old) }
{
    let [before @ .., last] = path else {
        unreachable!()
    };
    let object = Pointer::copied(alloc, before)?;
    let name = last.clone()?;
    let spare = Members::with_capacity(alloc, members_at(tree, before))?;
    let value = remove_at(tree, path);
    let reinsertion = Reinsertion::Member {
        object,
        name,
        spare,
    };
    Ok(RemovedValue { reinsertion, value })
}

// The number of members of the object at the path.
fn members_at(tree: &Tree, path: &[String]) -> usize
    ensures len { (ms : members_type) → walk tree.now (path_of path.now) ≡ Ok (object ms)
        → result ≡ members_length ms }
    ensures ordered { (ms : members_type) → walk tree.now (path_of path.now) ≡ Ok (object ms)
        → IsOrdered ms }
{
    match walk(tree, path) {
        Ok(part) => part.node.members_len().unwrap_or(0),
        Err(_) => 0,
    }
}

/// Puts a removed value back. Allocates nothing.
pub(crate) fn reinsert(tree: &mut Tree, reinsertion: Reinsertion, value: Tree)
    ensures { tree.new ≡ reinserted reinsertion value tree.old }
{
    match reinsertion {
        Reinsertion::Item {
            list,
            index,
            element,
            spare,
        } => reinsert_item_at(tree, &list, index, element.with_tree(value), spare),
        Reinsertion::Member {
            object,
            name,
            spare,
        } => reinsert_member_at(tree, &object, name, value, spare),
    }
}

fn reinsert_item_at(
    tree: &mut Tree,
    path: &Pointer,
    index: usize,
    element: Element,
    spare: Vec<Element>,
)
    ensures { tree.new ≡ with_part (reinserted_item (vec_capacity spare) index element) path.now
        (at tree.old path.now) tree.old }
{
    if let Some(node) = resolve_mut(tree, path) {
        reinsert_item_in(node, index, element, spare);
    }
}

fn reinsert_item_in(node: &mut Node, index: usize, element: Element, spare: Vec<Element>)
    ensures { document_of node.new ≡ reinserted_item (vec_capacity spare) index element
        (document_of node.old) }
{
    if let Node::List(items) = node {
        reinsert_item(items, index, element, spare);
    }
}

// Inserts the element at the index. Changes nothing if the list has as many elements as fit into
// `spare`, or if the index is past the end.
fn reinsert_item(items: &mut Vec<Element>, index: usize, element: Element, spare: Vec<Element>)
    ensures { items_of items.new.items
        ≡ reinserted_items (vec_capacity spare) index element (items_of items.old.items) }
{
    if items.len() >= spare.capacity() || index > items.len() {
        return;
    }
    ensure_capacity(items, spare);
    items.insert(index, element).unwrap();
}

// Ensures that one more element fits into the vector: if it is full, moves all elements to `spare`.
fn ensure_capacity(items: &mut Vec<Element>, spare: Vec<Element>)
    requires { vec_len items.old < vec_capacity spare }
    ensures items { items.new.items ≡ items.old.items }
    ensures capacity { vec_len items.new < vec_capacity items.new }
    ensures len { vec_len items.new ≡ vec_len items.old }
{
    if items.len() < items.capacity() {
        return;
    }
    let mut larger = spare;
    larger.clear();
    larger.append(items).unwrap();
    *items = larger;
}

fn reinsert_member_at(tree: &mut Tree, path: &Pointer, name: String, value: Tree, spare: Members)
    ensures { tree.new ≡ with_part (reinserted_member spare.capacity (string_bytes name) value)
        path.now (at tree.old path.now) tree.old }
{
    if let Some(node) = resolve_mut(tree, path) {
        reinsert_member_in(node, name, value, spare);
    }
}

fn reinsert_member_in(node: &mut Node, name: String, value: Tree, spare: Members)
    ensures { document_of node.new ≡ reinserted_member spare.capacity (string_bytes name) value
        (document_of node.old) }
{
    if let Node::Members(members) = node {
        members.put_back(name, value, spare);
    }
}
