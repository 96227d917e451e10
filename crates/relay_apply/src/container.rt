//! Insertions and removals in one container.
ghost use Rattle.std.specs.Prelude.{◌≡◌, ◌≤◌, Ok, OnOk, OnErr, IfErr, IsOk, insert, vec_len};
ghost use Rattle.relay_tree.specs.Document.{items_of, list};
ghost use Rattle.relay_patch.specs.Walk.{step};
ghost use Rattle.relay_patch.specs.Patch.{insert_child, drop_child};

use crate::insert_target::insertion_index;
use relay_pointer::index_of;
use relay_tree::{Element, Node, Tree, insert_member};
use std::alloc::{AllocFailed, Global};

/// Inserts a value at the place that the token names. If memory runs out, the container is
/// unchanged, and the value comes back.
pub(crate) fn insert_child(
    alloc: Global,
    container: &mut Tree,
    token: &str,
    value: Tree,
) -> Result<(), AllocFailed<Tree>>
    requires { IsOk (insert_child value token.now container.old) }
    ensures ok { OnOk result (insert_child value token.now container.old ≡ Ok container.new) }
    ensures err { OnErr result (container.new ≡ container.old) }
    ensures given_back { IfErr result (λ back. back.value ≡ value) }
{
    match &mut container.node {
        Node::List(items) => insert_item(alloc, items, token, value),
        Node::Members(members) => insert_member(alloc, members, token, value),
        _ => unreachable!(),
    }
}

fn insert_item(
    alloc: Global,
    items: &mut Vec<Element>,
    token: &str,
    value: Tree,
) -> Result<(), AllocFailed<Tree>>
    requires { IsOk (insert_child value token.now (list (items_of items.old.items))) }
    ensures ok { OnOk result (insert_child value token.now (list (items_of items.old.items))
        ≡ Ok (list (items_of items.new.items))) }
    ensures err { OnErr result (items.new.items ≡ items.old.items) }
    ensures given_back { IfErr result (λ back. back.value ≡ value) }
{
    match insertion_index(items.len(), token) {
        Ok(index) => insert_at_index(alloc, items, index, value),
        Err(_) => unreachable!(),
    }
}

fn insert_at_index(
    alloc: Global,
    items: &mut Vec<Element>,
    index: usize,
    value: Tree,
) -> Result<(), AllocFailed<Tree>>
    requires { index ≤ vec_len items.old }
    ensures ok { OnOk result (items.new.items ≡ insert items.old.items index value) }
    ensures err { OnErr result (items.new.items ≡ items.old.items) }
    ensures given_back { IfErr result (λ back. back.value ≡ value) }
{
    if items.reserve(1).is_err() {
        return Err(AllocFailed { value });
    }
    match Element::new(alloc, value) {
        Ok(element) => {
            items.insert(index, element).unwrap();
            Ok(())
        }
        Err(refused) => Err(refused),
    }
}

/// Removes the part that the token names and returns it.
pub(crate) fn drop_child(container: &mut Tree, token: &str) -> Tree
    requires { IsOk (step container.old token.now) }
    ensures value { step container.old token.now ≡ Ok result }
    ensures rest { drop_child token.now container.old ≡ Ok container.new }
{
    match &mut container.node {
        Node::List(items) => drop_item(items, token),
        Node::Members(members) => members.remove(token).unwrap(),
        _ => unreachable!(),
    }
}

fn drop_item(items: &mut Vec<Element>, token: &str) -> Tree
    requires { IsOk (step (list (items_of items.old.items)) token.now) }
    ensures value { step (list (items_of items.old.items)) token.now ≡ Ok result }
    ensures rest { drop_child token.now (list (items_of items.old.items))
        ≡ Ok (list (items_of items.new.items)) }
{
    let index = index_of(token).unwrap() as usize;
    let element = items.remove(index);
    trim(items);
    element.into_tree()
}

// Frees the unused capacity of a list once it is more than three quarters of all.
fn trim(items: &mut Vec<Element>)
    ensures { items.new.items ≡ items.old.items }
{
    if items.capacity() / 4 > items.len() {
        items.shrink_to_fit();
    }
}
