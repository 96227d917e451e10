//! The place on which an operation acts, found by its checks. Nothing here changes a tree or
//! allocates.
ghost use Rattle.std.specs.Prelude.{◌≡◌, ◌≢◌, ◌<◌, ◌≤◌, ◌-◌, ◌^◌, IfOk, IfErr};
ghost use Rattle.relay_pointer.specs.Path.{path_of};
ghost use Rattle.relay_patch.specs.Place.{place_of};
ghost use Rattle.relay_apply.specs.Steps.{insertion_index, resolve_insert_in, resolve_insert};
ghost use Rattle.relay_apply.specs.Steps.{resolve_existing_in, resolve_existing};
ghost use Rattle.relay_patch.specs.declared.fault.Cause.TheVariants.{NoMemory};

use crate::walk::{is_dash, step, walk};
use relay_patch::Cause;
use relay_pointer::index_of;
use relay_tree::{Node, Tree};

/// The place at which a value is inserted.
#[derive(Clone, Copy)]
pub(crate) enum InsertTarget {
    /// In place of the whole document.
    Root,
    /// Under a name in an object. `there` is true if the object has a member of that name.
    Member { there: bool },
    /// In a list, before the element at the index, or at the end if the index is the length.
    Item { index: usize },
}

/// Returns where an insertion at the path goes, or why it is refused.
pub(crate) fn resolve_insert(tree: &Tree, path: &[String]) -> Result<InsertTarget, Cause>
    ensures insert_target { result ≡ resolve_insert tree.now (path_of path.now) }
    ensures other { IfErr result (λ cause. cause ≢ NoMemory) }
{
    let [before @ .., last] = path else {
        return Ok(InsertTarget::Root);
    };
    match walk(tree, before) {
        Ok(container) => resolve_insert_in(container, last.as_str()),
        Err(cause) => Err(cause),
    }
}

pub(crate) fn resolve_insert_in(container: &Tree, token: &str) -> Result<InsertTarget, Cause>
    ensures insert_target { result ≡ resolve_insert_in container.now token.now }
    ensures other { IfErr result (λ cause. cause ≢ NoMemory) }
{
    match &container.node {
        Node::List(items) => match insertion_index(items.len(), token) {
            Ok(index) => Ok(InsertTarget::Item { index }),
            Err(cause) => Err(cause),
        },
        Node::Members(_) => Ok(InsertTarget::Member {
            there: container.member(token).is_some(),
        }),
        _ => Err(Cause::NoContainer),
    }
}

/// Returns the index at which the token inserts into a list of `length` elements.
pub(crate) fn insertion_index(length: usize, token: &str) -> Result<usize, Cause>
    requires { length < 2 ^ 64 - 1 }
    ensures is { result ≡ insertion_index length token.now }
    ensures within { IfOk result (λ i. i ≤ length) }
    ensures other { IfErr result (λ cause. cause ≢ NoMemory) }
{
    if is_dash(token) {
        return Ok(length);
    }
    match index_of(token) {
        Some(index) if index <= length as u64 => Ok(index as usize),
        Some(_) => Err(Cause::PastEnd),
        None => Err(Cause::NotIndex),
    }
}

/// Returns whether the part at the path is an element of a list. The root is refused with
/// `Cause::Root`.
pub(crate) fn resolve_existing(tree: &Tree, path: &[String]) -> Result<bool, Cause>
    ensures item { result ≡ resolve_existing tree.now (path_of path.now) }
    ensures other { IfErr result (λ cause. cause ≢ NoMemory) }
{
    let [before @ .., last] = path else {
        return Err(Cause::Root);
    };
    match walk(tree, before) {
        Ok(container) => resolve_existing_in(container, last.as_str()),
        Err(cause) => Err(cause),
    }
}

fn resolve_existing_in(container: &Tree, token: &str) -> Result<bool, Cause>
    ensures item { result ≡ resolve_existing_in container.now token.now }
    ensures other { IfErr result (λ cause. cause ≢ NoMemory) }
{
    match step(container, token) {
        Ok(_) => Ok(matches!(&container.node, Node::List(_))),
        Err(cause) => Err(cause),
    }
}

/// Returns whether the path names a place in a list.
pub(crate) fn is_item_at(tree: &Tree, path: &[String]) -> bool
    ensures { result ≡ (place_of tree.now (path_of path.now)).item }
{
    let [before @ .., _] = path else {
        return false;
    };
    match walk(tree, before) {
        Ok(container) => matches!(&container.node, Node::List(_)),
        Err(_) => false,
    }
}
