//! The checks of a move. They find the target before the value is removed, so that a refusal leaves
//! nothing to put back.
ghost use Rattle.std.specs.Prelude.{◌≡◌, ◌≢◌, Ok, Err, false, IfOk, IfErr, bytes_eq};
ghost use Rattle.relay_tree.specs.Document.{Document};
ghost use Rattle.relay_pointer.specs.Path.{path_of, is_proper_prefix, same_path};
ghost use Rattle.relay_patch.specs.Walk.{step, walk};
ghost use Rattle.relay_patch.specs.Place.{place_of};
ghost use Rattle.relay_patch.specs.Patch.{at_path, drop_child};
ghost use Rattle.relay_apply.specs.Steps.{resolve_insert_in, resolve_insert, shifted, is_end, ends};
ghost use Rattle.relay_apply.specs.Steps.{is_same_end};
ghost use Rattle.relay_patch.specs.declared.fault.Cause.TheVariants.{NoMemory};

use crate::insert_target::{InsertTarget, insertion_index, resolve_insert, resolve_insert_in};
use crate::walk::{is_dash, step, walk};
use relay_patch::Cause;
use relay_pointer::{index_of, same_path};
use relay_tree::{Node, Tree};

/// Returns where an insertion at the path would go after the part at `from` is removed.
pub(crate) fn resolve_insert_after_removal(
    tree: &Tree,
    from: &[String],
    path: &[String],
) -> Result<InsertTarget, Cause>
    requires outside { is_proper_prefix (path_of from.now) (path_of path.now) ≡ false }
    requires elsewhere { same_path (path_of from.now) (path_of path.now) ≡ false }
    ensures insert_target { (rest : Document) → at_path drop_child (path_of from.now) tree.now
        ≡ Ok rest → result ≡ resolve_insert rest (path_of path.now) }
    ensures other { IfErr result (λ cause. cause ≢ NoMemory) }
{
    let [gone, deeper @ ..] = from else {
        return Ok(InsertTarget::Root);
    };
    let [token, onward @ ..] = path else {
        return Ok(InsertTarget::Root);
    };
    if onward.is_empty() {
        return if deeper.is_empty() {
            resolve_insert_in_after_removal(tree, gone.as_str(), token.as_str())
        } else {
            resolve_insert_in(tree, token.as_str())
        };
    }
    if deeper.is_empty() {
        return match step_after_removal(tree, gone.as_str(), token.as_str()) {
            Ok(part) => resolve_insert(part, onward),
            Err(cause) => Err(cause),
        };
    }
    match step(tree, token.as_str()) {
        Ok(part) => {
            if gone == token {
                resolve_insert_after_removal(part, deeper, onward)
            } else {
                resolve_insert(part, onward)
            }
        }
        Err(cause) => Err(cause),
    }
}

// Where a token would insert in a container after the part `gone` is removed.
fn resolve_insert_in_after_removal(
    container: &Tree,
    gone: &str,
    token: &str,
) -> Result<InsertTarget, Cause>
    requires { bytes_eq gone.now token.now ≡ false }
    ensures insert_target { (rest : Document) → drop_child gone.now container.now ≡ Ok rest
        → result ≡ resolve_insert_in rest token.now }
    ensures other { IfErr result (λ cause. cause ≢ NoMemory) }
{
    match container.node.list_len() {
        Some(length) => match insertion_index(length.saturating_sub(1), token) {
            Ok(index) => Ok(InsertTarget::Item { index }),
            Err(cause) => Err(cause),
        },
        None => resolve_insert_in(container, token),
    }
}

// The part that a token would name in a container after the part `gone` is removed.
fn step_after_removal<'t>(container: &'t Tree, gone: &str, token: &str) -> Result<&'t Tree, Cause>
    requires { bytes_eq gone.now token.now ≡ false }
    ensures ok { IfOk result (λ part. (rest : Document)
        → drop_child gone.now container.now ≡ Ok rest → step rest token.now ≡ Ok part.now) }
    ensures err { IfErr result (λ cause. (rest : Document)
        → drop_child gone.now container.now ≡ Ok rest → step rest token.now ≡ Err cause) }
    ensures other { IfErr result (λ cause. cause ≢ NoMemory) }
{
    match shifted(container, gone, token) {
        Some(index) => container.item(index).ok_or(Cause::Missing),
        None => step(container, token),
    }
}

// The present index of the element that `token` would name after the element `gone` is removed, if
// the removal shifts it.
fn shifted(container: &Tree, gone: &str, token: &str) -> Option<usize>
    ensures { result ≡ shifted container.now gone.now token.now }
{
    let length = container.node.list_len()?;
    let gone = index_of(gone)?;
    let index = index_of(token)?;
    if gone <= index && index < length as u64 {
        Some(index as usize + 1)
    } else {
        None
    }
}

/// Returns whether the path, after the part at `from` is removed, would name the place that the
/// part had.
pub(crate) fn stays(tree: &Tree, from: &[String], path: &[String]) -> bool
    ensures place { (rest : Document) → at_path drop_child (path_of from.now) tree.now ≡ Ok rest
        → result ≡ same_path (path_of from.now) (place_of rest (path_of path.now)).path }
    ensures elsewhere { result ≡ false → same_path (path_of from.now) (path_of path.now) ≡ false }
{
    let [before @ .., token] = from else {
        return path.is_empty();
    };
    let [parent @ .., last] = path else {
        return false;
    };
    same_path(before, parent) && is_same_end(tree, before, token, last)
}

// Whether both tokens name the same place of the container at the path, the second one after the
// part of the first is removed.
fn is_same_end(tree: &Tree, path: &[String], token: &str, last: &str) -> bool
    ensures { result ≡ is_same_end (walk tree.now (path_of path.now)) token.now last.now }
{
    token.as_bytes() == last.as_bytes() || (is_dash(last) && ends(tree, path, token))
}

// Whether the token names the last element of the list at the path.
fn ends(tree: &Tree, path: &[String], token: &str) -> bool
    ensures { result ≡ ends (walk tree.now (path_of path.now)) token.now }
{
    match walk(tree, path) {
        Ok(container) => is_end(container, token),
        Err(_) => false,
    }
}

fn is_end(container: &Tree, token: &str) -> bool
    ensures { result ≡ is_end container.now token.now }
{
    match &container.node {
        Node::List(items) => match index_of(token) {
            Some(index) => index.saturating_add(1) == items.len() as u64,
            None => false,
        },
        _ => false,
    }
}
