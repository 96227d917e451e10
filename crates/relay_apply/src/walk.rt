//! Walks along a path that return the cause if they end early.
ghost use Rattle.std.specs.Prelude.{◌≡◌, ◌≢◌, Ok, Err, None, IfOk, IfErr};
ghost use Rattle.relay_pointer.specs.Path.{path_of, child};
ghost use Rattle.relay_patch.specs.Walk.{step, walk, is_dash};
ghost use Rattle.relay_patch.specs.declared.fault.Cause.TheVariants.{NoMemory};

use relay_patch::Cause;
use relay_pointer::{child, index_of};
use relay_tree::{Node, Tree};

/// Returns the value to which the path leads, or why it leads to none.
pub(crate) fn walk<'t>(tree: &'t Tree, path: &[String]) -> Result<&'t Tree, Cause>
    ensures ok { IfOk result (λ part. walk tree.now (path_of path.now) ≡ Ok part.now) }
    ensures err { IfErr result (λ cause. walk tree.now (path_of path.now) ≡ Err cause) }
    ensures other { IfErr result (λ cause. cause ≢ NoMemory) }
{
    let mut part = tree;
    for token in path {
        part = step(part, token.as_str())?;
    }
    Ok(part)
}

/// Returns the part that one token names, or why it names none.
#[tactic(auto, using(relay_patch::proofs::Walks::found_step))]
pub(crate) fn step<'t>(tree: &'t Tree, token: &str) -> Result<&'t Tree, Cause>
    ensures ok { IfOk result (λ part. step tree.now token.now ≡ Ok part.now) }
    ensures err { IfErr result (λ cause. step tree.now token.now ≡ Err cause) }
    ensures other { IfErr result (λ cause. cause ≢ NoMemory) }
{
    match child(tree, token) {
        Some(part) => Ok(part),
        None => Err(why_none(tree, token)),
    }
}

// Why a token names no part.
fn why_none(tree: &Tree, token: &str) -> Cause
    requires { child tree.now token.now ≡ None }
    ensures cause { step tree.now token.now ≡ Err result }
    ensures other { result ≢ NoMemory }
{
    match &tree.node {
        Node::List(_) if is_dash(token) || index_of(token).is_some() => Cause::Missing,
        Node::List(_) => Cause::NotIndex,
        Node::Members(_) => Cause::Missing,
        _ => Cause::NoContainer,
    }
}

/// Returns whether the token is `-`, which names the place after the last element.
pub(crate) fn is_dash(token: &str) -> bool
    ensures { result ≡ is_dash token.now }
{
    token.as_bytes() == b"-".as_slice()
}
