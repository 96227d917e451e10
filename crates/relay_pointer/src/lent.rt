//! Mutable access to the value to which a pointer leads.
ghost use Rattle.std.specs.Prelude.{◌≡◌, ◌<◌, ◌≤◌, take, length, slice_index_or, []};
ghost use Rattle.std.specs.Option.{option_map, option_copied_mut};
ghost use Rattle.std.specs.Borrow.{Lends, LendsIf, sem};
ghost use Rattle.relay_tree.specs.Seen.{document_of};
ghost use Rattle.relay_tree.specs.contracts.tree.Node as node;
ghost use Rattle.relay_tree.specs.contracts.tree.Tree as tree;
ghost use Rattle.relay_pointer.specs.Path.{child, at, put};
ghost use Rattle.relay_pointer.specs.Lending.{LendsChild};

use crate::pointer::Pointer;
use crate::walk::child_mut;
use relay_tree::{Node, Tree};

/// Borrows the value to which the pointer leads, as a node for writing. Afterwards the whole is the
/// old one with what was written put at the path. Returns `None`, with the whole unchanged, if the
/// pointer leads to nothing. Allocates nothing.
///
/// ```
/// let mut board = read(alloc, r#"{"cards": [1, 2]}"#).ok()?;
/// *resolve_mut(&mut board, &Pointer::read(alloc, "/cards/1", 64).ok()?)? = Node::Whole(3);
/// assert!(rt; board.text(alloc).ok()?.as_str() == r#"{"cards":[1,3]}"#);
/// ```
pub fn resolve_mut<'t>(whole: &'t mut Tree, pointer: &Pointer) -> Option<&'t mut Node>
    ensures* writes_back { sem 𝓛 (LendsIf tree.the_row node.the_row whole.entry result
        (λ n. put whole.old pointer.now (document_of n)) whole.old) }
    ensures value { option_map document_of (option_copied_mut result) ≡ at whole.old pointer.now }
{
    let count = pointer.tokens().len();
    part_mut(whole, pointer, count)
}

// The node to which the first `count` tokens lead. Its proof is written by hand and depends on this
// body and these parameters.
fn part_mut<'t>(whole: &'t mut Tree, pointer: &Pointer, count: usize) -> Option<&'t mut Node>
    requires { count ≤ length pointer.now }
    ensures* writes_back { sem 𝓛 (LendsIf tree.the_row node.the_row whole.entry result
        (λ n. put whole.old (take count pointer.now) (document_of n)) whole.old) }
    ensures value { option_map document_of (option_copied_mut result)
        ≡ at whole.old (take count pointer.now) }
{
    let mut part = node_mut(whole);
    let mut index = 0;
    while index < count {
        match child_at(part, pointer, index) {
            Some(child) => part = node_mut(child),
            None => return None,
        }
        index += 1;
    }
    Some(part)
}

fn node_mut(whole: &mut Tree) -> &mut Node
    ensures* writes_back { sem 𝓛 (Lends tree.the_row node.the_row whole.entry result document_of) }
    ensures value { document_of result.now ≡ whole.old }
{
    &mut whole.node
}

// The part that the token at `index` names.
fn child_at<'t>(node: &'t mut Node, pointer: &Pointer, index: usize) -> Option<&'t mut Tree>
    requires { index < length pointer.now }
    ensures* writes_back { sem 𝓛
        (LendsChild node.entry (slice_index_or pointer.now index []) result) }
    ensures value { option_copied_mut result
        ≡ child (document_of node.old) (slice_index_or pointer.now index []) }
{
    child_mut(node, pointer.tokens()[index].as_str())
}
