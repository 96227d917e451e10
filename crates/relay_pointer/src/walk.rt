//! Evaluation of a pointer (RFC 6901, section 4).
ghost use Rattle.std.specs.Prelude.{◌≡◌, option_copied};
ghost use Rattle.std.specs.Option.{option_copied_mut};
ghost use Rattle.std.specs.Borrow.{sem};
ghost use Rattle.relay_tree.specs.Seen.{document_of};
ghost use Rattle.relay_pointer.specs.Path.{child, at};
ghost use Rattle.relay_pointer.specs.Lending.{LendsChild};

use crate::index::index_of;
use crate::pointer::Pointer;
use relay_tree::{Node, Tree};

/// Returns the value to which the pointer leads, if there is one. Allocates nothing.
///
/// ```
/// let board = read(alloc, r#"{"a/b": [7]}"#).ok()?;
/// let first = Pointer::read(alloc, "/a~1b/0", 64).ok()?;
/// assert!(rt; resolve(&board, &first)?.count() == Some(7));
/// // `-` names the place behind the last element, where nothing is.
/// let end = Pointer::read(alloc, "/a~1b/-", 64).ok()?;
/// assert!(rt; resolve(&board, &end).is_none());
/// ```
pub fn resolve<'t>(tree: &'t Tree, pointer: &Pointer) -> Option<&'t Tree>
    ensures { option_copied result ≡ at tree.now pointer.now }
{
    let mut part = tree;
    for token in pointer.tokens() {
        part = child(part, token.as_str())?;
    }
    Some(part)
}

/// Returns the part that one token names: the member of an object, or the element of a list if the
/// token is its index.
///
/// ```
/// let board = read(alloc, r#"{"a/b": 7}"#).ok()?;
/// // A token is not escaped.
/// assert!(rt; child(&board, "a/b")?.count() == Some(7) && child(&board, "a~1b").is_none());
/// ```
pub fn child<'t>(tree: &'t Tree, token: &str) -> Option<&'t Tree>
    ensures { option_copied result ≡ child tree.now token.now }
{
    match &tree.node {
        Node::List(_) => tree.item(index_of(token)? as usize),
        Node::Members(_) => tree.member(token),
        _ => None,
    }
}

/// Borrows the part that one token names for writing, or returns `None` if it names none. Only what
/// is written there changes. Allocates nothing.
///
/// ```
/// let mut cards = read(alloc, "[1, 2]").ok()?;
/// child_mut(&mut cards.node, "1")?.node = Node::Null;
/// assert!(rt; cards.text(alloc).ok()?.as_str() == "[1,null]");
/// ```
pub fn child_mut<'t>(node: &'t mut Node, token: &str) -> Option<&'t mut Tree>
    ensures* writes_back { sem 𝓛 (LendsChild node.entry token.now result) }
    ensures value { option_copied_mut result ≡ child (document_of node.old) token.now }
{
    if node.list_len().is_none() {
        return node.member_mut(token);
    }
    match index_of(token) {
        Some(index) => node.item_mut(index as usize),
        None => None,
    }
}
