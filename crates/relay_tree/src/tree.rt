//! A JSON value.
ghost use Rattle.std.specs.Prelude.{◌≡◌};

use crate::element::Element;
use crate::members::Members;
use std::marker::Model;

/// A JSON value whose numbers are whole. Contracts see it as a `Document`, and code matches on
/// `&tree.node`.
///
/// Dropping a tree, like any other walk over it, recurses once for each level of nesting.
///
/// ```
/// let board = Tree::from(Node::Text(String::from_str(alloc, "board").ok()?));
/// assert!(rt; board.text(alloc).ok()?.as_str() == r#""board""#);
/// assert!(rt; board.depth() == 1 && board.weight() == 8 + 5);
/// ```
#[cycle(tree)]
#[derive(Drop)]
pub struct Tree {
    pub node: Node,
}

/// The six kinds of JSON value (RFC 8259, section 3). Members are in the byte order of their names.
///
/// ```
/// assert!(rt; matches!(read(alloc, "7").ok()?.node, Node::Whole(7)));
/// assert!(rt; matches!(read(alloc, "true").ok()?.node, Node::Truth(true)));
/// assert!(rt; matches!(read(alloc, "{}").ok()?.node, Node::Members(_)));
/// ```
#[cycle(tree)]
#[derive(Drop)]
pub enum Node {
    Null,
    Truth(bool),
    Whole(i64),
    Text(String),
    List(Vec<Element>),
    Members(Members),
}

impl Model for Tree {
    ghost use Rattle.relay_tree.specs.Document.{Document, weight};
    ghost use Rattle.relay_tree.specs.Code.{document_code};

    ghost Value = { Document };

    ghost coded = { document_code };

    ghost use Rattle.relay_tree.specs.Seen.{document_of};

    ghost view = { λ t. document_of t.node };

    ghost size = { weight };

    ghost use Rattle.std.proofs.Common.{arith};
    ghost use Rattle.relay_tree.specs.Falls.{deep-weight};

    ghost size_decreases = { λ t h. omega (arith, deep-weight t.node) };
}

impl From<Node> for Tree {
    ghost use Rattle.relay_tree.specs.Seen.{document_of};

    ghost from_gives = { λ node tree. tree ≡ document_of node };

    fn from(node: Node) -> Tree {
        Tree { node }
    }
}
