//! Equality of trees (RFC 6902, section 4.6). Comparing allocates nothing.
ghost use Rattle.std.specs.Prelude.{◌≡◌, ◌↔◌, IsTrue};
ghost use Rattle.relay_tree.specs.Seen.{members_of};

use crate::element::{Element, iter_items};
use crate::members::Members;
use crate::tree::{Node, Tree};

impl Tree {
    /// Returns whether both are the same document: the order in which members were written has no
    /// meaning, and texts are equal only code point by code point. Costs at most a walk of the
    /// smaller tree.
    ///
    /// ```
    /// let one = read(alloc, r#"{"a": 1, "b": 2}"#).ok()?;
    /// assert!(rt; one.same(&read(alloc, r#"{"b": 2, "a": 1}"#).ok()?));
    /// // As RFC 6902, A.15, says: a number is no text.
    /// assert!(rt; !read(alloc, "10").ok()?.same(&read(alloc, r#""10""#).ok()?));
    /// ```
    pub fn same(&self, other: &Tree) -> bool
        ensures { IsTrue result ↔ (self.now ≡ other.now) }
    {
        same_tree(self, other)
    }
}

#[cycle(same)]
#[tactic(auto, using(crate::proofs::Weights::same_items_of))]
fn same_tree(tree: &Tree, other: &Tree) -> bool
    ensures { IsTrue result ↔ (tree.now ≡ other.now) }
{
    match &tree.node {
        Node::Null => matches!(&other.node, Node::Null),
        Node::Truth(truth) => match &other.node {
            Node::Truth(other) => *truth == *other,
            _ => false,
        },
        Node::Whole(number) => match &other.node {
            Node::Whole(other) => *number == *other,
            _ => false,
        },
        Node::Text(text) => match &other.node {
            Node::Text(other) => text.as_bytes() == other.as_bytes(),
            _ => false,
        },
        Node::List(items) => match &other.node {
            Node::List(others) => same_items(items, others),
            _ => false,
        },
        Node::Members(members) => match &other.node {
            Node::Members(others) => same_members(members, others),
            _ => false,
        },
    }
}

#[cycle(same)]
#[tactic(auto, using(crate::proofs::Weights::same_items_of))]
fn same_items(items: &Vec<Element>, others: &Vec<Element>) -> bool
    ensures { IsTrue result ↔ (items.now.items ≡ others.now.items) }
{
    if items.len() != others.len() {
        return false;
    }
    let mut rest = iter_items(others);
    for item in iter_items(items) {
        let Some(other) = rest.next() else {
            return false;
        };
        if !same_tree(item.tree(), other.tree()) {
            return false;
        }
    }
    rest.next().is_none()
}

#[cycle(same)]
#[tactic(auto, using(crate::proofs::Weights::same_items_of))]
fn same_members(members: &Members, others: &Members) -> bool
    ensures { IsTrue result ↔ (members_of members.now.entries ≡ members_of others.now.entries) }
{
    let mut rest = others.iter();
    for (name, member) in members.iter() {
        let Some((other_name, other)) = rest.next() else {
            return false;
        };
        if name.as_bytes() != other_name.as_bytes() || !same_tree(member, other) {
            return false;
        }
    }
    rest.next().is_none()
}
