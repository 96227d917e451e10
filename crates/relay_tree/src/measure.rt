//! The depth and the weight of a tree. Measuring either walks the whole tree and allocates nothing.
ghost use Rattle.std.specs.Prelude.{◌≡◌, min, ◌-◌, ◌^◌};
ghost use Rattle.relay_tree.specs.Document.{depth, weight, items_of, items_depth, members_depth};
ghost use Rattle.relay_tree.specs.Document.{items_weight, members_weight, saturated};
ghost use Rattle.relay_tree.specs.Seen.{members_of};

use crate::element::{Element, iter_items};
use crate::members::Members;
use crate::tree::{Node, Tree};

/// The weight of each value, before its text and parts are added.
pub(crate) const VALUE_WEIGHT: u64 = 8;

impl Tree {
    /// Returns the number of levels; a scalar or an empty container has 1. Saturates at `u64::MAX`.
    ///
    /// ```
    /// assert!(rt; read(alloc, "7").ok()?.depth() == 1 && read(alloc, "[]").ok()?.depth() == 1);
    /// assert!(rt; read(alloc, r#"{"a": [7]}"#).ok()?.depth() == 3);
    /// ```
    pub fn depth(&self) -> u64
        ensures { result ≡ saturated (depth self.now) }
    {
        depth_of(self)
    }

    /// Returns 8 for each value, plus the number of bytes in its texts and member names. Saturates
    /// at `u64::MAX`.
    ///
    /// ```
    /// let board = read(alloc, r#"{"ab": [7, "xyz"]}"#).ok()?;
    /// // The object, the list, the number and the text; then "ab" and "xyz".
    /// assert!(rt; board.weight() == 4 * 8 + 2 + 3);
    /// assert!(rt; board.depth() == 3);
    /// ```
    pub fn weight(&self) -> u64
        ensures { result ≡ saturated (weight self.now) }
    {
        weight_of(self)
    }
}

#[cycle(depth)]
fn depth_of(tree: &Tree) -> u64
    ensures { result ≡ saturated (depth tree.now) }
{
    match &tree.node {
        Node::List(items) => depth_of_items(items).saturating_add(1),
        Node::Members(members) => depth_of_members(members).saturating_add(1),
        _ => 1,
    }
}

#[cycle(depth)]
fn depth_of_items(items: &Vec<Element>) -> u64
    ensures { result ≡ saturated (items_depth (items_of items.now.items)) }
{
    let mut deepest = 0;
    for item in iter_items(items) {
        deepest = depth_of(item.tree()).max(deepest);
    }
    deepest
}

#[cycle(depth)]
fn depth_of_members(members: &Members) -> u64
    ensures { result ≡ saturated (members_depth (members_of members.now.entries)) }
{
    let mut deepest = 0;
    for (_, member) in members.iter() {
        deepest = depth_of(member).max(deepest);
    }
    deepest
}

#[cycle(weight)]
fn weight_of(tree: &Tree) -> u64
    ensures { result ≡ saturated (weight tree.now) }
{
    match &tree.node {
        Node::Text(text) => VALUE_WEIGHT.saturating_add(text.len() as u64),
        Node::List(items) => VALUE_WEIGHT.saturating_add(weight_of_items(items)),
        Node::Members(members) => VALUE_WEIGHT.saturating_add(weight_of_members(members)),
        _ => VALUE_WEIGHT,
    }
}

#[cycle(weight)]
fn weight_of_items(items: &Vec<Element>) -> u64
    ensures { result ≡ saturated (items_weight (items_of items.now.items)) }
{
    let mut sum = 0u64;
    for item in iter_items(items) {
        sum = sum.saturating_add(weight_of(item.tree()));
    }
    sum
}

#[cycle(weight)]
fn weight_of_members(members: &Members) -> u64
    ensures { result ≡ saturated (members_weight (members_of members.now.entries)) }
{
    let mut sum = 0u64;
    for (name, member) in members.iter() {
        sum = sum
            .saturating_add(name.len() as u64)
            .saturating_add(weight_of(member));
    }
    sum
}
