//! Weighing against a budget: a tree is walked only as far as the budget pays for. Allocates
//! nothing.
ghost use Rattle.std.specs.Prelude.{◌≡◌};
ghost use Rattle.relay_tree.specs.Budget.{left_of, paid};
ghost use Rattle.relay_tree.specs.Document.{weight, items_of, items_weight, members_weight};
ghost use Rattle.relay_tree.specs.Seen.{members_of};

use crate::element::{Element, iter_items};
use crate::measure::VALUE_WEIGHT;
use crate::members::Members;
use crate::tree::{Node, Tree};

/// The weight that may still be spent.
///
/// ```
/// let budget = Budget::Left(20);
/// assert!(rt; budget.pay(8) == Some(Budget::Left(12)) && budget.pay(21) == None);
/// assert!(rt; Budget::Unbounded.pay(21) == Some(Budget::Unbounded));
/// ```
#[derive(Clone, Copy, Debug, PartialEq, Eq)]
pub enum Budget {
    /// Without a limit.
    Unbounded,
    /// At most this much.
    Left(u64),
}

impl Budget {
    /// Returns what is left after `cost` is paid, or `None` if the budget is smaller than `cost`.
    ///
    /// ```
    /// assert!(rt; Budget::Left(8).pay(8) == Some(Budget::Left(0)));
    /// assert!(rt; Budget::Left(8).pay(9) == None);
    /// ```
    pub fn pay(self, cost: u64) -> Option<Budget>
        ensures { result ≡ paid cost self }
    {
        match self {
            Budget::Unbounded => Some(Budget::Unbounded),
            Budget::Left(left) => Some(Budget::Left(left.checked_sub(cost)?)),
        }
    }
}

impl Tree {
    /// Returns what is left of `budget` after the tree's weight is paid, or `None` if the tree
    /// weighs more. Visits at most one value for each 8 of the budget, plus the one that exceeds
    /// it, and none if the budget is unbounded.
    ///
    /// ```
    /// let board = read(alloc, r#"[7, "abc"]"#).ok()?;
    /// // Three values, and the bytes of the text.
    /// assert!(rt; board.pay(Budget::Left(30)) == Some(Budget::Left(30 - (3 * 8 + 3))));
    /// assert!(rt; board.pay(Budget::Left(26)) == None);
    /// ```
    pub fn pay(&self, budget: Budget) -> Option<Budget>
        ensures { result ≡ paid (weight self.now) budget }
    {
        match budget {
            Budget::Unbounded => Some(Budget::Unbounded),
            Budget::Left(left) => Some(Budget::Left(pay_tree(self, left)?)),
        }
    }
}

#[cycle(pay)]
fn pay_tree(tree: &Tree, budget: u64) -> Option<u64>
    ensures { result ≡ left_of (weight tree.now) budget }
{
    match &tree.node {
        Node::Text(text) => budget
            .checked_sub(VALUE_WEIGHT)?
            .checked_sub(text.len() as u64),
        Node::List(items) => pay_items(items, budget.checked_sub(VALUE_WEIGHT)?),
        Node::Members(members) => pay_members(members, budget.checked_sub(VALUE_WEIGHT)?),
        _ => budget.checked_sub(VALUE_WEIGHT),
    }
}

#[cycle(pay)]
fn pay_items(items: &Vec<Element>, budget: u64) -> Option<u64>
    ensures { result ≡ left_of (items_weight (items_of items.now.items)) budget }
{
    let mut left = budget;
    for item in iter_items(items) {
        left = pay_tree(item.tree(), left)?;
    }
    Some(left)
}

#[cycle(pay)]
fn pay_members(members: &Members, budget: u64) -> Option<u64>
    ensures { result ≡ left_of (members_weight (members_of members.now.entries)) budget }
{
    let mut left = budget;
    for (name, member) in members.iter() {
        left = pay_tree(member, left.checked_sub(name.len() as u64)?)?;
    }
    Some(left)
}
