//! The weight of changes and operations: that of the values that they carry, and of their paths.
//! Allocates nothing.
ghost use Rattle.std.specs.Prelude.{◌≡◌, option_copied};
ghost use Rattle.relay_tree.specs.Budget.{paid};
ghost use Rattle.relay_patch.specs.Measure.{part_weight};
ghost use Rattle.relay_patch.specs.Weight.{change_weight, changes_weight, paths_weight, op_weight};
ghost use Rattle.relay_patch.specs.Weight.{ops_weight, carried};

use crate::change::Change;
use crate::op::Op;
use crate::patch::Patch;
use relay_pointer::Pointer;
use relay_tree::{Budget, Tree};

impl Change {
    /// Returns what is left of a budget after the change's weight is paid, or `None` if it weighs
    /// more. Walks the value only as far as the budget pays for.
    ///
    /// ```
    /// let change = Change::DropItem { path: Pointer::read(alloc, "/cards/0", 64).ok()? };
    /// // Two tokens, and their bytes.
    /// assert!(rt; change.pay(Budget::Left(22)) == Some(Budget::Left(0)));
    /// assert!(rt; change.pay(Budget::Left(21)) == None);
    /// ```
    #[tactic(auto, using(relay_tree::proofs::Budgets::paid_on, relay_tree::proofs::Budgets::paid_out))]
    pub fn pay(&self, budget: Budget) -> Option<Budget>
        ensures { result ≡ paid (change_weight self.now) budget }
    {
        match self {
            Change::Set { path, value }
            | Change::AddMember { path, value }
            | Change::AddItem { path, value } => value.pay(path.pay(budget)?),
            Change::DropMember { path } | Change::DropItem { path } => path.pay(budget),
            Change::Move { from, to, value } => value.pay(to.path.pay(from.path.pay(budget)?)?),
            Change::Copy { from, to, value } => value.pay(to.path.pay(from.pay(budget)?)?),
        }
    }
}

/// Returns what is left of a budget after the weight of all changes is paid, or `None` if they
/// weigh more.
///
/// ```
/// let mut cards = read(alloc, "[]").ok()?;
/// let ops = read(alloc, r#"[{"op": "add", "path": "/0", "value": 7}]"#).ok()?;
/// let patch = Patch::from_owned(alloc, ops, PatchLimits::REQUEST).ok()?;
/// let changes = apply(alloc, &mut cards, &patch, Bounds::DOCUMENT).ok()?;
/// // The number, and the token of the path with its byte.
/// let left = pay_changes(changes.as_slice(), Budget::Left(100));
/// assert!(rt; left == Some(Budget::Left(100 - (8 + 8 + 1))));
/// ```
#[tactic(auto, using(relay_tree::proofs::Budgets::paid_on, relay_tree::proofs::Budgets::paid_out))]
pub fn pay_changes(changes: &[Change], budget: Budget) -> Option<Budget>
    ensures { result ≡ paid (changes_weight changes.now) budget }
{
    let mut left = budget;
    for change in changes {
        left = change.pay(left)?;
    }
    Some(left)
}

impl Op {
    /// Returns what is left of a budget after the operation's paths are paid, or `None` if they
    /// weigh more.
    ///
    /// ```
    /// let op = Op::Add { path: Pointer::read(alloc, "/a", 64).ok()?, value: Tree::of_count(7) };
    /// assert!(rt; op.pay_paths(Budget::Left(100)) == Some(Budget::Left(100 - (8 + 1))));
    /// ```
    #[tactic(auto, using(relay_tree::proofs::Budgets::paid_on, relay_tree::proofs::Budgets::paid_out))]
    pub fn pay_paths(&self, budget: Budget) -> Option<Budget>
        ensures { result ≡ paid (paths_weight self.now) budget }
    {
        match self {
            Op::Add { path, .. }
            | Op::Remove { path }
            | Op::Replace { path, .. }
            | Op::Test { path, .. } => path.pay(budget),
            Op::Move { from, path } | Op::Copy { from, path } => path.pay(from.pay(budget)?),
        }
    }

    /// Returns what is left of a budget after the operation's value and paths are paid, or `None`
    /// if they weigh more.
    ///
    /// ```
    /// let op = Op::Add { path: Pointer::read(alloc, "/a", 64).ok()?, value: Tree::of_count(7) };
    /// assert!(rt; op.pay(Budget::Left(100)) == Some(Budget::Left(100 - (8 + 1) - 8)));
    /// ```
    #[tactic(auto, using(relay_tree::proofs::Budgets::paid_on, relay_tree::proofs::Budgets::paid_out))]
    pub fn pay(&self, budget: Budget) -> Option<Budget>
        ensures { result ≡ paid (op_weight self.now) budget }
    {
        self.pay_paths(pay_part(self.carried(), budget)?)
    }

    /// Returns the value that the operation carries, if any.
    fn carried(&self) -> Option<&Tree>
        ensures { option_copied result ≡ carried self.now }
    {
        match self {
            Op::Add { value, .. } | Op::Replace { value, .. } | Op::Test { value, .. } => Some(
                value,
            ),
            Op::Remove { .. } | Op::Move { .. } | Op::Copy { .. } => None,
        }
    }
}

/// Returns what is left of a budget after a value, if there is one, is paid, or `None` if it weighs
/// more.
///
/// ```
/// let value = read(alloc, r#""abc""#).ok()?;
/// assert!(rt; pay_part(Some(&value), Budget::Left(100)) == Some(Budget::Left(100 - (8 + 3))));
/// assert!(rt; pay_part(None, Budget::Left(0)) == Some(Budget::Left(0)));
/// ```
pub fn pay_part(part: Option<&Tree>, budget: Budget) -> Option<Budget>
    ensures { result ≡ paid (part_weight (option_copied part.entry)) budget }
{
    match part {
        Some(part) => part.pay(budget),
        None => Some(budget),
    }
}

impl Patch {
    /// Returns what is left of a budget after the operations are paid, or `None` if they weigh
    /// more.
    ///
    /// ```
    /// let ops = read(alloc, r#"[{"op": "copy", "from": "/a", "path": "/b"}]"#).ok()?;
    /// let patch = Patch::from_owned(alloc, ops, PatchLimits::REQUEST).ok()?;
    /// // A copy carries its two paths.
    /// assert!(rt; patch.pay(Budget::Left(18)) == Some(Budget::Left(0)));
    /// assert!(rt; patch.pay(Budget::Left(17)) == None);
    /// ```
    #[tactic(auto, using(relay_tree::proofs::Budgets::paid_on, relay_tree::proofs::Budgets::paid_out))]
    pub fn pay(&self, budget: Budget) -> Option<Budget>
        ensures { result ≡ paid (ops_weight self.now) budget }
    {
        let mut left = budget;
        for op in self.ops() {
            left = op.pay(left)?;
        }
        Some(left)
    }
}
