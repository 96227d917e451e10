//! The weight of a path.
ghost use Rattle.std.specs.Prelude.{◌≡◌};
ghost use Rattle.relay_tree.specs.Budget.{paid};
ghost use Rattle.relay_pointer.specs.Path.{path_of};
ghost use Rattle.relay_pointer.specs.Weight.{path_weight};

use crate::pointer::Pointer;
use relay_tree::Budget;

/// The weight of a token besides its bytes, the same as that of a text.
const TOKEN_WEIGHT: u64 = 8;

impl Pointer {
    /// Returns what is left of a budget after the path's weight is paid: 8 for each token, plus its
    /// bytes. Returns `None` if the path weighs more. Allocates nothing.
    ///
    /// ```
    /// let pointer = Pointer::read(alloc, "/cards/0", 64).ok()?;
    /// // Two tokens, and their bytes.
    /// assert!(rt; pointer.pay(Budget::Left(30)) == Some(Budget::Left(30 - (2 * 8 + 5 + 1))));
    /// assert!(rt; pointer.pay(Budget::Left(21)) == None);
    /// ```
    pub fn pay(&self, budget: Budget) -> Option<Budget>
        ensures { result ≡ paid (path_weight self.now) budget }
    {
        pay_tokens(self.tokens(), budget)
    }
}

#[tactic(auto, using(relay_tree::proofs::Budgets::paid_on, relay_tree::proofs::Budgets::paid_out))]
fn pay_tokens(tokens: &[String], budget: Budget) -> Option<Budget>
    ensures { result ≡ paid (path_weight (path_of tokens.now)) budget }
{
    match tokens {
        [] => Some(budget),
        [token, rest @ ..] => {
            pay_tokens(rest, budget.pay(TOKEN_WEIGHT)?.pay(token.len() as u64)?)
        }
    }
}
