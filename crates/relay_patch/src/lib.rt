//! JSON Patch (RFC 6902): patches of six operations as values, read from trees and written to them,
//! the changes that they make, and the weight of both. `relay_apply` applies them.
//!
//! What a patch means stands in `specs`: the document after it, or the first operation that is
//! refused, and the changes that lead there. Contracts see a [`Patch`] as the list of its
//! operations.
#![tactic(auto)]

mod bounds;
mod change;
mod fault;
mod form;
mod limits;
mod op;
mod patch;
mod weight;

pub use bounds::{Bounds, MAX_CHANGES_WEIGHT, MAX_DEPTH, MAX_WEIGHT};
pub use change::{Change, Place};
pub use fault::{ApplyFault, Cause};
pub use limits::{MAX_OPS, MAX_RELAYED_TOKENS, PatchFault, PatchLimits};
pub use op::Op;
pub use patch::Patch;
pub use weight::{pay_changes, pay_part};
