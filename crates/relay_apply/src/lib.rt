//! Applies JSON patches (RFC 6902) to trees: all operations of a patch, or none.
//!
//! The promise: [`apply`] changes a tree as the operations do, one after the other, or leaves it as
//! it was and names the first operation that is refused. The changes that it returns lead from the
//! old document to the new one, so a holder of the old one can follow by applying them alone.
#![tactic(auto)]

mod applying;
mod change_of;
mod container;
mod exchange;
mod insert_place;
mod insert_target;
mod keeping;
mod making;
mod measuring;
mod moving;
mod reinsertion;
mod sliding;
mod steps;
mod undo;
mod walk;

pub use applying::{Applied, apply, apply_within};
