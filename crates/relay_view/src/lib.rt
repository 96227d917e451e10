//! A view: the part of a document that a watcher sees, as a list of slots. Each slot shows the
//! value at a pointer, or its size.
//!
//! The promise: slot `k` is `[v]` if pointer `k` leads to `v`, and `[]` if it leads to nothing, so
//! `null` and absent differ. A slot of a size is `[n]` if its pointer leads to a list of `n`
//! elements or an object of `n` members, else `[]`. Contracts see a [`View`] as the list of its
//! slots.
#![tactic(auto)]

mod evaluation;
mod fault;
mod read;
mod same;
mod slot;
mod view;
mod write;

pub use fault::ViewFault;
pub use slot::{Slot, SlotKind};
pub use view::{MAX_SLOTS, View};
