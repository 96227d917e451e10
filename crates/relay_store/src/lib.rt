//! Rooms and wills that are kept through the end of the process, and the trait of a store of them.
//!
//! The promise: a commit keeps all of its [`Change`]s or none of them. From its `Ok` on, until the
//! next commit begins, a crash leaves exactly what the changes so far make; after an error it
//! leaves what was kept before or what is kept after, and the error says so. `specs/Kept.antt`
//! defines what is kept, [`Keeps`] is the contract, and [`MemoryStore`] a body for tests. Nothing
//! here knows the hub.
#![tactic(auto)]

mod change;
mod fault;
mod keeps;
mod memory;

pub use change::Change;
pub use fault::StoreFault;
pub use keeps::Keeps;
pub use memory::MemoryStore;
