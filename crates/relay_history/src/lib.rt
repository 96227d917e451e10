//! The changes of a document's last revisions, so that a client that was away can catch up.
//!
//! The promise: memory is bounded and its meaning is exact. [`History::new`] allocates the ring for
//! the revisions of a [`History`], and [`ReservedRevision::new`] the memory of one revision, before
//! there is one. A history holds the newest revisions, up to its limit, and [`History::since`]
//! returns every change after a revision, or `None`. [`History::trim`] forgets the oldest revisions
//! until the rest are within a budget of weight. Contracts see a history as a `Past` of `specs/`.
#![tactic(auto)]

mod fault;
mod history;
mod revision;
mod since;

pub use fault::HistoryFault;
pub use history::{History, LAST_REVISION};
pub use revision::{CHANGE_WEIGHT, ReservedRevision};
pub use since::Since;
