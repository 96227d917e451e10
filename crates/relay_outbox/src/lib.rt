//! The outbox of a session: the replies that wait for it, and the patches or the snapshot that keep
//! its view current.
//!
//! The promise: memory is bounded and its meaning is exact. An [`Outbox`] allocates its rings in
//! [`Outbox::new`]. From then on at most [`MAX_REPLIES`] replies wait, and at most as many patches
//! as the limit it was created with. If a patch exceeds the limit, the outbox folds all its patches
//! into one due snapshot, which shows their result. No reply is ever lost. Contracts see an outbox
//! as a `Contents` of `specs/`.
#![tactic(auto)]

mod busy;
mod fault;
mod front;
mod outbox;

pub use busy::Busy;
pub use fault::OutboxFault;
pub use front::Front;
pub use outbox::{MAX_REPLIES, Outbox};
