//! The readiness of a server's sockets: which of them may be accepted from, read or written, as the
//! operating system's poll reports it ([`Polling`]), and by a clock how long each round worked and
//! that a second has passed ([`AdminReadiness`]). Rounds ask by a trait ([`Readiness`]), which
//! tests implement too.
//!
//! The promise: no round gets an event of the operator's port. No wait forgets that this port may
//! have work; [`AdminReadiness::take_ready`] does. After an error it may have work, and without a
//! port there is none. What the system reports, and the clock, have no clause.
#![tactic(auto)]

mod admin_readiness;
mod longest_round;
mod readiness;

pub use admin_readiness::{ADMIN_LISTENER, ADMIN_STREAM, AdminReadiness};
pub use readiness::{Polling, Readiness, ReadyEvent, StreamReady};
