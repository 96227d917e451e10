//! The client at the other end of a link.
//!
//! The promise: a client that reads the bytes which a link framed in a turn, and passes each text
//! to a follower, holds what the messages drawn in that turn make of what it held; and if nothing
//! more waits for its session, exactly its view of the present document. It reads them by a socket
//! of `tungstenite` over a stream, or by the same protocol over bytes in memory, where its errors
//! are exact. No program needs the crate: it joins the promises of `relay_hub`, `relay_link` and
//! `relay_follow` at the bytes between them.
#![tactic(auto)]

mod fault;
mod frame;
mod receiving;
mod socket;
mod turn;

pub use fault::{ReceiveFault, SocketFault};
pub use receiving::receive;
pub use socket::{client_on, hear_next, hear_texts};
pub use turn::write_turn;
