//! The server side of the WebSocket opening handshake (RFC 6455, section 4.2).
//!
//! The promise: the answer of [`shake`] depends on the bytes alone. For every head that
//! `httparse`'s grammar (RFC 9112) reads, `specs/Handshake.antt` defines the verdict and
//! `specs/Replies.antt` each byte of the reply. While a head can still come, only its length can be
//! a reason to refuse.
//!
//! `tungstenite` has an `accept` function, but its contract ties neither the head nor the key to
//! the bytes. So the relay answers the handshake here and hands over the socket afterwards.
#![tactic(auto)]

mod answer;
mod checks;
mod key;
mod origin;
mod reading;
mod reply;
mod route;

pub use answer::Shake;
pub use reading::shake;
pub use reply::{closed_refusal, refusal};
