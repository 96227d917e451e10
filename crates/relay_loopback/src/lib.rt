//! A transport for scripts that uses loopback sockets (`docs/PROTOCOL.md`). Each session is a
//! client and a link of the server, which alternate in one thread.
#![tactic(auto)]

mod client;
mod client_handshake;
mod connection;
mod fault;
mod listener;
mod loopback;
mod sockets;

pub use client::Client;
pub use client_handshake::ClientHandshake;
pub use fault::ServeFault;
pub use loopback::Loopback;
pub use sockets::{listen, loopback_at};
