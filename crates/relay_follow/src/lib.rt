//! A follower: a client's view, kept up to date by the messages it receives.
//!
//! The promise: after each message a follower holds what the definition of a client in
//! `relay_proto` gives, and it refuses each text that would leave the client lost. The promises of
//! the relay to its watchers are stated for such clients.
#![tactic(auto)]

mod fault;
mod follower;
mod hearing;

pub use fault::HearFault;
pub use follower::Follower;
