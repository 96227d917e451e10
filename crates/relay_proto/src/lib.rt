//! The JSON texts of requests, replies and messages between clients and the relay
//! (`docs/PROTOCOL.md`).
//!
//! The promise: each message has one text, the compact text of the object in `docs/PROTOCOL.md`,
//! and that text reads back as the message. A request is checked in a fixed order, and the first
//! fault is the result.
#![tactic(auto)]

mod message;
mod message_reading;
mod optional;
mod reading;
mod refusal;
mod reply;
mod request;
mod text;
mod updates;
mod will;
mod word;

pub use message::Message;
pub use message_reading::MessageFault;
pub use reading::{MAX_REQUEST, MAX_WILL_WEIGHT};
pub use refusal::{Refusal, RequestFault};
pub use reply::{Reply, ResumeOutcome};
pub use request::Request;
pub use updates::{patch_text, shown_text, snapshot_text};
pub use will::will_text;
pub use word::Word;
