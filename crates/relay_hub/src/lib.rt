//! The relay without sockets: rooms, sessions and events. One event is one call of [`Hub::open`],
//! [`Hub::receive`], [`Hub::draw`], [`Hub::close`], [`Hub::do_will`], [`Hub::forget`],
//! [`Hub::adopt`] or [`Hub::raise_floor`]. A call ends before the next one starts, so concurrent
//! clients are events in any order.
//!
//! Rooms are kept by name, and stay when their sessions are closed. One whose document is `null`
//! and in which nobody is may be evicted for another when there are as many as may be. A session
//! belongs to one room.
//!
//! A server that begins from a store has each room adopt the document and the revision that the
//! store kept, and raises the revision at which other rooms begin, before it serves anybody. Both
//! are events, so the hub still stands for a log, and what is promised of each client holds of one
//! that resumes from before the server began.
#![tactic(auto)]

mod admission;
mod asked;
mod boxed_reply;
mod broadcast;
mod caller;
mod config;
mod cost;
mod cost_meter;
mod encoded_patch;
mod entering;
mod event;
mod fault;
mod hub;
mod kept_texts;
mod load;
mod message_counts;
mod report;
mod requests;
mod room_sessions;
mod room_update;
mod session;
mod session_will;
mod shed;
mod snapshot_text;
mod summary;
mod telling;
mod text;
mod text_size;
mod told;
mod update;
mod will;

pub use config::HubConfig;
pub use event::{Answer, Event, Heard, Opening};
pub use fault::{AdoptFault, ForgetFault, HubFault, HubNewFault, NoSession, OpenFault, RunFault};
pub use hub::Hub;
pub use message_counts::{FaultCount, MessageCounts, SnapshotCounts};
pub use room_update::RoomUpdate;
pub use session_will::SessionWill;
pub use summary::RoomSummary;
pub use text::Text;
pub use told::Told;
pub use will::Will;
