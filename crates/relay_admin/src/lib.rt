//! The requests of an operator over plain HTTP/1.1, and their responses, as bytes: health, metrics,
//! the list of rooms, a part of a room, an edit, the forgetting of a room, the opening of a closed
//! relay or of one of its rooms, the rooms that are wanted, and the stop. For a part and an edit
//! also what is said to a hub, and what it shows.
//!
//! The promise: the answer of [`ask`] depends on the bytes alone. A request is accepted exactly if
//! `specs/Admitted.antt` says so of its head: it has one `Host`, which names the loopback, and no
//! `Origin`, so that no page in a browser on the same machine can read anything or stop the relay,
//! neither under the port's own address nor under a name that leads there (DNS rebinding).
//!
//! It does no input or output: `relay_operator` moves the bytes, and closes each connection after
//! one response. So a body is ignored, but for that of an edit.
#![tactic(auto)]

mod admin_fault;
mod answer;
mod asking;
mod checks;
mod commits;
mod cut;
mod door;
mod host;
mod metric;
mod metrics;
mod not_forgotten;
mod outcome;
mod reading;
mod request;
mod response;
mod room;
mod rooms;
mod route;
mod target;
mod unavailable;
mod wanted;

pub use admin_fault::AdminFault;
pub use answer::Ask;
pub use asking::{NOT_JSON, edit_text, shown_value, watch_text};
pub use commits::Commits;
pub use metrics::{DrawnMessages, EndedBy, Metrics, RefusedBy, SnapshotsBy, metrics_text};
pub use not_forgotten::NotForgotten;
pub use outcome::{Outcome, outcome_of};
pub use reading::{MAX_HEAD, ask};
pub use request::AdminRequest;
pub use response::{Response, response_text};
pub use room::{EditRequest, EntityTags, MAX_BODY, PartRequest, RevisionTag};
pub use rooms::{RoomRow, begin_rooms, end_rooms, write_room};
pub use unavailable::Unavailable;
pub use wanted::wanted_text;
