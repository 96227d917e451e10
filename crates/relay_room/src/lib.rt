//! A room: a shared document, its revision, and the updates that bring an earlier view to the
//! present revision.
//!
//! The promise: a document changes only by whole patches, each of which makes one revision, and
//! stays within its bounds. A client that knows the revision of its view gets from
//! [`Room::catch_up_within`] exactly what the view missed, or learns that it needs a snapshot. The
//! hub makes the same call for clients that return and for those that were connected all along.
//! Contracts see a room
//! as a `State` of `specs/`.
#![tactic(auto)]

mod catch_up;
mod editing;
mod fault;
mod newest;
mod room;

pub use catch_up::CatchUp;
pub use fault::{CatchFault, EditFault, RoomFault};
pub use room::Room;
