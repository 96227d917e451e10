//! A client's way in: the name of a room, and its rights there. A handshake names both, a line of
//! a script the room.
#![tactic(auto)]

mod access;
mod room_name;

pub use access::Access;
pub use room_name::{MAX_NAME, is_room_name};
