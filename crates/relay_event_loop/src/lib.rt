//! The relay as a server over non-blocking streams. It runs in rounds: each reads from and writes
//! to the links that are ready.
#![tactic(auto)]

mod connection;
mod connection_log;
mod counted;
mod eviction_log;
mod ready;
mod room_keeper;
mod server;
mod wanted_rooms;

pub use connection_log::{
    ConnectionId, ConnectionLog, HandshakeRefusal, LogEntry, NoLog, RoomSession,
};
pub use relay_link::Entrance;
pub use room_keeper::{Keeping, NotKept, RoomKeeper};
pub use server::{RoundsRun, Server, connection_limit};
