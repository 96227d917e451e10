//! The operator's half of a server: the port at which an operator asks how it is, reads, edits and
//! forgets rooms, opens and closes them to clients and stops it, and what the responses say.
//!
//! The promise: the port changes neither the hub nor anything else of its server. It sees both
//! through references that nothing is written through ([`AdminView`]). Of a stop, and of letting
//! clients in, it only says that it was asked ([`AdminTurn`]), and of a room that it is to be
//! opened or closed ([`AdminPort::next_admission`]), forgotten ([`AdminPort::room_to_forget`]) or
//! visited ([`AdminPort::next_visit`]): the server does it, and says what came of it. What it says
//! is asked is what the bytes received on a connection ask, and the response goes to that
//! connection. No round knows of the port, since [`relay_readiness::AdminReadiness`] takes the
//! port's events out before a round sees them.
//!
//! No link is known here. What a server's log says of links, the server counts ([`Counters`]).
#![tactic(auto)]

mod admin_connection;
mod admin_port;
mod admin_view;
mod admission;
mod counters;
mod request_buffer;
mod room_request;

pub use admin_port::{AdminPort, AdminTurn, MAX_CONNECTIONS};
pub use admin_view::AdminView;
pub use admission::Admission;
pub use counters::Counters;
pub use room_request::RoomVisit;
