//! Tests of a server's rounds: over in-memory streams whose readiness the test controls, and over
//! loopback sockets.
//!
//! They are a crate of their own and use only public calls, since a crate with tests is proved
//! twice.
#![tactic(auto)]

#[cfg(test)]
mod administered;
#[cfg(test)]
mod clients;
#[cfg(test)]
mod forgotten;
#[cfg(test)]
mod forgotten_rooms;
#[cfg(test)]
mod kept;
#[cfg(test)]
mod logging;
#[cfg(test)]
mod loopback;
#[cfg(test)]
mod many_connections;
#[cfg(test)]
mod memory_server;
#[cfg(test)]
mod numbers;
#[cfg(test)]
mod outputs;
#[cfg(test)]
mod rounds;
#[cfg(test)]
mod schedules;
#[cfg(test)]
mod turns;
#[cfg(test)]
mod wills;
