//! Tests of rooms and sessions: histories, outboxes, rooms, messages, followers, handshakes, and
//! the hub.
//!
//! They call what stands alone with success, and show what no script can: limits that a caller
//! chooses, the last revision, the bytes of a handshake, and runs of events. What only a server
//! asks of a hub (`config`, `waiting_weight`) is called by the tests of its rounds. What sessions
//! receive is data in `tests/scripts`. Most tests are rows of text, since a row costs a proof next
//! to nothing, and a function that asserts it much.
#![tactic(auto)]

#[cfg(test)]
mod adopting;
#[cfg(test)]
mod calls;
#[cfg(test)]
mod costs;
#[cfg(test)]
mod counts;
#[cfg(test)]
mod follow;
#[cfg(test)]
mod history;
#[cfg(test)]
mod hub;
#[cfg(test)]
mod limits;
#[cfg(test)]
mod outbox;
#[cfg(test)]
mod proto;
#[cfg(test)]
mod replies;
#[cfg(test)]
mod room;
#[cfg(test)]
mod rooms;
#[cfg(test)]
mod runs;
#[cfg(test)]
mod shake;
#[cfg(test)]
mod shared;
#[cfg(test)]
mod snapshots;
#[cfg(test)]
mod weights;
#[cfg(test)]
mod wills;
