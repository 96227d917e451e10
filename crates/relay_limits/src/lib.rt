//! The limits and defaults that several crates name, each once. A limit that one crate alone names
//! stands there.
#![tactic(auto)]

/// The largest count, `2^53 - 1`: every JSON reader keeps each number up to it exactly (RFC 8259,
/// section 6). Revisions, epochs, ids and session numbers are counts.
pub const MAX_COUNT: u64 = 9_007_199_254_740_991;

/// The most revisions whose changes a room may be asked to hold.
pub const MAX_REVISIONS: u64 = 1_024;

/// The most patches that an outbox may be asked to hold.
pub const MAX_WAITING_PATCHES: u64 = 256;

/// The most rooms that a hub may be asked for.
pub const MAX_ROOMS: u64 = 65_536;

/// The most sessions that a hub may be asked to have open at once.
pub const MAX_SESSIONS: u64 = 65_536;

/// The revisions whose changes a room holds, if nothing else is said.
pub const DEFAULT_REVISIONS: u64 = 64;

/// The patches that may wait for a session, if nothing else is said.
pub const DEFAULT_WAITING_PATCHES: u64 = 32;

/// The rooms that there may be, if nothing else is said.
pub const DEFAULT_ROOMS: u64 = 64;

/// The sessions that may be open at once, if nothing else is said.
pub const DEFAULT_SESSIONS: u64 = 256;
