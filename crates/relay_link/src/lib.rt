//! The link between one socket and the hub, as turns: a handshake, then messages, then a closing
//! handshake (RFC 6455).
//!
//! The promise: a turn changes the hub by exactly the events that it reports, in their order, and
//! each of them names the link's own session or opens it. If it leaves the link open, each text
//! that it drew is framed whole and in order, and a turn that reads nothing frames nothing else. If
//! it found the link open too, it drew until nothing waited, it had drawn as many as it may, the
//! stream took no output, or memory was refused. A link that is closing or gone has no session.
//! What the other side does can end no link but its own.
//!
//! No call blocks. A stream that returns `WouldBlock`, or is interrupted, ends the turn early and
//! is tried again in the next.
//!
//! Besides its stream, an idle link costs about 3.5 KiB: 1.25 KiB that one read fills, as much for
//! bytes of an incomplete message, 640 bytes for output, and a few hundred bytes of state. A
//! handshake takes 90 KB more while it is checked. Once a read has filled its 1.25 KiB, the link
//! reads 8 KiB at once, and costs some 15 KiB more from then on. Longer messages come on top, and
//! their capacity is kept: one incoming message (at most 1,056,768 bytes), and outgoing texts of up
//! to 64 KiB together plus one more, since a link draws no further text while output is unsent.
#![tactic(auto)]

mod closing;
mod corked_writer;
mod draw_stop;
mod end_cause;
mod entrance;
mod entrance_fault;
mod entry_rules;
mod event_log;
mod events;
mod handshake_reply;
mod head;
mod link;
mod non_blocking;
mod opened;
mod socket;
mod stage;
mod state;
mod transition;
mod turn;
mod turn_phase;
mod visit;
mod visit_outcome;

pub use draw_stop::DrawStop;
pub use end_cause::EndCause;
pub use entrance::Entrance;
pub use entrance_fault::EntranceFault;
pub use entry_rules::{Denial, EntryRules, Watchers};
pub use link::{Link, MAX_DRAWS};
pub use stage::Stage;
pub use turn::Turn;
pub use visit::Visit;
pub use visit_outcome::VisitOutcome;
