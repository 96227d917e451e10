//! The order of turns: a surplus round robin, without sockets.
//!
//! Each connection has a [`Credit`], to which each round adds the same. A turn takes what it cost,
//! which is counted and not known before, so a credit may be overdrawn. Whoever has credit left has
//! turns first, in order ([`ReadyQueue`]). Those who have none have theirs behind them, in order
//! too, in two lines by their [`Debt`]: one of each at least in each round. A line is visited in
//! passes, and a connection that a pass skips, since its room may not be read ahead, comes before
//! all that had a turn ([`TurnLine`]). A room is read no further ahead than may wait for a watcher
//! that keeps up ([`ReadAheadByRoom`]), and a round ends once it has cost as much as it may
//! ([`Spending`]). Output that is not sent is counted, link by link ([`LinkOutput`],
//! [`OutputTotal`]).
//!
//! The promise: a credit never exceeds a round's; a queue serves each that waits once before it
//! serves any twice (`once_before_twice` of [`KeyQueue::len`]); a pass visits each that waits once
//! (`each_once` of [`TurnLine::waiting`]), and between two turns of one key each other key of the
//! line has a turn, or is skipped in the pass of the second (`not_overtaken` of
//! [`TurnLine::push`]); a round of credit ends once each that owed when it began has had its turn
//! or was skipped; and of the turns that begin before a round has cost its bound, all but the last
//! cost less together. What one link holds of output is counted anew without what the others hold,
//! and a link that sends a sixteenth of it within each 30 seconds is never over due (`took_enough`
//! of [`LinkOutput::is_over_due`]).
#![tactic(auto)]

mod credit;
mod empty_rooms;
mod key_queue;
mod output;
mod queues;
mod read_ahead;
mod ready_queue;
mod spending;
mod turn_line;

pub use credit::{Credit, Debt, ENTRY_DEBT, HEAVY_TURN, ROUND_CREDIT};
pub use empty_rooms::EmptyRooms;
pub use key_queue::KeyQueue;
pub use output::{BEHIND, CROWDED_PATIENCE, LinkOutput, OutputTotal, PATIENCE};
pub use queues::{Output, Queues, Wants};
pub use read_ahead::{ReadAhead, ReadAheadByRoom, ReadAheadLimits};
pub use ready_queue::ReadyQueue;
pub use spending::Spending;
pub use turn_line::TurnLine;
