//! The connections that are written to in a round, and their order.
ghost use Rattle.relay_event_loop.specs.Advances.{KeepsFewer};

use super::Server;
use super::reading::TURN_COST;
use crate::connection::Connection;
use crate::connection_log::ConnectionLog;
use relay_link::MAX_DRAWS;
use relay_readiness::Readiness;
use relay_schedule::{Output, Spending};
use std::alloc::Global;
use std::io::{Read, Write};
use std::net::OpenStream;

/// The most bytes that a pass of writes draws, but for the last link's turn. A round has four
/// passes at most, which draw 1 MiB together.
const PASS_DRAWN: u64 = 262_144;

/// The weight up to which a room's document is small. A snapshot shows it at most 16 times, and
/// each byte of it by at most six.
const SMALL: u64 = 4_096;

/// The result of a write turn.
#[derive(Clone, Copy)]
struct Written {
    /// The number of bytes in the texts that it drew.
    drawn: u64,
    /// Its cost in microseconds, as it is counted.
    counted: u64,
}

impl Written {
    /// The result of a turn that was not given, or that found no memory.
    const NOTHING: Written = Written {
        drawn: 0,
        counted: 0,
    };
}

impl<S: Read + Write + OpenStream + Drop, R: Readiness<S>> Server<S, R> {
    /// Writes to the links that have corked output, so that a reply does not wait for the patches
    /// of others, and then to all for which something waits.
    #[tactic(auto, using(crate::proofs::Rules::advances))]
    pub(super) fn write<J: ConnectionLog>(&mut self, alloc: Global, log: &mut J)
        ensures { KeepsFewer S.remaining S.contents self.old self.new }
    {
        self.lap();
        self.write_each(alloc, Output::Corked, log);
        if !self.output.is_crowded() {
            self.release();
        }
        self.write_each(alloc, Output::Waiting, log);
    }

    /// Queues the connections that were held back.
    #[tactic(auto, using(crate::proofs::Rules::advances))]
    fn release(&mut self)
        ensures { KeepsFewer S.remaining S.contents self.old self.new }
    {
        for _ in 0..self.queues.held_back() {
            if let Some(key) = self.queues.pop_held_back() {
                self.queue(key);
            }
        }
    }

    /// Writes once to each link that is queued for such output, until as much was drawn as a pass
    /// draws. The links that were not reached come first in the next pass.
    #[tactic(auto, using(crate::proofs::Rules::advances))]
    fn write_each<J: ConnectionLog>(&mut self, alloc: Global, output: Output, log: &mut J)
        ensures { KeepsFewer S.remaining S.contents self.old self.new }
    {
        let mut drawn = Spending::within(PASS_DRAWN);
        for _ in 0..self.queues.writers(output) {
            if !drawn.allows_more() {
                return;
            }
            drawn.spend(self.write_next(alloc, output, log));
        }
    }

    /// Gives the first link that is queued for such output a write turn. Returns how many bytes the
    /// texts have that it drew.
    #[tactic(auto, using(crate::proofs::Rules::advances))]
    fn write_next<J: ConnectionLog>(&mut self, alloc: Global, output: Output, log: &mut J) -> u64
        ensures { KeepsFewer S.remaining S.contents self.old self.new }
    {
        let Some(key) = self.queues.pop_writer(output) else {
            return 0;
        };
        self.uncount(key);
        let Some(draws) = self.draws(key, output) else {
            self.queues.hold_back(key);
            return 0;
        };
        let drawn = if self.has_output(key, output) {
            self.write_at(alloc, key, draws, log)
        } else {
            0
        };
        self.queue(key);
        drawn
    }

    /// Gives a link a write turn, and takes its cost from the connection's credit. Returns the
    /// number of bytes in the texts that it drew.
    #[tactic(auto, using(crate::proofs::Rules::advances))]
    fn write_at<J: ConnectionLog>(
        &mut self,
        alloc: Global,
        key: usize,
        draws: u64,
        log: &mut J,
    ) -> u64
        ensures { KeepsFewer S.remaining S.contents self.old self.new }
    {
        let written = self.write_link(alloc, key, draws, log);
        self.charge(key, written.counted);
        written.drawn
    }

    /// The number of messages that a write turn for such output may draw, if there may be something
    /// to write. A long snapshot is not drawn in three cases: for corked output, for a peer that
    /// has closed, and while the links hold so much output that there is no room for it.
    fn draws(&self, key: usize, output: Output) -> Option<u64> {
        let connection = self.connections.get(key)?;
        let ready = connection.readiness.ready();
        let is_ending = ready.is_over && ready.readable;
        let has_room = self.output.has_room_for(connection.standing().output);
        let may_draw_all = output == Output::Waiting && !is_ending && has_room;
        if may_draw_all || self.has_no_long_snapshot(connection) {
            return Some(MAX_DRAWS);
        }
        let replies = connection.replies(&self.hub);
        let is_framed = connection.standing().output.unsent > 0
            || connection.link.has_corked_output();
        (replies > 0 || is_framed).then_some(replies)
    }

    /// True if no snapshot of a large document waits for a connection.
    pub(super) fn has_no_long_snapshot(&self, connection: &Connection<S>) -> bool {
        let index = connection.room_index().unwrap_or(usize::MAX);
        match self.hub.room_at(index) {
            Some(room) => room.weight <= SMALL || !connection.is_due(&self.hub),
            None => true,
        }
    }

    /// True if a connection is held that has such output.
    fn has_output(&self, key: usize, output: Output) -> bool {
        match self.connections.get(key) {
            Some(connection) => connection.has_output(&self.hub, output),
            None => false,
        }
    }

    /// Gives a link a write turn.
    #[tactic(auto, using(crate::proofs::Rules::advances))]
    fn write_link<J: ConnectionLog>(
        &mut self,
        alloc: Global,
        key: usize,
        draws: u64,
        log: &mut J,
    ) -> Written
        ensures { KeepsFewer S.remaining S.contents self.old self.new }
    {
        let Some(connection) = self.connections.get_mut(key) else {
            return Written::NOTHING;
        };
        let before = connection.link.stage();
        let Ok(turn) = connection.link.write_turn(alloc, &mut self.hub, draws) else {
            self.shed(log);
            return Written::NOTHING;
        };
        self.finish_turn(alloc, key, before, &turn, log);
        Written {
            drawn: turn.drawn,
            counted: turn.cost.saturating_add(TURN_COST),
        }
    }
}
