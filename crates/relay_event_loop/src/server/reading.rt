//! The connections that are read in a round, and their order.
ghost use Rattle.std.specs.Prelude.{◌≡◌, true, IfOk, IfSome};
ghost use Rattle.relay_event_loop.specs.Advances.{KeepsFewer};
ghost use Rattle.relay_event_loop.specs.Connections.{tells_kept};
ghost use Rattle.relay_link.specs.Adds.{draws};

use super::Server;
use crate::connection_log::ConnectionLog;
use crate::room_keeper::RoomKeeper;
use relay_link::{Stage, Turn, Watchers};
use relay_readiness::Readiness;
use relay_schedule::{Debt, Output, Spending};
use std::alloc::{AllocError, Global};
use std::io::{Read, Write};
use std::net::OpenStream;

/// The cost in microseconds at which a round begins no further read turn and no further will. One
/// turn of a connection of either debt, and one will, are always allowed.
pub(super) const ROUND_COST: u64 = 5_000;

/// A bound for loops that stop by cost: each step but the last costs a microsecond at least.
pub(super) const MAX_PASSES: u64 = ROUND_COST;

/// The minimum cost of a turn, in microseconds.
pub(super) const TURN_COST: u64 = 2;

/// The number of bytes that are read in a microsecond.
const BYTES_READ: u64 = 100;

/// The number of messages that a read turn draws: the reply to its text. Whatever else it comes to
/// is drawn by a write turn, since it may be long.
const READ_DRAWS: u64 = 1;

/// A read turn of a link, and the stage in which the link was before it.
#[derive(Drop)]
struct ReadTurn {
    before: Stage,
    turn: Turn,
}

impl<S: Read + Write + OpenStream + Drop, R: Readiness<S>> Server<S, R> {
    /// Reads from the connections with credit, in passes, until a pass reads no text or the round
    /// has cost what it may. Returns what it cost.
    #[tactic(auto, using(crate::proofs::Rules::advances))]
    pub(super) fn read<J: ConnectionLog>(&mut self, alloc: Global, log: &mut J) -> Spending
        ensures { KeepsFewer S.remaining S.contents self.old self.new }
    {
        self.lap();
        let mut spending = Spending::within(ROUND_COST);
        for _ in 0..MAX_PASSES {
            let before = self.texts_heard;
            spending = self.read_each(alloc, spending, log);
            if self.texts_heard == before {
                return spending;
            }
        }
        spending
    }

    /// Reads once from each connection with credit whose room may be read ahead, until the round
    /// has cost what it may. Returns what it cost.
    #[tactic(auto, using(crate::proofs::Rules::advances))]
    fn read_each<J: ConnectionLog>(
        &mut self,
        alloc: Global,
        before: Spending,
        log: &mut J,
    ) -> Spending
        ensures { KeepsFewer S.remaining S.contents self.old self.new }
    {
        let mut spending = before;
        self.queues.ready.begin_credited_pass();
        for _ in 0..self.queues.ready.credited() {
            if !spending.allows_more() {
                return spending;
            }
            let Some(key) = self.queues.ready.pop_credited() else {
                return spending;
            };
            spending.spend(self.read_at(alloc, key, log));
        }
        spending
    }

    /// Reads from the connections that owe, in order, does wills, and sends what came of it.
    #[tactic(auto, using(crate::proofs::Rules::advances))]
    pub(super) fn serve_owing<K: RoomKeeper, J: ConnectionLog>(
        &mut self,
        alloc: Global,
        before: Spending,
        keeper: &mut K,
        log: &mut J,
    )
        ensures { KeepsFewer S.remaining S.contents self.old self.new }
    {
        let read = self.read_those_owing(alloc, before, log);
        if self.do_wills(alloc, read, log) != before {
            self.tell(alloc, keeper, log);
        }
    }

    /// Reads from the connections that owe, in passes, and from those that have credit by then,
    /// until a pass reads no text or the round has cost what it may. Returns what it cost.
    #[tactic(auto, using(crate::proofs::Rules::advances))]
    fn read_those_owing<J: ConnectionLog>(
        &mut self,
        alloc: Global,
        before: Spending,
        log: &mut J,
    ) -> Spending
        ensures { KeepsFewer S.remaining S.contents self.old self.new }
    {
        self.lap();
        let mut spending = before;
        for _ in 0..MAX_PASSES {
            let texts = self.texts_heard;
            spending = self.read_each_owing(alloc, spending, log);
            if spending == before || !spending.allows_more() {
                return spending;
            }
            spending = self.read_each(alloc, spending, log);
            if self.texts_heard == texts {
                return spending;
            }
        }
        spending
    }

    /// Reads once from each connection that owes, those with a light debt first. Returns what it
    /// cost.
    #[tactic(auto, using(crate::proofs::Rules::advances))]
    fn read_each_owing<J: ConnectionLog>(
        &mut self,
        alloc: Global,
        before: Spending,
        log: &mut J,
    ) -> Spending
        ensures { KeepsFewer S.remaining S.contents self.old self.new }
    {
        self.queues.ready.begin_owing_pass();
        let light = self.read_each_with(alloc, Debt::Light, before, log);
        self.read_each_with(alloc, Debt::Heavy, light, log)
    }

    /// Reads once from each connection with such a debt whose room may be read ahead: from one at
    /// least, and from others until the round has cost what it may. Returns what it cost.
    #[tactic(auto, using(crate::proofs::Rules::advances))]
    fn read_each_with<J: ConnectionLog>(
        &mut self,
        alloc: Global,
        debt: Debt,
        before: Spending,
        log: &mut J,
    ) -> Spending
        ensures { KeepsFewer S.remaining S.contents self.old self.new }
    {
        let mut spending = before;
        for _ in 0..self.queues.ready.owing(debt) {
            if spending != before && !spending.allows_more() {
                return spending;
            }
            let Some(key) = self.queues.ready.pop_owing(debt) else {
                return spending;
            };
            spending.spend(self.read_at(alloc, key, log));
        }
        spending
    }

    /// Gives a connection a read turn, if it may be read, and queues it again. One that is skipped
    /// comes before those that had a turn. Returns what the turn cost; 0 if there was none.
    #[tactic(auto, using(crate::proofs::Rules::advances))]
    fn read_at<J: ConnectionLog>(&mut self, alloc: Global, key: usize, log: &mut J) -> u64
        ensures { KeepsFewer S.remaining S.contents self.old self.new }
    {
        self.renew_rules();
        let counted = match self.read_turn(alloc, key) {
            Ok(Some(read)) => self.finish_read(alloc, key, read, log),
            Ok(None) => {
                self.skip(key);
                return 0;
            }
            Err(AllocError) => {
                self.shed(log);
                TURN_COST
            }
        };
        let cost = self.charge(key, counted);
        self.queue(key);
        cost
    }

    /// Sees to it that sessions that only watch do not take the last quarter of those that may be.
    #[tactic(auto, using(crate::proofs::Rules::advances))]
    fn renew_rules(&mut self)
        ensures { KeepsFewer S.remaining S.contents self.old self.new }
    {
        let most = self.hub.config().sessions;
        self.rules.watchers = if (self.sessions.len() as u64) < most - most / 4 {
            Watchers::Join
        } else {
            Watchers::Wait
        };
    }

    /// Queues a connection that had no turn: if it wants one later, before those that had one.
    #[tactic(auto, using(crate::proofs::Rules::advances))]
    fn skip(&mut self, key: usize)
        ensures { KeepsFewer S.remaining S.contents self.old self.new }
    {
        if let Some(connection) = self.connections.get(key) {
            if connection.may_read(&self.hub) {
                let credit = connection.credit(self.queues.ready.round());
                self.queues.ready.skip(key, credit);
            }
        }
        self.queue(key);
    }

    /// The time since the last turn ended, in microseconds. Another turn begins now.
    #[tactic(auto, using(crate::proofs::Rules::advances))]
    pub(super) fn lap(&mut self) -> u64
        ensures { KeepsFewer S.remaining S.contents self.old self.new }
    {
        let now = self.readiness.micros();
        let lap = now.saturating_sub(self.lap_end);
        self.lap_end = now;
        lap
    }

    /// Ends a turn, which is counted to have cost so much, and has cost the time that it took if
    /// that is more. Takes this from the credit of its connection, if that is held. Returns it.
    #[tactic(auto, using(crate::proofs::Rules::advances))]
    pub(super) fn charge(&mut self, key: usize, counted: u64) -> u64
        ensures { KeepsFewer S.remaining S.contents self.old self.new }
    {
        let cost = self.lap().max(counted);
        if let Some(connection) = self.connections.get(key) {
            connection.charge(cost);
        }
        cost
    }

    /// The number of messages that a read turn of a connection may draw now: one, or none if a long
    /// snapshot is due, or nobody is told what is not kept. `None` if it must not be read now: a
    /// waiting reply can be sent first, its room may not be read ahead, or there is nothing to
    /// read. Replies that wait to be kept are no reason: so one commit keeps several texts.
    fn read_turn_draws(&self, key: usize) -> Option<u64>
        ensures untold { tells_kept self.now ≡ true → IfSome result (λ draws. draws ≡ 0) }
    {
        let connection = self.connections.get(key)?;
        let may_read_ahead = match connection.room_index() {
            Some(index) => self.rooms.may_read_ahead(index),
            None => true,
        };
        let has_sendable_reply = !self.tells_kept
            && connection.replies(&self.hub) > 0
            && connection.has_output(&self.hub, Output::Waiting);
        if has_sendable_reply || !may_read_ahead || !connection.may_read(&self.hub) {
            return None;
        }
        if !self.tells_kept && self.has_no_long_snapshot(connection) {
            return Some(READ_DRAWS);
        }
        Some(0)
    }

    /// Gives the link of a connection a read turn, if it may be read. If nobody is told what is not
    /// kept, the turn draws nothing.
    #[tactic(auto, using(crate::proofs::Rules::advances))]
    fn read_turn(&mut self, alloc: Global, key: usize) -> Result<Option<ReadTurn>, AllocError>
        ensures keeps { KeepsFewer S.remaining S.contents self.old self.new }
        ensures untold { tells_kept self.old ≡ true → IfOk result (λ read.
            IfSome read (λ read. draws read.turn.events.items ≡ 0)) }
    {
        let Some(draws) = self.read_turn_draws(key) else {
            return Ok(None);
        };
        let Some(connection) = self.connections.get_mut(key) else {
            return Ok(None);
        };
        let before = connection.link.stage();
        let Ok(turn) = connection
            .link
            .read_turn(alloc, &self.rules, &mut self.hub, draws)
        else {
            return Err(AllocError);
        };
        Ok(Some(ReadTurn { before, turn }))
    }

    /// Ends a read turn. Returns its cost as it is counted.
    #[tactic(auto, using(crate::proofs::Rules::advances))]
    fn finish_read<J: ConnectionLog>(
        &mut self,
        alloc: Global,
        key: usize,
        read: ReadTurn,
        log: &mut J,
    ) -> u64
        ensures { KeepsFewer S.remaining S.contents self.old self.new }
    {
        let ReadTurn { before, mut turn } = read;
        let cost = cost_of(&turn, self.note_read(key));
        self.wanted.note(turn.turned_away.take());
        self.finish_turn(alloc, key, before, &turn, log);
        cost
    }

    /// Notes that a connection had a read turn. Returns the number of bytes that were read.
    #[tactic(auto, using(crate::proofs::Rules::advances))]
    fn note_read(&mut self, key: usize) -> u64
        ensures { KeepsFewer S.remaining S.contents self.old self.new }
    {
        let Some(connection) = self.connections.get_mut(key) else {
            return 0;
        };
        connection.note_read()
    }
}

/// The cost of a turn that read so many bytes.
fn cost_of(turn: &Turn, read: u64) -> u64 {
    turn.cost
        .saturating_add(read / BYTES_READ)
        .saturating_add(TURN_COST)
}
