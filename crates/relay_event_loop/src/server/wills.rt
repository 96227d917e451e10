//! Does the wills of closed sessions.
//!
//! A session's end leaves its will in the hub, whatever memory there is. A round does what is left
//! behind its read turns, and writes to those whom that told something.
ghost use Rattle.std.specs.Prelude.{◌≡◌, ◌==◌, length};
ghost use Rattle.relay_event_loop.specs.Advances.{KeepsFewer};

use super::Server;
use super::reading::{MAX_PASSES, TURN_COST};
use crate::connection_log::ConnectionLog;
use relay_limits::MAX_SESSIONS;
use relay_readiness::Readiness;
use relay_schedule::Spending;
use std::alloc::{AllocError, Global};
use std::io::{Read, Write};
use std::net::OpenStream;

impl<S: Read + Write + OpenStream + Drop, R: Readiness<S>> Server<S, R> {
    /// Does the wills that are left, the oldest first: one at least, and others until the round has
    /// cost what it may, or the room of the last one may be said no more before its watchers are
    /// written to. Returns what it cost.
    #[tactic(auto, using(crate::proofs::Rules::advances))]
    pub(super) fn do_wills<J: ConnectionLog>(
        &mut self,
        alloc: Global,
        before: Spending,
        log: &mut J,
    ) -> Spending
        ensures { KeepsFewer S.remaining S.contents self.old self.new }
    {
        self.lap();
        let mut spending = before;
        for _ in 0..MAX_PASSES {
            let Some(counted) = self.do_will(alloc, log) else {
                return spending;
            };
            spending.spend(self.lap().max(counted));
            if !spending.allows_more() || !self.told_may_read_ahead() {
                return spending;
            }
        }
        spending
    }

    /// Does all wills that are left, as far as there is memory. Returns whether none is left.
    #[tactic(auto, using(crate::proofs::Rules::advances))]
    pub(super) fn finish_wills<J: ConnectionLog>(&mut self, alloc: Global, log: &mut J) -> bool
        ensures kept { KeepsFewer S.remaining S.contents self.old self.new }
        ensures none { result ≡ (length self.new.hub.wills == 0) }
    {
        self.do_each_will(alloc, log);
        !self.hub.has_wills()
    }

    #[tactic(auto, using(crate::proofs::Rules::advances))]
    fn do_each_will<J: ConnectionLog>(&mut self, alloc: Global, log: &mut J)
        ensures { KeepsFewer S.remaining S.contents self.old self.new }
    {
        for _ in 0..MAX_SESSIONS {
            if self.do_will(alloc, log).is_none() {
                return;
            }
        }
    }

    /// Does the oldest will that is left, and queues those whom it told something. If memory is
    /// refused, the hub gives memory back, and the will is tried once more. Returns its cost as it
    /// is counted; `None` if none is left, or if memory was refused again, so that it is left.
    #[tactic(auto, using(crate::proofs::Rules::advances))]
    fn do_will<J: ConnectionLog>(&mut self, alloc: Global, log: &mut J) -> Option<u64>
        ensures { KeepsFewer S.remaining S.contents self.old self.new }
    {
        let before = self.hub.cost();
        let is_done = match self.try_will(alloc) {
            Ok(is_done) => is_done,
            Err(AllocError) => {
                self.shed(log);
                self.try_will(alloc).unwrap_or(false)
            }
        };
        if !is_done {
            return None;
        }
        self.wills_done = self.wills_done.saturating_add(1);
        self.queue_after_visit_or_will(0);
        let cost = self.hub.cost().saturating_sub(before);
        Some(cost.saturating_add(TURN_COST))
    }

    /// Does the oldest will that is left. Returns whether there was one.
    #[tactic(auto, using(crate::proofs::Rules::house))]
    fn try_will(&mut self, alloc: Global) -> Result<bool, AllocError>
        ensures { KeepsFewer S.remaining S.contents self.old self.new }
    {
        match self.hub.do_will(alloc) {
            Ok(done) => Ok(done.is_some()),
            Err(_) => Err(AllocError),
        }
    }
}
