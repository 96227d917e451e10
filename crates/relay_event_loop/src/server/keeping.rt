//! Rooms that are kept before anybody is told of them.
ghost use Rattle.std.specs.Prelude.{◌≡◌, ◌⊎◌, true};
ghost use Rattle.relay_event_loop.specs.Advances.{KeepsFewer};
ghost use Rattle.relay_event_loop.specs.Connections.{connections_of, limit_of, hub_of};
ghost use Rattle.relay_event_loop.specs.Connections.{entrance_of, origins_of, peer_limit_of};
ghost use Rattle.relay_event_loop.specs.Connections.{commits_of, is_lost, made_by, tells_kept};
ghost use Rattle.relay_event_loop.specs.Keeping.{HasCaughtUp, IsUntold, counted};
ghost use Rattle.relay_event_loop.specs.Limits.{forgets_rooms, output_limit_of};
ghost use Rattle.relay_event_loop.specs.Rounds.{RoundsOf};

use super::Server;
use crate::connection_log::{ConnectionLog, LogEntry};
use crate::room_keeper::{Keeping, RoomKeeper};
use relay_readiness::Readiness;
use std::alloc::Global;
use std::io::{Read, Write};
use std::net::OpenStream;

/// The time in microseconds above which a commit is slow.
const SLOW_COMMIT: u64 = 1_000_000;

impl<S: Read + Write + OpenStream + Drop, R: Readiness<S>> Server<S, R> {
    /// From now on nobody is told what is not kept: a read turn draws nothing, and a write turn
    /// begins only once the keeper has kept all rooms as they are. A new server tells at once.
    ///
    /// ```
    /// let (wire, script) = (Wire::new(alloc), ReadinessScript::new(alloc));
    /// let listener = MemoryListener::new(alloc);
    /// let hub = Hub::new(alloc, 1, 1, 64, 32).ok()?;
    /// let mut server = Server::new(alloc, hub, ScriptedReadiness::of(&script), 1_000_000);
    /// server.tell_kept();
    /// wire.try_borrow_mut().ok()?.perform(alloc, "asks 13 /rooms/a").ok()?;
    /// listener.add(&wire)?;
    /// server.round(alloc, &listener, &mut NotKept, &mut NoLog);
    /// assert!(rt; !server.is_lost());
    /// ```
    #[tactic(auto, using(crate::proofs::Rules::rounds))]
    pub fn tell_kept(&mut self)
        ensures tells { tells_kept self.new ≡ true }
        ensures hub { hub_of self.new ≡ hub_of self.old }
        ensures limit { limit_of self.new ≡ limit_of self.old }
        ensures made { made_by self.new ≡ made_by self.old }
        ensures connections { connections_of self.new ≡ connections_of self.old }
        ensures rounds { RoundsOf S.remaining S.contents self.old self.new }
        ensures forgets { forgets_rooms self.new ≡ forgets_rooms self.old }
        ensures entrance { entrance_of self.new ≡ entrance_of self.old }
        ensures origins { origins_of self.new ≡ origins_of self.old }
        ensures per_peer { peer_limit_of self.new ≡ peer_limit_of self.old }
        ensures output { output_limit_of self.new ≡ output_limit_of self.old }
    {
        self.tells_kept = true;
    }

    /// True if nothing can be kept any more. Then nobody is told anything, and no further round is
    /// run.
    pub fn is_lost(&self) -> bool
        ensures { result ≡ is_lost self.now }
    {
        self.is_lost
    }

    /// Has all rooms kept as they are, if nobody may be told of them before. Returns whether they
    /// are. If there was no memory for it, the hub gives some back.
    #[tactic(auto, using(crate::proofs::Rules::advances))]
    pub(super) fn keep<K: RoomKeeper, J: ConnectionLog>(
        &mut self,
        alloc: Global,
        keeper: &mut K,
        log: &mut J,
    ) -> bool
        ensures keeps { KeepsFewer S.remaining S.contents self.old self.new }
        ensures untold { IsUntold (hub_of self.old) (hub_of self.new) }
        ensures kept { tells_kept self.old ≡ true → result ≡ true
            → HasCaughtUp K.has_kept keeper.old keeper.new (hub_of self.old) }
    {
        if self.is_lost {
            return false;
        }
        if !self.tells_kept {
            return true;
        }
        let before = self.readiness.micros();
        let keeping = keeper.keep(alloc, &self.hub);
        let micros = self.readiness.micros().saturating_sub(before);
        self.note_keeping(keeping, micros, log);
        match keeping {
            Keeping::Done => true,
            Keeping::Unchanged => true,
            Keeping::Later => {
                self.shed(log);
                false
            }
            Keeping::Lost => {
                self.is_lost = true;
                false
            }
        }
    }

    /// Counts the commit of a call of the keeper that took so many microseconds, and logs it if it
    /// was slow, or failed for another reason than memory, of which [`LogEntry::OutOfMemory`] says.
    #[tactic(auto, using(crate::proofs::Rules::advances))]
    fn note_keeping<J: ConnectionLog>(&mut self, keeping: Keeping, micros: u64, log: &mut J)
        ensures keeps { KeepsFewer S.remaining S.contents self.old self.new }
        ensures hub { hub_of self.new ≡ hub_of self.old }
        ensures commits { commits_of self.new ≡ counted keeping micros (commits_of self.old) }
    {
        match keeping {
            Keeping::Done => {
                self.commits = self.commits.with_commit(micros);
                if micros > SLOW_COMMIT {
                    let millis = micros / 1_000;
                    log.record(LogEntry::SlowCommit { millis });
                }
            }
            Keeping::Unchanged => {}
            Keeping::Later => self.commits = self.commits.with_failure(),
            Keeping::Lost => {
                self.commits = self.commits.with_failure();
                log.record(LogEntry::CommitFailed);
            }
        }
    }

    /// Writes what waits, once all rooms are kept: so either nobody is told anything, or the keeper
    /// has kept the hub as it was when the writing began, which changes no room.
    #[tactic(auto, using(crate::proofs::Rules::advances))]
    pub(super) fn tell<K: RoomKeeper, J: ConnectionLog>(
        &mut self,
        alloc: Global,
        keeper: &mut K,
        log: &mut J,
    )
        ensures keeps { KeepsFewer S.remaining S.contents self.old self.new }
        ensures told { tells_kept self.old ≡ true → IsUntold (hub_of self.old) (hub_of self.new)
            ⊎ HasCaughtUp K.has_kept keeper.old keeper.new (hub_of self.old) }
    {
        if self.keep(alloc, keeper, log) {
            self.write(alloc, log);
        }
    }
}
