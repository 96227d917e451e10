//! A server that an operator may ask, have forget a room, open to clients, and stop.
ghost use Rattle.std.specs.Prelude.{◌≡◌, ◌≤◌, min};
ghost use Rattle.relay_event_loop.specs.Advances.{KeepsFewer, MakesWithin};
ghost use Rattle.relay_event_loop.specs.Connections.{connections_of, limit_of, made_by, made_after};
ghost use Rattle.relay_event_loop.specs.Rounds.{RoundsOf};

use super::Server;
use super::reading::{ROUND_COST, TURN_COST};
use crate::connection_log::ConnectionLog;
use crate::counted::Counted;
use crate::room_keeper::RoomKeeper;
use relay_hub::ForgetFault;
use relay_link::{Entrance, Visit};
use relay_operator::{AdminPort, AdminView, MAX_CONNECTIONS};
use relay_readiness::{AdminReadiness, Readiness};
use relay_schedule::Spending;
use std::alloc::{AllocError, Global};
use std::io::{Read, Write};
use std::net::{OpenListener, OpenStream};
use std::time::{Clock, Duration};

/// For how many seconds a server that stops tells its clients what waits for them.
const DRAIN_SECONDS: u64 = 5;

/// The number of passes that are enough for that, however short they are.
const MAX_DRAIN_PASSES: u64 = 1_000_000;

impl<S, R, C> Server<S, AdminReadiness<'_, R, C>>
where
    S: Read + Write + OpenStream + Drop,
    R: Readiness<S> + Drop,
    C: Clock,
{
    /// Runs rounds as [`Server::run`], and after each round answers the requests at the admin port,
    /// forgets the rooms that it asks to be forgotten ([`relay_hub::Hub::forget`]), and lets
    /// clients in from then on, if it asks for that ([`Server::set_entrance`]). Ends after that
    /// many rounds, or once a stop was asked: then nobody is accepted and nothing is read any
    /// more, and what waits for the sessions is written for at most five seconds. At last it ends
    /// every connection, an open one with a close frame 1001, and has kept what that changed.
    /// Returns how many rounds were run.
    #[tactic(auto, using(crate::proofs::Rules::rounds))]
    pub fn run_administered<L: OpenListener<Stream = S>, K: RoomKeeper, J: ConnectionLog>(
        &mut self,
        alloc: Global,
        listener: &L,
        admin: &mut AdminPort<L>,
        rounds: u64,
        keeper: &mut K,
        log: &mut J,
    ) -> u64
        ensures at_most { result ≤ rounds }
        ensures first { min 1 rounds ≤ result }
        ensures made { made_by self.new ≡ made_after result self.old }
        ensures rounds { RoundsOf S.remaining S.contents self.old self.new }
        ensures limit { limit_of self.new ≡ limit_of self.old }
        ensures within { connections_of self.old ≤ limit_of self.old
            → connections_of self.new ≤ limit_of self.old }
    {
        let done = self.run_until_stop(alloc, listener, admin, rounds, keeper, log);
        self.end(alloc, &mut Counted::to(&mut admin.counters, log));
        self.keep(alloc, keeper, log);
        done
    }

    /// Runs rounds, until that many were run or a stop was asked and what waits was told. Returns
    /// how many were run.
    #[tactic(auto, using(crate::proofs::Rules::rounds))]
    fn run_until_stop<L: OpenListener<Stream = S>, K: RoomKeeper, J: ConnectionLog>(
        &mut self,
        alloc: Global,
        listener: &L,
        admin: &mut AdminPort<L>,
        rounds: u64,
        keeper: &mut K,
        log: &mut J,
    ) -> u64
        ensures at_most { result ≤ rounds }
        ensures first { min 1 rounds ≤ result }
        ensures makes { MakesWithin S.remaining S.contents result self.old self.new }
    {
        for before in 0..rounds {
            admin.counters.begin(self.readiness.now());
            let mut counted = Counted::to(&mut admin.counters, log);
            self.round(alloc, listener, keeper, &mut counted);
            let is_stopped = self.administer(alloc, admin, keeper, log);
            if is_stopped {
                self.take_leave(alloc, keeper, log);
            }
            if is_stopped || self.is_lost {
                return before + 1;
            }
        }
        rounds
    }

    /// Answers the requests at the admin port, if it may have work, and all rooms are kept. Returns
    /// whether a stop was asked.
    #[tactic(auto, using(crate::proofs::Rules::advances))]
    fn administer<L: OpenListener<Stream = S>, K: RoomKeeper, J: ConnectionLog>(
        &mut self,
        alloc: Global,
        admin: &mut AdminPort<L>,
        keeper: &mut K,
        log: &mut J,
    ) -> bool
        ensures { KeepsFewer S.remaining S.contents self.old self.new }
    {
        if !self.readiness.take_ready() {
            return false;
        }
        if !self.keep(alloc, keeper, log) {
            self.readiness.ready_again();
            return false;
        }
        let has_more = admin.accept(alloc, &mut self.readiness);
        let view = AdminView {
            hub: &self.hub,
            is_closed: self.rules.entrance.is_closed(),
            wanted: self.wanted.as_slice(),
            left: self.vacancies.empty.as_slice(),
            second: self.seconds,
            connections: self.connections.len() as u64,
            max_connections: self.max_connections as u64,
            wills: self.wills_done,
            rounds: self.rounds,
            longest_round: self.readiness.longest_round(),
            commits: self.commits,
        };
        let turn = admin.turn(alloc, &view);
        if turn.is_opening {
            self.set_entrance(Entrance::Open);
        }
        self.admit_asked(alloc, admin, log);
        self.forget_asked(alloc, admin, keeper, log);
        self.visit_asked(alloc, admin, keeper, log);
        if has_more || turn.has_more || admin.is_behind() {
            self.readiness.ready_again();
        }
        turn.is_stopping
    }

    /// Opens and closes each room that the admin port asks for.
    #[tactic(auto, using(crate::proofs::Rules::advances))]
    fn admit_asked<L: OpenListener<Stream = S>, J: ConnectionLog>(
        &mut self,
        alloc: Global,
        admin: &mut AdminPort<L>,
        log: &mut J,
    )
        ensures { KeepsFewer S.remaining S.contents self.old self.new }
    {
        for _ in 0..MAX_CONNECTIONS {
            let Some(asked) = admin.next_admission() else {
                return;
            };
            let came = self.admit(alloc, asked, log);
            admin.answer_admission(alloc, came);
        }
    }

    /// Forgets each room that the admin port asks to be forgotten, in which nobody is. If that is
    /// not kept, it is answered as if memory had been refused.
    #[tactic(auto, using(crate::proofs::Rules::advances))]
    fn forget_asked<L: OpenListener<Stream = S>, K: RoomKeeper, J: ConnectionLog>(
        &mut self,
        alloc: Global,
        admin: &mut AdminPort<L>,
        keeper: &mut K,
        log: &mut J,
    )
        ensures { KeepsFewer S.remaining S.contents self.old self.new }
    {
        for _ in 0..MAX_CONNECTIONS {
            let Some(room) = admin.room_to_forget() else {
                return;
            };
            let forgotten = self.forget(alloc, room);
            let is_kept = self.keep(alloc, keeper, log);
            admin.answer_forget(
                alloc,
                if is_kept {
                    forgotten
                } else {
                    Err(ForgetFault::NoMemory)
                },
            );
        }
    }

    /// Forgets a room in which nobody is.
    #[tactic(auto, using(crate::proofs::Rules::house))]
    fn forget(&mut self, alloc: Global, room: &str) -> Result<u64, ForgetFault>
        ensures { KeepsFewer S.remaining S.contents self.old self.new }
    {
        self.hub.forget(alloc, room)
    }

    /// Makes the visits that the admin port asks for, until they have cost what a round may. The
    /// others wait for the next round. One that is not kept is not answered: its connection is
    /// dropped.
    #[tactic(auto, using(crate::proofs::Rules::advances))]
    fn visit_asked<L: OpenListener<Stream = S>, K: RoomKeeper, J: ConnectionLog>(
        &mut self,
        alloc: Global,
        admin: &mut AdminPort<L>,
        keeper: &mut K,
        log: &mut J,
    )
        ensures { KeepsFewer S.remaining S.contents self.old self.new }
    {
        self.lap();
        let mut spending = Spending::within(ROUND_COST);
        for _ in 0..MAX_CONNECTIONS {
            if !spending.allows_more() {
                return;
            }
            let Some(visit) = admin.next_visit(alloc, &self.hub) else {
                return;
            };
            let came = self.visit(alloc, visit.room, visit.access, visit.text, log);
            let counted = cost_of(&came);
            let is_kept = self.keep(alloc, keeper, log);
            admin.answer_visit(
                alloc,
                &self.hub,
                if is_kept { came } else { Err(AllocError) },
            );
            spending.spend(self.lap().max(counted));
        }
    }

    /// Writes what waits for the sessions, for at most five seconds. Accepts and reads nothing.
    #[tactic(auto, using(crate::proofs::Rules::advances))]
    fn take_leave<K: RoomKeeper, J: ConnectionLog>(
        &mut self,
        alloc: Global,
        keeper: &mut K,
        log: &mut J,
    )
        ensures { KeepsFewer S.remaining S.contents self.old self.new }
    {
        let until = self
            .readiness
            .now()
            .saturating_add(Duration::from_secs(DRAIN_SECONDS));
        for _ in 0..MAX_DRAIN_PASSES {
            if !self.has_waiting() || self.readiness.now() >= until {
                return;
            }
            self.do_wills(alloc, Spending::within(ROUND_COST), log);
            self.tell(alloc, keeper, log);
            self.accept_ready = false;
            self.poll();
        }
    }

    /// True if anything waits to be written to a session that is open.
    fn has_waiting(&self) -> bool {
        for key in 0..self.key_limit() {
            if let Some(connection) = self.connections.get(key) {
                if connection.has_unsent(&self.hub) {
                    return true;
                }
            }
        }
        false
    }
}

/// The cost of a visit, as it is counted.
fn cost_of(came: &Result<Visit, AllocError>) -> u64 {
    match came {
        Ok(visit) => visit.cost.saturating_add(TURN_COST),
        Err(AllocError) => TURN_COST,
    }
}
