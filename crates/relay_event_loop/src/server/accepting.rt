//! The arrival of connections: who is accepted, and who makes room.
ghost use Rattle.std.specs.Prelude.{IfSome};
ghost use Rattle.relay_event_loop.specs.Advances.{KeepsFewer, KeepsWithin, HasNoSession, links_of};

use super::Server;
use crate::connection::Connection;
use crate::connection_log::{ConnectionLog, LogEntry};
use crate::eviction_log::EvictionLog;
use indexmap::IndexMap;
use relay_link::EndCause;
use relay_readiness::Readiness;
use relay_schedule::Credit;
use std::alloc::{AllocError, Global};
use std::io::{ErrorKind, Read, Write};
use std::net::{IpAddr, OpenListener, OpenStream, SocketAddr};

/// The maximum number of connections that a round accepts.
const MAX_ACCEPTS: u32 = 8;

/// The order in which connections without a session make room for a new one.
#[derive(Clone, Copy)]
struct Precedence {
    is_of_another: bool,
    has_sent: bool,
    arrival: u64,
}

impl Precedence {
    /// Behind every connection.
    const LAST: Precedence = Precedence {
        is_of_another: true,
        has_sent: true,
        arrival: u64::MAX,
    };

    fn of<S: Read + Write + Drop>(connection: &Connection<S>, address: IpAddr) -> Precedence {
        Precedence {
            is_of_another: connection.address() != address,
            has_sent: connection.has_sent,
            arrival: connection.arrival,
        }
    }

    fn is_before(self, other: Precedence) -> bool {
        if self.is_of_another != other.is_of_another {
            return other.is_of_another;
        }
        if self.has_sent != other.has_sent {
            return other.has_sent;
        }
        self.arrival < other.arrival
    }
}

impl<S: Read + Write + OpenStream + Drop, R: Readiness<S>> Server<S, R> {
    /// Accepts waiting connections.
    #[tactic(auto, using(crate::proofs::Rules::advances))]
    pub(super) fn accept<L: OpenListener<Stream = S>, J: ConnectionLog>(
        &mut self,
        alloc: Global,
        listener: &L,
        log: &mut J,
    )
        ensures { KeepsWithin S.remaining S.contents self.old self.new }
    {
        for _ in 0..MAX_ACCEPTS {
            if !self.accept_ready {
                return;
            }
            match listener.accept() {
                Ok((stream, peer)) => self.welcome(alloc, stream, peer, log),
                Err(error) => {
                    self.accept_ready = false;
                    self.accept_failed = error.kind() != ErrorKind::WouldBlock;
                }
            }
        }
    }

    /// Makes room for a new connection, and holds it. It is rejected if its address has as many as
    /// it may.
    #[tactic(auto, using(crate::proofs::Rules::advances))]
    fn welcome<J: ConnectionLog>(&mut self, alloc: Global, stream: S, peer: SocketAddr, log: &mut J)
        ensures { KeepsWithin S.remaining S.contents self.old self.new }
    {
        if self.has_as_many_as_may(peer.ip()) {
            log.record(LogEntry::Rejected { peer });
            return;
        }
        self.evict(alloc, peer.ip(), log);
        self.enter(alloc, stream, peer, log);
    }

    /// True if as many connections of an address are held as may be.
    fn has_as_many_as_may(&self, address: IpAddr) -> bool {
        if self.max_per_peer > self.connections.len() as u64 {
            return false;
        }
        let mut count: u64 = 0;
        for key in 0..self.key_limit() {
            if let Some(connection) = self.connections.get(key) {
                if connection.address() == address {
                    count = count.saturating_add(1);
                }
            }
        }
        count >= self.max_per_peer
    }

    /// If the maximum number of connections is held, ends one without a session, for a new one of
    /// an address.
    #[tactic(auto, using(crate::proofs::Rules::advances))]
    fn evict<J: ConnectionLog>(&mut self, alloc: Global, address: IpAddr, log: &mut J)
        ensures { KeepsFewer S.remaining S.contents self.old self.new }
    {
        if self.connections.len() < self.max_connections {
            return;
        }
        if let Some(key) = self.first_to_evict(address) {
            self.end_link(alloc, key, EndCause::Ended, &mut EvictionLog::to(log));
        }
    }

    /// The key of the connection that makes room for a new one of an address: of those without a
    /// session one of the same address, if there is one, and of these the oldest that has sent
    /// nothing, or else the oldest. So whoever opens many makes room for them with its own.
    fn first_to_evict(&self, address: IpAddr) -> Option<usize>
        ensures { IfSome result (λ key. HasNoSession (links_of self.now.connections) key) }
    {
        let mut first = None;
        let mut least = Precedence::LAST;
        for key in 0..self.key_limit() {
            if let Some(connection) = self.connections.get(key) {
                let precedence = Precedence::of(connection, address);
                if connection.has_no_session() && precedence.is_before(least) {
                    first = Some(key);
                    least = precedence;
                }
            }
        }
        first
    }

    /// Holds a new connection, if it can be held, and queues it.
    #[tactic(auto, using(crate::proofs::Rules::advances))]
    fn enter<J: ConnectionLog>(&mut self, alloc: Global, stream: S, peer: SocketAddr, log: &mut J)
        ensures { KeepsWithin S.remaining S.contents self.old self.new }
    {
        let key = self.connections.vacant_key();
        if self.add(alloc, stream, peer).is_err() {
            self.shed(log);
        }
        self.queue(key);
    }

    /// Holds a new connection. It is dropped if there is no capacity, or if its stream cannot be
    /// made non-blocking or watched.
    #[tactic(auto, using(crate::proofs::Rules::advances))]
    fn add(&mut self, alloc: Global, stream: S, peer: SocketAddr) -> Result<(), AllocError>
        ensures { KeepsWithin S.remaining S.contents self.old self.new }
    {
        if self.connections.len() >= self.max_connections || stream.set_nonblocking(true).is_err() {
            return Ok(());
        }
        let _ = stream.set_nodelay(true);
        let key = self.connections.vacant_key();
        if self.readiness.watch(key, &stream).is_err() {
            return Ok(());
        }
        self.queues.admit(key)?;
        reserve(&mut self.sessions, self.connections.len())?;
        let arrival = self.next_arrival;
        self.next_arrival = self.next_arrival.saturating_add(1);
        let credit = Credit::of_new(self.queues.ready.round());
        let connection = Connection::new(alloc, stream, peer, credit, arrival, self.rounds)?;
        self.connections.insert(connection)?;
        Ok(())
    }
}

/// Takes the memory for the sessions of so many connections, and of one more.
fn reserve(sessions: &mut IndexMap<u64, usize>, connections: usize) -> Result<(), AllocError> {
    let most = connections.saturating_add(1);
    match sessions.reserve(most.saturating_sub(sessions.len())) {
        Ok(()) => Ok(()),
        Err(_) => Err(AllocError),
    }
}
