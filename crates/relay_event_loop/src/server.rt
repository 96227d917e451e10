//! The relay as a server: one thread that serves non-blocking sockets in rounds.
ghost use Rattle.std.specs.Prelude.{◌≡◌, ◌≤◌, ◌-◌, ◌^◌, [], false};
ghost use Rattle.relay_event_loop.specs.Advances.{KeepsFewer, MakesWithin};
ghost use Rattle.relay_event_loop.specs.Connections.{connections_of, limit_of, hub_of};
ghost use Rattle.relay_event_loop.specs.Connections.{entrance_of, origins_of, peer_limit_of};
ghost use Rattle.relay_event_loop.specs.Connections.{connection_limit, made_by};
ghost use Rattle.relay_event_loop.specs.Connections.{made_after};
ghost use Rattle.relay_event_loop.specs.Limits.{forgets_rooms, output_limit_of};
ghost use Rattle.relay_event_loop.specs.Limits.{read_ahead_limits, rooms_of};
ghost use Rattle.relay_event_loop.specs.Rounds.{RoundsOf, ConnectedOf};
ghost use Rattle.relay_link.specs.declared.entrance.Entrance.TheVariants as entry;
ghost use Rattle.relay_schedule.specs.ReadAhead.{no_rooms};

mod accepting;
mod administering;
mod admitting;
mod ending;
mod forgetting;
mod keeping;
mod polling;
mod queueing;
mod reading;
mod visiting;
mod wills;
mod writing;

use crate::connection::Connection;
use crate::connection_log::ConnectionLog;
use crate::room_keeper::RoomKeeper;
use crate::wanted_rooms::WantedRooms;
use forgetting::RoomVacancies;
use indexmap::IndexMap;
use relay_admin::Commits;
use relay_hub::{Hub, HubConfig};
use relay_link::{EntryRules, Watchers};
use relay_readiness::{Readiness, ReadyEvent};
use relay_schedule::{OutputTotal, Queues, ReadAheadByRoom, ReadAheadLimits};
use relay_tree::Budget;
use slab::Slab;
use std::alloc::Global;
use std::io::{Read, Write};
use std::net::{OpenListener, OpenStream};

/// The maximum number of connections that a server holds if its hub allows so many sessions: a
/// quarter more, and at least 64 more. The extra ones are in their handshake, or closing.
///
/// ```
/// assert!(rt; connection_limit(256) == 256 + 64);
/// assert!(rt; connection_limit(4_000) == 4_000 + 1_000);
/// ```
pub fn connection_limit(sessions: u64) -> usize
    ensures { result ≡ connection_limit sessions }
{
    let spare = (sessions / 4).max(64);
    sessions.saturating_add(spare) as usize
}

/// The rounds that a server ran.
///
/// ```
/// let (script, listener) = (ReadinessScript::new(alloc), MemoryListener::new(alloc));
/// let hub = Hub::new(alloc, 1, 1, 64, 32).ok()?;
/// let readiness = ScriptedReadiness::of(&script);
/// let mut server: Server<End<'_>, _> = Server::new(alloc, hub, readiness, 1_000_000);
/// let run = server.run(alloc, &listener, 3, &mut NotKept, &mut NoLog);
/// assert!(rt; run == RoundsRun { made: 3, is_lost: false });
/// ```
#[derive(Clone, Copy, Debug, PartialEq, Eq)]
pub struct RoundsRun {
    pub made: u64,
    /// True if not all is kept in the end, and nothing can be kept any more or there was no memory.
    pub is_lost: bool,
}

impl RoundsRun {
    /// The same rounds, with what they left kept or not.
    fn and_kept(self, is_kept: bool) -> RoundsRun
        ensures made { result.made ≡ self.made }
        ensures lost { result.is_lost ≡ false → self.is_lost ≡ false }
    {
        RoundsRun {
            is_lost: self.is_lost || !is_kept,
            ..self
        }
    }
}

/// A hub, the connections to it in a slab, and the source of their readiness.
///
/// ```
/// let (wire, script) = (Wire::new(alloc), ReadinessScript::new(alloc));
/// let listener = MemoryListener::new(alloc);
/// let hub = Hub::new(alloc, 1, 1, 64, 32).ok()?;
/// let mut server = Server::new(alloc, hub, ScriptedReadiness::of(&script), 1_000_000);
/// // A client's handshake waits, and is answered in the round that accepts its connection.
/// wire.try_borrow_mut().ok()?.perform(alloc, "asks 13 /rooms/a").ok()?;
/// listener.add(&wire)?;
/// server.round(alloc, &listener, &mut NotKept, &mut NoLog);
/// assert!(rt; server.connections() == 1);
/// assert!(rt; wire.try_borrow_mut().ok()?.output.as_slice().starts_with(b"HTTP/1.1 101 "));
/// // In the end the client gets a close frame with 1001.
/// server.end(alloc, &mut NoLog);
/// assert!(rt; server.connections() == 0);
/// assert!(rt; wire.try_borrow_mut().ok()?.output.as_slice().ends_with(b"\x88\x02\x03\xe9"));
/// ```
#[derive(Drop)]
pub struct Server<S: Write + Drop, R> {
    hub: Hub,
    connections: Slab<Connection<S>>,
    /// The rules for clients that ask to come in.
    rules: EntryRules,
    /// The rooms from which clients were turned away.
    wanted: WantedRooms,
    /// The maximum number of connections.
    max_connections: usize,
    readiness: R,
    events: Vec<ReadyEvent>,
    /// True if a connection may wait to be accepted.
    accept_ready: bool,
    /// True if the last accept failed by another error than `WouldBlock`.
    accept_failed: bool,
    /// The connections that may have a turn.
    queues: Queues,
    /// The extent to which each room is read ahead.
    rooms: ReadAheadByRoom,
    /// The room that is forgotten for another one.
    vacancies: RoomVacancies,
    /// The output that all links hold.
    output: OutputTotal,
    /// The number of texts that were passed to the hub.
    texts_heard: u64,
    /// The number of wills that were done, those refused among them.
    wills_done: u64,
    /// The key of the connection that has a session, by the session's number.
    sessions: IndexMap<u64, usize>,
    rounds: u64,
    /// The time at which the last turn ended, by [`Readiness::micros`].
    lap_end: u64,
    /// The number of seconds that have passed, by [`ReadyEvent::Second`].
    seconds: u64,
    /// The first round in which the log may say again that memory was refused.
    next_shed_entry: u64,
    /// The `arrival` of the next connection.
    next_arrival: u64,
    /// The maximum number of connections of one address.
    max_per_peer: u64,
    /// True if nobody is told what is not kept.
    tells_kept: bool,
    /// True if nothing can be kept any more.
    is_lost: bool,
    /// The commits that kept the rooms, and those that failed.
    commits: Commits,
}

impl<S: Read + Write + OpenStream + Drop, R: Readiness<S>> Server<S, R> {
    /// A server of a hub, with no connection. A room is read ahead by half as many texts as patches
    /// may wait for a session of the hub, and by half as many bytes as these may weigh. Its links
    /// hold `most_output` bytes at most, and one text more each. The last quarter of that is a
    /// reserve for the large snapshots of links that keep up; replies, patches and small snapshots
    /// are drawn in any case. Who only watches begins no room.
    ///
    /// ```
    /// let script = ReadinessScript::new(alloc);
    /// let hub = Hub::new(alloc, 1, 1, 64, 32).ok()?;
    /// let readiness = ScriptedReadiness::of(&script);
    /// let server: Server<End<'_>, _> = Server::new(alloc, hub, readiness, 1_000_000);
    /// assert!(rt; server.connections() == 0);
    /// ```
    #[tactic(auto, using(crate::proofs::Owners::none_connected))]
    pub fn new(alloc: Global, hub: Hub, readiness: R, most_output: u64) -> Server<S, R>
        ensures empty { connections_of result ≡ 0 }
        ensures limit { limit_of result ≡ connection_limit hub.config.sessions }
        ensures hub { hub_of result ≡ hub }
        ensures connected { hub.homes ≡ [] → ConnectedOf result }
        ensures entrance { entrance_of result ≡ entry.Open }
        ensures origins { origins_of result ≡ [] }
        ensures per_peer { peer_limit_of result ≡ 2 ^ 64 - 1 }
        ensures rooms { rooms_of result ≡ no_rooms (read_ahead_limits hub.config) }
        ensures output { output_limit_of result ≡ most_output }
        ensures forgets { forgets_rooms result ≡ false }
    {
        let config = hub.config();
        Server {
            hub,
            connections: Slab::new(alloc),
            rules: EntryRules {
                watchers: Watchers::Join,
                ..EntryRules::none(alloc)
            },
            wanted: WantedRooms::new(alloc),
            max_connections: connection_limit(config.sessions),
            readiness,
            events: Vec::new(alloc),
            accept_ready: true,
            accept_failed: false,
            queues: Queues::new(alloc),
            rooms: ReadAheadByRoom::new(alloc, read_ahead_limits(config)),
            vacancies: RoomVacancies::new(alloc),
            output: OutputTotal::within(most_output),
            texts_heard: 0,
            wills_done: 0,
            sessions: IndexMap::new(alloc),
            rounds: 0,
            lap_end: 0,
            seconds: 0,
            next_shed_entry: 0,
            next_arrival: 0,
            max_per_peer: u64::MAX,
            tells_kept: false,
            is_lost: false,
            commits: Commits::default(),
        }
    }

    /// The number of connections held. It is at most [`connection_limit`], since a round holds no
    /// more.
    ///
    /// ```
    /// let (wire, script) = (Wire::new(alloc), ReadinessScript::new(alloc));
    /// let listener = MemoryListener::new(alloc);
    /// let hub = Hub::new(alloc, 1, 1, 64, 32).ok()?;
    /// let mut server = Server::new(alloc, hub, ScriptedReadiness::of(&script), 1_000_000);
    /// listener.add(&wire)?;
    /// server.round(alloc, &listener, &mut NotKept, &mut NoLog);
    /// // A connection counts before its handshake has come.
    /// assert!(rt; server.connections() == 1);
    /// ```
    pub fn connections(&self) -> usize
        ensures { result ≡ connections_of self.now }
    {
        self.connections.len()
    }

    /// Runs one round. If there is no work it waits until something is ready, for at most 100 ms.
    /// Then it
    ///
    /// - accepts up to 8 waiting connections. If [`connection_limit`] are held already, one without
    ///   a session is ended: of the same address, if there is one, and of those the oldest that has
    ///   sent nothing, or the oldest. A connection that cannot be accepted or held is dropped. One
    ///   whose address has as many as it may is rejected: it is closed ([`Server::set_per_peer`]);
    /// - reads: each connection that has credit, may have input, has no waiting reply that can be
    ///   sent first, and whose room may be read ahead gets a read turn; the one that had its turn
    ///   last comes last. The turn passes at most one text to the hub, and draws one message, which
    ///   is corked, or none if a large snapshot is due. This repeats until a pass passes no text to
    ///   the hub, or the turns have cost 5 ms. A turn costs the time that it took by the clock of
    ///   the readiness ([`Readiness::micros`]), and at least what the hub counts
    ///   ([`relay_hub::Hub::cost`]);
    /// - has the rooms kept, if nobody is told what is not kept ([`Server::tell_kept`]): then the
    ///   read turns before drew nothing, and the write turns behind it are given only if that was
    ///   done;
    /// - writes: each link with corked output, and then each for which something waits, whose
    ///   stream is writable, gets a write turn, which draws and sends up to 32 messages, each time
    ///   starting with the one that has waited longest. Each of these two passes stops at 256 KiB;
    ///   links that it did not reach come first in the next pass of its kind;
    /// - reads likewise from connections that owe, from one at least whose turns were each cheap,
    ///   and from one at least of the others, and from those that have credit by then, until the
    ///   turns of the round have cost 5 ms;
    /// - does the wills of the sessions that were closed: one at least, and others until the turns
    ///   of the round have cost 5 ms, or the last one's room may not be read ahead. What is left is
    ///   done in the next round, which does not wait. Out of memory leaves a will likewise;
    /// - has the rooms kept and writes again, if anything was read or done since.
    ///
    /// If a new room is refused since there are as many as may be, and the server forgets rooms
    /// ([`Server::forget_rooms`]), the one that has been empty for the longest time is forgotten.
    ///
    /// A turn takes what it cost from the credit of its connection, and each round of credit gives
    /// the same to all ([`relay_schedule::ReadyQueue`]). A room may be read ahead if none of its
    /// connections waits to be written to, or less was said there, since the last time that nobody
    /// did, than half of what may wait for a session. So a client that has credit waits for one
    /// turn of each other that has credit; those who owe have what is left of the 5 ms, and one
    /// turn of either debt at least ([`relay_schedule::Debt`]). Once memory was refused to a turn,
    /// the hub gives some back ([`relay_hub::Hub::shed`]), so that resumes and waiting patches
    /// become snapshots. What was to be drawn is drawn in a later round; but a link ends if there
    /// is no memory for a text that it read, or for the frame of one that it drew. Links that are
    /// gone are dropped. If it is unknown what is ready, everything counts as ready.
    ///
    /// A link whose stream takes less than a sixteenth of what waits in 30 seconds is ended. While
    /// the links hold three quarters of the output that they may, a snapshot of a document that
    /// weighs more than 4,096 is drawn only for those that keep up: less than 64 KiB of theirs is
    /// unsent. At the limit none is drawn. A link's buffer never shrinks. So while three quarters
    /// are held, up to 64 links are ended each second, the largest buffer first, of those that hold
    /// at least the average of all: links whose stream took less than a sixteenth in two seconds,
    /// and if there is none, links that have sent everything. It stops once half of the limit is
    /// free.
    ///
    /// A session that only watches is opened in a room that is there, and as long as less than
    /// three quarters of the sessions are open that may be.
    ///
    /// Proved of a round: the hub changes by turns, visits, wills, forgetting and
    /// [`relay_hub::Hub::shed`] alone, and goes on standing for its log (`rounds`); one round is
    /// counted (`made`); the limit on connections stays (`limit`), and is kept (`within`). Whom a
    /// round serves, and when, is tested.
    ///
    /// ```
    /// let (wire, script) = (Wire::new(alloc), ReadinessScript::new(alloc));
    /// let listener = MemoryListener::new(alloc);
    /// let hub = Hub::new(alloc, 1, 1, 64, 32).ok()?;
    /// let mut server = Server::new(alloc, hub, ScriptedReadiness::of(&script), 1_000_000);
    /// wire.try_borrow_mut().ok()?.perform(alloc, "asks 13 /other").ok()?;
    /// listener.add(&wire)?;
    /// server.round(alloc, &listener, &mut NotKept, &mut NoLog);
    /// assert!(rt; wire.try_borrow_mut().ok()?.output.as_slice().starts_with(b"HTTP/1.1 404 "));
    /// ```
    #[tactic(auto, using(crate::proofs::Rules::rounds))]
    pub fn round<L: OpenListener<Stream = S>, K: RoomKeeper, J: ConnectionLog>(
        &mut self,
        alloc: Global,
        listener: &L,
        keeper: &mut K,
        log: &mut J,
    )
        ensures rounds { RoundsOf S.remaining S.contents self.old self.new }
        ensures made { made_by self.new ≡ made_after 1 self.old }
        ensures limit { limit_of self.new ≡ limit_of self.old }
        ensures within { connections_of self.old ≤ limit_of self.old
            → connections_of self.new ≤ limit_of self.old }
    {
        self.rounds = self.rounds.saturating_add(1);
        let before = self.seconds;
        self.poll();
        self.relieve(alloc, before, log);
        self.accept(alloc, listener, log);
        let spending = self.read(alloc, log);
        self.tell(alloc, keeper, log);
        self.serve_owing(alloc, spending, keeper, log);
    }

    /// Runs that many rounds, or fewer if nothing can be kept any more ([`Server::is_lost`]), and
    /// ends every connection as [`Server::end`] does; what that changed is kept.
    ///
    /// ```
    /// let (wire, script) = (Wire::new(alloc), ReadinessScript::new(alloc));
    /// let listener = MemoryListener::new(alloc);
    /// let hub = Hub::new(alloc, 1, 1, 64, 32).ok()?;
    /// let mut server = Server::new(alloc, hub, ScriptedReadiness::of(&script), 1_000_000);
    /// wire.try_borrow_mut().ok()?.perform(alloc, "asks 13 /rooms/a").ok()?;
    /// listener.add(&wire)?;
    /// server.run(alloc, &listener, 3, &mut NotKept, &mut NoLog);
    /// assert!(rt; wire.try_borrow_mut().ok()?.output.as_slice().ends_with(b"\x88\x02\x03\xe9"));
    /// ```
    #[tactic(auto, using(crate::proofs::Rules::rounds))]
    pub fn run<L: OpenListener<Stream = S>, K: RoomKeeper, J: ConnectionLog>(
        &mut self,
        alloc: Global,
        listener: &L,
        rounds: u64,
        keeper: &mut K,
        log: &mut J,
    ) -> RoundsRun
        ensures at_most { result.made ≤ rounds }
        ensures all { result.is_lost ≡ false → result.made ≡ rounds }
        ensures rounds { RoundsOf S.remaining S.contents self.old self.new }
        ensures made { made_by self.new ≡ made_after result.made self.old }
        ensures limit { limit_of self.new ≡ limit_of self.old }
        ensures within { connections_of self.old ≤ limit_of self.old
            → connections_of self.new ≤ limit_of self.old }
    {
        let run = self.run_unless_lost(alloc, listener, rounds, keeper, log);
        self.end(alloc, log);
        let is_kept = self.keep(alloc, keeper, log);
        run.and_kept(is_kept)
    }

    /// Runs that many rounds, or fewer if nothing can be kept any more.
    #[tactic(auto, using(crate::proofs::Rules::rounds))]
    fn run_unless_lost<L: OpenListener<Stream = S>, K: RoomKeeper, J: ConnectionLog>(
        &mut self,
        alloc: Global,
        listener: &L,
        rounds: u64,
        keeper: &mut K,
        log: &mut J,
    ) -> RoundsRun
        ensures at_most { result.made ≤ rounds }
        ensures all { result.is_lost ≡ false → result.made ≡ rounds }
        ensures makes { MakesWithin S.remaining S.contents result.made self.old self.new }
    {
        for before in 0..rounds {
            self.round(alloc, listener, keeper, log);
            if self.is_lost {
                return RoundsRun {
                    made: before + 1,
                    is_lost: true,
                };
            }
        }
        RoundsRun {
            made: rounds,
            is_lost: false,
        }
    }

    /// An upper bound of the keys, exclusive.
    fn key_limit(&self) -> usize {
        self.connections.capacity()
    }
}

/// The extent to which a room may be read ahead: by half of what may wait for a session, at least
/// one text. So no watcher that keeps up is folded by the number of its patches. By their weight it
/// may be, since a short text can make a heavy change.
fn read_ahead_limits(config: HubConfig) -> ReadAheadLimits
    ensures { result ≡ read_ahead_limits config }
{
    ReadAheadLimits {
        texts: (config.max_waiting_patches / 2).max(1),
        bytes: match config.waiting_weight {
            Budget::Unbounded => u64::MAX,
            Budget::Left(weight) => (weight / 2).max(1),
        },
    }
}
