//! The clients that may come in.
ghost use Rattle.std.specs.Prelude.{◌≡◌};
ghost use Rattle.relay_event_loop.specs.Advances.{KeepsFewer};
ghost use Rattle.relay_event_loop.specs.Connections.{connections_of, entrance_of, hub_of, limit_of};
ghost use Rattle.relay_event_loop.specs.Connections.{made_by, origins_of, peer_limit_of};
ghost use Rattle.relay_event_loop.specs.Limits.{forgets_rooms, output_limit_of};
ghost use Rattle.relay_event_loop.specs.Rounds.{RoundsOf};

use super::Server;
use crate::connection_log::ConnectionLog;
use relay_link::{EndCause, Entrance, EntranceFault};
use relay_operator::Admission;
use relay_readiness::Readiness;
use std::alloc::Global;
use std::io::{Read, Write};
use std::net::OpenStream;

impl<S: Read + Write + OpenStream + Drop, R: Readiness<S>> Server<S, R> {
    /// From now on clients may enter these rooms, and no others: a valid handshake for another one
    /// is answered 503, with `Retry-After: 1`, and opens no session. Sessions that are open stay,
    /// and are served as ever. A new server lets clients into each room.
    ///
    /// ```
    /// let (wire, script) = (Wire::new(alloc), ReadinessScript::new(alloc));
    /// let listener = MemoryListener::new(alloc);
    /// let hub = Hub::new(alloc, 1, 1, 64, 32).ok()?;
    /// let mut server = Server::new(alloc, hub, ScriptedReadiness::of(&script), 1_000_000);
    /// server.set_entrance(Entrance::closed(alloc));
    /// wire.try_borrow_mut().ok()?.perform(alloc, "asks 13 /rooms/a").ok()?;
    /// listener.add(&wire)?;
    /// server.round(alloc, &listener, &mut NotKept, &mut NoLog);
    /// assert!(rt; wire.try_borrow_mut().ok()?.output.as_slice().starts_with(b"HTTP/1.1 503 "));
    /// ```
    #[tactic(auto, using(crate::proofs::Rules::rounds))]
    pub fn set_entrance(&mut self, entrance: Entrance)
        ensures entrance { entrance_of self.new ≡ entrance }
        ensures origins { origins_of self.new ≡ origins_of self.old }
        ensures per_peer { peer_limit_of self.new ≡ peer_limit_of self.old }
        ensures hub { hub_of self.new ≡ hub_of self.old }
        ensures limit { limit_of self.new ≡ limit_of self.old }
        ensures made { made_by self.new ≡ made_by self.old }
        ensures connections { connections_of self.new ≡ connections_of self.old }
        ensures forgets { forgets_rooms self.new ≡ forgets_rooms self.old }
        ensures output { output_limit_of self.new ≡ output_limit_of self.old }
        ensures rounds { RoundsOf S.remaining S.contents self.old self.new }
    {
        self.rules.entrance = entrance;
        self.wanted.clear();
    }

    /// From now on the pages of these origins may come in, and of no others: their handshakes are
    /// answered 403 (RFC 6455, section 10.2). A client that names no origin is no page, and may.
    /// Without an origin the pages of all may, as in a new server.
    ///
    /// ```
    /// let (wire, script) = (Wire::new(alloc), ReadinessScript::new(alloc));
    /// let listener = MemoryListener::new(alloc);
    /// let hub = Hub::new(alloc, 1, 1, 64, 32).ok()?;
    /// let mut server = Server::new(alloc, hub, ScriptedReadiness::of(&script), 1_000_000);
    /// let mut origins = Vec::new(alloc);
    /// origins.push(String::from_str(alloc, "https://example.org").ok()?).ok()?;
    /// server.set_origins(origins);
    /// wire.try_borrow_mut().ok()?.perform(alloc, "asks 13 /rooms/a").ok()?;
    /// listener.add(&wire)?;
    /// server.round(alloc, &listener, &mut NotKept, &mut NoLog);
    /// // This client is no page.
    /// assert!(rt; wire.try_borrow_mut().ok()?.output.as_slice().starts_with(b"HTTP/1.1 101 "));
    /// ```
    #[tactic(auto, using(crate::proofs::Rules::rounds))]
    pub fn set_origins(&mut self, origins: Vec<String>)
        ensures origins { origins_of self.new ≡ origins.items }
        ensures entrance { entrance_of self.new ≡ entrance_of self.old }
        ensures per_peer { peer_limit_of self.new ≡ peer_limit_of self.old }
        ensures hub { hub_of self.new ≡ hub_of self.old }
        ensures limit { limit_of self.new ≡ limit_of self.old }
        ensures made { made_by self.new ≡ made_by self.old }
        ensures connections { connections_of self.new ≡ connections_of self.old }
        ensures forgets { forgets_rooms self.new ≡ forgets_rooms self.old }
        ensures output { output_limit_of self.new ≡ output_limit_of self.old }
        ensures rounds { RoundsOf S.remaining S.contents self.old self.new }
    {
        self.rules.origins = origins;
    }

    /// From now on a connection is closed as it comes, if so many are held of its address. Those
    /// that are held stay. A new server has no such limit.
    ///
    /// ```
    /// let (first, second) = (Wire::new(alloc), Wire::new(alloc));
    /// let script = ReadinessScript::new(alloc);
    /// let listener = MemoryListener::new(alloc);
    /// let hub = Hub::new(alloc, 1, 2, 64, 32).ok()?;
    /// let mut server = Server::new(alloc, hub, ScriptedReadiness::of(&script), 1_000_000);
    /// server.set_per_peer(1);
    /// listener.add(&first)?;
    /// listener.add(&second)?;
    /// server.round(alloc, &listener, &mut NotKept, &mut NoLog);
    /// assert!(rt; server.connections() == 1);
    /// ```
    #[tactic(auto, using(crate::proofs::Rules::rounds))]
    pub fn set_per_peer(&mut self, most: u64)
        ensures per_peer { peer_limit_of self.new ≡ most }
        ensures entrance { entrance_of self.new ≡ entrance_of self.old }
        ensures origins { origins_of self.new ≡ origins_of self.old }
        ensures hub { hub_of self.new ≡ hub_of self.old }
        ensures limit { limit_of self.new ≡ limit_of self.old }
        ensures made { made_by self.new ≡ made_by self.old }
        ensures connections { connections_of self.new ≡ connections_of self.old }
        ensures forgets { forgets_rooms self.new ≡ forgets_rooms self.old }
        ensures output { output_limit_of self.new ≡ output_limit_of self.old }
        ensures rounds { RoundsOf S.remaining S.contents self.old self.new }
    {
        self.max_per_peer = most;
    }

    /// Lets clients into a room, or keeps them out of it, as an operator asks. Who is in a room
    /// that is closed is ended.
    #[tactic(auto, using(crate::proofs::Rules::advances))]
    pub(super) fn admit<J: ConnectionLog>(
        &mut self,
        alloc: Global,
        asked: Admission<'_>,
        log: &mut J,
    ) -> Result<(), EntranceFault>
        ensures { KeepsFewer S.remaining S.contents self.old self.new }
    {
        match asked {
            Admission::Open(room) => self.open_room(alloc, room),
            Admission::Close(room) => {
                self.close_room(room)?;
                self.end_those_in(alloc, room, log);
                Ok(())
            }
        }
    }

    /// Lets clients into a room. As many can be open as the hub may have.
    #[tactic(auto, using(crate::proofs::Rules::advances))]
    fn open_room(&mut self, alloc: Global, room: &str) -> Result<(), EntranceFault>
        ensures { KeepsFewer S.remaining S.contents self.old self.new }
    {
        self.rules
            .entrance
            .admit(alloc, room, self.hub.config().rooms)?;
        self.wanted.remove(room);
        Ok(())
    }

    /// Keeps clients out of a room, and forgets that any were turned away from it.
    #[tactic(auto, using(crate::proofs::Rules::advances))]
    fn close_room(&mut self, room: &str) -> Result<(), EntranceFault>
        ensures { KeepsFewer S.remaining S.contents self.old self.new }
    {
        self.rules.entrance.exclude(room)?;
        self.wanted.remove(room);
        Ok(())
    }

    /// Ends each connection whose session is in a room.
    #[tactic(auto, using(crate::proofs::Rules::advances))]
    fn end_those_in<J: ConnectionLog>(&mut self, alloc: Global, room: &str, log: &mut J)
        ensures { KeepsFewer S.remaining S.contents self.old self.new }
    {
        for key in 0..self.key_limit() {
            if self.is_in(key, room) {
                self.end_link(alloc, key, EndCause::Ended, log);
            }
        }
    }

    /// True if a connection has a session in a room.
    fn is_in(&self, key: usize, room: &str) -> bool {
        match self.connections.get(key) {
            Some(connection) => {
                !connection.has_no_session()
                    && matches!(connection.opened(), Some(opened) if opened.room == room)
            }
            None => false,
        }
    }
}
