//! The transport over loopback sockets: a hub, whose server and clients alternate in one thread.
ghost use Rattle.std.specs.Prelude.{◌≡◌, ◌↔◌, ◌⊎◌, [], IfOk, IfErr, IsErrOf};
ghost use Rattle.relay_hub.specs.Queries.{BadLimits};
ghost use Rattle.relay_hub.specs.Stands.{StandsFor};
ghost use Rattle.relay_loopback.specs.Loopback.{hub_of};
ghost use Rattle.relay_script.specs.declared.fault.ScriptFault.TheVariants as script;
ghost use Rattle.relay_loopback.specs.declared.fault.ServeFault.TheVariants.{Ended};
ghost use Rattle.relay_loopback.specs.Faults.{IsListen};

use crate::connection::Connection;
use crate::fault::ServeFault;
use crate::listener::{Entering, LoopbackListener};
use indexmap::IndexMap;
use relay_access::Access;
use relay_hub::{Answer, Hub, HubConfig, HubFault, Opening};
use relay_script::{Outcome, Transport};
use relay_tree::Tree;
use std::alloc::{AllocError, Global};
use std::net::Net;

/// A hub behind a listener, and both ends of each session's socket.
#[derive(Drop)]
pub struct Loopback<'n, N: Net> {
    listener: LoopbackListener<'n, N>,
    hub: Hub,
    connections: IndexMap<u64, Connection<N::Stream>>,
}

impl<'n, N: Net> Loopback<'n, N> {
    /// Creates a hub behind a port that the system chooses, with no sessions. Fails with `BadLimit`
    /// or `NoMemory` as [`Hub::with_config`] does, before a port is opened, and with
    /// [`ServeFault::Listen`] if no port can be.
    pub fn new(alloc: Global, net: &'n N, config: HubConfig) -> Result<Loopback<'n, N>, ServeFault>
        ensures stands { IfOk result (λ loopback. StandsFor config [] (hub_of loopback)) }
        ensures fault { IfErr result (λ fault. IsListen fault ⊎ (fault ≡ Ended script.NoMemory)
            ⊎ (fault ≡ Ended script.BadLimit)) }
        ensures bad_limit { IsErrOf result (Ended script.BadLimit) ↔ BadLimits config }
    {
        let hub = Hub::with_config(alloc, config)?;
        Ok(Loopback {
            listener: LoopbackListener::new(net)?,
            hub,
            connections: IndexMap::new(alloc),
        })
    }
}

impl<'n, N: Net> Transport for Loopback<'n, N> {
    ghost use Rattle.relay_loopback.specs.Loopback.{Comes, Tells};

    // No proof covers what a socket does. Tests show which of the outcomes comes that can.
    ghost comes = { Comes };

    ghost tells = { Tells };

    fn open_session(
        &mut self,
        alloc: Global,
        room: &str,
        access: Access,
    ) -> Result<Outcome, AllocError> {
        match self.listener.enter(alloc, &mut self.hub, room, access)? {
            Entering::Opened(connection) => {
                let session = connection.session;
                drop(self.connections.insert(session, connection)?);
                let opening = opening_of(&self.hub, session);
                Ok(Outcome::Answered(Answer::Opened(opening)))
            }
            Entering::Rejected(status) => Ok(Outcome::Rejected(status)),
            Entering::Stuck => Ok(Outcome::Stuck),
        }
    }

    fn say(&mut self, alloc: Global, session: u64, text: &str) -> Result<Outcome, AllocError> {
        match self.connections.get_mut(&session) {
            Some(connection) => connection.say(alloc, &mut self.hub, text),
            None => Ok(Outcome::Answered(Answer::NoSession)),
        }
    }

    fn draw_one(&mut self, alloc: Global, session: u64) -> Result<Outcome, AllocError> {
        match self.connections.get_mut(&session) {
            Some(connection) => connection.draw(alloc, &mut self.hub),
            None => Ok(Outcome::Answered(Answer::NoSession)),
        }
    }

    fn close_session(&mut self, alloc: Global, session: u64) -> Result<Outcome, AllocError> {
        let Some(connection) = self.connections.get_mut(&session) else {
            return Ok(Outcome::Answered(Answer::NoSession));
        };
        if !connection.close(alloc, &mut self.hub) {
            return Ok(Outcome::Stuck);
        }
        drop(self.connections.swap_remove(&session));
        Ok(Outcome::Answered(Answer::Closed))
    }

    fn do_one_will(&mut self, alloc: Global) -> Result<Outcome, AllocError> {
        Ok(Outcome::of_will(self.hub.do_will(alloc)))
    }

    fn truth_of(&self, alloc: Global, session: u64) -> Result<Option<(u64, Tree)>, HubFault> {
        self.hub.truth(alloc, session)
    }
}

/// The opening of a session. Nobody edits between the opening and this call, so its room is still
/// at the revision that it was opened at.
fn opening_of(hub: &Hub, session: u64) -> Opening {
    let room = hub.room_of(session).and_then(|index| hub.room_at(index));
    Opening {
        session,
        rev: room.map_or(0, |room| room.revision),
    }
}
