//! The transport that calls a hub directly, without sockets.
ghost use Rattle.std.specs.Prelude.{◌≡◌, Some, Result};
ghost use Rattle.relay_hub.specs.Call.{opening, not_served, receiving, drawing};
ghost use Rattle.relay_script.specs.Transport.{outcome_of};

use crate::outcome::Outcome;
use crate::transport::Transport;
use bytes::ByteStr;
use relay_access::Access;
use relay_hub::{Answer, Heard, Hub, HubFault, NoSession, OpenFault, Opening, Text};
use relay_tree::Tree;
use std::alloc::{AllocError, Global};

impl Transport for Hub {
    ghost use Rattle.relay_script.specs.Transport.{HubComes, HubTells};

    ghost comes = { HubComes };

    ghost tells = { HubTells };

    fn open_session(
        &mut self,
        alloc: Global,
        room: &str,
        access: Access,
    ) -> Result<Outcome, AllocError> {
        Ok(opened(self.open(alloc, room, access)))
    }

    fn say(&mut self, alloc: Global, session: u64, text: &str) -> Result<Outcome, AllocError> {
        Ok(heard(self.receive(alloc, session, text)))
    }

    fn draw_one(&mut self, alloc: Global, session: u64) -> Result<Outcome, AllocError> {
        Ok(drawn(self.draw(alloc, session)))
    }

    fn close_session(&mut self, _: Global, session: u64) -> Result<Outcome, AllocError> {
        let answer = match self.close(session) {
            Ok(()) => Answer::Closed,
            Err(NoSession) => Answer::NoSession,
        };
        Ok(Outcome::Answered(answer))
    }

    fn do_one_will(&mut self, alloc: Global) -> Result<Outcome, AllocError> {
        Ok(Outcome::of_will(self.do_will(alloc)))
    }

    fn truth_of(&self, alloc: Global, session: u64) -> Result<Option<(u64, Tree)>, HubFault> {
        self.truth(alloc, session)
    }
}

fn opened(opened: Result<Opening, OpenFault>) -> Outcome
    ensures { result ≡ outcome_of (opening opened) }
{
    match opened {
        Ok(opening) => Outcome::Answered(Answer::Opened(opening)),
        Err(OpenFault::NoMemory) => Outcome::NoMemory,
        Err(fault) => Outcome::Answered(Answer::NotOpened(fault)),
    }
}

fn heard(heard: Result<Heard, HubFault>) -> Outcome
    ensures { result ≡ outcome_of (receiving heard) }
{
    match heard {
        Ok(heard) => Outcome::Answered(Answer::Heard(heard)),
        Err(fault) => not_served(fault),
    }
}

fn drawn(drawn: Result<Option<ByteStr>, HubFault>) -> Outcome
    ensures { result ≡ outcome_of (drawing drawn) }
{
    match drawn {
        Ok(text) => Outcome::Answered(Answer::Drawn(text.map(Text::shared))),
        Err(fault) => not_served(fault),
    }
}

fn not_served(fault: HubFault) -> Outcome
    ensures { result ≡ outcome_of (not_served fault) }
{
    match fault {
        HubFault::NoSession => Outcome::Answered(Answer::NoSession),
        HubFault::NoMemory => Outcome::NoMemory,
    }
}
