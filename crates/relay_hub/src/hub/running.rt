//! Events of a hub, carried out in order.
ghost use Rattle.std.specs.Prelude.{◌≡◌, ◌<◌, ◌⊎◌, None, IfOk, IfErr, OnErr, length};
ghost use Rattle.relay_hub.specs.Call.{done, followed, Runs};
ghost use Rattle.relay_hub.specs.Log.{Log};
ghost use Rattle.relay_hub.specs.Memory.{TakesMemory, LacksMemory};
ghost use Rattle.relay_hub.specs.Stands.{StandsFor, EachHoldsPresent, EachIsAtNamed};
ghost use Rattle.relay_hub.specs.Step.{Step, adopt_fault};
ghost use Rattle.relay_hub.specs.declared.config.HubConfig.{HubConfig};
ghost use Rattle.relay_hub.specs.declared.event.Event.TheVariants.{Adopt};

use super::Hub;
use crate::event::{Answer, Event};
use crate::fault::{AdoptFault, ForgetFault, HubFault, NoSession, OpenFault, RunFault};
use crate::text::Text;
use relay_tree::Tree;
use std::alloc::{AllocError, Global};

impl Hub {
    /// Carries out events, in order. The space for all answers is allocated before the first event.
    /// If memory runs out the run stops: the events of the fault's answers were done, and the next
    /// one, which takes memory, changed nothing. Either way each client that watches, and applies
    /// what was drawn for it and what waits, in order, holds exactly its view of the present
    /// document, and after each of these messages its view of the revision that the message names.
    ///
    /// ```
    /// let mut hub = Hub::new(alloc, 1, 1, 64, 32).ok()?;
    /// let room = Text::of(String::from_str(alloc, "board").ok()?);
    /// let events = [
    ///     Event::Open { room, access: Access::ReadWrite },
    ///     Event::Draw { session: 1 },
    ///     Event::Close { session: 1 },
    ///     Event::Close { session: 1 },
    /// ];
    /// let answers = hub.run(alloc, events.as_slice()).ok()?;
    /// assert!(rt; matches!(&answers[0], Answer::Opened(_)));
    /// assert!(rt; matches!(&answers[3], Answer::NoSession));
    /// ```
    pub fn run(&mut self, alloc: Global, events: &[Event]) -> Result<Vec<Answer>, RunFault>
        ensures steps { IfOk result (λ answers. Runs self.old events.now answers.items self.new) }
        ensures all { IfOk result (λ answers. length answers.items ≡ length events.now) }
        ensures stopped { IfErr result (λ fault.
            Runs self.old events.now fault.answers.items self.new) }
        ensures before { IfErr result (λ fault. (length events.now ≡ 0)
            ⊎ (length fault.answers.items < length events.now)) }
        ensures no_memory { IfErr result (λ fault.
            LacksMemory events.now fault.answers.items self.new) }
        ensures stands { (b : HubConfig) (E : Log) → StandsFor b E self.old
            → StandsFor b (followed E events.now (done result)) self.new }
        ensures exact { (b : HubConfig) (E : Log) → StandsFor b E self.old
            → EachHoldsPresent b (followed E events.now (done result)) self.new }
        ensures each { (b : HubConfig) (E : Log) → StandsFor b E self.old
            → EachIsAtNamed b (followed E events.now (done result)) self.new }
    {
        let Ok(mut answers) = Vec::with_capacity(alloc, events.len()) else {
            return Err(RunFault {
                answers: Vec::new(alloc),
            });
        };
        for event in events {
            match self.carry_out(alloc, event) {
                Ok(answer) => answers.push_reserved(answer),
                Err(_) => return Err(RunFault { answers }),
            }
        }
        Ok(answers)
    }

    /// Carries out one event.
    fn carry_out(&mut self, alloc: Global, event: &Event) -> Result<Answer, AllocError>
        ensures ok { IfOk result (λ answer. Step self.old event.now answer self.new) }
        ensures err { OnErr result (self.new ≡ self.old) }
        ensures no_memory { OnErr result (TakesMemory self.old event.now) }
    {
        match event {
            Event::Open { room, access } => match self.open(alloc, room.as_str(), *access) {
                Ok(opening) => Ok(Answer::Opened(opening)),
                Err(OpenFault::NoMemory) => Err(AllocError),
                Err(fault) => Ok(Answer::NotOpened(fault)),
            },
            Event::Receive { session, text } => match self.receive(alloc, *session, text.as_str()) {
                Ok(heard) => Ok(Answer::Heard(heard)),
                Err(HubFault::NoSession) => Ok(Answer::NoSession),
                Err(HubFault::NoMemory) => Err(AllocError),
            },
            Event::Draw { session } => match self.draw(alloc, *session) {
                Ok(text) => Ok(Answer::Drawn(text.map(Text::shared))),
                Err(HubFault::NoSession) => Ok(Answer::NoSession),
                Err(HubFault::NoMemory) => Err(AllocError),
            },
            Event::Close { session } => match self.close(*session) {
                Ok(()) => Ok(Answer::Closed),
                Err(NoSession) => Ok(Answer::NoSession),
            },
            Event::DoWill => match self.do_will(alloc)? {
                Some(short) => Ok(Answer::WillDone { short }),
                None => Ok(Answer::NoWill),
            },
            Event::Forget { room } => match self.forget(alloc, room.as_str()) {
                Ok(rev) => Ok(Answer::Forgotten { rev }),
                Err(ForgetFault::NoMemory) => Err(AllocError),
                Err(fault) => Ok(Answer::NotForgotten(fault)),
            },
            Event::Adopt {
                room,
                rev,
                document,
            } => self.adopt_copy(alloc, room.as_str(), *rev, document),
            Event::RaiseFloor { rev } => {
                self.raise_floor(*rev);
                Ok(Answer::FloorRaised)
            }
        }
    }

    /// Has a room adopt a copy of a document. Memory is refused for the copy only if the room would
    /// adopt the document.
    fn adopt_copy(
        &mut self,
        alloc: Global,
        room: &str,
        rev: u64,
        document: &Tree,
    ) -> Result<Answer, AllocError>
        ensures ok { IfOk result (λ answer.
            Step self.old (Adopt room.now rev document.now) answer self.new) }
        ensures err { OnErr result (self.new ≡ self.old) }
        ensures no_memory { OnErr result (adopt_fault self.old room.now rev document.now ≡ None) }
    {
        let Ok(copy) = document.copy(alloc) else {
            return match self.adopt_fault(room, rev, document) {
                Some(fault) => Ok(Answer::NotAdopted(fault)),
                None => Err(AllocError),
            };
        };
        match self.adopt(alloc, room, rev, copy) {
            Ok(()) => Ok(Answer::Adopted),
            Err(AdoptFault::NoMemory) => Err(AllocError),
            Err(fault) => Ok(Answer::NotAdopted(fault)),
        }
    }
}
