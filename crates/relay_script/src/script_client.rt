//! The client of one name of a script: its session, and the follower of the texts that it draws.
ghost use Rattle.std.specs.Prelude.{◌≡◌, ◌≢◌, IfOk, Some, None, string_bytes};
ghost use Rattle.relay_follow.specs.declared.fault.HearFault.TheVariants.{NoMemory};
ghost use Rattle.relay_script.specs.Line.{act_of};
ghost use Rattle.relay_script.specs.Script.{client, new_follower, Opens, DoesWill, Closes, Acts};
ghost use Rattle.relay_script.specs.Script.{Goes, Attends, DrawsAs};

use crate::line::Command;
use crate::outcome::Outcome;
use crate::retrying_follower::RetryingFollower;
use crate::transport::Transport;
use crate::words::Words;
use relay_access::Access;
use relay_follow::HearFault;
use relay_hub::Answer;
use std::alloc::AllocError;

#[derive(Drop)]
pub struct ScriptClient {
    /// The session, if one is open.
    pub session: Option<u64>,
    pub follower: RetryingFollower,
}

impl ScriptClient {
    /// The client of a name whose first session was just opened.
    pub fn new(session: u64) -> ScriptClient
        ensures { result ≡ client (Some session) new_follower }
    {
        ScriptClient {
            session: Some(session),
            follower: RetryingFollower::new(),
        }
    }

    /// Carries out a line's command. A kept text is applied again first.
    pub fn attend<T: Transport>(
        &mut self,
        words: &Words<'_>,
        transport: &mut T,
        command: Command<'_>,
    ) -> Result<String, AllocError>
        ensures { IfOk result (λ answer.
            Attends T.comes T.tells words.now.name.now (act_of command.entry) self.old transport.old
            self.new transport.new (string_bytes answer)) }
    {
        match self.follower.hear_again(words.alloc) {
            None => self.act(words, transport, command),
            Some(fault) => self.go_on(words, transport, command, fault),
        }
    }

    /// Answers with the follower's fault, then carries out the line's command. If the kept text is
    /// out of memory again, the command is skipped.
    fn go_on<T: Transport>(
        &mut self,
        words: &Words<'_>,
        transport: &mut T,
        command: Command<'_>,
        fault: HearFault,
    ) -> Result<String, AllocError>
        requires { fault ≢ NoMemory → self.old.follower.unheard ≡ None }
        ensures { IfOk result (λ answer.
            Goes T.comes T.tells words.now.name.now (act_of command.entry) (Some fault) self.old
            transport.old self.new transport.new (string_bytes answer)) }
    {
        match fault {
            HearFault::NoMemory => words.off(fault),
            _ => {
                let before = words.off(fault)?;
                let answer = self.act(words, transport, command)?;
                format!(in words.alloc; "{before}{answer}")
            }
        }
    }

    fn act<T: Transport>(
        &mut self,
        words: &Words<'_>,
        transport: &mut T,
        command: Command<'_>,
    ) -> Result<String, AllocError>
        requires { self.old.follower.unheard ≡ None }
        ensures { IfOk result (λ answer.
            Acts T.comes T.tells words.now.name.now (act_of command.entry) self.old transport.old
            self.new transport.new (string_bytes answer)) }
    {
        match (command, self.session) {
            (Command::Open { room, access }, _) => self.open(words, transport, room, access),
            (Command::Held, _) => words.held(&self.follower.follower),
            (_, None) => words.unknown(),
            (Command::Say(text), Some(session)) => {
                let outcome = transport.say(words.alloc, session, text)?;
                words.outcome(&outcome)
            }
            (Command::Draw, Some(session)) => {
                let outcome = transport.draw_one(words.alloc, session)?;
                self.drawn(words, outcome)
            }
            (Command::Close, Some(session)) => self.close(words, transport, session),
            (Command::Truth, Some(session)) => {
                let shown = transport.truth_of(words.alloc, session);
                words.shown(shown)
            }
        }
    }

    /// Opens a session, if the name has none.
    fn open<T: Transport>(
        &mut self,
        words: &Words<'_>,
        transport: &mut T,
        room: &str,
        access: Access,
    ) -> Result<String, AllocError>
        ensures { IfOk result (λ answer.
            Opens T.comes words.now.name.now room.now access self.old.session self.old
            transport.old self.new transport.new (string_bytes answer)) }
    {
        if self.session.is_some() {
            return words.taken();
        }
        let outcome = transport.open_session(words.alloc, room, access)?;
        self.session = outcome.session_after(None);
        words.outcome(&outcome)
    }

    /// Answers with the outcome of a draw, and applies a drawn text to the follower.
    fn drawn(&mut self, words: &Words<'_>, outcome: Outcome) -> Result<String, AllocError>
        requires { self.old.follower.unheard ≡ None }
        ensures { IfOk result (λ answer.
            DrawsAs words.now.name.now outcome self.old self.new (string_bytes answer)) }
    {
        let answer = words.outcome(&outcome)?;
        let Outcome::Answered(Answer::Drawn(Some(text))) = outcome else {
            return Ok(answer);
        };
        let fault = self.follower.hear(words.alloc, text);
        let after = words.after_hearing(fault)?;
        format!(in words.alloc; "{answer}{after}")
    }

    /// Closes `session`, which is the name's session, and does its will.
    fn close<T: Transport>(
        &mut self,
        words: &Words<'_>,
        transport: &mut T,
        session: u64,
    ) -> Result<String, AllocError>
        ensures { IfOk result (λ answer. Closes T.comes words.now.name.now session
            self.old transport.old self.new transport.new (string_bytes answer)) }
    {
        let outcome = transport.close_session(words.alloc, session)?;
        self.session = outcome.session_after(Some(session));
        let answer = words.outcome(&outcome)?;
        let after = do_will(words, transport, &outcome)?;
        format!(in words.alloc; "{answer}{after}")
    }
}

/// Does the will of a session, if this outcome closed it. Returns its line, which is empty unless
/// memory ran out.
fn do_will<T: Transport>(
    words: &Words<'_>,
    transport: &mut T,
    outcome: &Outcome,
) -> Result<String, AllocError>
    ensures { IfOk result (λ rest. DoesWill T.comes words.now.name.now outcome.now
        transport.old transport.new (string_bytes rest)) }
{
    match outcome {
        Outcome::Answered(Answer::Closed) => {
            let will = transport.do_one_will(words.alloc)?;
            words.after_will(&will)
        }
        _ => Ok(String::new(words.alloc)),
    }
}
