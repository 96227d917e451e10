//! A script: the state that answers its lines by calls of a transport.
ghost use Rattle.std.specs.Prelude.{◌≡◌, [], Some, IfOk, OnOk, string_bytes};
ghost use Rattle.relay_script.specs.Representation.{clients_of, stage_of};
ghost use Rattle.relay_script.specs.Line.{act_of, opens};
ghost use Rattle.relay_script.specs.Script.{stage, client, new_follower, Answers, OnlyName};
ghost use Rattle.relay_script.specs.Script.{ActsNamed, ActsNew, client_of};

use crate::line::{Command, Line, line_of};
use crate::respond::Respond;
use crate::script_client::ScriptClient;
use crate::transport::Transport;
use crate::words::{Words, unknown_form};
use indexmap::IndexMap;
use relay_access::Access;
use std::alloc::{AllocError, Global};

/// The number of the first session, in a script and in a server.
pub const FIRST_SESSION: u64 = 1;

/// A transport, and the client of each name of the script.
///
/// ```
/// let mut script = Script::new(alloc, Hub::new(alloc, 1, FIRST_SESSION, 64, 32).ok()?);
/// let opened = script.respond(alloc, 1, "ann open board".as_bytes()).ok()?;
/// assert!(rt; opened.as_str() == "ann opened 1\n");
/// let held = script.respond(alloc, 2, "ann held".as_bytes()).ok()?;
/// assert!(rt; held.as_str() == "ann held nothing\n");
/// ```
#[derive(Drop)]
pub struct Script<T: Transport + Drop> {
    transport: T,
    clients: IndexMap<String, ScriptClient>,
}

impl<T: Transport + Drop> Script<T> {
    /// A script of which no name was opened yet. Allocates nothing.
    ///
    /// ```
    /// let mut script = Script::new(alloc, Hub::new(alloc, 1, FIRST_SESSION, 64, 32).ok()?);
    /// let answer = script.respond(alloc, 1, "ann draw".as_bytes()).ok()?;
    /// assert!(rt; answer.as_str() == "ann unknown\n");
    /// ```
    pub fn new(alloc: Global, transport: T) -> Script<T>
        ensures { stage_of result ≡ stage transport [] }
    {
        Script {
            transport,
            clients: IndexMap::new(alloc),
        }
    }

    /// Carries out the command for a name.
    fn answer_name(&mut self, words: &Words<'_>, command: Command<'_>) -> Result<String, AllocError>
        ensures { IfOk result (λ answer.
            ActsNamed T.comes T.tells words.now.name.now (act_of command.entry)
            (client_of (clients_of self.old.clients) words.now.name.now) (stage_of self.old)
            (stage_of self.new) (string_bytes answer)) }
    {
        match self.clients.get_mut(words.name) {
            Some(client) => client.attend(words, &mut self.transport, command),
            None => self.begin(words, command),
        }
    }

    /// Carries out the command for a name that was never opened. Any command but `open` is answered
    /// `unknown`.
    fn begin(&mut self, words: &Words<'_>, command: Command<'_>) -> Result<String, AllocError>
        ensures { IfOk result (λ answer.
            ActsNew T.comes words.now.name.now (act_of command.entry) (stage_of self.old)
            (stage_of self.new) (string_bytes answer)) }
    {
        match command {
            Command::Open { room, access } => open_first(
                words,
                &mut self.transport,
                &mut self.clients,
                room,
                access,
            ),
            _ => words.unknown(),
        }
    }
}

impl<T: Transport + Drop> Respond for Script<T> {
    ghost answers = { λ old number line new answer.
        Answers T.comes T.tells (stage_of old) number line (stage_of new) answer };

    fn respond(&mut self, alloc: Global, number: u32, line: &[u8]) -> Result<String, AllocError> {
        match line_of(line) {
            Line::Blank => Ok(String::new(alloc)),
            Line::Unknown => unknown_form(alloc, number),
            Line::Named { name, command } => self.answer_name(&Words { alloc, name }, command),
        }
    }
}

/// Opens the first session of a name.
fn open_first<T: Transport>(
    words: &Words<'_>,
    transport: &mut T,
    clients: &mut IndexMap<String, ScriptClient>,
    room: &str,
    access: Access,
) -> Result<String, AllocError>
    ensures { IfOk result (λ answer.
        ActsNew T.comes words.now.name.now (opens room.now access)
        (stage transport.old (clients_of clients.old))
        (stage transport.new (clients_of clients.new)) (string_bytes answer)) }
{
    let outcome = transport.open_session(words.alloc, room, access)?;
    if let Some(session) = outcome.session_after(None) {
        add(clients, words, session)?;
    }
    words.last_outcome(outcome)
}

/// Adds a name whose first session was just opened.
fn add(
    clients: &mut IndexMap<String, ScriptClient>,
    words: &Words<'_>,
    session: u64,
) -> Result<(), AllocError>
    ensures { OnOk result (OnlyName words.now.name.now (client (Some session) new_follower)
        (clients_of clients.old) (clients_of clients.new)) }
{
    let known = String::from_str(words.alloc, words.name)?;
    drop(clients.insert(known, ScriptClient::new(session))?);
    Ok(())
}
