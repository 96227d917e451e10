//! The exit status of the program.
ghost use Rattle.std.specs.Prelude.{◌≡◌, Err};
ghost use Rattle.relay_script.specs.Lines.{AppendsPart};
ghost use Rattle.relay_server.specs.Complaints.{complaint, Complains};
ghost use Rattle.relay_server.specs.Jobs.{code_of, status_of};

use relay_script::{ScriptFault, write_whole};
use std::io::Write;

/// The exit statuses of the program.
///
/// ```
/// let mut errors = Vec::new(alloc);
/// assert!(rt; report(Ok(()), &mut errors) == Status::Done);
/// assert!(rt; report(Err(ScriptFault::BadLimit), &mut errors) == Status::Misused);
/// ```
#[derive(Clone, Copy, Debug, PartialEq, Eq)]
pub enum Status {
    /// 0: all was done.
    Done,
    /// 1: a fault of input, output, a line, a port or sockets.
    Failed,
    /// 2: a fault of the arguments.
    Misused,
    /// 3: out of memory.
    NoMemory,
    /// 4: a store keeps no room of the name that was asked for.
    NoRoom,
}

impl Status {
    /// The exit code of the process.
    ///
    /// ```
    /// assert!(rt; Status::Done.code() == 0 && Status::Failed.code() == 1);
    /// assert!(rt; Status::Misused.code() == 2 && Status::NoMemory.code() == 3);
    /// assert!(rt; Status::NoRoom.code() == 4);
    /// ```
    pub fn code(self) -> u8
        ensures { result ≡ code_of self }
    {
        match self {
            Status::Done => 0,
            Status::Failed => 1,
            Status::Misused => 2,
            Status::NoMemory => 3,
            Status::NoRoom => 4,
        }
    }
}

/// Reports on `errors` why a script ended early, and returns its status.
///
/// ```
/// let mut errors = Vec::new(alloc);
/// assert!(rt; report(Err(ScriptFault::TooManyLines), &mut errors) == Status::Failed);
/// assert!(rt; !errors.is_empty());
/// ```
pub fn report<E: Write>(ended: Result<(), ScriptFault>, errors: &mut E) -> Status
    ensures status { result ≡ status_of ended }
    ensures says { Complains ended (E.contents errors.old) (E.contents errors.new) }
{
    if let Err(fault) = ended {
        say(complaint(fault), errors);
    }
    status_of(ended)
}

fn status_of(ended: Result<(), ScriptFault>) -> Status
    ensures { result ≡ status_of ended }
{
    match ended {
        Ok(()) => Status::Done,
        Err(fault) => fault_status(fault),
    }
}

fn fault_status(fault: ScriptFault) -> Status
    ensures { result ≡ status_of (Err fault) }
{
    match fault {
        ScriptFault::BadLimit => Status::Misused,
        ScriptFault::NoMemory => Status::NoMemory,
        ScriptFault::Input
        | ScriptFault::Output
        | ScriptFault::LineTooLong
        | ScriptFault::TooManyLines => Status::Failed,
    }
}

/// The text about a fault for standard error.
pub(crate) fn complaint(fault: ScriptFault) -> &'static str
    ensures { result.now ≡ complaint fault }
{
    match fault {
        ScriptFault::BadLimit => "relay: a limit out of range\n",
        ScriptFault::Input => "relay: input\n",
        ScriptFault::Output => "relay: output\n",
        ScriptFault::LineTooLong => "relay: line too long\n",
        ScriptFault::TooManyLines => "relay: too many lines\n",
        ScriptFault::NoMemory => "relay: no memory\n",
    }
}

/// Writes a text to `errors`. A fault of that writer is ignored: there is nowhere to report it.
#[tactic(auto, using(crate::proofs::ServeLemmas::part_whole))]
pub fn say<E: Write>(text: &str, errors: &mut E)
    ensures { AppendsPart (E.contents errors.old) (E.contents errors.new) text.now }
{
    let _ = write_whole(errors, text.as_bytes());
}
