//! A connection to the admin port: one request, one response.
ghost use Rattle.std.specs.Prelude.{◌≡◌, [], is_some, IfErr, IfOk, OnOk};
ghost use Rattle.std.specs.Io.KnownBytes.{IsAtEnd};
ghost use Rattle.std.specs.IoError.{error_kind};
ghost use Rattle.relay_operator.specs.Connection.{ChangesIfMoved, HearsSo, IsFresh, Receives};
ghost use Rattle.relay_operator.specs.Connection.{SameButStream, Sends};
ghost use Rattle.relay_operator.specs.Connection.{Tells, Turns, Waits, answered, moved_after};
ghost use Rattle.relay_operator.specs.Connection.{unsent};

use crate::request_buffer::RequestBuffer;
use relay_admin::{Ask, MAX_HEAD};
use std::alloc::{AllocError, Global};
use std::io::{Error, ErrorKind, Read, Write};
use std::net::{OpenStream, Shutdown};

/// The maximum number of bytes that one read takes.
const READ: usize = 1_024;

/// The number of reads that are enough for a head that is too long.
const READS: usize = MAX_HEAD / READ + 1;

/// The maximum number of reads of a body that a turn makes.
const BODY_READS: usize = 128;

/// The maximum number of times that a turn tries to write.
const WRITES: u32 = 64;

/// A stream, what was received on it, and its response once there is one.
#[derive(Drop)]
pub(crate) struct AdminConnection<S> {
    stream: S,
    pub(crate) request: RequestBuffer,
    reply: Option<String>,
    /// The number of bytes of the response that were sent.
    sent: usize,
    /// True if the stream was shut for writing. Each further call would be another event of it.
    is_shut: bool,
}

/// The work that a connection's turn found.
#[derive(Clone, Copy, Debug, PartialEq, Eq)]
pub(crate) enum Found {
    /// Nothing to do until the next event.
    Nothing,
    /// More to do at once.
    More,
    /// The connection is over.
    Over,
}

/// The result of a connection's turn.
#[derive(Drop)]
pub(crate) enum Heard {
    /// The work that the turn found. Nothing is to be answered now.
    Found(Found),
    /// The answer to what was received, which asks nothing of a room that can be.
    Answer(Ask),
}

/// The result of one read or one write.
#[derive(Clone, Copy, Debug, PartialEq, Eq)]
pub(crate) enum Moved {
    /// So many bytes were moved, one or more.
    Bytes(usize),
    /// None can be moved now.
    Nothing,
    /// The call was interrupted, and may be made again.
    Again,
    /// There are none left to move: the stream has no more to give, or all was sent.
    Done,
    /// The stream failed.
    Failed,
}

impl<S: Read + Write + OpenStream + Drop> AdminConnection<S> {
    pub(crate) fn new(alloc: Global, stream: S) -> AdminConnection<S>
        ensures { IsFresh stream result }
    {
        AdminConnection {
            stream,
            request: RequestBuffer::new(alloc),
            reply: None,
            sent: 0,
            is_shut: false,
        }
    }

    /// True if it has its response.
    fn is_answered(&self) -> bool
        ensures { result ≡ is_some self.now.reply }
    {
        self.reply.is_some()
    }

    /// Gives it its response, of which nothing was sent.
    pub(crate) fn answer(&mut self, reply: String)
        ensures { self.new ≡ answered reply self.old }
    {
        self.request.clear_asked();
        self.reply = Some(reply);
        self.sent = 0;
    }

    /// Gives it a turn: sends what is left of its response; or reads the rest of an edit's body; or
    /// reads its request. One whose request waits for what comes of it stays as it is.
    pub(crate) fn turn(&mut self, alloc: Global) -> Result<Heard, AllocError>
        ensures turns { IfOk result
            (λ heard. Turns S.remaining S.contents heard self.old self.new) }
        // No memory is needed then.
        ensures waits { IfErr result (λ fault. Waits self.old → ⊥) }
    {
        if self.is_answered() {
            return Ok(Heard::Found(self.tell()));
        }
        if self.request.asked().is_some() {
            return Ok(Heard::Found(Found::Nothing));
        }
        match self.request.missing_body() {
            Some(missing) => Ok(Heard::Found(self.read_body(missing)?)),
            None => self.hear(alloc),
        }
    }

    /// Reads the rest of an edit's body, as much as is there, and no more than a turn may. `Over`
    /// if the stream is over or failed.
    #[tactic(auto, using(crate::proofs::Moving::receives_same, crate::proofs::Moving::receives_then))]
    fn read_body(&mut self, most: usize) -> Result<Found, AllocError>
        ensures { OnOk result (Receives S.remaining self.old self.new) }
    {
        let mut missing = most;
        for _read in 0..BODY_READS {
            if missing == 0 {
                return Ok(Found::Nothing);
            }
            match self.receive()? {
                Moved::Bytes(len) => missing = missing.saturating_sub(len),
                Moved::Nothing => return Ok(Found::Nothing),
                Moved::Again => {}
                Moved::Done | Moved::Failed => return Ok(Found::Over),
            }
        }
        Ok(Found::More)
    }

    /// Reads until the bytes received say what is asked, or no more are there. `Over` if the stream
    /// is over or failed.
    #[tactic(auto, using(crate::proofs::Moving::receives_same, crate::proofs::Moving::receives_then))]
    fn hear(&mut self, alloc: Global) -> Result<Heard, AllocError>
        ensures { IfOk result (λ heard. HearsSo S.remaining heard self.old self.new) }
    {
        for _read in 0..READS {
            match self.receive()? {
                Moved::Bytes(_) => match self.request.ask(alloc)? {
                    Some(Ask::More) => {}
                    Some(answer) => return Ok(Heard::Answer(answer)),
                    None => return Ok(Heard::Found(self.work_behind_head())),
                },
                Moved::Nothing => return Ok(Heard::Found(Found::Nothing)),
                Moved::Again => {}
                Moved::Done | Moved::Failed => return Ok(Heard::Found(Found::Over)),
            }
        }
        Ok(Heard::Found(Found::Nothing))
    }

    /// The work that a new request for a room leaves. Of an edit, the body may have come with the
    /// head.
    fn work_behind_head(&self) -> Found {
        match self.request.missing_body() {
            Some(_) => Found::More,
            None => Found::Nothing,
        }
    }

    /// Reads once. Without memory what was read is lost.
    #[tactic(auto, using(crate::proofs::Moving::receives_same, crate::proofs::Moving::changes_not))]
    fn receive(&mut self) -> Result<Moved, AllocError>
        ensures receives { OnOk result (Receives S.remaining self.old self.new) }
        ensures changes { IfOk result
            (λ moved. ChangesIfMoved moved self.old.request self.new.request) }
        ensures done { IfOk result
            (λ moved. moved ≡ Moved.Done → IsAtEnd (S.remaining self.new.stream)) }
    {
        let mut bytes = [0; READ];
        match self.stream.read(&mut bytes) {
            Ok(0) => Ok(Moved::Done),
            Ok(len) => {
                self.request.extend(&bytes[..len])?;
                Ok(Moved::Bytes(len))
            }
            Err(error) => Ok(after(&error)),
        }
    }

    /// Sends what is left of the response, and then waits for the other side to close, dropping
    /// what it still sends.
    #[tactic(auto, using(crate::proofs::Moving::tells_more, crate::proofs::Moving::tells_all))]
    pub(crate) fn tell(&mut self) -> Found
        ensures { Tells S.contents self.old self.new }
    {
        match self.send() {
            Moved::Done => self.drain(),
            Moved::Nothing => Found::Nothing,
            Moved::Bytes(_) | Moved::Again => Found::More,
            Moved::Failed => Found::Over,
        }
    }

    /// Sends what is left of the response, by as many writes as a turn may make. `Done` if all was
    /// sent.
    #[tactic(auto, using(crate::proofs::Moving::sends_same, crate::proofs::Moving::sends_then))]
    fn send(&mut self) -> Moved
        ensures sends { Sends S.contents self.old self.new }
        ensures done { result ≡ Moved.Done → unsent self.new ≡ [] }
    {
        for _write in 0..WRITES {
            match self.send_once() {
                Moved::Bytes(_) | Moved::Again => {}
                moved => return moved,
            }
        }
        Moved::Again
    }

    /// Writes once what is left of the response. `Done` if nothing is.
    #[tactic(auto, using(crate::proofs::Moving::sends_same, crate::proofs::Moving::sends_more))]
    fn send_once(&mut self) -> Moved
        ensures sends { Sends S.contents self.old self.new }
        ensures done { result ≡ Moved.Done → unsent self.new ≡ [] }
    {
        let Some(reply) = &self.reply else {
            return Moved::Nothing;
        };
        let bytes = reply.as_bytes();
        let from = self.sent.min(bytes.len());
        let rest = &bytes[from..];
        if rest.is_empty() {
            self.shut();
            return Moved::Done;
        }
        match self.stream.write(rest) {
            Ok(0) => Moved::Failed,
            Ok(len) => {
                self.sent = from + len;
                Moved::Bytes(len)
            }
            Err(error) => after(&error),
        }
    }

    /// Shuts the stream for writing, once.
    fn shut(&mut self)
        ensures { Sends S.contents self.old self.new }
    {
        if !self.is_shut {
            let _ = self.stream.shutdown(Shutdown::Write);
            self.is_shut = true;
        }
    }

    /// Drops what the other side still sends, so that its response is not lost. Whoever sends more
    /// than is read at once stays until its place is needed, as the oldest.
    fn drain(&mut self) -> Found
        ensures { SameButStream self.old self.new }
    {
        for _read in 0..READS {
            let mut bytes = [0; READ];
            match self.stream.read(&mut bytes) {
                Ok(0) => return Found::Over,
                Ok(_) => {}
                Err(error) => match after(&error) {
                    Moved::Nothing => return Found::Nothing,
                    Moved::Again => {}
                    _ => return Found::Over,
                },
            }
        }
        Found::Nothing
    }
}

/// The result of a read or a write that failed.
fn after(error: &Error) -> Moved
    ensures { result ≡ moved_after (error_kind error.now) }
{
    match error.kind() {
        ErrorKind::WouldBlock => Moved::Nothing,
        ErrorKind::Interrupted => Moved::Again,
        _ => Moved::Failed,
    }
}
