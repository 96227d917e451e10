//! A stream that never blocks a turn.
ghost use Rattle.std.specs.Prelude.{◌≡◌};
ghost use Rattle.relay_link.specs.Stream.{is_nothing_now, is_failure};

use std::io;
use std::io::{Error, ErrorKind, Read, Write};

/// The maximum number of bytes that the reads of a turn ask for together. So a side that never
/// stops sending, in however small frames, cannot delay the others.
const MAX_ASKED: usize = 163_840;

/// A stream that returns `WouldBlock` for an interruption, since a socket would otherwise retry at
/// once and forever. It also returns `WouldBlock` once the reads of a turn have asked for as much
/// as they may, and rejects writes after a write has failed.
#[derive(Drop)]
pub(crate) struct NonBlocking<S> {
    stream: S,
    /// The number of bytes that may still be asked for in this turn.
    left: usize,
    /// True if the last read gave as many bytes as it asked for.
    last_filled: bool,
    /// True if any read did.
    filled: bool,
    /// The maximum number of bytes that were read and are not yet taken.
    untaken: usize,
    /// True if another turn may have work although no new event is ready.
    wants_turn: bool,
    /// True if a write failed, or accepted no byte.
    broken: bool,
    /// True if the last write or flush failed, be it for want of capacity.
    blocked: bool,
    /// True if the last call failed, and not only for now.
    failed: bool,
}

impl<S> NonBlocking<S> {
    ghost use Rattle.std.specs.Prelude.{Ok, IfOk, false, true, is_err, not};

    pub(crate) fn new(stream: S) -> NonBlocking<S>
        ensures stream { result.stream ≡ stream }
        ensures sound { result.failed ≡ false }
    {
        NonBlocking {
            stream,
            left: MAX_ASKED,
            last_filled: false,
            filled: false,
            untaken: 0,
            wants_turn: false,
            broken: false,
            blocked: false,
            failed: false,
        }
    }

    /// Begins a read turn.
    pub(crate) fn begin_read_turn(&mut self)
        ensures { self.new.stream ≡ self.old.stream }
    {
        self.left = MAX_ASKED;
        self.wants_turn = false;
    }

    /// Asks for another turn.
    pub(crate) fn request_turn(&mut self)
        ensures { self.new ≡ record self.old { wants_turn = true } }
    {
        self.wants_turn = true;
    }

    /// Notes that a message of at least `len` bytes was taken off what was read. Asks for another
    /// turn if any may be left, here or in the stream, since they may be the next one.
    pub(crate) fn note_taken(&mut self, len: usize)
        ensures { self.new.stream ≡ self.old.stream }
    {
        self.untaken = self.untaken.saturating_sub(len);
        if self.untaken > 0 || self.last_filled {
            self.request_turn();
        }
    }

    /// Returns true if, since the last read turn began, no call was interrupted, and nothing asked
    /// for another turn. A write does not ask for one: unsent output waits until the stream is
    /// writable.
    pub(crate) fn is_idle(&self) -> bool
        ensures { result ≡ not self.now.wants_turn }
    {
        !self.wants_turn
    }

    /// True if a read gave as many bytes as it asked for.
    pub(crate) fn has_filled_a_read(&self) -> bool {
        self.filled
    }

    /// True if the last write or flush failed, so that output may be unsent.
    pub(crate) fn is_blocked(&self) -> bool
        ensures { result ≡ self.now.blocked }
    {
        self.blocked
    }

    /// True if the last call failed, and not only for now.
    pub(crate) fn has_failed(&self) -> bool
        ensures { result ≡ self.now.failed }
    {
        self.failed
    }

    /// The result of a write or a flush, of which it notes whether it failed.
    fn noted_output<T>(&mut self, called: io::Result<T>) -> io::Result<T>
        ensures ok { IfOk result (λ value. called ≡ Ok value) }
        ensures err { is_err result ≡ is_err called }
        ensures stream { self.new.stream ≡ self.old.stream }
        ensures blocked { self.new.blocked ≡ is_err called }
    {
        self.blocked = called.is_err();
        self.noted(called)
    }

    /// The result of a call. An interrupted call asks for another turn, and becomes `WouldBlock`.
    fn noted<T>(&mut self, called: io::Result<T>) -> io::Result<T>
        ensures ok { IfOk result (λ value. called ≡ Ok value) }
        ensures err { is_err result ≡ is_err called }
        ensures stream { self.new.stream ≡ self.old.stream }
        ensures blocked { self.new.blocked ≡ self.old.blocked }
        ensures failed { self.new.failed ≡ is_failure result }
    {
        match called {
            Err(error) if error.kind() == ErrorKind::Interrupted => {
                self.request_turn();
                self.failed = false;
                Err(Error::from(ErrorKind::WouldBlock))
            }
            _ => {
                self.failed = is_failure(&called);
                called
            }
        }
    }
}

impl<S: Read> Read for NonBlocking<S> {
    ghost use Rattle.std.specs.Io.{ReadsAtMost};
    ghost use Rattle.std.specs.Io.KnownBytes.{ReadConsumes};

    ghost remaining = { λ n. S.remaining n.stream };

    fn read(&mut self, buf: &mut [u8]) -> io::Result<usize>
        ensures bound { ReadsAtMost result buf.new }
        ensures bytes { ReadConsumes (S.remaining self.old.stream) (S.remaining self.new.stream)
            result buf.new }
        ensures failed { self.new.failed ≡ is_failure result }
    {
        match self.left.checked_sub(buf.len()) {
            Some(left) => self.left = left,
            None => {
                self.request_turn();
                self.failed = false;
                return Err(Error::from(ErrorKind::WouldBlock));
            }
        }
        let asked = buf.len();
        let read = self.stream.read(buf);
        let len = if let Ok(len) = read { len } else { 0 };
        self.untaken = self.untaken.saturating_add(len);
        self.last_filled = len == asked;
        self.filled = self.filled || self.last_filled;
        self.noted(read)
    }
}

impl<S: Write> Write for NonBlocking<S> {
    ghost use Rattle.std.specs.Prelude.{is_err};
    ghost use Rattle.std.specs.Io.{WritesAtMost};
    ghost use Rattle.std.specs.Io.KnownBytes.{Keeps, WriteAppends};

    ghost contents = { λ n. S.contents n.stream };

    fn write(&mut self, buf: &[u8]) -> io::Result<usize>
        ensures bound { WritesAtMost result buf.now }
        ensures bytes { WriteAppends (S.contents self.old.stream) (S.contents self.new.stream)
            result buf.now }
        ensures blocked { self.new.blocked ≡ is_err result }
    {
        if self.broken {
            self.blocked = true;
            self.failed = true;
            return Err(Error::from(ErrorKind::BrokenPipe));
        }
        let written = self.stream.write(buf);
        self.broken = is_break(&written);
        let noted = self.noted_output(written);
        self.failed = self.broken;
        noted
    }

    fn flush(&mut self) -> io::Result<()>
        ensures bytes { Keeps (S.contents self.old.stream) (S.contents self.new.stream) }
        ensures blocked { self.new.blocked ≡ is_err result }
    {
        let flushed = self.stream.flush();
        self.noted_output(flushed)
    }
}

/// True if a write failed permanently.
fn is_break(written: &io::Result<usize>) -> bool {
    match written {
        Ok(len) => *len == 0,
        Err(error) => !matches!(error.kind(), ErrorKind::WouldBlock | ErrorKind::Interrupted),
    }
}

/// True if the stream merely has nothing to read, or no capacity to write, for now.
pub(crate) fn is_nothing_now(error: &Error) -> bool
    ensures { result ≡ is_nothing_now error.now }
{
    matches!(error.kind(), ErrorKind::WouldBlock)
}

/// True if a call failed, and not only for now.
fn is_failure<T>(called: &io::Result<T>) -> bool
    ensures { result ≡ is_failure called.now }
{
    match called {
        Ok(_) => false,
        Err(error) => !is_nothing_now(error),
    }
}
