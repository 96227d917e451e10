//! A stream, together with its readiness as the system last reported it, and with how much was read
//! of it and written to it.
ghost use Rattle.std.specs.Prelude.{◌≡◌, IfOk};
ghost use Rattle.relay_event_loop.specs.Ready.{left_of, contents_of};

use relay_readiness::StreamReady;
use std::alloc::{AllocError, Global};
use std::cell::Cell;
use std::io;
use std::io::{Error, ErrorKind, Read, Write};
use std::rc::Rc;

/// The known state of a stream, shared by the stream and the rounds that receive its events.
#[derive(Drop)]
pub(crate) struct StreamReadiness {
    state: Rc<Cell<StreamState>>,
}

#[derive(Clone, Copy, Debug, PartialEq, Eq)]
struct StreamState {
    ready: StreamReady,
    /// The number of bytes that were read since that was last asked, and of those that were
    /// written.
    read: u64,
    written: u64,
}

/// A stream that returns `WouldBlock` without a system call while it is known not to be ready. It
/// is readable until a read returns `WouldBlock` or fewer bytes than it was asked for, since then
/// nothing is left (epoll(7)), but stays so once it is known to be over, so that its end is read.
/// It is writable until a write returns `WouldBlock`. A later event makes it ready again.
#[derive(Drop)]
pub(crate) struct TrackedStream<S> {
    stream: S,
    readiness: StreamReadiness,
}

impl StreamReadiness {
    /// Adds what the stream is ready for now. It stays ready for what it was ready for before.
    pub(crate) fn add(&self, now: StreamReady) {
        let mut state = self.state.get();
        state.ready = StreamReady {
            readable: state.ready.readable || now.readable,
            writable: state.ready.writable || now.writable,
            is_over: state.ready.is_over || now.is_over,
        };
        self.state.set(state);
    }

    /// The operations that the stream is ready for.
    pub(crate) fn ready(&self) -> StreamReady {
        self.state.get().ready
    }

    /// True if another read turn may read bytes, or the end, without a new event: a turn that has
    /// unsent output reads nothing.
    pub(crate) fn may_go_on(&self) -> bool {
        self.ready().readable && self.is_writable()
    }

    pub(crate) fn is_writable(&self) -> bool {
        self.ready().writable
    }

    /// Returns the number of bytes that were read since this was last asked.
    pub(crate) fn take_read(&self) -> u64 {
        let mut state = self.state.get();
        let read = state.read;
        state.read = 0;
        self.state.set(state);
        read
    }

    /// Returns the number of bytes that were written since this was last asked.
    pub(crate) fn take_written(&self) -> u64 {
        let mut state = self.state.get();
        let written = state.written;
        state.written = 0;
        self.state.set(state);
        written
    }

    /// Notes what a read of at most `most` bytes returned.
    fn end_read(&self, read: &io::Result<usize>, most: usize) {
        let mut state = self.state.get();
        match read {
            Ok(len) => {
                state.ready.readable = *len == most || state.ready.is_over;
                state.read = state.read.saturating_add(*len as u64);
            }
            Err(error) => state.ready.readable = error.kind() != ErrorKind::WouldBlock,
        }
        self.state.set(state);
    }

    /// Notes what a write returned.
    fn end_write(&self, written: &io::Result<usize>) {
        let mut state = self.state.get();
        match written {
            Ok(len) => {
                state.ready.writable = true;
                state.written = state.written.saturating_add(*len as u64);
            }
            Err(error) => state.ready.writable = error.kind() != ErrorKind::WouldBlock,
        }
        self.state.set(state);
    }
}

impl<S> TrackedStream<S> {
    /// A stream that counts as ready until a call shows that it is not, and what is known of it.
    pub(crate) fn new(
        alloc: Global,
        stream: S,
    ) -> Result<(TrackedStream<S>, StreamReadiness), AllocError>
    where
        S: Drop,
        ensures { IfOk result (λ made. made.0.stream ≡ stream) }
    {
        let state = Rc::new(
            alloc,
            Cell::new(StreamState {
                ready: StreamReady {
                    readable: true,
                    writable: true,
                    is_over: false,
                },
                read: 0,
                written: 0,
            }),
        )?;
        let readiness = StreamReadiness {
            state: state.clone()?,
        };
        Ok((
            TrackedStream { stream, readiness },
            StreamReadiness { state },
        ))
    }
}

impl<S: Read> Read for TrackedStream<S> {
    ghost remaining = { left_of S.remaining };

    fn read(&mut self, buf: &mut [u8]) -> io::Result<usize> {
        if !self.readiness.ready().readable {
            return Err(nothing_now());
        }
        let read = self.stream.read(buf);
        self.readiness.end_read(&read, buf.len());
        read
    }
}

impl<S: Write> Write for TrackedStream<S> {
    ghost contents = { contents_of S.contents };

    fn write(&mut self, buf: &[u8]) -> io::Result<usize> {
        if !self.readiness.is_writable() {
            return Err(nothing_now());
        }
        let written = self.stream.write(buf);
        self.readiness.end_write(&written);
        written
    }

    fn flush(&mut self) -> io::Result<()> {
        self.stream.flush()
    }
}

fn nothing_now() -> Error {
    Error::from(ErrorKind::WouldBlock)
}
