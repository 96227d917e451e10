//! The readiness of sockets: the trait that a server's rounds use, and its implementation by the
//! operating system's poll.
use crate::admin_readiness::ADMIN_LISTENER;
use mio::event::Event;
use mio::unix::SourceFd;
use mio::{Events, Interest, Poll, Token};
use std::alloc::{AllocError, Global};
use std::io;
use std::io::{Error, ErrorKind};
use std::net::Net;
use std::os::fd::AsRawFd;
use std::time::Duration;

/// The operations that a stream is ready for.
///
/// ```
/// let ready = StreamReady { is_over: false, ..StreamReady::ALL };
/// assert!(rt; ready.readable && ready.writable);
/// ```
#[derive(Clone, Copy, Debug, PartialEq, Eq)]
pub struct StreamReady {
    pub readable: bool,
    pub writable: bool,
    /// True if the stream failed, or the other side closed it: its end may follow its last bytes
    /// without another event.
    pub is_over: bool,
}

impl StreamReady {
    /// Ready for everything, as far as is known.
    pub const ALL: StreamReady = StreamReady {
        readable: true,
        writable: true,
        is_over: true,
    };
}

/// An event that says what became ready.
#[derive(Clone, Copy, Debug, PartialEq, Eq)]
pub enum ReadyEvent {
    /// A connection waits to be accepted.
    Incoming,
    /// A second has passed since the last such event, or more.
    Second,
    /// The stream with this key may be read or written. A stream that failed or was closed is both.
    Stream { key: usize, ready: StreamReady },
}

/// Reports which streams of a server are ready, and whether a connection waits to be accepted.
pub trait Readiness<S> {
    /// Watches a stream under a key until the stream is dropped. After an error it is not watched.
    fn watch(&mut self, key: usize, stream: &S) -> io::Result<()>;

    /// Waits for events for at most `most`, and appends to `events` what became ready since the
    /// last call. An event may be spurious, may repeat, or may name a dropped stream; events that
    /// exceed the capacity come with the next call. After an error nothing is known: everything may
    /// be ready.
    fn wait(&mut self, most: Duration, events: &mut Vec<ReadyEvent>) -> io::Result<()>;

    /// The time in microseconds, by a clock that never goes back, since a moment of its own. A
    /// source without a clock stands still. No clause depends on it.
    fn micros(&self) -> u64;
}

/// The maximum number of events that one system call returns.
const MAX_EVENTS: usize = 256;

/// The token of the listener. No slab has this key.
const LISTENER: usize = usize::MAX;

/// Readiness as the operating system reports it. It has no clock ([`crate::AdminReadiness`] has).
#[derive(Drop)]
pub struct Polling {
    poll: Poll,
    events: Events,
}

impl Polling {
    /// Sets up the system's poll, and watches the listener. After an error, which may be
    /// `OutOfMemory`, readiness cannot be polled.
    pub fn new<N: Net>(alloc: Global, net: &N, listener: &N::Listener) -> io::Result<Polling> {
        let poll = Poll::new(net)?;
        let Ok(events) = Events::with_capacity(alloc, MAX_EVENTS) else {
            return Err(Error::from(ErrorKind::OutOfMemory));
        };
        let listener = listener.as_raw_fd();
        poll.registry().register(
            &mut SourceFd(&listener),
            Token(LISTENER),
            Interest::READABLE,
        )?;
        Ok(Polling { poll, events })
    }

    /// Watches the listener of the admin port too. After an error it is not watched.
    pub fn watch_admin<L: AsRawFd>(&self, listener: &L) -> io::Result<()> {
        let listener = listener.as_raw_fd();
        self.poll.registry().register(
            &mut SourceFd(&listener),
            Token(ADMIN_LISTENER),
            Interest::READABLE,
        )
    }
}

impl<S: AsRawFd> Readiness<S> for Polling {
    fn watch(&mut self, key: usize, stream: &S) -> io::Result<()> {
        let stream = stream.as_raw_fd();
        self.poll.registry().register(
            &mut SourceFd(&stream),
            Token(key),
            Interest::READABLE | Interest::WRITABLE,
        )
    }

    fn wait(&mut self, most: Duration, events: &mut Vec<ReadyEvent>) -> io::Result<()> {
        self.poll.poll(&mut self.events, Some(most))?;
        match append(&self.events, events) {
            Ok(()) => Ok(()),
            Err(_) => Err(Error::from(ErrorKind::OutOfMemory)),
        }
    }

    fn micros(&self) -> u64 {
        0
    }
}

fn append(given: &Events, events: &mut Vec<ReadyEvent>) -> Result<(), AllocError> {
    for event in given.iter() {
        events.push(event_of(event))?;
    }
    Ok(())
}

fn event_of(event: &Event) -> ReadyEvent {
    let Token(key) = event.token();
    if key == LISTENER {
        return ReadyEvent::Incoming;
    }
    let is_over = event.is_error() || event.is_read_closed() || event.is_write_closed();
    let ready = StreamReady {
        readable: event.is_readable() || is_over,
        writable: event.is_writable() || is_over,
        is_over,
    };
    ReadyEvent::Stream { key, ready }
}
