//! Standard error without waiting: whoever does not read it stops nobody.
use mio::unix::SourceFd;
use mio::{Events, Interest, Poll, Token};
use std::alloc::Global;
use std::io;
use std::io::{Error, ErrorKind, Write};
use std::net::Net;
use std::os::fd::AsRawFd;
use std::time::Duration;

/// The most bytes that one write passes on. A pipe that is writable takes as many without waiting
/// (`PIPE_BUF`).
const MAX_WRITE: usize = 4_096;

/// A writer over a descriptor that another program reads. A write passes on at most 4,096 bytes,
/// and returns `WouldBlock` in place of waiting until they are taken. The descriptor may block:
/// other processes may share it, so it is asked before each write, and its mode stays as it is.
#[derive(Drop)]
pub struct PolledOutput<W> {
    output: W,
    readiness: Option<OutputReadiness>,
}

impl<W: Write + AsRawFd> PolledOutput<W> {
    /// Watches a descriptor. A file is never waited for, and is written to without being asked. So
    /// is a descriptor that the system does not watch, for whatever reason: a write to it may wait.
    pub fn new<N: Net>(alloc: Global, net: &N, output: W) -> PolledOutput<W>
    where
        W: Drop,
    {
        let readiness = OutputReadiness::of(alloc, net, output.as_raw_fd()).ok();
        PolledOutput { output, readiness }
    }
}

impl<W: Write> Write for PolledOutput<W> {
    fn write(&mut self, buf: &[u8]) -> io::Result<usize> {
        if let Some(readiness) = &mut self.readiness {
            if !readiness.is_writable() {
                return Err(Error::from(ErrorKind::WouldBlock));
            }
        }
        let len = buf.len().min(MAX_WRITE);
        self.output.write(&buf[..len])
    }

    fn flush(&mut self) -> io::Result<()> {
        self.output.flush()
    }
}

/// The readiness of a descriptor to take bytes without waiting, as the system says when it is
/// asked.
#[derive(Drop)]
struct OutputReadiness {
    descriptor: i32,
    poll: Poll,
    events: Events,
}

impl OutputReadiness {
    fn of<N: Net>(alloc: Global, net: &N, descriptor: i32) -> io::Result<OutputReadiness> {
        let poll = Poll::new(net)?;
        poll.registry()
            .register(&mut SourceFd(&descriptor), Token(0), Interest::WRITABLE)?;
        let Ok(events) = Events::with_capacity(alloc, 1) else {
            return Err(Error::from(ErrorKind::OutOfMemory));
        };
        Ok(OutputReadiness {
            descriptor,
            poll,
            events,
        })
    }

    /// Returns true if a write would not wait. An event comes only at a change, so the descriptor
    /// is registered again before it is asked.
    fn is_writable(&mut self) -> bool {
        let mut source = SourceFd(&self.descriptor);
        let again = self
            .poll
            .registry()
            .reregister(&mut source, Token(0), Interest::WRITABLE);
        again.is_ok()
            && self
                .poll
                .poll(&mut self.events, Some(Duration::ZERO))
                .is_ok()
            && !self.events.is_empty()
    }
}
