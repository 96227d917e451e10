//! The test's end of a stream.
ghost use Rattle.std.specs.Prelude.{◌≤◌, length, IfOk};

use crate::injected_fault::InjectedFault;
use std::alloc::{AllocError, Global};
use std::cell::RefCell;
use std::io;
use std::io::ErrorKind;

/// The bytes of a stream, its injected faults, and the counts of its calls.
#[derive(Drop)]
pub struct Wire {
    input: Vec<u8>,
    at: usize,
    /// The bytes that were written. A test may clear it.
    pub output: Vec<u8>,
    /// True if the input ends after the bytes that were fed. Otherwise a read there returns
    /// `WouldBlock`.
    pub ended: bool,
    /// The fault of every read. `None` means no fault.
    pub reads: Option<InjectedFault>,
    /// The fault of every write. `None` means no fault.
    pub writes: Option<InjectedFault>,
    /// The fault of one call, by its number from 0. Reads, writes and flushes are counted together.
    pub trick: Option<(u64, InjectedFault)>,
    /// The number of calls so far: reads, writes and flushes.
    pub calls: u64,
    /// The number of reads. A test may reset it.
    pub read_calls: u64,
    /// The number of writes. A test may reset it.
    pub write_calls: u64,
    /// The number of calls that failed by [`InjectedFault::Fail`].
    pub failures: u64,
}

impl Wire {
    /// An empty wire without faults. A test and its [`End`](crate::End) share it through the cell;
    /// a call of the end fails while the test borrows it.
    pub fn new(alloc: Global) -> RefCell<Wire> {
        RefCell::new(Wire {
            input: Vec::new(alloc),
            at: 0,
            output: Vec::new(alloc),
            ended: false,
            reads: None,
            writes: None,
            trick: None,
            calls: 0,
            read_calls: 0,
            write_calls: 0,
            failures: 0,
        })
    }

    /// Appends bytes to the input. After an error none of them was appended.
    pub fn feed(&mut self, bytes: &[u8]) -> Result<(), AllocError> {
        if self.is_read() {
            self.input.clear();
            self.at = 0;
        }
        self.input.extend_from_slice(bytes)
    }

    /// Appends a client's text message to the input, as one frame with a mask of zeros (RFC 6455,
    /// section 5.2). After an error a part of it may have been appended.
    pub fn say(&mut self, text: &str) -> Result<(), AllocError> {
        self.feed(&[0x81])?;
        match text.len() {
            len @ 0..=125 => self.feed(&[0x80 | (len as u8)])?,
            len @ 126..=65_535 => {
                self.feed(&[0xfe])?;
                self.feed(&(len as u16).to_be_bytes())?;
            }
            len => {
                self.feed(&[0xff])?;
                self.feed(&(len as u64).to_be_bytes())?;
            }
        }
        self.feed(&[0; 4])?;
        self.feed(text.as_bytes())
    }

    /// True if all the input was read.
    pub fn is_read(&self) -> bool {
        self.at >= self.input.len()
    }

    /// Counts a call of `len` bytes, and applies its fault. Returns how many bytes the call may
    /// move.
    fn call(&mut self, len: usize, always: Option<InjectedFault>) -> io::Result<usize> {
        let call = self.calls;
        self.calls = call.saturating_add(1);
        let trick = match self.trick {
            Some((at, trick)) if at == call => Some(trick),
            _ => always,
        };
        match trick {
            None => Ok(len),
            Some(InjectedFault::OneByte) => Ok(len.min(1)),
            Some(InjectedFault::End) => Ok(0),
            Some(InjectedFault::Nothing) => Err(io::Error::from(ErrorKind::WouldBlock)),
            Some(InjectedFault::Interrupt) => Err(io::Error::from(ErrorKind::Interrupted)),
            Some(InjectedFault::Fail) => {
                self.failures = self.failures.saturating_add(1);
                Err(io::Error::from(ErrorKind::ConnectionReset))
            }
        }
    }

    /// Serves a read of the end.
    pub(crate) fn give(&mut self, buf: &mut [u8]) -> io::Result<usize>
        ensures { IfOk result (λ len. len ≤ length buf.new) }
    {
        self.read_calls = self.read_calls.saturating_add(1);
        let most = self.call(buf.len(), self.reads)?;
        let rest = self.input.get(self.at..).unwrap_or(&[]);
        if rest.is_empty() && !self.ended && most > 0 {
            return Err(io::Error::from(ErrorKind::WouldBlock));
        }
        let len = most.min(rest.len()).min(buf.len());
        buf[..len].copy_from_slice(&rest[..len]);
        self.at = self.at.saturating_add(len);
        Ok(len)
    }

    /// Serves a write of the end.
    pub(crate) fn take(&mut self, buf: &[u8]) -> io::Result<usize>
        ensures { IfOk result (λ len. len ≤ length buf.now) }
    {
        self.write_calls = self.write_calls.saturating_add(1);
        let len = self.call(buf.len(), self.writes)?.min(buf.len());
        self.output.extend_from_slice(&buf[..len])?;
        Ok(len)
    }

    /// Serves a flush of the end, which has nothing to write.
    pub(crate) fn flush(&mut self) -> io::Result<()> {
        self.call(0, None).map(|_| ())
    }
}
