//! The end of a stream that the code under test uses.
use crate::wire::Wire;
use std::cell::{RefCell, RefMut};
use std::io;
use std::io::{ErrorKind, Read, Write};
use std::net::OpenStream;

/// The other end of a [`Wire`]: it reads what was fed, and writes to the wire's output. It never
/// blocks.
#[derive(Drop)]
pub struct End<'a> {
    /// The wire, which several ends may share.
    pub wire: &'a RefCell<Wire>,
}

impl End<'_> {
    /// Borrows the wire. Fails with `ErrorKind::Other` if it is borrowed already.
    fn wire(&self) -> io::Result<RefMut<'_, Wire>> {
        self.wire
            .try_borrow_mut()
            .map_err(|_| io::Error::from(ErrorKind::Other))
    }
}

impl Read for End<'_> {
    fn read(&mut self, buf: &mut [u8]) -> io::Result<usize> {
        self.wire()?.give(buf)
    }
}

impl Write for End<'_> {
    fn write(&mut self, buf: &[u8]) -> io::Result<usize> {
        self.wire()?.take(buf)
    }

    fn flush(&mut self) -> io::Result<()> {
        self.wire()?.flush()
    }
}

impl OpenStream for End<'_> {
    fn set_nonblocking(&self, _nonblocking: bool) -> io::Result<()> {
        Ok(())
    }
}
