//! A stream with buffered output that can be corked.
ghost use Rattle.std.specs.Prelude.{◌≡◌, false, IfOk, ◌&&◌, ◌==◌, not, length};
ghost use Rattle.std.specs.Io.{ReadsAtMost};
ghost use Rattle.std.specs.Io.Buffered.{writer_buffer, writer_inner};
ghost use Rattle.std.specs.Io.KnownBytes.{ReadConsumes};
ghost use Rattle.relay_link.specs.Stream.{stream_of, is_blocked, has_failed, is_failure, written};

use crate::non_blocking::NonBlocking;
use std::alloc::{AllocError, Global};
use std::cell::Cell;
use std::io::{BufWriter, Read, Result, Write};

/// The size of an output buffer, in bytes: enough for a reply and a few short patches that are
/// written together.
const OUTPUT_BUFFER: usize = 640;

/// The requests that a link has made of its stream since the stream's last call.
#[derive(Clone, Copy)]
struct Orders {
    begins_read_turn: bool,
    taken: usize,
    requests_turn: bool,
    is_corked: bool,
}

/// A non-blocking stream behind an output buffer. While it is corked, a flush leaves the output in
/// the buffer; output that exceeds the buffer is written all the same.
///
/// What the link asks of it takes effect at its next call, a flush at the latest. A link can ask
/// while a WebSocket owns the writer, by a shared reference: a `&mut` out of the socket (`get_mut`)
/// has no contract, and what is known of the connection would be lost.
#[derive(Drop)]
pub(crate) struct CorkedWriter<S: Write + Drop> {
    writer: BufWriter<NonBlocking<S>>,
    is_corked: bool,
    orders: Cell<Orders>,
}

impl<S: Write + Drop> CorkedWriter<S> {
    pub(crate) fn new(alloc: Global, stream: S) -> std::result::Result<CorkedWriter<S>, AllocError>
        ensures stream { IfOk result (λ writer. stream_of writer ≡ stream) }
        ensures sound { IfOk result (λ writer. has_failed writer ≡ false) }
    {
        match BufWriter::with_capacity(alloc, OUTPUT_BUFFER, NonBlocking::new(stream)) {
            Ok(writer) => Ok(CorkedWriter {
                writer,
                is_corked: false,
                orders: Cell::new(Orders {
                    begins_read_turn: false,
                    taken: 0,
                    requests_turn: false,
                    is_corked: false,
                }),
            }),
            Err(_) => Err(AllocError),
        }
    }

    /// Corks the output, so that flushes write nothing, or uncorks it.
    pub(crate) fn set_corked(&self, is_corked: bool) {
        let mut orders = self.orders.get();
        orders.is_corked = is_corked;
        self.orders.set(orders);
    }

    /// Begins a read turn.
    pub(crate) fn begin_read_turn(&self) {
        let mut orders = self.orders.get();
        orders.begins_read_turn = true;
        orders.requests_turn = false;
        self.orders.set(orders);
    }

    /// Notes that a message of at least `len` bytes was taken off what was read. Asks for another
    /// turn if any may be left.
    pub(crate) fn note_taken(&self, len: usize) {
        let mut orders = self.orders.get();
        orders.taken = orders.taken.saturating_add(len);
        self.orders.set(orders);
    }

    /// Asks for another turn.
    pub(crate) fn request_turn(&self) {
        let mut orders = self.orders.get();
        orders.requests_turn = true;
        self.orders.set(orders);
    }

    /// Does what the link has asked for.
    fn obey(&mut self)
        ensures stream { stream_of self.new ≡ stream_of self.old }
        ensures buffer { writer_buffer self.new.writer ≡ writer_buffer self.old.writer }
    {
        let orders = self.orders.get();
        if orders.begins_read_turn {
            self.writer.get_mut().begin_read_turn();
        }
        if orders.taken > 0 {
            self.writer.get_mut().note_taken(orders.taken);
        }
        if orders.requests_turn {
            self.writer.get_mut().request_turn();
        }
        self.is_corked = orders.is_corked;
        self.orders.set(Orders {
            begins_read_turn: false,
            taken: 0,
            requests_turn: false,
            is_corked: orders.is_corked,
        });
    }

    /// True if the buffer has output.
    pub(crate) fn has_output(&self) -> bool
        ensures { result ≡ not (length (writer_buffer self.now.writer) == 0) }
    {
        !self.writer.buffer().is_empty()
    }

    /// True if the buffer has output and is corked.
    pub(crate) fn has_corked_output(&self) -> bool
        ensures { result ≡ self.now.is_corked && not (length (writer_buffer self.now.writer) == 0) }
    {
        self.is_corked && self.has_output()
    }

    /// True if the stream's last write or flush failed, so that output may be unsent.
    pub(crate) fn is_blocked(&self) -> bool
        ensures { result ≡ is_blocked self.now }
    {
        self.writer.get_ref().is_blocked()
    }

    /// True if the stream's last call failed, and not only for now.
    pub(crate) fn has_failed(&self) -> bool
        ensures { result ≡ has_failed self.now }
    {
        self.writer.get_ref().has_failed()
    }

    /// True if a read gave as many bytes as it asked for.
    pub(crate) fn has_filled_a_read(&self) -> bool {
        self.writer.get_ref().has_filled_a_read()
    }

    /// True if nothing has asked for another turn.
    pub(crate) fn is_idle(&self) -> bool
        ensures { result ≡ not (writer_inner self.now.writer).wants_turn }
    {
        self.writer.get_ref().is_idle()
    }
}

impl<S: Read + Write + Drop> Read for CorkedWriter<S> {
    ghost remaining = { λ w. S.remaining (stream_of w) };

    fn read(&mut self, buf: &mut [u8]) -> Result<usize>
        ensures bound { ReadsAtMost result buf.new }
        ensures bytes { ReadConsumes (S.remaining (stream_of self.old))
            (S.remaining (stream_of self.new)) result buf.new }
        ensures failed { has_failed self.new ≡ is_failure result }
    {
        self.obey();
        self.writer.get_mut().read(buf)
    }
}

impl<S: Write + Drop> Write for CorkedWriter<S> {
    ghost contents = { written S.contents };

    fn write(&mut self, buf: &[u8]) -> Result<usize> {
        self.obey();
        self.writer.write(buf)
    }

    fn flush(&mut self) -> Result<()> {
        self.obey();
        if self.is_corked {
            return Ok(());
        }
        self.writer.flush()
    }
}
