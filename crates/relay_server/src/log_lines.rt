//! The lines that `serve --log` writes.
use crate::log_level::LogLevel;
use crate::rfc3339::Rfc3339;
use relay_event_loop::{ConnectionLog, LogEntry};
use std::alloc::{AllocError, Global};
use std::fmt::Display;
use std::io::Write;
use std::time::{Clock, Duration};

/// A log that writes one line for each entry, with the time and the level, each by one write. A
/// line that the writer does not take is dropped. The next line that it takes says how many were.
///
/// ```
/// let mut written = Vec::new(alloc);
/// LogLines::to(alloc, &mut written, rt).record(LogEntry::OutOfMemory);
/// assert!(rt; written.as_slice().starts_with(b"time="));
/// assert!(rt; written.as_slice().ends_with(b" level=warn event=out-of-memory\n"));
/// ```
#[derive(Drop)]
pub struct LogLines<'a, W, C> {
    writer: &'a mut W,
    clock: &'a C,
    line: String,
    /// The number of lines that were dropped since the last line that went out.
    dropped: u64,
    /// True if the last bytes that went out are no whole line.
    is_cut: bool,
}

impl<'a, W: Write, C: Clock> LogLines<'a, W, C> {
    pub fn to(alloc: Global, writer: &'a mut W, clock: &'a C) -> LogLines<'a, W, C> {
        LogLines {
            writer,
            clock,
            line: String::new(alloc),
            dropped: 0,
            is_cut: false,
        }
    }

    /// Says how many lines were dropped, if any were. Returns whether none are left to be told.
    fn tell_dropped(&mut self) -> bool {
        if self.dropped == 0 {
            return true;
        }
        let dropped = self.dropped;
        let is_told = self.put(
            LogLevel::Warn,
            format_args!("event=dropped dropped={dropped}"),
        );
        if is_told {
            self.dropped = 0;
        }
        is_told
    }

    /// Writes a line. Returns whether the writer took it whole.
    fn put<F: Display + Drop>(&mut self, level: LogLevel, fields: F) -> bool {
        if self.compose(level, fields).is_err() {
            return false;
        }
        let line = self.line.as_bytes();
        match self.writer.write(line) {
            Ok(len) => {
                self.is_cut = len < line.len() && (len > 0 || self.is_cut);
                len == line.len()
            }
            Err(_) => false,
        }
    }

    /// Makes the text of a line. It begins on a line of its own.
    fn compose<F: Display + Drop>(&mut self, level: LogLevel, fields: F) -> Result<(), AllocError> {
        let time = Rfc3339::since_1970(self.clock.since_1970().unwrap_or(Duration::ZERO));
        self.line.clear();
        if self.is_cut {
            self.line.push('\n')?;
        }
        writeln!(self.line, "time={time} level={level} {fields}")
    }
}

impl<W: Write, C: Clock> ConnectionLog for LogLines<'_, W, C> {
    fn record(&mut self, entry: LogEntry<'_>) {
        if !self.tell_dropped() || !self.put(LogLevel::of(&entry), entry) {
            self.dropped = self.dropped.saturating_add(1);
        }
    }
}
