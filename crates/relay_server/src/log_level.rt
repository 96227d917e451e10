//! The level of a log line.
use relay_event_loop::{HandshakeRefusal, LogEntry};
use relay_link::EndCause;
use std::fmt;
use std::fmt::{Display, Formatter};

/// The importance of a line to an operator.
#[derive(Clone, Copy, Debug, PartialEq, Eq)]
pub(crate) enum LogLevel {
    /// The relay does what it is there for.
    Info,
    /// A limit was reached, memory is short, a commit was slow, or lines of the log were dropped.
    Warn,
    /// The relay cannot go on.
    Error,
}

impl LogLevel {
    pub(crate) fn of(entry: &LogEntry<'_>) -> LogLevel {
        match entry {
            LogEntry::Opened { .. }
            | LogEntry::Refused {
                refusal: HandshakeRefusal::Status(_) | HandshakeRefusal::Closed,
                ..
            } => LogLevel::Info,
            LogEntry::Ended { cause, .. } => match cause {
                EndCause::Memory | EndCause::Full | EndCause::Slow => LogLevel::Warn,
                _ => LogLevel::Info,
            },
            LogEntry::Refused { .. }
            | LogEntry::Evicted { .. }
            | LogEntry::Rejected { .. }
            | LogEntry::OutOfMemory
            | LogEntry::SlowCommit { .. } => LogLevel::Warn,
            LogEntry::CommitFailed => LogLevel::Error,
        }
    }
}

impl Display for LogLevel {
    fn fmt<W: fmt::Write>(&self, f: &mut Formatter<W>) -> fmt::Result {
        f.write_str(match self {
            LogLevel::Info => "info",
            LogLevel::Warn => "warn",
            LogLevel::Error => "error",
        })
    }
}
