//! The log of a connection that is evicted for another one.
use crate::connection_log::{ConnectionLog, LogEntry};

/// A log that passes entries on, and the end of a connection as its eviction.
#[derive(Drop)]
pub(crate) struct EvictionLog<'a, J> {
    log: &'a mut J,
}

impl<'a, J: ConnectionLog> EvictionLog<'a, J> {
    pub(crate) fn to(log: &'a mut J) -> EvictionLog<'a, J> {
        EvictionLog { log }
    }
}

impl<J: ConnectionLog> ConnectionLog for EvictionLog<'_, J> {
    fn record(&mut self, entry: LogEntry<'_>) {
        match entry {
            LogEntry::Ended {
                connection,
                rounds,
                ..
            } => self.log.record(LogEntry::Evicted { connection, rounds }),
            _ => self.log.record(entry),
        }
    }
}
