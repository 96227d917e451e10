//! A log whose entries are counted for the operator.
use crate::connection_log::{ConnectionLog, LogEntry};
use relay_link::EndCause;
use relay_operator::Counters;

/// A log that counts each entry and passes it on.
#[derive(Drop)]
pub(crate) struct Counted<'a, J> {
    counters: &'a mut Counters,
    log: &'a mut J,
}

impl<'a, J: ConnectionLog> Counted<'a, J> {
    pub(crate) fn to(counters: &'a mut Counters, log: &'a mut J) -> Counted<'a, J> {
        Counted { counters, log }
    }
}

impl<J: ConnectionLog> ConnectionLog for Counted<'_, J> {
    fn record(&mut self, entry: LogEntry<'_>) {
        count(self.counters, &entry);
        self.log.record(entry);
    }
}

fn count(counters: &mut Counters, entry: &LogEntry<'_>) {
    match entry {
        LogEntry::Opened { .. } => counters.opened = next(counters.opened),
        LogEntry::Refused { refusal, .. } => count_refused(counters, refusal.status()),
        LogEntry::Ended { cause, .. } => count_ended(counters, *cause),
        LogEntry::Evicted { .. } => count_ended(counters, EndCause::Ended),
        LogEntry::Rejected { .. } => counters.rejected = next(counters.rejected),
        LogEntry::OutOfMemory => counters.count_shed(),
        // the server counts commits itself, since some are made while the port is asked
        LogEntry::SlowCommit { .. } | LogEntry::CommitFailed => {}
    }
}

fn count_refused(counters: &mut Counters, status: u16) {
    let refused = &mut counters.refused;
    match status {
        403 => refused.forbidden = next(refused.forbidden),
        404 => refused.not_found = next(refused.not_found),
        405 => refused.method = next(refused.method),
        426 => refused.upgrade = next(refused.upgrade),
        431 => refused.too_long = next(refused.too_long),
        503 => refused.unavailable = next(refused.unavailable),
        _ => refused.bad_request = next(refused.bad_request),
    }
}

fn count_ended(counters: &mut Counters, cause: EndCause) {
    let ended = &mut counters.ended;
    match cause {
        EndCause::Peer => ended.peer = next(ended.peer),
        EndCause::Binary => ended.binary = next(ended.binary),
        EndCause::Broken => ended.broken = next(ended.broken),
        EndCause::Stream => ended.stream = next(ended.stream),
        EndCause::Memory => ended.memory = next(ended.memory),
        EndCause::Full => ended.full = next(ended.full),
        EndCause::Slow => ended.slow = next(ended.slow),
        EndCause::Silent => ended.silent = next(ended.silent),
        EndCause::Ended => ended.relay = next(ended.relay),
        EndCause::Refused(status) => count_refused(counters, status),
    }
}

fn next(count: u64) -> u64 {
    count.saturating_add(1)
}
