//! The numbers that an operator is told of a server's log.
ghost use Rattle.std.specs.Prelude.{◌≡◌};
ghost use Rattle.relay_operator.specs.Counters.{begun, is_short_of_memory, with_shed};

use relay_admin::{EndedBy, RefusedBy};
use std::time::Duration;

/// For how many seconds a server counts as short of memory after its log said so.
const SHORT: u64 = 60;

/// The number of entries of each kind that the log of a server had since it began, and the time at
/// which memory was short.
#[derive(Clone, Copy, Debug)]
pub struct Counters {
    /// Sessions that were opened.
    pub opened: u64,
    /// Connections that were rejected as they came.
    pub rejected: u64,
    /// Handshakes that were refused.
    pub refused: RefusedBy,
    /// Connections that ended.
    pub ended: EndedBy,
    /// Entries that say that memory was refused.
    pub(crate) shed: u64,
    /// The time at which the log last said that memory was refused.
    last_shed: Option<Duration>,
    /// The time of the present round.
    now: Duration,
}

impl Counters {
    pub(crate) fn new() -> Counters {
        Counters {
            opened: 0,
            rejected: 0,
            refused: RefusedBy::default(),
            ended: EndedBy::default(),
            shed: 0,
            last_shed: None,
            now: Duration::ZERO,
        }
    }

    /// Begins a round at this time.
    pub fn begin(&mut self, now: Duration)
        ensures { self.new ≡ begun now self.old }
    {
        self.now = now;
    }

    /// Counts that memory was refused in the present round.
    pub fn count_shed(&mut self)
        ensures { self.new ≡ with_shed self.old }
    {
        self.shed = self.shed.saturating_add(1);
        self.last_shed = Some(self.now);
    }

    /// True if memory was refused within the last minute.
    pub(crate) fn is_short_of_memory(&self) -> bool
        ensures { result ≡ is_short_of_memory self.entry.now }
    {
        match self.last_shed {
            Some(then) => self.now.saturating_sub(then).as_secs() < SHORT,
            None => false,
        }
    }
}
