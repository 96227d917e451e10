//! The longest of the rounds of the last minute.
use std::time::Duration;

/// The number of parts of the last minute that are kept apart.
const PARTS: usize = 6;

/// The number of seconds in each part.
const SECONDS: u64 = 10;

/// A duration in microseconds; `u64::MAX` if it is longer.
pub(crate) fn micros_of(time: Duration) -> u64 {
    time.as_secs()
        .saturating_mul(1_000_000)
        .saturating_add(u64::from(time.subsec_micros()))
}

/// The longest round of each ten seconds of the last minute, in microseconds. A round is forgotten
/// 50 to 60 seconds after it.
#[derive(Clone, Copy, Debug)]
pub(crate) struct LongestRound {
    parts: [u64; PARTS],
    /// The number of the newest part since the clock's start.
    newest: u64,
}

impl LongestRound {
    pub(crate) fn new() -> LongestRound {
        LongestRound {
            parts: [0; PARTS],
            newest: 0,
        }
    }

    /// Notes a round that ended at this time, after so much work.
    pub(crate) fn note(&mut self, now: Duration, worked: Duration) {
        let part = now.as_secs() / SECONDS;
        self.forget(part);
        let index = (part % PARTS as u64) as usize;
        self.parts[index] = self.parts[index].max(micros_of(worked));
    }

    /// Makes `part` the newest one, and empties those that come anew.
    fn forget(&mut self, part: u64) {
        let anew = part.saturating_sub(self.newest).min(PARTS as u64);
        for back in 0..anew {
            let index = (part.saturating_sub(back) % PARTS as u64) as usize;
            self.parts[index] = 0;
        }
        self.newest = part;
    }

    /// The longest, in microseconds; 0 if there was none.
    pub(crate) fn longest(&self) -> u64 {
        let mut longest = 0u64;
        for micros in self.parts {
            longest = longest.max(micros);
        }
        longest
    }
}
