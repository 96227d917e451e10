//! The commits of a store, as an operator is told of them.
ghost use Rattle.std.specs.Prelude.{◌≡◌};
ghost use Rattle.relay_admin.specs.Commits.{counted_within, with_commit, with_failure};

/// The number of commits of a store by the time that they took, and of those that failed. Each
/// count by time has those before it in it.
///
/// ```
/// let commits = Commits::default().with_commit(1_500).with_commit(30_000).with_failure();
/// assert!(rt; commits.within_1_ms == 0 && commits.within_2500_us == 1 && commits.all == 2);
/// assert!(rt; commits.micros == 31_500 && commits.failed == 1);
/// ```
#[derive(Clone, Copy, Debug, Default, PartialEq, Eq)]
pub struct Commits {
    pub within_1_ms: u64,
    pub within_2500_us: u64,
    pub within_5_ms: u64,
    pub within_10_ms: u64,
    pub within_25_ms: u64,
    pub within_100_ms: u64,
    pub within_500_ms: u64,
    pub within_1_s: u64,
    /// The number of commits that were made.
    pub all: u64,
    /// The time that they took together, in microseconds.
    pub micros: u64,
    /// The number of commits that failed. No other count has them in it.
    pub failed: u64,
}

impl Commits {
    /// The same with one more commit, which took so many microseconds.
    pub fn with_commit(self, micros: u64) -> Commits
        ensures { result ≡ with_commit micros self }
    {
        Commits {
            within_1_ms: counted_within(1_000, micros, self.within_1_ms),
            within_2500_us: counted_within(2_500, micros, self.within_2500_us),
            within_5_ms: counted_within(5_000, micros, self.within_5_ms),
            within_10_ms: counted_within(10_000, micros, self.within_10_ms),
            within_25_ms: counted_within(25_000, micros, self.within_25_ms),
            within_100_ms: counted_within(100_000, micros, self.within_100_ms),
            within_500_ms: counted_within(500_000, micros, self.within_500_ms),
            within_1_s: counted_within(1_000_000, micros, self.within_1_s),
            all: self.all.saturating_add(1),
            micros: self.micros.saturating_add(micros),
            failed: self.failed,
        }
    }

    /// The same with one more commit that failed.
    pub fn with_failure(self) -> Commits
        ensures { result ≡ with_failure self }
    {
        Commits {
            failed: self.failed.saturating_add(1),
            ..self
        }
    }
}

/// A count with one more commit, if that took at most so many microseconds.
fn counted_within(most: u64, micros: u64, count: u64) -> u64
    ensures { result ≡ counted_within most micros count }
{
    if micros <= most {
        count.saturating_add(1)
    } else {
        count
    }
}
