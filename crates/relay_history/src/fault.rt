//! The errors of creating a history.
use std::alloc::AllocError;
use thiserror::Error;

/// The reason why [`History::new`](crate::History::new) fails, in the order of the checks.
///
/// ```
/// assert!(rt; matches!(History::new(alloc, 0, 0), Err(HistoryFault::BadLimit)));
/// assert!(rt; matches!(History::new(alloc, 64, LAST_REVISION + 1), Err(HistoryFault::BadLimit)));
/// ```
#[derive(Clone, Copy, Debug, PartialEq, Eq, Error)]
pub enum HistoryFault {
    /// The limit is not 1 to 1,024, or the revision to start from is above `2^53 - 1`.
    #[error("a history holds 1 to 1,024 revisions and starts from 0 to 2^53 - 1")]
    BadLimit,
    #[error("out of memory")]
    NoMemory,
}

impl From<AllocError> for HistoryFault {
    ghost use Rattle.std.specs.Prelude.{◌≡◌};
    ghost use Rattle.relay_history.specs.declared.fault.HistoryFault.TheVariants.{NoMemory};

    ghost from_gives = { λ _ fault. fault ≡ NoMemory };

    fn from(_: AllocError) -> HistoryFault {
        HistoryFault::NoMemory
    }
}
