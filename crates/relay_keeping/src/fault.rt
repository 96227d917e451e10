//! The errors of keeping rooms.
use relay_store::StoreFault;
use std::alloc::AllocError;
use thiserror::Error;

/// The reason why rooms were not kept.
///
/// ```
/// let fault = KeepFault::Lost(StoreFault::Full);
/// assert!(rt; format!(in alloc; "{fault}").ok()?.as_str() == "the store: the disk is full");
/// ```
#[derive(Clone, Copy, Debug, PartialEq, Eq, Error)]
pub enum KeepFault {
    /// Nothing was committed; the next call keeps what this one did not.
    #[error("out of memory")]
    NoMemory,
    /// A commit failed. The store has what was kept before, or all that this call was to keep, and
    /// takes nothing more.
    #[error("the store: {0}")]
    Lost(StoreFault),
}

impl From<AllocError> for KeepFault {
    ghost use Rattle.std.specs.Prelude.{◌≡◌};
    ghost use Rattle.relay_keeping.specs.declared.fault.KeepFault.TheVariants.{NoMemory};

    ghost from_gives = { λ _ fault. fault ≡ NoMemory };

    fn from(_: AllocError) -> KeepFault {
        KeepFault::NoMemory
    }
}
