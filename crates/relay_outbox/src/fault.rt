//! The errors of creating an outbox.
use std::alloc::AllocError;
use thiserror::Error;

/// The reason why [`Outbox::new`](crate::Outbox::new) fails, in the order of the checks.
///
/// ```
/// let none: Result<Outbox<u64, u64>, OutboxFault> = Outbox::new(alloc, 0);
/// assert!(rt; matches!(none, Err(OutboxFault::BadLimit)));
/// ```
#[derive(Clone, Copy, Debug, PartialEq, Eq, Error)]
pub enum OutboxFault {
    /// The limit of waiting patches is not 1 to 256.
    #[error("1 to 256 patches may wait in an outbox")]
    BadLimit,
    #[error("out of memory")]
    NoMemory,
}

impl From<AllocError> for OutboxFault {
    ghost use Rattle.std.specs.Prelude.{◌≡◌};
    ghost use Rattle.relay_outbox.specs.declared.fault.OutboxFault.TheVariants.{NoMemory};

    ghost from_gives = { λ _ fault. fault ≡ NoMemory };

    fn from(_: AllocError) -> OutboxFault {
        OutboxFault::NoMemory
    }
}
