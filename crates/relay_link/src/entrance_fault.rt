//! Causes for which the rooms in which clients may enter stay as they are.
use std::alloc::AllocError;

/// The cause for which a room is not opened to clients, or not closed.
///
/// ```
/// let mut entrance = Entrance::Open;
/// assert!(rt; entrance.exclude("board") == Err(EntranceFault::AllOpen));
/// assert!(rt; entrance.lets_in("board"));
/// ```
#[derive(Clone, Copy, Debug, PartialEq, Eq)]
pub enum EntranceFault {
    /// Clients may enter every room, so that none can be closed.
    AllOpen,
    /// Clients may enter as many rooms as there may be.
    Full,
    /// Memory was refused.
    NoMemory,
}

impl From<AllocError> for EntranceFault {
    ghost use Rattle.std.specs.Prelude.{◌≡◌};
    ghost use Rattle.relay_link.specs.declared.entrance_fault.EntranceFault.TheVariants.{NoMemory};

    ghost from_gives = { λ _ fault. fault ≡ NoMemory };

    fn from(_: AllocError) -> EntranceFault {
        EntranceFault::NoMemory
    }
}
