//! The errors of a store.
use std::alloc::{AllocError, AllocFailed};
use thiserror::Error;

/// The reason why a store cannot be opened, read or written.
///
/// ```
/// assert!(rt; format!(in alloc; "{}", StoreFault::Full).ok()?.as_str() == "the disk is full");
/// ```
#[derive(Clone, Copy, Debug, PartialEq, Eq, Error)]
pub enum StoreFault {
    #[error("the file cannot be opened")]
    CannotOpen,
    /// Another process has the file open.
    #[error("the file is in use")]
    InUse,
    /// The system lets this user not write the file, or its folder.
    #[error("the file or its folder may not be written")]
    ReadOnly,
    /// The file was written by another program, or is no database.
    #[error("the file is no store of this relay")]
    NotAStore,
    /// The file was written by another version of this relay, whose tables differ.
    #[error("the store has another version")]
    OtherVersion,
    /// The file does not hold what this relay has written.
    #[error("the store is damaged")]
    Damaged,
    #[error("the disk is full")]
    Full,
    /// The disk failed, or refused.
    #[error("the disk failed")]
    Failed,
    /// An earlier failure closed the store.
    #[error("the store is closed by an earlier failure")]
    Closed,
    /// A number or a text does not fit in the store.
    #[error("a number or a text is too big for the store")]
    TooBig,
    /// It keeps more rooms than the relay may have.
    #[error("the store has more rooms than may be")]
    TooManyRooms,
    #[error("out of memory")]
    NoMemory,
}

impl From<AllocError> for StoreFault {
    ghost use Rattle.std.specs.Prelude.{◌≡◌};
    ghost use Rattle.relay_store.specs.declared.fault.StoreFault.TheVariants.{NoMemory};

    ghost from_gives = { λ _ fault. fault ≡ NoMemory };

    fn from(_: AllocError) -> StoreFault {
        StoreFault::NoMemory
    }
}

impl<T: Drop> From<AllocFailed<T>> for StoreFault {
    ghost use Rattle.std.specs.Prelude.{◌≡◌};
    ghost use Rattle.relay_store.specs.declared.fault.StoreFault.TheVariants.{NoMemory};

    ghost from_gives = { λ _ fault. fault ≡ NoMemory };

    fn from(_: AllocFailed<T>) -> StoreFault {
        StoreFault::NoMemory
    }
}
