//! The faults of the tools for a store.
ghost use Rattle.std.specs.Prelude.{◌≡◌};
ghost use Rattle.relay_server.specs.StoreTools.{fault_status};

use crate::status::Status;
use relay_store::StoreFault;
use std::alloc::{AllocError, AllocFailed};
use thiserror::Error;

/// The cause for which a tool for a store ended early.
#[derive(Clone, Copy, Debug, PartialEq, Eq, Error)]
pub(crate) enum ToolFault {
    /// The store cannot be opened, read or written.
    #[error("{0}")]
    Store(StoreFault),
    /// The log could not be moved into the file. Nothing is lost.
    #[error("{0}: the log stays beside the file, and both have all that was kept")]
    LogStays(StoreFault),
    /// The store keeps something, so nothing is imported.
    #[error("the store is not empty")]
    NotEmpty,
    #[error("no room of this name is kept")]
    NoRoom,
    /// A line of the input is not one that an export has at its place. The first line is 1.
    #[error("line {0} is of no export")]
    Line(u64),
    /// No relay may have the room of this line of the input.
    #[error("line {0} has a room that no relay may have, by its name, revision or document")]
    Room(u64),
    /// No relay may have all rooms of the input.
    #[error("two rooms have one name, or there are more than a relay may have")]
    Rooms,
    #[error("input")]
    Input,
    #[error("output")]
    Output,
    #[error("no memory")]
    NoMemory,
}

impl ToolFault {
    /// The status of the program.
    pub(crate) fn status(self) -> Status
        ensures { result ≡ fault_status self }
    {
        match self {
            ToolFault::NoRoom => Status::NoRoom,
            ToolFault::NoMemory => Status::NoMemory,
            _ => Status::Failed,
        }
    }
}

impl From<StoreFault> for ToolFault {
    ghost use Rattle.std.specs.Prelude.{◌≡◌};
    ghost use Rattle.relay_server.specs.StoreTools.{store_fault};

    ghost from_gives = { λ fault ended. ended ≡ store_fault fault };

    fn from(fault: StoreFault) -> ToolFault {
        match fault {
            StoreFault::NoMemory => ToolFault::NoMemory,
            _ => ToolFault::Store(fault),
        }
    }
}

impl From<AllocError> for ToolFault {
    ghost use Rattle.std.specs.Prelude.{◌≡◌};
    ghost use Rattle.relay_server.specs.declared.tool_fault.ToolFault.TheVariants.{NoMemory};

    ghost from_gives = { λ _ fault. fault ≡ NoMemory };

    fn from(_: AllocError) -> ToolFault {
        ToolFault::NoMemory
    }
}

impl<T: Drop> From<AllocFailed<T>> for ToolFault {
    ghost use Rattle.std.specs.Prelude.{◌≡◌};
    ghost use Rattle.relay_server.specs.declared.tool_fault.ToolFault.TheVariants.{NoMemory};

    ghost from_gives = { λ _ fault. fault ≡ NoMemory };

    fn from(_: AllocFailed<T>) -> ToolFault {
        ToolFault::NoMemory
    }
}
