//! The fault that ends a script early.
use relay_hub::HubNewFault;
use std::alloc::AllocError;
use thiserror::Error;

/// The cause for which a script ended early. The lines before the fault were carried out and their
/// answers written; after `Output` the last answer may be cut.
///
/// ```
/// let mut input = "ann open board\n".as_bytes();
/// let mut output = Vec::new(alloc);
/// // A room keeps the changes of one revision at least.
/// let ended = run_script(alloc, &mut input, &mut output, HubConfig::new(1, 1, 0, 32));
/// assert!(rt; ended == Err(ScriptFault::BadLimit) && output.is_empty());
/// ```
#[derive(Clone, Copy, Debug, PartialEq, Eq, Error)]
pub enum ScriptFault {
    /// The epoch is not a count, or a limit is out of range. Nothing was read or written.
    #[error("a limit out of range")]
    BadLimit,
    /// The reader failed, or was interrupted 1,000 times in a row.
    #[error("input")]
    Input,
    /// The writer failed, accepted no byte, or was interrupted 1,000 times in a row.
    #[error("output")]
    Output,
    /// One of the first 65,536 lines has more than 1,056,768 bytes. The lines before it were
    /// answered.
    #[error("line too long")]
    LineTooLong,
    /// The input has more than 65,536 lines, however long the next one is. The first 65,536 were
    /// answered.
    #[error("too many lines")]
    TooManyLines,
    /// Out of memory outside a call of the hub.
    #[error("no memory")]
    NoMemory,
}

impl From<AllocError> for ScriptFault {
    ghost use Rattle.std.specs.Prelude.{◌≡◌};
    ghost use Rattle.relay_script.specs.declared.fault.ScriptFault.TheVariants.{NoMemory};

    ghost from_gives = { λ _ fault. fault ≡ NoMemory };

    fn from(_: AllocError) -> ScriptFault {
        ScriptFault::NoMemory
    }
}

impl From<HubNewFault> for ScriptFault {
    ghost use Rattle.std.specs.Prelude.{◌≡◌};
    ghost use Rattle.relay_script.specs.Faults.{not_made};

    ghost from_gives = { λ fault ended. ended ≡ not_made fault };

    fn from(fault: HubNewFault) -> ScriptFault {
        match fault {
            HubNewFault::BadLimit => ScriptFault::BadLimit,
            HubNewFault::NoMemory => ScriptFault::NoMemory,
        }
    }
}
