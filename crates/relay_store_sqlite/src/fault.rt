//! The errors of a database as faults of a store.
ghost use Rattle.std.specs.Prelude.{◌≡◌};
ghost use Rattle.relay_store_sqlite.specs.Fault.{fault_of};

use relay_store::StoreFault;
use sqlite_trees::error::StoreError;

/// The fault that an error of the database is told as.
pub(crate) fn fault_of(error: StoreError) -> StoreFault
    ensures { result ≡ fault_of error }
{
    match error {
        StoreError::OutOfMemory => StoreFault::NoMemory,
        StoreError::Io => StoreFault::Failed,
        StoreError::Corrupt => StoreFault::Damaged,
        StoreError::Full => StoreFault::Full,
        StoreError::Broken => StoreFault::Closed,
        StoreError::Unstorable => StoreFault::TooBig,
    }
}
