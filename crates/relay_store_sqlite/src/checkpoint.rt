//! The step that moves the log of a database into its file.
ghost use Rattle.sqlite_trees.specs.View.{IsClean, IsQuiet};
ghost use Rattle.std.specs.Prelude.{OnOk};
ghost use Rattle.relay_store.specs.Store.{HasCause};
ghost use Rattle.relay_store_sqlite.specs.Checkpoint.{Settles};

use crate::fault::fault_of;
use relay_store::StoreFault;
use sqlite::{FileStore, MemStore};
use sqlite_disk::Disk;
use sqlite_trees::store::Store;

/// A store of trees that may have a log beside its file. One in memory has none.
pub trait Checkpoint: Store {
    /// No commit is in the log.
    ghost is_checkpointed: { Self → Type 0 };

    /// Undoes what was not committed, and moves the commits into the file. An error loses none of
    /// them.
    fn checkpoint(&mut self) -> Result<(), StoreFault>
        ensures ok { OnOk result (IsClean (Self.Store.view self.new) →
            Settles (Self.Store.view self.old) (Self.Store.view self.new)) }
        ensures moved { OnOk result (IsClean (Self.Store.view self.new) →
            is_checkpointed self.new) }
        ensures quiet { IsQuiet Self.Store.view Self.Store.faults Self.Store.recovers
            Self.Store.is_shielded self.old self.new }
        ensures cause { IsClean (Self.Store.view self.new) →
            HasCause (Self.Store.faults self.old) (Self.Store.faults self.new) result };
}

impl<D: Disk> Checkpoint for FileStore<D> {
    ghost use Rattle.std.specs.Prelude.{◌≡◌};
    ghost use Rattle.sqlite_store.specs.FileStore.{log_frames};

    ghost is_checkpointed = { λ store. log_frames store ≡ 0 };

    fn checkpoint(&mut self) -> Result<(), StoreFault> {
        self.rollback();
        match FileStore::checkpoint(self) {
            Ok(()) => Ok(()),
            Err(error) => Err(fault_of(error)),
        }
    }
}

impl Checkpoint for MemStore {
    ghost use Rattle.std.specs.Prelude.{⊤};

    ghost is_checkpointed = { λ store. ⊤ };

    fn checkpoint(&mut self) -> Result<(), StoreFault> {
        self.rollback();
        if self.is_broken() {
            return Err(StoreFault::Closed);
        }
        Ok(())
    }
}
