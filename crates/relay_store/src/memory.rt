//! A store in memory, for tests: a list of all changes since it began.
ghost use Rattle.std.specs.Prelude.{◌≡◌, IfOk, map};
ghost use Rattle.relay_store.specs.Kept.{begun, committed};
ghost use Rattle.relay_store.specs.Memory.{kept_in};
ghost use Rattle.relay_store.specs.Texts.{lent, owned};

use crate::change::Change;
use crate::fault::StoreFault;
use crate::keeps::Keeps;
use std::alloc::{AllocError, Global};

/// A store in memory. A crash of what it stands for leaves exactly what the last commit left. It
/// fails only for memory, and a commit that fails changes nothing. A checkpoint does nothing.
///
/// ```
/// let mut store = MemoryStore::new(alloc, 7);
/// store.commit(&[Change::RaiseFloor { revision: 12 }]).ok()?;
/// assert!(rt; matches!(store.read().ok()?.pop(), Some(Change::RaiseFloor { revision: 12 })));
/// ```
#[derive(Drop)]
pub struct MemoryStore {
    alloc: Global,
    epoch: u64,
    changes: Vec<Change<String>>,
}

impl MemoryStore {
    /// Begins a store of that epoch. Allocates nothing yet.
    pub fn new(alloc: Global, epoch: u64) -> MemoryStore
        ensures { kept_in result ≡ begun epoch }
    {
        MemoryStore {
            alloc,
            epoch,
            changes: Vec::new(alloc),
        }
    }

    /// Returns the epoch.
    pub fn epoch(&self) -> u64
        ensures { result ≡ (kept_in self.now).epoch }
    {
        self.epoch
    }

    /// Returns copies of changes that make what is kept out of a new store of the same epoch.
    pub fn read(&self) -> Result<Vec<Change<String>>, StoreFault>
        ensures { IfOk result (λ changes. kept_in self.now
            ≡ committed (begun (kept_in self.now).epoch) (map owned changes.items)) }
    {
        Ok(read_back(self.alloc, &self.changes)?)
    }
}

/// Copies changes with their texts.
fn copied(alloc: Global, changes: &[Change<&str>]) -> Result<Vec<Change<String>>, AllocError>
    ensures { IfOk result (λ all. map owned all.items
        ≡ map lent changes.now) }
{
    let mut all = Vec::new(alloc);
    for change in changes {
        all.push(change.into_owned(alloc)?)?;
    }
    Ok(all)
}

/// Copies changes with their texts.
fn read_back(alloc: Global, changes: &[Change<String>]) -> Result<Vec<Change<String>>, AllocError>
    ensures { IfOk result (λ all. map owned all.items
        ≡ map owned changes.now) }
{
    let mut all = Vec::new(alloc);
    for change in changes {
        all.push(change.borrow().into_owned(alloc)?)?;
    }
    Ok(all)
}

impl Keeps for MemoryStore {
    ghost use Rattle.std.specs.Prelude.{◌≡◌, ⊤, refl};
    ghost use Rattle.relay_store.specs.Memory.{kept_in};

    ghost kept = { kept_in };

    ghost may_leave = { λ store left. left ≡ kept_in store };

    ghost is_settled = { λ store. ⊤ };

    ghost is_clean = { λ store. ⊤ };

    ghost faults = { λ store. 0 };

    ghost is_checkpointed = { λ store. ⊤ };

    fn commit(&mut self, changes: &[Change<&str>]) -> Result<(), StoreFault> {
        let mut more = copied(self.alloc, changes)?;
        Ok(self.changes.append(&mut more)?)
    }

    fn checkpoint(&mut self) -> Result<(), StoreFault> {
        Ok(())
    }

    ghost durable = { λ store _ _. (λ left is. is, refl) };
}
