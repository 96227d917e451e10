//! The store over a database.
ghost use Rattle.std.specs.Prelude.{◌≡◌, IfOk, OnOk, map};
ghost use Rattle.sqlite_trees.specs.View.{IsClean};
ghost use Rattle.relay_store.specs.Texts.{owned};
ghost use Rattle.relay_store_sqlite.specs.Rows.{change_of, epoch_of};
ghost use Rattle.relay_store_sqlite.specs.Table.{IsReady};
ghost use Rattle.relay_store_sqlite.specs.declared.write.TheConstants.{META_TREE, CHANGE_TREE};

use crate::checkpoint::Checkpoint;
use crate::live::LiveRows;
use crate::read::{read_all, read_epoch};
use crate::write::{CHANGE_TREE, META_TREE, commit_all};
use relay_store::{Change, Keeps, StoreFault};
use sqlite_trees::store::{Alter, Shape, Store};
use sqlite_value::row::Row;
use std::alloc::Global;

/// A store of the relay in a SQLite database, over any store of trees: a file or memory.
#[derive(Drop)]
pub struct SqliteStore<S: Store> {
    store: S,
    /// The row that is written or read.
    row: Row,
    /// The rows that a later change may replace.
    live: LiveRows,
    /// The rowid of the next change, above all that there are.
    next: u64,
}

/// The row and the hints of a store, its next rowid, and what it keeps.
#[derive(Drop)]
struct Found {
    row: Row,
    live: LiveRows,
    next: u64,
    epoch: u64,
    changes: Vec<Change<String>>,
}

/// Undoes what was not committed in the trees of a store, and reads its epoch and its changes.
fn found_in<S: Store>(alloc: Global, store: &mut S) -> Result<Found, StoreFault>
    ensures settled { IfOk result (λ f. IsClean (S.view store.new) →
        IsReady (S.view store.new) f.next) }
    ensures found { OnOk result (IsClean (S.view store.new) →
        (S.view store.new).committed ≡ (S.view store.old).committed) }
    ensures epoch { IfOk result (λ f. IsClean (S.view store.new) →
        f.epoch ≡ epoch_of ((S.view store.new).committed META_TREE)) }
    ensures changes { IfOk result (λ f. IsClean (S.view store.new) → map owned f.changes.items
        ≡ map change_of ((S.view store.new).committed CHANGE_TREE)) }
{
    store.rollback();
    if store.is_broken() {
        return Err(StoreFault::Closed);
    }
    if store.shape(META_TREE) != Shape::Table || store.shape(CHANGE_TREE) != Shape::Table {
        return Err(StoreFault::NotAStore);
    }
    let mut row = Row::new(alloc);
    let epoch = read_epoch(store, &mut row)?;
    let mut live = LiveRows::new(alloc);
    let (changes, next) = read_all(alloc, store, &mut row, &mut live)?;
    Ok(Found {
        row,
        live,
        next,
        epoch,
        changes,
    })
}

impl<S: Alter + Drop> SqliteStore<S> {
    /// Takes the trees of a database that has the tables of a store, and reads its epoch and its
    /// changes. What was not committed is undone. Trees that are refused come back: `NotAStore` if
    /// they have other tables, `Damaged` if a row stands for no change, and `Closed` if an earlier
    /// failure shut them.
    pub(crate) fn over(
        alloc: Global,
        mut store: S,
    ) -> Result<(SqliteStore<S>, u64, Vec<Change<String>>), (StoreFault, S)>
        ensures settled { IfOk result (λ r. IsClean (S.Store.view r.0.store) →
            IsReady (S.Store.view r.0.store) r.0.next) }
        ensures found { IfOk result (λ r. IsClean (S.Store.view r.0.store) →
            (S.Store.view r.0.store).committed ≡ (S.Store.view store).committed) }
        ensures epoch { IfOk result (λ r. IsClean (S.Store.view r.0.store) →
            r.1 ≡ epoch_of ((S.Store.view r.0.store).committed META_TREE)) }
        ensures changes { IfOk result (λ r. IsClean (S.Store.view r.0.store) → map owned r.2.items
            ≡ map change_of ((S.Store.view r.0.store).committed CHANGE_TREE)) }
    {
        match found_in(alloc, &mut store) {
            Ok(found) => {
                let opened = SqliteStore {
                    store,
                    row: found.row,
                    live: found.live,
                    next: found.next,
                };
                Ok((opened, found.epoch, found.changes))
            }
            Err(fault) => Err((fault, store)),
        }
    }

    /// Reads the changes that make what is kept out of an empty store of the same epoch.
    pub fn read(&mut self, alloc: Global) -> Result<Vec<Change<String>>, StoreFault>
        requires settled { IsClean (S.Store.view self.old.store) →
            IsReady (S.Store.view self.old.store) self.old.next }
        ensures settled { OnOk result (IsClean (S.Store.view self.new.store) →
            IsReady (S.Store.view self.new.store) self.new.next) }
        ensures same { OnOk result (IsClean (S.Store.view self.new.store) →
            (S.Store.view self.new.store).committed ≡ (S.Store.view self.old.store).committed) }
        ensures changes { IfOk result (λ all. IsClean (S.Store.view self.new.store) →
            map owned all.items
            ≡ map change_of ((S.Store.view self.old.store).committed CHANGE_TREE)) }
    {
        let mut live = LiveRows::new(alloc);
        let (changes, _) = read_all(alloc, &mut self.store, &mut self.row, &mut live)?;
        Ok(changes)
    }
}

impl<S: Checkpoint> Keeps for SqliteStore<S> {
    ghost use Rattle.sqlite_trees.specs.View.{IsClean};
    ghost use Rattle.relay_store_sqlite.specs.Rows.{kept_in};
    ghost use Rattle.relay_store_sqlite.specs.Table.{IsReady};
    ghost use Rattle.relay_store_sqlite.specs.Durable.{left_of, ready_is_durable};

    ghost kept = { λ s. kept_in (S.Store.view s.store).committed };

    ghost may_leave = { λ s. left_of (S.Store.recovers s.store) };

    ghost is_settled = { λ s. IsClean (S.Store.view s.store) →
        IsReady (S.Store.view s.store) s.next };

    ghost is_clean = { λ s. IsClean (S.Store.view s.store) };

    ghost faults = { λ s. S.Store.faults s.store };

    ghost is_checkpointed = { λ s. S.is_checkpointed s.store };

    fn commit(&mut self, changes: &[Change<&str>]) -> Result<(), StoreFault> {
        let Some(after) = self.next.checked_add(changes.len() as u64) else {
            return Err(StoreFault::TooBig);
        };
        commit_all(
            &mut self.store,
            &mut self.row,
            &mut self.live,
            self.next,
            changes,
        )?;
        self.next = after;
        Ok(())
    }

    fn checkpoint(&mut self) -> Result<(), StoreFault> {
        self.store.checkpoint()
    }

    ghost durable = { λ s settled clean. ready_is_durable (S.Store.view s.store)
        (S.Store.recovers s.store) s.next (S.Store.settled s.store) (S.Store.stays s.store)
        (S.Store.broken_if_shut s.store) (settled clean) };
}
