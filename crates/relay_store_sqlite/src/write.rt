//! The rows of a commit, before they are committed.
ghost use Rattle.std.specs.Prelude.{◌≡◌, ◌⊎◌, ◌+◌, ◌≤◌, ◌^◌, ◌<◌, OnOk, [], ◌∷◌, map, length};
ghost use Rattle.sqlite_trees.specs.View.{doubt, IsClean, IsQuiet, SetsTree};
ghost use Rattle.sqlite_trees.specs.Tree.{Trees, put_row};
ghost use Rattle.sqlite_trees.specs.declared.store.Shape.TheVariants.{Table};
ghost use Rattle.relay_store.specs.Kept.{committed};
ghost use Rattle.relay_store.specs.Store.{HasCause};
ghost use Rattle.relay_store.specs.Texts.{lent};
ghost use Rattle.relay_store_sqlite.specs.Rows.{row_of, kept_in};
ghost use Rattle.relay_store_sqlite.specs.Table.{AreBelow, IsReady, Wrote};

use crate::fault::fault_of;
use crate::live::LiveRows;
use crate::remove::remove_replaced;
use crate::row::fill_change;
use relay_store::{Change, StoreFault};
use sqlite_trees::store::Store;
use sqlite_value::row::Row;

/// The tree of the table `meta`.
pub(crate) const META_TREE: u32 = 0;

/// The tree of the table `change`.
pub(crate) const CHANGE_TREE: u32 = 1;

/// Puts the row of one change, by way of a row.
fn put_change<S: Store>(
    store: &mut S,
    row: &mut Row,
    id: u64,
    change: Change<&str>,
) -> Result<(), StoreFault>
    requires table { IsClean (S.view store.old) → (S.view store.old).shape CHANGE_TREE ≡ Table }
    ensures ok { OnOk result (IsClean (S.view store.new) → SetsTree (S.view store.old)
        (S.view store.new) CHANGE_TREE (put_row (row_of id (lent change.entry)))) }
    ensures quiet { IsQuiet S.view S.faults S.recovers S.is_shielded store.old store.new }
    ensures cause { IsClean (S.view store.new) →
        HasCause (S.faults store.old) (S.faults store.new) result }
{
    fill_change(row, id, change)?;
    store.put(CHANGE_TREE, row).map_err(fault_of)
}

/// Puts the row of one change in place of those that it replaces, by way of a row.
fn put_one<S: Store>(
    store: &mut S,
    row: &mut Row,
    live: &mut LiveRows,
    id: u64,
    change: Change<&str>,
) -> Result<(), StoreFault>
    requires table { IsClean (S.view store.old) → (S.view store.old).shape CHANGE_TREE ≡ Table }
    requires below { IsClean (S.view store.old) →
        AreBelow id ((S.view store.old).trees CHANGE_TREE) }
    ensures ok { OnOk result (IsClean (S.view store.new) →
        Wrote (S.view store.old) (S.view store.new) (id + 1) (lent change.entry ∷ [])) }
    ensures quiet { IsQuiet S.view S.faults S.recovers S.is_shielded store.old store.new }
    ensures cause { IsClean (S.view store.new) →
        HasCause (S.faults store.old) (S.faults store.new) result }
{
    let ids = live.take(change);
    live.note(id, change)?;
    remove_replaced(store, row, ids.as_slice(), change)?;
    put_change(store, row, id, change)?;
    Ok(())
}

/// Puts the rows of changes, from this rowid on.
pub(crate) fn put_all<S: Store>(
    store: &mut S,
    row: &mut Row,
    live: &mut LiveRows,
    next: u64,
    changes: &[Change<&str>],
) -> Result<(), StoreFault>
    requires table { IsClean (S.view store.old) → (S.view store.old).shape CHANGE_TREE ≡ Table }
    requires below { IsClean (S.view store.old) →
        AreBelow next ((S.view store.old).trees CHANGE_TREE) }
    requires fits { next + length changes.now < 2 ^ 64 }
    ensures ok { OnOk result (IsClean (S.view store.new) → Wrote (S.view store.old)
        (S.view store.new) (next + length changes.now) (map lent changes.now)) }
    ensures quiet { IsQuiet S.view S.faults S.recovers S.is_shielded store.old store.new }
    ensures cause { IsClean (S.view store.new) →
        HasCause (S.faults store.old) (S.faults store.new) result }
{
    let mut id = next;
    for change in changes {
        put_one(store, row, live, id, *change)?;
        id += 1;
    }
    Ok(())
}

/// Puts the rows of changes from this rowid on, and commits them.
pub(crate) fn commit_all<S: Store>(
    store: &mut S,
    row: &mut Row,
    live: &mut LiveRows,
    next: u64,
    changes: &[Change<&str>],
) -> Result<(), StoreFault>
    requires ready { IsClean (S.view store.old) → IsReady (S.view store.old) next }
    requires fits { next + length changes.now < 2 ^ 64 }
    ensures ready { OnOk result (IsClean (S.view store.new) →
        IsReady (S.view store.new) (next + length changes.now)) }
    ensures kept { OnOk result (IsClean (S.view store.new) → kept_in (S.view store.new).committed
        ≡ committed (kept_in (S.view store.old).committed) (map lent changes.now)) }
    ensures crash { IsClean (S.view store.new) → (db : Trees) → S.recovers store.new db →
        S.recovers store.old db ⊎ (kept_in db
        ≡ committed (kept_in (S.view store.old).committed) (map lent changes.now)) }
    ensures clean { doubt (S.view store.old).is_clean ≤ doubt (S.view store.new).is_clean }
    ensures cause { IsClean (S.view store.new) →
        HasCause (S.faults store.old) (S.faults store.new) result }
{
    put_all(store, row, live, next, changes)?;
    match store.commit() {
        Ok(()) => Ok(()),
        Err(error) => Err(fault_of(error)),
    }
}
