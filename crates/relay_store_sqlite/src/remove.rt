//! The rows that a change replaces, removed before its own is written.
ghost use Rattle.std.specs.Prelude.{◌≡◌, ◌⊎◌, IfOk, OnOk, IsTrue};
ghost use Rattle.sqlite_value.specs.Order.{column, bytes};
ghost use Rattle.sqlite_trees.specs.View.{IsClean, IsQuiet};
ghost use Rattle.sqlite_trees.specs.declared.store.Shape.TheVariants.{Table};
ghost use Rattle.relay_store.specs.Replaced.{is_replaced};
ghost use Rattle.relay_store.specs.Store.{HasCause};
ghost use Rattle.relay_store.specs.Texts.{lent};
ghost use Rattle.relay_store_sqlite.specs.Rows.{change_of};
ghost use Rattle.relay_store_sqlite.specs.Table.{MayGo, Spares};
ghost use Rattle.relay_store_sqlite.specs.declared.row.TheConstants.{LEAVE_WILL, DROP_WILL};
ghost use Rattle.relay_store_sqlite.specs.declared.write.TheConstants.{CHANGE_TREE};

use crate::fault::fault_of;
use crate::read::number_at;
use crate::row::{DROP_WILL, END, LEAVE_WILL, RAISE_FLOOR};
use crate::write::CHANGE_TREE;
use relay_store::{Change, StoreFault};
use sqlite_trees::store::Store;
use sqlite_value::row::Row;
use sqlite_value::value::ValueRef;

/// Returns whether a row is of that room.
fn is_of(row: &Row, room: &str) -> bool
    ensures { IsTrue result → bytes (column row.now 3) ≡ room.now }
{
    match row.get(3) {
        ValueRef::Text(text) => text == room.as_bytes(),
        _ => false,
    }
}

/// Returns whether a change replaces the one that a row stands for.
fn replaces(change: Change<&str>, row: &Row) -> bool
    ensures { IsTrue result → IsTrue (is_replaced (lent change.entry) (change_of row.now)) }
{
    let Ok(kind) = number_at(row, 2) else {
        return false;
    };
    let Ok(number) = number_at(row, 4) else {
        return false;
    };
    match change {
        Change::Begin { room, .. } => kind <= END as u64 && is_of(row, room),
        Change::Edit { .. } => false,
        Change::End { room } => kind <= END as u64 && is_of(row, room),
        Change::RaiseFloor { revision } => kind == RAISE_FLOOR as u64 && number <= revision,
        Change::LeaveWill { session, .. } => is_will(kind) && number == session,
        Change::DropWill { session } => is_will(kind) && number == session,
    }
}

fn is_will(kind: u64) -> bool
    ensures { IsTrue result → (kind ≡ LEAVE_WILL) ⊎ (kind ≡ DROP_WILL) }
{
    kind == LEAVE_WILL as u64 || kind == DROP_WILL as u64
}

/// Returns whether a change replaces the row of that rowid, which it reads.
fn may_go<S: Store>(
    store: &mut S,
    row: &mut Row,
    id: i64,
    change: Change<&str>,
) -> Result<bool, StoreFault>
    requires table { IsClean (S.view store.old) → (S.view store.old).shape CHANGE_TREE ≡ Table }
    ensures ok { IfOk result (λ may. IsClean (S.view store.new) → IsTrue may →
        MayGo ((S.view store.old).trees CHANGE_TREE) id (lent change.entry)) }
    ensures same { OnOk result (IsClean (S.view store.new) → S.view store.new ≡ S.view store.old) }
    ensures quiet { IsQuiet S.view S.faults S.recovers S.is_shielded store.old store.new }
    ensures cause { IsClean (S.view store.new) →
        HasCause (S.faults store.old) (S.faults store.new) result }
{
    match store.get(CHANGE_TREE, id, row) {
        Ok(found) => Ok(found && replaces(change, row)),
        Err(error) => Err(fault_of(error)),
    }
}

/// Removes the row of that rowid if a change replaces it, by way of a row.
fn remove_one<S: Store>(
    store: &mut S,
    row: &mut Row,
    id: u64,
    change: Change<&str>,
) -> Result<(), StoreFault>
    requires table { IsClean (S.view store.old) → (S.view store.old).shape CHANGE_TREE ≡ Table }
    ensures ok { OnOk result (IsClean (S.view store.new) →
        Spares (S.view store.old) (S.view store.new) (lent change.entry)) }
    ensures quiet { IsQuiet S.view S.faults S.recovers S.is_shielded store.old store.new }
    ensures cause { IsClean (S.view store.new) →
        HasCause (S.faults store.old) (S.faults store.new) result }
{
    let Ok(id) = i64::try_from(id) else {
        return Ok(());
    };
    if !may_go(store, row, id, change)? {
        return Ok(());
    }
    match store.delete(CHANGE_TREE, id) {
        Ok(()) => Ok(()),
        Err(error) => Err(fault_of(error)),
    }
}

/// Removes those of these rows that a change replaces.
pub(crate) fn remove_replaced<S: Store>(
    store: &mut S,
    row: &mut Row,
    ids: &[u64],
    change: Change<&str>,
) -> Result<(), StoreFault>
    requires table { IsClean (S.view store.old) → (S.view store.old).shape CHANGE_TREE ≡ Table }
    ensures ok { OnOk result (IsClean (S.view store.new) →
        Spares (S.view store.old) (S.view store.new) (lent change.entry)) }
    ensures quiet { IsQuiet S.view S.faults S.recovers S.is_shielded store.old store.new }
    ensures cause { IsClean (S.view store.new) →
        HasCause (S.faults store.old) (S.faults store.new) result }
{
    for id in ids {
        remove_one(store, row, *id, change)?;
    }
    Ok(())
}
