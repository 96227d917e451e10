//! The changes that the table holds, read back.
ghost use Rattle.std.specs.Prelude.{◌≡◌, ◌++◌, [], ◌∷◌, pos, IfOk, IfErr, OnOk, map};
ghost use Rattle.std.specs.Prelude.{string_bytes};
ghost use Rattle.sqlite_trees.specs.View.{IsClean, IsQuiet};
ghost use Rattle.sqlite_trees.specs.declared.store.Shape.TheVariants.{Table};
ghost use Rattle.sqlite_value.specs.declared.value.Value.TheVariants.{Int};
ghost use Rattle.sqlite_value.specs.Order.{column, bytes};
ghost use Rattle.relay_store.specs.Store.{HasCause};
ghost use Rattle.relay_store.specs.Texts.{owned};
ghost use Rattle.relay_store.specs.declared.fault.StoreFault.TheVariants.{Damaged};
ghost use Rattle.relay_store_sqlite.specs.Fault.{IsUnread};
ghost use Rattle.relay_store_sqlite.specs.Rows.{change_of, change_with};
ghost use Rattle.relay_store_sqlite.specs.Table.{HasEpoch, IsNextRow, WasRead};
ghost use Rattle.relay_store_sqlite.specs.declared.write.TheConstants.{META_TREE};

use crate::fault::fault_of;
use crate::live::LiveRows;
use crate::row::{BEGIN, DROP_WILL, EDIT, END, LEAVE_WILL, RAISE_FLOOR};
use crate::write::{CHANGE_TREE, META_TREE};
use relay_store::{Change, StoreFault};
use sqlite_trees::store::{Direction, Store};
use sqlite_value::row::Row;
use sqlite_value::value::ValueRef;
use std::alloc::Global;

/// The cursor of this module.
const CURSOR: u16 = 0;

/// The number in a column. `Damaged` if there is none.
pub(crate) fn number_at(row: &Row, at: usize) -> Result<u64, StoreFault>
    ensures ok { IfOk result (λ n. column row.now at ≡ Int (pos n)) }
    ensures err { IfErr result (λ fault. fault ≡ Damaged) }
{
    match row.get(at) {
        ValueRef::Int(n) => u64::try_from(n).map_err(|_| StoreFault::Damaged),
        _ => Err(StoreFault::Damaged),
    }
}

/// Reads the epoch, by way of a row. `Damaged` if there is none.
pub(crate) fn read_epoch<S: Store>(store: &mut S, row: &mut Row) -> Result<u64, StoreFault>
    requires table { IsClean (S.view store.old) → (S.view store.old).shape META_TREE ≡ Table }
    ensures read { IfOk result (λ epoch. IsClean (S.view store.new) →
        HasEpoch (S.view store.old) (S.view store.new) epoch) }
    ensures quiet { IsQuiet S.view S.faults S.recovers S.is_shielded store.old store.new }
    ensures cause { IsClean (S.view store.new) →
        HasCause (S.faults store.old) (S.faults store.new) result }
{
    row.clear();
    if let Err(error) = store.seek(CURSOR, META_TREE, row, Direction::Forward) {
        return Err(fault_of(error));
    }
    match store.next(CURSOR, row) {
        Ok(true) => number_at(row, 2),
        Ok(false) => Err(StoreFault::Damaged),
        Err(error) => Err(fault_of(error)),
    }
}

/// A copy of the text in a column. `Damaged` if there is none.
fn text_at(alloc: Global, row: &Row, at: usize) -> Result<String, StoreFault>
    ensures ok { IfOk result (λ text. string_bytes text ≡ bytes (column row.now at)) }
    ensures err { IfErr result IsUnread }
{
    let ValueRef::Text(bytes) = row.get(at) else {
        return Err(StoreFault::Damaged);
    };
    let Ok(text) = std::str::from_utf8(bytes) else {
        return Err(StoreFault::Damaged);
    };
    Ok(text.to_string(alloc)?)
}

/// The change that a row stands for. `Damaged` if it stands for none.
fn change_at(alloc: Global, row: &Row) -> Result<Change<String>, StoreFault>
    ensures ok { IfOk result (λ change. owned change ≡ change_of row.now) }
    ensures err { IfErr result IsUnread }
{
    let kind = number_at(row, 2)?;
    let room = text_at(alloc, row, 3)?;
    let number = number_at(row, 4)?;
    let text = text_at(alloc, row, 5)?;
    change_with(kind, room, number, text)
}

/// The change of that kind. `Damaged` if there is no such kind.
fn change_with(
    kind: u64,
    room: String,
    number: u64,
    text: String,
) -> Result<Change<String>, StoreFault>
    ensures ok { IfOk result (λ change. owned change
        ≡ change_with kind (string_bytes room) number (string_bytes text)) }
    ensures err { IfErr result IsUnread }
{
    if kind == BEGIN as u64 {
        return Ok(Change::Begin {
            room,
            revision: number,
            text,
        });
    }
    if kind == EDIT as u64 {
        return Ok(Change::Edit {
            room,
            revision: number,
            text,
        });
    }
    if kind == END as u64 {
        return Ok(Change::End { room });
    }
    if kind == RAISE_FLOOR as u64 {
        return Ok(Change::RaiseFloor { revision: number });
    }
    if kind == LEAVE_WILL as u64 {
        return Ok(Change::LeaveWill {
            session: number,
            room,
            text,
        });
    }
    if kind == DROP_WILL as u64 {
        return Ok(Change::DropWill { session: number });
    }
    Err(StoreFault::Damaged)
}

/// Adds the change of a row, notes its rowid, and returns the rowid after its own. `Damaged` if
/// that is not above all rowids so far, which are below `next`.
fn add_row(
    alloc: Global,
    row: &Row,
    live: &mut LiveRows,
    next: u64,
    all: &mut Vec<Change<String>>,
) -> Result<u64, StoreFault>
    ensures change { OnOk result
        (map owned all.new.items ≡ map owned all.old.items ++ change_of row.now ∷ []) }
    ensures id { IfOk result (λ after. IsNextRow next row.now after) }
    ensures err { IfErr result IsUnread }
{
    let id = number_at(row, 0)?;
    if id < next || id == u64::MAX {
        return Err(StoreFault::Damaged);
    }
    let change = change_at(alloc, row)?;
    live.note(id, change.borrow())?;
    all.push(change)?;
    Ok(id + 1)
}

/// Reads all changes, in order, by way of a row, and notes their rowids. Returns also a rowid above
/// all of theirs.
pub(crate) fn read_all<S: Store>(
    alloc: Global,
    store: &mut S,
    row: &mut Row,
    live: &mut LiveRows,
) -> Result<(Vec<Change<String>>, u64), StoreFault>
    requires table { IsClean (S.view store.old) → (S.view store.old).shape CHANGE_TREE ≡ Table }
    ensures read { IfOk result (λ r. IsClean (S.view store.new) →
        WasRead (S.view store.old) (S.view store.new) (map owned r.0.items) r.1) }
    ensures quiet { IsQuiet S.view S.faults S.recovers S.is_shielded store.old store.new }
    ensures cause { IsClean (S.view store.new) →
        HasCause (S.faults store.old) (S.faults store.new) result }
{
    let mut all = Vec::new(alloc);
    let mut next = 1;
    row.clear();
    if let Err(error) = store.seek(CURSOR, CHANGE_TREE, row, Direction::Forward) {
        return Err(fault_of(error));
    }
    for _ in 0..u64::MAX {
        match store.next(CURSOR, row) {
            Ok(true) => next = add_row(alloc, row, live, next, &mut all)?,
            Ok(false) => return Ok((all, next)),
            Err(error) => return Err(fault_of(error)),
        }
    }
    Err(StoreFault::Damaged)
}
