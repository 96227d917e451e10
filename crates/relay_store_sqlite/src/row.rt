//! The row of a change.
ghost use Rattle.std.specs.Prelude.{◌≡◌, ℕ, pos, OnOk, IfOk, IfErr};
ghost use Rattle.relay_store.specs.Texts.{lent};
ghost use Rattle.relay_store.specs.declared.fault.StoreFault.TheVariants.{NoMemory, TooBig};
ghost use Rattle.relay_store_sqlite.specs.Rows.{entry, row_of};
ghost use Rattle.relay_store_sqlite.specs.Fault.{IsOwn};

use relay_store::{Change, StoreFault};
use sqlite_value::row::Row;
use sqlite_value::value::ValueRef;

pub(crate) const BEGIN: u32 = 0;

pub(crate) const EDIT: u32 = 1;

pub(crate) const END: u32 = 2;

pub(crate) const RAISE_FLOOR: u32 = 3;

pub(crate) const LEAVE_WILL: u32 = 4;

pub(crate) const DROP_WILL: u32 = 5;

/// A number as SQLite holds it, at most `2^63 - 1`.
fn signed(number: u64) -> Result<i64, StoreFault>
    ensures ok { IfOk result (λ n. n ≡ pos number) }
    ensures err { IfErr result (λ e. e ≡ TooBig) }
{
    i64::try_from(number).map_err(|_| StoreFault::TooBig)
}

/// Writes these values over a row, behind its rowid.
fn fill(
    row: &mut Row,
    id: u64,
    kind: u32,
    room: &str,
    number: u64,
    text: &str,
) -> Result<(), StoreFault>
    ensures ok { OnOk result (row.new ≡ entry id kind room.now number text.now) }
    ensures err { IfErr result IsOwn }
{
    let id = signed(id)?;
    let number = signed(number)?;
    row.clear();
    row.push(ValueRef::Int(id))?;
    row.push(ValueRef::Null)?;
    row.push(ValueRef::Int(i64::from(kind)))?;
    row.push(ValueRef::Text(room.as_bytes()))?;
    row.push(ValueRef::Int(number))?;
    row.push(ValueRef::Text(text.as_bytes()))?;
    Ok(())
}

/// Writes the row of a change over a row.
pub(crate) fn fill_change(row: &mut Row, id: u64, change: Change<&str>) -> Result<(), StoreFault>
    ensures ok { OnOk result (row.new ≡ row_of id (lent change.entry)) }
    ensures err { IfErr result IsOwn }
{
    match change {
        Change::Begin {
            room,
            revision,
            text,
        } => fill(row, id, BEGIN, room, revision, text),
        Change::Edit {
            room,
            revision,
            text,
        } => fill(row, id, EDIT, room, revision, text),
        Change::End { room } => fill(row, id, END, room, 0, ""),
        Change::RaiseFloor { revision } => fill(row, id, RAISE_FLOOR, "", revision, ""),
        Change::LeaveWill {
            session,
            room,
            text,
        } => fill(row, id, LEAVE_WILL, room, session, text),
        Change::DropWill { session } => fill(row, id, DROP_WILL, "", session, ""),
    }
}
