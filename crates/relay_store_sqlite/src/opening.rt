//! A database as a store: made if it is empty, refused if it is another program's.
ghost use Rattle.std.specs.Prelude.{◌≡◌, IfOk, map};
ghost use Rattle.sqlite_trees.specs.View.{IsClean};
ghost use Rattle.relay_store.specs.Kept.{begun, committed};
ghost use Rattle.relay_store.specs.Texts.{owned};
ghost use Rattle.relay_store_sqlite.specs.Rows.{kept_in};
ghost use Rattle.relay_store_sqlite.specs.Table.{IsReady};

use crate::log_beside::LogBefore;
use crate::store::SqliteStore;
use relay_store::{Change, StoreFault};
use sqlite::{Alter, Connection, Error, ErrorCode, params};
use std::alloc::Global;

/// The version of the tables.
const VERSION: i64 = 1;

/// The table of the epoch. Its tree is the first.
const META: &str = "CREATE TABLE meta (id INTEGER PRIMARY KEY, epoch INTEGER NOT NULL, \
    version INTEGER NOT NULL) STRICT";

/// The table of the changes. Its tree is the second.
const CHANGE: &str = "CREATE TABLE change (id INTEGER PRIMARY KEY, kind INTEGER NOT NULL, \
    room TEXT NOT NULL, number INTEGER NOT NULL, text TEXT NOT NULL) STRICT";

/// The fault that an error of a statement is told as.
pub(crate) fn statement_fault(error: Error) -> StoreFault {
    match error {
        Error::SqliteFailure(ErrorCode::OutOfMemory) => StoreFault::NoMemory,
        Error::SqliteFailure(ErrorCode::SystemIoFailure) => StoreFault::Failed,
        Error::SqliteFailure(ErrorCode::DiskFull) => StoreFault::Full,
        Error::SqliteFailure(ErrorCode::DatabaseCorrupt) => StoreFault::Damaged,
        Error::SqliteFailure(ErrorCode::Closed) => StoreFault::Closed,
        Error::SqliteFailure(ErrorCode::CannotOpen) => StoreFault::CannotOpen,
        Error::SqliteFailure(ErrorCode::DatabaseBusy) => StoreFault::InUse,
        _ => StoreFault::NotAStore,
    }
}

/// The first number of the first row of a query.
fn number<S: Alter>(conn: &mut Connection<S>, sql: &str) -> Result<i64, Error> {
    conn.query_row(sql, &[])?.get(0)
}

/// Makes the tables of a store, all at once.
fn make<S: Alter>(conn: &mut Connection<S>, epoch: i64) -> Result<(), Error> {
    if !conn.is_autocommit() {
        return Err(Error::SqliteFailure(ErrorCode::TransactionState));
    }
    let mut making = conn.transaction();
    making.execute(META, &[])?;
    making.execute(CHANGE, &[])?;
    making.execute(
        "INSERT INTO meta VALUES (1, ?1, ?2)",
        params![epoch, VERSION],
    )?;
    making.commit()
}

/// Returns whether the database has the tables of a store, and nothing else.
fn has_tables<S: Alter>(conn: &mut Connection<S>) -> Result<bool, Error> {
    let known: i64 = conn
        .query_row(
            "SELECT count(*) FROM sqlite_schema WHERE sql IN (?1, ?2)",
            params![META, CHANGE],
        )?
        .get(0)?;
    Ok(known == 2 && number(conn, "SELECT count(*) FROM sqlite_schema")? == 2)
}

/// Returns whether the database has no tables.
fn is_empty<S: Alter>(conn: &mut Connection<S>) -> Result<bool, StoreFault> {
    let tables = number(conn, "SELECT count(*) FROM sqlite_schema").map_err(statement_fault)?;
    Ok(tables == 0)
}

/// Makes the tables in an empty database, if it is to have an epoch, or checks those that it has.
fn prepare<S: Alter>(conn: &mut Connection<S>, new_epoch: Option<u64>) -> Result<(), StoreFault> {
    if is_empty(conn)? {
        return begin(conn, new_epoch);
    }
    let version = number(conn, "SELECT version FROM meta WHERE id = 1").map_err(statement_fault)?;
    if version != VERSION {
        return Err(StoreFault::OtherVersion);
    }
    if !has_tables(conn).map_err(statement_fault)? {
        return Err(StoreFault::NotAStore);
    }
    Ok(())
}

/// Makes the tables in an empty database, if it is to have an epoch.
fn begin<S: Alter>(conn: &mut Connection<S>, new_epoch: Option<u64>) -> Result<(), StoreFault> {
    let Some(epoch) = new_epoch else {
        return Err(StoreFault::NotAStore);
    };
    let Ok(epoch) = i64::try_from(epoch) else {
        return Err(StoreFault::TooBig);
    };
    make(conn, epoch).map_err(statement_fault)
}

/// A store that was opened, and what it keeps.
#[derive(Drop)]
pub struct Opened<S: Alter> {
    pub store: SqliteStore<S>,
    /// The epoch of every run over this store.
    pub epoch: u64,
    /// The changes that make what is kept out of an empty store.
    pub changes: Vec<Change<String>>,
    /// The log that was beside its file before the open.
    pub log_before: LogBefore,
}

/// Takes a database as a store. An empty one gets the tables and the epoch `new_epoch`, in one
/// transaction; if that is none, it is refused. Nothing is written to one that is refused, and its
/// trees come back: `NotAStore` if it is another program's, `OtherVersion` if its tables have
/// another version, `Damaged` if a row stands for no change.
///
/// ```
/// let conn = Connection::open_in_memory(alloc).ok()?;
/// let mut opened = adopt(alloc, conn, Some(7)).ok()?;
/// opened.store.commit(&[Change::RaiseFloor { revision: 12 }]).ok()?;
/// opened.store.checkpoint().ok()?;
/// assert!(rt; opened.epoch == 7 && opened.changes.is_empty());
/// let empty = Connection::open_in_memory(alloc).ok()?;
/// assert!(rt; matches!(adopt(alloc, empty, None).err(), Some((StoreFault::NotAStore, _))));
/// ```
pub fn adopt<S: Alter + Drop>(
    alloc: Global,
    mut conn: Connection<S>,
    new_epoch: Option<u64>,
) -> Result<Opened<S>, (StoreFault, S)>
    ensures settled { IfOk result (λ o. IsClean (S.Store.view o.store.store) →
        IsReady (S.Store.view o.store.store) o.store.next) }
    ensures epoch { IfOk result (λ o. IsClean (S.Store.view o.store.store) →
        o.epoch ≡ (kept_in (S.Store.view o.store.store).committed).epoch) }
    ensures kept { IfOk result (λ o. IsClean (S.Store.view o.store.store) →
        kept_in (S.Store.view o.store.store).committed
        ≡ committed (begun o.epoch) (map owned o.changes.items)) }
{
    let prepared = prepare(&mut conn, new_epoch);
    let store = conn.into_store();
    if let Err(fault) = prepared {
        return Err((fault, store));
    }
    match SqliteStore::over(alloc, store) {
        Ok((store, epoch, changes)) => Ok(Opened {
            store,
            epoch,
            changes,
            log_before: LogBefore::None,
        }),
        Err(refused) => Err(refused),
    }
}
