//! A store in a file.
ghost use Rattle.std.specs.Prelude.{◌≡◌, IfOk, IsTrue, map};
ghost use Rattle.sqlite_trees.specs.View.{IsClean};
ghost use Rattle.sqlite_std_file.specs.File.{file_is_usable};
ghost use Rattle.sqlite_store.specs.FileStore.{view};
ghost use Rattle.relay_store.specs.Kept.{begun, committed};
ghost use Rattle.relay_store.specs.Texts.{owned};
ghost use Rattle.relay_store_sqlite.specs.Rows.{kept_in};
ghost use Rattle.relay_store_sqlite.specs.Table.{IsReady};

use crate::header::check_header;
use crate::log_beside::LogBefore;
use crate::opening::{Opened, adopt, statement_fault};
use relay_store::StoreFault;
use sqlite::{Connection, FileFrom, FileStore, Files, Options, Start};
use sqlite_std_file::OpenError;
use std::fs;
use std::hash::{BuildHasher, RandomState};
use std::io::ErrorKind;

/// Opens the file at a path as a store. If there is none, or it is empty, it is made with the epoch
/// `new_epoch`; if that is none, nothing is made. Its log lies beside it (`PATH-wal`), and the two
/// belong together. A commit is synced before it returns.
///
/// A file that is refused stays as it is, and no log is left beside it that was not there.
/// `CannotOpen` if there is no such folder, or the path names no plain file of one name, or no file
/// and none is made. `ReadOnly` if the system lets nobody write the file or its folder. `InUse` if
/// another process has it open. `NotAStore` if it is no database, or another program's, or nothing
/// is made and it is empty. `OtherVersion` if its tables have another version. `Damaged` if its
/// pages or rows are unsound.
///
/// `start` stands for what the files hold, in clauses alone. A program passes `Unknown`, which
/// supposes that a write which a crash tears leaves each byte old or new; `Wary` does not, and each
/// commit syncs twice.
pub fn open<S: Start>(
    rt: &HostRuntime,
    path: &str,
    new_epoch: Option<u64>,
    start: S,
) -> Result<Opened<FileStore<FileFrom<S>>>, StoreFault>
    ensures settled { IfOk result (λ o. IsClean (view o.store.store) →
        IsReady (view o.store.store) o.store.next) }
    ensures epoch { IfOk result (λ o. IsClean (view o.store.store) →
        o.epoch ≡ (kept_in (view o.store.store).committed).epoch) }
    ensures kept { IfOk result (λ o. IsClean (view o.store.store) →
        kept_in (view o.store.store).committed
        ≡ committed (begun o.epoch) (map owned o.changes.items)) }
{
    if new_epoch.is_none() {
        let Ok(true) = fs::exists(rt, path) else {
            return Err(StoreFault::CannotOpen);
        };
    }
    let log = LogBefore::of(rt, path)?;
    check_header(rt, path, new_epoch.is_some(), log != LogBefore::None)?;
    let options = options(rt)?;
    let files = open_files(rt, path, start)?;
    match Connection::open_files(rt.alloc(), files, options) {
        Ok(conn) => take(rt, path, log, conn, new_epoch),
        Err((error, files)) => {
            log.put_back(rt, path);
            drop(files);
            Err(statement_fault(error))
        }
    }
}

/// Takes an open file as a store. If it is refused, its log is as it was.
fn take<S: Start>(
    rt: &HostRuntime,
    path: &str,
    log: LogBefore,
    conn: Connection<FileStore<FileFrom<S>>>,
    new_epoch: Option<u64>,
) -> Result<Opened<FileStore<FileFrom<S>>>, StoreFault>
    ensures settled { IfOk result (λ o. IsClean (view o.store.store) →
        IsReady (view o.store.store) o.store.next) }
    ensures epoch { IfOk result (λ o. IsClean (view o.store.store) →
        o.epoch ≡ (kept_in (view o.store.store).committed).epoch) }
    ensures kept { IfOk result (λ o. IsClean (view o.store.store) →
        kept_in (view o.store.store).committed
        ≡ committed (begun o.epoch) (map owned o.changes.items)) }
{
    match adopt(rt.alloc(), conn, new_epoch) {
        Ok(opened) => Ok(Opened {
            log_before: log,
            ..opened
        }),
        Err((fault, store)) => {
            log.put_back(rt, path);
            drop(store);
            Err(fault)
        }
    }
}

/// Closes a store that was opened at this path and only read. Beside the file is then what was
/// there before the open.
pub fn close_read<S: Start>(rt: &HostRuntime, path: &str, opened: Opened<FileStore<FileFrom<S>>>) {
    opened.log_before.put_back(rt, path);
    drop(opened);
}

/// The options of a database, with a random number of its own. `CannotOpen` if the system has none.
fn options(rt: &HostRuntime) -> Result<Options, StoreFault> {
    match RandomState::new(rt) {
        Ok(random) => Ok(Options::new(random.hash_one(&0u8))),
        Err(_) => Err(StoreFault::CannotOpen),
    }
}

/// Opens the file at a path and its log, and makes those that are missing.
fn open_files<S: Start>(
    rt: &HostRuntime,
    path: &str,
    start: S,
) -> Result<Files<FileFrom<S>>, StoreFault>
    ensures log { IfOk result (λ files. IsTrue (file_is_usable S.Start files.log)) }
    ensures db { IfOk result (λ files. IsTrue (file_is_usable S.Start files.db)) }
{
    // As the kit refuses them where it opens a path by itself.
    if path == ":memory:" || path.starts_with("file:") {
        return Err(StoreFault::CannotOpen);
    }
    match sqlite_std_file::open(rt, path, start) {
        Ok(files) => Ok(files),
        Err(error) => Err(file_fault(error)),
    }
}

/// The fault of files that the system does not open.
fn file_fault(error: OpenError) -> StoreFault {
    match error {
        OpenError::OutOfMemory => StoreFault::NoMemory,
        OpenError::Busy => StoreFault::InUse,
        OpenError::HotJournal => StoreFault::CannotOpen,
        OpenError::Io(error) => match error.kind() {
            ErrorKind::OutOfMemory => StoreFault::NoMemory,
            ErrorKind::PermissionDenied | ErrorKind::ReadOnlyFilesystem => StoreFault::ReadOnly,
            _ => StoreFault::CannotOpen,
        },
    }
}
