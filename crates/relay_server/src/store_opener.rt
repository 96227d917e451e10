//! The stores of servers, in files.
ghost use Rattle.std.specs.Prelude.{◌≡◌, IfOk, map};
ghost use Rattle.relay_store.specs.Kept.{begun, committed};
ghost use Rattle.relay_store.specs.Texts.{owned};

use relay_store::{Change, Keeps, StoreFault};
use relay_store_sqlite::{LogBefore, Opened, SqliteStore};
use sqlite::{FileFrom, FileStore, Unknown};

/// A store that was opened, and what it keeps.
#[derive(Drop)]
pub struct OpenStore<K: Keeps> {
    pub store: K,
    /// The epoch of every run over this store.
    pub epoch: u64,
    /// The changes that make what is kept out of an empty store.
    pub changes: Vec<Change<String>>,
    /// The log that was beside its file before the open.
    pub log_before: LogBefore,
}

/// Opens stores. The program's are SQLite databases in files.
pub trait StoreOpener {
    type Store: Keeps + Drop;

    /// Opens the store of that name, or makes it, with the epoch `new_epoch`. One that is refused
    /// stays as it is.
    fn open_store(&self, name: &str, new_epoch: u64) -> Result<OpenStore<Self::Store>, StoreFault>
        ensures settled { IfOk result (λ made. Self.Store.is_settled made.store) }
        ensures kept { IfOk result (λ made. Self.Store.is_clean made.store →
            Self.Store.kept made.store
            ≡ committed (begun made.epoch) (map owned made.changes.items)) };

    /// Opens the store of that name to read it, if there is one: makes neither a store nor a file.
    fn open_made(&self, name: &str) -> Result<OpenStore<Self::Store>, StoreFault>
        ensures settled { IfOk result (λ made. Self.Store.is_settled made.store) }
        ensures kept { IfOk result (λ made. Self.Store.is_clean made.store →
            Self.Store.kept made.store
            ≡ committed (begun made.epoch) (map owned made.changes.items)) };

    /// Closes a store of that name in which nothing was committed since the open. Beside its file
    /// is then what was there before.
    fn close_read(&self, name: &str, open: OpenStore<Self::Store>);
}

impl StoreOpener for HostRuntime {
    type Store = SqliteStore<FileStore<FileFrom<Unknown>>>;

    fn open_store(&self, name: &str, new_epoch: u64) -> Result<OpenStore<Self::Store>, StoreFault> {
        let opened = relay_store_sqlite::open(self, name, Some(new_epoch), Unknown)?;
        Ok(OpenStore {
            store: opened.store,
            epoch: opened.epoch,
            changes: opened.changes,
            log_before: opened.log_before,
        })
    }

    fn open_made(&self, name: &str) -> Result<OpenStore<Self::Store>, StoreFault> {
        let opened = relay_store_sqlite::open(self, name, None, Unknown)?;
        Ok(OpenStore {
            store: opened.store,
            epoch: opened.epoch,
            changes: opened.changes,
            log_before: opened.log_before,
        })
    }

    fn close_read(&self, name: &str, open: OpenStore<Self::Store>) {
        let opened = Opened {
            store: open.store,
            epoch: open.epoch,
            changes: open.changes,
            log_before: open.log_before,
        };
        relay_store_sqlite::close_read(self, name, opened);
    }
}
