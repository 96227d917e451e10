//! The rooms of a hub, kept in a store.
ghost use Rattle.std.specs.Prelude.{◌≡◌, ◌++◌, false, OnOk, IfOk, IfErr, map};
ghost use Rattle.relay_hub.specs.Log.{Log};
ghost use Rattle.relay_hub.specs.Stands.{StandsFor};
ghost use Rattle.relay_hub.specs.declared.config.HubConfig.{HubConfig};
ghost use Rattle.relay_keeping.specs.Keeper.{IsUnchanged};
ghost use Rattle.relay_keeping.specs.Mirrored.{Mirrors};
ghost use Rattle.relay_keeping.specs.News.{changes_of};
ghost use Rattle.relay_keeping.specs.Noted.{IsSame, noted_in};
ghost use Rattle.relay_keeping.specs.Trailing.{IsBehind, Trails};
ghost use Rattle.relay_keeping.specs.Wills.{AreAllNoted, KeepsOnly, KeepsWills, NotesWills};
ghost use Rattle.relay_keeping.specs.Wills.{wills_of};
ghost use Rattle.relay_store.specs.Texts.{lent, owned};
ghost use Rattle.relay_keeping.specs.declared.fault.KeepFault.TheVariants.{NoMemory};
ghost use Rattle.relay_keeping.specs.declared.kept.Kept.TheVariants.{Unchanged};
ghost use Rattle.relay_store.specs.Store.{Only};

use crate::fault::KeepFault;
use crate::kept::Kept;
use crate::kept_rooms::KeptRooms;
use crate::kept_wills::KeptWills;
use crate::news::News;
use relay_hub::Hub;
use relay_store::{Change, Keeps, StoreFault};
use std::alloc::{AllocError, Global};
use std::marker::Model;

/// A store, and what it keeps of each room of a hub and of each will. Contracts see the store,
/// whether an earlier commit failed, and the revisions, the floor and the wills that are noted as
/// kept.
///
/// ```
/// let config = HubConfig::new(1, 1, 64, 32);
/// let taken = take_up(alloc, config, MemoryStore::new(alloc, 1), &Vec::new(alloc)).ok()?;
/// let (mut hub, mut rooms) = (taken.hub, taken.rooms);
/// hub.open(alloc, "board", Access::ReadWrite).ok()?;
/// assert!(rt; rooms.keep(alloc, &hub).ok()? == Kept::Committed);
/// // The room's record.
/// assert!(rt; rooms.store().read().ok()?.len() == 1);
/// ```
#[derive(Drop)]
pub struct RoomStore<K: Keeps> {
    store: K,
    is_lost: bool,
    kept: KeptRooms,
    wills: KeptWills,
}

impl<K: Keeps> Model for RoomStore<K> {
    ghost use Rattle.std.specs.Prelude.{◌≡◌, false};
    ghost use Rattle.relay_keeping.specs.Keeper.{Keeper};
    ghost use Rattle.relay_keeping.specs.Noted.{noted_in};

    ghost Value = { Keeper K };

    ghost view = { λ r. record {
      store = r.store;
      is_lost = r.is_lost;
      noted = noted_in r.kept;
      floor = r.kept.floor;
      wills = r.wills.noted.entries;
    } };

    // a store that is not lost takes a commit
    ghost invariant = { λ r. r.is_lost ≡ false → K.is_settled r.store };
}

impl<K: Keeps> RoomStore<K> {
    /// A store, and what it keeps of the rooms and the wills of a hub.
    pub(crate) fn of(store: K, kept: KeptRooms, wills: KeptWills) -> RoomStore<K>
        requires { K.is_settled store }
        ensures { result ≡ record {
          store = store;
          is_lost = false;
          noted = noted_in kept;
          floor = kept.floor;
          wills = wills.noted.entries;
        } }
    {
        RoomStore {
            store,
            is_lost: false,
            kept,
            wills,
        }
    }

    /// The store. Allocates nothing.
    pub fn store(&self) -> &K
        ensures { result.now ≡ self.now.store }
    {
        &self.store
    }

    /// Keeps what happened in the hub since the last call, in one commit: what ended, what began,
    /// the message that leads each other room to its present revision, the floor, the wills that
    /// are done or withdrawn, and those that were left. Looks at the revision of each room and the
    /// will of each session, and commits nothing if nothing happened. Returns which of the two it
    /// did.
    ///
    /// From `Ok` on, what the store keeps makes exactly the rooms of the hub, with their documents
    /// and revisions, and its floor. That holds if the store was behind this hub, as it is from
    /// [`take_up`](crate::take_up) on through all calls of the hub, and if the disk returned what
    /// was written. It is behind the hub then by each log that this stands for. Of wills it keeps
    /// what it kept, without those that are noted of sessions that have none any more, and with
    /// each of the hub that is not noted with its number (`specs/Wills.antt`). So it keeps one only
    /// of a session that has one, if each that it kept was noted, as from `take_up` on. `NoMemory`
    /// leaves the store as it was.
    pub fn keep(&mut self, alloc: Global, hub: &Hub) -> Result<Kept, KeepFault>
        ensures mirrors { (b : HubConfig) (E : Log) → StandsFor b E hub.now
            → IsBehind K.kept E self.old hub.now → K.is_clean self.new.store
            → OnOk result (Mirrors (K.kept self.new.store) hub.now) }
        ensures behind { (b : HubConfig) (E : Log) → StandsFor b E hub.now
            → IsBehind K.kept E self.old hub.now → K.is_clean self.new.store
            → OnOk result (IsBehind K.kept E self.new hub.now) }
        ensures settles { (b : HubConfig) (E : Log) → StandsFor b E hub.now
            → IsBehind K.kept E self.old hub.now → K.is_clean self.new.store
            → OnOk result ((c : HubConfig) (F : Log) → StandsFor c F hub.now
            → IsBehind K.kept F self.new hub.now) }
        ensures wills { K.is_clean self.new.store → OnOk result
            (KeepsWills self.old.wills (wills_of hub.now) (K.kept self.old.store)
            (K.kept self.new.store)) }
        ensures only { K.is_clean self.new.store
            → AreAllNoted self.old.wills (K.kept self.old.store)
            → OnOk result (KeepsOnly (wills_of hub.now) (K.kept self.new.store)) }
        ensures noted { OnOk result (NotesWills self.new.wills (wills_of hub.now)) }
        ensures clean { K.is_clean self.new.store → K.is_clean self.old.store }
        ensures unchanged { IfErr result (λ fault. fault ≡ NoMemory
            → IsUnchanged self.old self.new) }
        ensures still { IfOk result (λ kept. kept ≡ Unchanged → self.new.store ≡ self.old.store) }
        ensures epoch { K.is_clean self.new.store → OnOk result
            ((K.kept self.new.store).epoch ≡ (K.kept self.old.store).epoch) }
    {
        if self.is_lost {
            return Err(KeepFault::Lost(StoreFault::Closed));
        }
        let kept = keep_in(alloc, &mut self.store, &mut self.kept, &mut self.wills, hub);
        if let Err(KeepFault::Lost(_)) = kept {
            self.is_lost = true;
        }
        kept
    }

    /// Moves the log of the store into its file ([`Keeps::checkpoint`]). What is kept stays, and so
    /// what is noted of it. After an error nothing more can be kept.
    pub fn checkpoint(&mut self) -> Result<(), StoreFault>
        ensures moved { K.is_clean self.new.store →
            OnOk result (K.is_checkpointed self.new.store) }
        ensures kept { K.is_clean self.new.store →
            OnOk result (K.kept self.new.store ≡ K.kept self.old.store) }
        ensures stays { self.old.is_lost ≡ false → K.is_clean self.new.store →
            Only (K.kept self.old.store) (K.may_leave self.new.store) }
        ensures clean { K.is_clean self.new.store → K.is_clean self.old.store }
        ensures lost { OnOk result (self.new.is_lost ≡ false) }
        ensures noted { (self.new.noted ≡ self.old.noted) × (self.new.floor ≡ self.old.floor) }
    {
        if self.is_lost {
            return Err(StoreFault::Closed);
        }
        let moved = self.store.checkpoint();
        if moved.is_err() {
            self.is_lost = true;
        }
        moved
    }
}

/// Keeps in a store what happened in the hub since the last call.
fn keep_in<K: Keeps>(
    alloc: Global,
    store: &mut K,
    kept: &mut KeptRooms,
    wills: &mut KeptWills,
    hub: &Hub,
) -> Result<Kept, KeepFault>
    requires { K.is_settled store.old }
    ensures mirrors { (b : HubConfig) (E : Log) → StandsFor b E hub.now
        → Trails E (K.kept store.old) (noted_in kept.old) kept.old.floor hub.now
        → K.is_clean store.new → OnOk result (Mirrors (K.kept store.new) hub.now) }
    ensures behind { (b : HubConfig) (E : Log) → StandsFor b E hub.now
        → Trails E (K.kept store.old) (noted_in kept.old) kept.old.floor hub.now
        → K.is_clean store.new → OnOk result
        (Trails E (K.kept store.new) (noted_in kept.new) kept.new.floor hub.now) }
    ensures settles { (b : HubConfig) (E : Log) → StandsFor b E hub.now
        → Trails E (K.kept store.old) (noted_in kept.old) kept.old.floor hub.now
        → K.is_clean store.new → OnOk result ((c : HubConfig) (F : Log) → StandsFor c F hub.now
        → Trails F (K.kept store.new) (noted_in kept.new) kept.new.floor hub.now) }
    ensures wills { K.is_clean store.new → OnOk result (KeepsWills wills.old.noted.entries
        (wills_of hub.now) (K.kept store.old) (K.kept store.new)) }
    ensures noted { OnOk result (NotesWills wills.new.noted.entries (wills_of hub.now)) }
    ensures kept { OnOk result (K.is_settled store.new) }
    ensures clean { K.is_clean store.new → K.is_clean store.old }
    ensures unchanged { IfErr result (λ fault. fault ≡ NoMemory → (store.new ≡ store.old)
        × IsSame kept.old kept.new × (wills.new.noted ≡ wills.old.noted)) }
    ensures still { IfOk result (λ done. done ≡ Unchanged → store.new ≡ store.old) }
    ensures epoch { K.is_clean store.new → OnOk result
        ((K.kept store.new).epoch ≡ (K.kept store.old).epoch) }
{
    let news = kept.news(alloc, hub)?;
    let floor = kept.risen(hub);
    let found = wills.find(alloc, hub)?;
    if news.is_empty() && floor.is_none() && found.changes.is_empty() {
        wills.note(found);
        return Ok(Kept::Unchanged);
    }
    kept.admit(news.as_slice())?;
    let changes = all_changes(
        alloc,
        kept,
        news.as_slice(),
        floor,
        found.changes.as_slice(),
    )?;
    let committed = store.commit(changes.as_slice());
    drop(changes);
    if let Err(fault) = committed {
        return Err(KeepFault::Lost(fault));
    }
    kept.note(news, floor);
    wills.note(found);
    Ok(Kept::Committed)
}

/// The changes that keep these news and the floor, if it rose, and then those of the wills.
fn all_changes<'a>(
    alloc: Global,
    kept: &'a KeptRooms,
    news: &'a [News],
    floor: Option<u64>,
    wills: &'a [Change<String>],
) -> Result<Vec<Change<&'a str>>, AllocError>
    ensures { IfOk result (λ changes. map lent changes.items
        ≡ changes_of (noted_in kept.now) news.now floor ++ map owned wills.now) }
{
    let mut changes = kept.changes(alloc, news, floor)?;
    for change in wills {
        changes.push(change.borrow())?;
    }
    Ok(changes)
}
