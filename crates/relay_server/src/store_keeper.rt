//! The keeper of a server's rooms over a store.
ghost use Rattle.std.specs.Prelude.{◌≡◌, OnOk};
ghost use Rattle.relay_server.specs.Keeper.{keeping_of};

use relay_event_loop::{Keeping, RoomKeeper};
use relay_hub::Hub;
use relay_keeping::{KeepFault, Kept, RoomStore};
use relay_store::{Keeps, StoreFault};
use std::alloc::Global;

/// The rooms of a server in a store, and why nothing can be kept any more, if so.
#[derive(Drop)]
pub(crate) struct StoreKeeper<K: Keeps> {
    rooms: RoomStore<K>,
    fault: Option<StoreFault>,
}

impl<K: Keeps> StoreKeeper<K> {
    pub(crate) fn of(rooms: RoomStore<K>) -> StoreKeeper<K>
        ensures { result.rooms ≡ rooms }
    {
        StoreKeeper { rooms, fault: None }
    }

    /// The cause for which nothing can be kept any more.
    pub(crate) fn fault(&self) -> Option<StoreFault> {
        self.fault
    }

    /// Moves the log of the store into its file, as [`RoomStore::checkpoint`] does.
    pub(crate) fn checkpoint(&mut self) -> Result<(), StoreFault>
        ensures moved { K.is_clean self.new.rooms.store →
            OnOk result (K.is_checkpointed self.new.rooms.store) }
        ensures kept { K.is_clean self.new.rooms.store →
            OnOk result (K.kept self.new.rooms.store ≡ K.kept self.old.rooms.store) }
        ensures clean { K.is_clean self.new.rooms.store → K.is_clean self.old.rooms.store }
    {
        self.rooms.checkpoint()
    }
}

impl<K: Keeps> RoomKeeper for StoreKeeper<K> {
    ghost use Rattle.relay_server.specs.Keeper.{HasKept};

    ghost has_kept = { λ keeper log hub. HasKept K.kept K.is_clean keeper.rooms log hub };

    fn is_keeping(&self) -> bool {
        true
    }

    fn keep(&mut self, alloc: Global, hub: &Hub) -> Keeping {
        match self.rooms.keep(alloc, hub) {
            Ok(kept) => keeping_of(kept),
            Err(KeepFault::NoMemory) => Keeping::Later,
            Err(KeepFault::Lost(fault)) => {
                self.fault = Some(fault);
                Keeping::Lost
            }
        }
    }
}

/// The outcome for a server of a call that kept its rooms.
fn keeping_of(kept: Kept) -> Keeping
    ensures { result ≡ keeping_of kept }
{
    match kept {
        Kept::Committed => Keeping::Done,
        Kept::Unchanged => Keeping::Unchanged,
    }
}
