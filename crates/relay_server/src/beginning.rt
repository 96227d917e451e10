//! The hubs with which a server may begin, by the keeper of its rooms.
ghost use Rattle.relay_hub.specs.Log.{Log};
ghost use Rattle.relay_hub.specs.State.{State};

use crate::store_keeper::StoreKeeper;
use relay_event_loop::{NotKept, RoomKeeper};
use relay_store::Keeps;

/// A keeper of a server's rooms, and the hubs with which that server may begin.
pub(crate) trait BeginsWith: RoomKeeper {
    /// A server of this keeper may begin with this hub, which stands for this log.
    ghost may_begin: { Self → Log → State → Type 0 };
}

impl BeginsWith for NotKept {
    ghost use Rattle.std.specs.Prelude.{◌≡◌, []};

    // nothing was kept, so nothing has happened
    ghost may_begin = { λ _ log _. log ≡ [] };
}

impl<K: Keeps> BeginsWith for StoreKeeper<K> {
    ghost use Rattle.relay_server.specs.Keeper.{HasKept};

    // the store has the rooms of the hub
    ghost may_begin = { λ keeper log hub. HasKept K.kept K.is_clean keeper.rooms log hub };
}
