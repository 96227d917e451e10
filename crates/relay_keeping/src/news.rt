//! The news of a room since it was kept last.
ghost use Rattle.std.specs.Prelude.{◌≡◌};
ghost use Rattle.relay_store.specs.Texts.{lent};
ghost use Rattle.relay_keeping.specs.News.{change_of};

use relay_hub::RoomUpdate;
use relay_store::Change;

/// The news of a room: the message since it was kept last.
#[derive(Drop)]
pub(crate) struct News {
    /// The room's index in the hub.
    pub(crate) index: usize,
    pub(crate) name: String,
    pub(crate) update: RoomUpdate,
    /// True if another room was kept at this index, which has ended.
    pub(crate) replaces: bool,
}

impl News {
    /// The change of a store.
    pub(crate) fn change(&self) -> Change<&str>
        ensures { lent result ≡ change_of self.now }
    {
        let room = self.name.as_str();
        let revision = self.update.revision;
        let text = self.update.text.as_str();
        if self.update.is_snapshot {
            Change::Begin {
                room,
                revision,
                text,
            }
        } else {
            Change::Edit {
                room,
                revision,
                text,
            }
        }
    }
}
