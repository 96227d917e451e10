//! The rooms and wills of a hub in a store: kept before anybody is told, and taken up again by a
//! later run.
//!
//! The store is a client of each room. It holds what a client that watches the whole document is
//! told: a snapshot, the room's record, and the patches since; and the will of each session, as the
//! text of a request that leaves it. [`RoomStore::keep`] commits what happened since the last call,
//! at once. [`take_up`] makes a hub of what is kept, which does the wills, and [`Recovered::keep`]
//! keeps what they did.
//!
//! The promise (`specs/Mirrored.antt`): after each `keep` the store mirrors the hub. The hub has
//! exactly the rooms that are kept, with the documents and at the revisions to which their texts
//! lead, and its floor is the one that is kept. `specs/Wills.antt` says which wills are kept, and
//! `specs/LeftWills.antt` how a later run does them.
#![tactic(auto)]

mod client;
mod clients;
mod fault;
mod found_wills;
mod kept;
mod kept_room;
mod kept_rooms;
mod kept_wills;
mod last_wills;
mod left_wills;
mod listing;
mod news;
mod record;
mod recovery;
mod room_store;
mod whole_view;

pub use fault::KeepFault;
pub use kept::Kept;
pub use listing::{ListedRoom, Listing};
pub use record::beginning;
pub use recovery::{Recovered, take_up};
pub use room_store::RoomStore;
