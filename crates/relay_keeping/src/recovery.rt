//! A hub of what a store keeps.
ghost use Rattle.std.specs.Prelude.{◌≡◌, ◌≤◌, ℕ, List as list_of, [], length, map, IfOk, OnOk};
ghost use Rattle.std.specs.Prelude.{None, bytes_eq, option_map, if◌then◌else◌};
ghost use Rattle.std.specs.List.{AllByRecursion};
ghost use Rattle.relay_hub.specs.Log.{Log};
ghost use Rattle.relay_hub.specs.Stands.{StandsFor};
ghost use Rattle.relay_hub.specs.declared.config.HubConfig.{HubConfig};
ghost use Rattle.relay_hub.specs.Step.{BeginsAnew, raised_floor, with_floor};
ghost use Rattle.relay_room.specs.Room as room;
ghost use Rattle.relay_store.specs.Kept.{begun, committed};
ghost use Rattle.relay_store.specs.Texts.{owned};
ghost use Rattle.relay_tree.specs.Document.{null};
ghost use Rattle.relay_keeping.specs.Begun.{AddsRoom, AreBegun, AreNotedFrom, BeginsRoomOf};
ghost use Rattle.relay_keeping.specs.Begun.{HasPlace, IsBare, client_named, noted_client};
ghost use Rattle.relay_keeping.specs.Noted.{noted_room};
ghost use Rattle.relay_keeping.specs.Trailing.{IsBehind, Once};
ghost use Rattle.relay_keeping.specs.Mirrored.{Mirrors};
ghost use Rattle.relay_keeping.specs.Stood.{Called, Stood, StandsBehind};
ghost use Rattle.relay_keeping.specs.Wills.{AreAllNoted, KeepsOnly, wills_of};
ghost use Rattle.relay_keeping.specs.LeftWills.{AreNotedAsEarlier, IsTakenUp};

use crate::client::Client;
use crate::clients::Clients;
use crate::fault::KeepFault;
use crate::kept_room::KeptRoom;
use crate::kept_rooms::KeptRooms;
use crate::kept_wills::KeptWills;
use crate::last_wills::do_wills;
use crate::left_wills::LeftWills;
use crate::room_store::RoomStore;
use crate::whole_view::WholeView;
use indexmap::IndexMap;
use relay_access::Access;
use relay_hub::{AdoptFault, Hub, HubConfig, HubNewFault, OpenFault};
use relay_store::{Change, Keeps, StoreFault};
use relay_tree::{Node, Tree};
use std::alloc::{AllocError, Global};

/// A hub of what a store keeps, and that store, which may be behind it.
#[derive(Drop)]
pub struct Recovered<K: Keeps> {
    pub hub: Hub,
    pub rooms: RoomStore<K>,
}

impl<K: Keeps + Drop> Recovered<K> {
    /// Keeps what the wills did, and drops them, in one commit. Commits nothing if there were none.
    /// After an error the store has what it had, or all of this.
    ///
    /// ```
    /// let mut store = MemoryStore::new(alloc, 1);
    /// let text = r#"{"kind":"snapshot","rev":4,"view":[[[7]]]}"#;
    /// store.commit(&[Change::Begin { room: "board", revision: 4, text }]).ok()?;
    /// let text = r#"{"do":"will","id":1,"patch":[{"op":"remove","path":"/0"}]}"#;
    /// store.commit(&[Change::LeaveWill { session: 9, room: "board", text }]).ok()?;
    /// let changes = store.read().ok()?;
    /// let taken = take_up(alloc, HubConfig::new(1, 1, 64, 32), store, &changes).ok()?;
    /// let changes = taken.keep(alloc).ok()?.rooms.store().read().ok()?;
    /// assert!(rt; matches!(&changes[3], Change::DropWill { session: 9 }));
    /// ```
    pub fn keep(self, alloc: Global) -> Result<Recovered<K>, StoreFault>
        ensures hub { IfOk result (λ kept. kept.hub ≡ self.hub) }
        ensures mirrors { (b : HubConfig) → StandsBehind K.kept b self.rooms self.hub
            → IfOk result (λ kept. K.is_clean kept.rooms.store
            → Mirrors (K.kept kept.rooms.store) kept.hub) }
        ensures behind { (b : HubConfig) → StandsBehind K.kept b self.rooms self.hub
            → IfOk result (λ kept. K.is_clean kept.rooms.store
            → (c : HubConfig) (E : Log) → StandsFor c E kept.hub
            → IsBehind K.kept E kept.rooms kept.hub) }
        ensures only { AreAllNoted self.rooms.wills (K.kept self.rooms.store)
            → IfOk result (λ kept. K.is_clean kept.rooms.store
            → KeepsOnly (wills_of kept.hub) (K.kept kept.rooms.store)) }
        ensures clean { IfOk result (λ kept. K.is_clean kept.rooms.store
            → K.is_clean self.rooms.store) }
        ensures epoch { IfOk result (λ kept. K.is_clean kept.rooms.store
            → (K.kept kept.rooms.store).epoch ≡ (K.kept self.rooms.store).epoch) }
    {
        let Recovered { hub, mut rooms } = self;
        match rooms.keep(alloc, &hub) {
            Ok(_) => Ok(Recovered { hub, rooms }),
            Err(KeepFault::NoMemory) => Err(StoreFault::NoMemory),
            Err(KeepFault::Lost(fault)) => Err(fault),
        }
    }
}

/// Makes a hub of what a store keeps, which these changes make of an empty one. It begins with
/// exactly the rooms that are kept, with the documents and at the revisions to which their texts
/// lead, and its floor is the one that is kept, or `2^53 - 1` if that is higher. Then each will
/// that is kept is done, in the order in which they were left: a session of its own opens in its
/// room, leaves it again and ends. Nobody is in a room then. The store keeps the wills until
/// [`Recovered::keep`] keeps what they did, and drops them.
///
/// No history is held of what was kept, so a client that was at that revision goes on, and another
/// gets a snapshot. `Damaged` if a text is no message that its room's client may be told next, or
/// shows no whole document, or a room may not have such a name, revision or document; or if a will
/// has no room, or its text leaves none. `TooManyRooms` if the hub may not have so many.
///
/// ```
/// let mut store = MemoryStore::new(alloc, 1);
/// let text = r#"{"kind":"snapshot","rev":4,"view":[[[7]]]}"#;
/// store.commit(&[Change::Begin { room: "board", revision: 4, text }]).ok()?;
/// let text = r#"{"do":"will","id":1,"patch":[{"op":"remove","path":"/0"}]}"#;
/// store.commit(&[Change::LeaveWill { session: 9, room: "board", text }]).ok()?;
/// let changes = store.read().ok()?;
/// let hub = take_up(alloc, HubConfig::new(1, 1, 64, 32), store, &changes).ok()?.hub;
/// assert!(rt; hub.room_named("board")?.revision == 5);
/// ```
pub fn take_up<K: Keeps + Drop>(
    alloc: Global,
    config: HubConfig,
    store: K,
    changes: &Vec<Change<String>>,
) -> Result<Recovered<K>, StoreFault>
    requires settled { K.is_settled store }
    ensures stands { IfOk result (λ taken. Stood config taken.hub) }
    ensures store { IfOk result (λ taken. taken.rooms.store ≡ store) }
    ensures done { (epoch : ℕ) → IfOk result (λ taken. IsTakenUp
        (committed (begun epoch) (map owned changes.now.items)) taken.hub) }
    ensures wills { (epoch : ℕ) → IfOk result (λ taken. AreNotedAsEarlier
        (committed (begun epoch) (map owned changes.now.items)).wills taken.rooms.wills) }
    ensures behind { (epoch : ℕ)
        → K.kept store ≡ committed (begun epoch) (map owned changes.now.items)
        → IfOk result (λ taken. StandsBehind K.kept config taken.rooms taken.hub) }
{
    let left = LeftWills::of(alloc, changes)?;
    let wills = KeptWills::of_earlier_run(alloc, &left)?;
    let Recovered { mut hub, rooms } = begin_hub(alloc, config, store, changes, wills)?;
    do_wills(alloc, &mut hub, &left)?;
    Ok(Recovered { hub, rooms })
}

/// Makes a hub of the rooms that these changes make of an empty store, of which these wills are
/// noted.
#[tactic(auto, using(crate::proofs::Calls::calls, crate::proofs::Calls::stood_after))]
fn begin_hub<K: Keeps + Drop>(
    alloc: Global,
    config: HubConfig,
    store: K,
    changes: &Vec<Change<String>>,
    wills: KeptWills,
) -> Result<Recovered<K>, StoreFault>
    requires settled { K.is_settled store }
    ensures stands { IfOk result (λ taken. Stood config taken.hub) }
    ensures store { IfOk result (λ taken. taken.rooms.store ≡ store) }
    ensures wills { IfOk result (λ taken. taken.rooms.wills ≡ wills.noted.entries) }
    ensures mirrors { (epoch : ℕ) → IfOk result (λ taken. Mirrors
        (committed (begun epoch) (map owned changes.now.items)) taken.hub) }
    ensures bare { IfOk result (λ taken. AllByRecursion IsBare taken.hub.rooms) }
    ensures behind { (epoch : ℕ)
        → K.kept store ≡ committed (begun epoch) (map owned changes.now.items)
        → IfOk result (λ taken. (b : HubConfig) (E : Log) → StandsFor b E taken.hub
        → IsBehind K.kept E taken.rooms taken.hub) }
{
    let mut clients = Clients::of(alloc, changes)?;
    if clients.rooms.len() as u64 > config.rooms {
        return Err(StoreFault::TooManyRooms);
    }
    let mut hub = match Hub::with_config(alloc, config) {
        Ok(hub) => hub,
        Err(HubNewFault::NoMemory) => return Err(StoreFault::NoMemory),
        Err(HubNewFault::BadLimit) => return Err(StoreFault::Damaged),
    };
    begin_rooms(alloc, &mut hub, &clients)?;
    raise_floor(&mut hub, clients.floor);
    let rooms = kept_at_indexes(alloc, &hub, &mut clients.rooms)?;
    let whole = WholeView::new(alloc)?;
    Ok(Recovered {
        hub,
        rooms: RoomStore::of(store, KeptRooms::new(whole, rooms, clients.floor), wills),
    })
}

/// Begins the room of each client.
#[tactic(auto, using(crate::proofs::Calls::calls))]
fn begin_rooms(alloc: Global, hub: &mut Hub, clients: &Clients) -> Result<(), StoreFault>
    ensures called { Called hub.old hub.new }
    ensures begun { AreBegun [] hub.old
        → length clients.now.rooms.entries ≤ hub.old.config.rooms
        → OnOk result (AreBegun clients.now.rooms.entries hub.new) }
{
    for index in 0..clients.rooms.len() {
        let Some((name, client)) = clients.rooms.get_index(index) else {
            unreachable!()
        };
        begin_room(alloc, hub, name.as_str(), client)?;
    }
    Ok(())
}

/// Begins the room of a client, which the hub does not have, with its document at its revision.
#[tactic(auto, using(crate::proofs::Calls::calls))]
fn begin_room(alloc: Global, hub: &mut Hub, name: &str, client: &Client) -> Result<(), StoreFault>
    ensures called { Called hub.old hub.new }
    ensures begun { HasPlace name.now hub.old
        → OnOk result (BeginsRoomOf client.now name.now hub.old hub.new) }
{
    let Some((revision, document)) = client.made() else {
        return Err(StoreFault::Damaged);
    };
    let document = document.copy(alloc)?;
    let begun = open_and_close(alloc, hub, name)?;
    if revision == begun && matches!(document.node, Node::Null) {
        return Ok(());
    }
    adopt(alloc, hub, name, revision, document)
}

/// Has a room begin anew with a document at a revision.
fn adopt(
    alloc: Global,
    hub: &mut Hub,
    name: &str,
    revision: u64,
    document: Tree,
) -> Result<(), StoreFault>
    ensures called { Called hub.old hub.new }
    ensures anew { OnOk result (BeginsAnew hub.old name.now revision document hub.new) }
{
    match hub.adopt(alloc, name, revision, document) {
        Ok(()) => Ok(()),
        Err(AdoptFault::NoMemory) => Err(StoreFault::NoMemory),
        Err(_) => Err(StoreFault::Damaged),
    }
}

/// Raises the floor of a hub.
fn raise_floor(hub: &mut Hub, floor: u64)
    ensures called { Called hub.old hub.new }
    ensures raised { hub.new ≡ with_floor (raised_floor floor hub.old.floor) hub.old }
{
    hub.raise_floor(floor);
}

/// Begins a room, in which nobody is then. Returns its revision.
fn open_and_close(alloc: Global, hub: &mut Hub, name: &str) -> Result<u64, StoreFault>
    ensures called { Called hub.old hub.new }
    ensures begun { HasPlace name.now hub.old → IfOk result
        (λ rev. AddsRoom name.now (room.begun null rev hub.old.config.history) hub.old hub.new) }
{
    match hub.open(alloc, name, Access::ReadOnly) {
        Ok(opening) => {
            let _ = hub.close(opening.session);
            Ok(opening.rev)
        }
        Err(OpenFault::RoomsFull) => Err(StoreFault::TooManyRooms),
        Err(OpenFault::NoMemory) => Err(StoreFault::NoMemory),
        Err(_) => Err(StoreFault::Damaged),
    }
}

/// The rooms as they are kept, by their indexes in the hub.
fn kept_at_indexes(
    alloc: Global,
    hub: &Hub,
    clients: &mut IndexMap<String, Client>,
) -> Result<Vec<Option<KeptRoom>>, AllocError>
    ensures { Once hub.now.rooms → IfOk result (AreNotedFrom clients.old.entries hub.now.rooms) }
{
    let mut rooms = Vec::new(alloc);
    for index in 0..usize::MAX {
        let Some(room) = hub.room_at(index) else {
            return Ok(rooms);
        };
        rooms.push(take_room(clients, room.name))?;
    }
    // No memory has so many rooms.
    Err(AllocError)
}

/// Takes the room of a name out of the clients.
fn take_room(clients: &mut IndexMap<String, Client>, name: &str) -> Option<KeptRoom>
    ensures room { option_map noted_room result
        ≡ noted_client name.now (client_named name.now clients.old.entries) }
    ensures others { (other : list_of ℕ) → client_named other clients.new.entries
        ≡ (if bytes_eq name.now other then None else client_named other clients.old.entries) }
{
    let (name, client) = clients.swap_remove_entry(name)?;
    Some(KeptRoom {
        name,
        texts: client.texts,
    })
}
