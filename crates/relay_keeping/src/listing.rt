//! The rooms that a store keeps, with their documents, for one who looks into it.
ghost use Rattle.std.specs.Prelude.{◌≡◌, ℕ, IfOk, map};
ghost use Rattle.std.specs.Option.{option_copied};
ghost use Rattle.relay_store.specs.Kept.{begun, committed};
ghost use Rattle.relay_store.specs.Texts.{owned};
ghost use Rattle.relay_keeping.specs.Listing.{Lists, held, named_in, shown};

use crate::client::Client;
use crate::clients::Clients;
use indexmap::IndexMap;
use relay_store::{Change, StoreFault};
use relay_tree::Tree;
use std::alloc::Global;

/// A room that a store keeps.
#[derive(Drop)]
pub struct ListedRoom {
    pub name: String,
    pub revision: u64,
    pub document: Tree,
}

/// The rooms that a store keeps, each once, by the bytes of their names, and the floor. Its wills
/// are left out.
#[derive(Drop)]
pub struct Listing {
    pub rooms: Vec<ListedRoom>,
    pub floor: u64,
}

impl Listing {
    /// Lists the rooms that these changes make of an empty store, with the documents and revisions
    /// to which their texts lead. `Damaged` if a text is no message that its room's client may be
    /// told next, or shows no whole document.
    ///
    /// ```
    /// let mut store = MemoryStore::new(alloc, 1);
    /// let text = r#"{"kind":"snapshot","rev":4,"view":[[[7]]]}"#;
    /// store.commit(&[Change::Begin { room: "board", revision: 4, text }]).ok()?;
    /// let listing = Listing::of(alloc, &store.read().ok()?).ok()?;
    /// let board = listing.room("board")?;
    /// assert!(rt; board.revision == 4 && board.document.text(alloc).ok()?.as_str() == "[7]");
    /// ```
    pub fn of(alloc: Global, changes: &Vec<Change<String>>) -> Result<Listing, StoreFault>
        ensures { (epoch : ℕ) → IfOk result (Lists
            (committed (begun epoch) (map owned changes.now.items))) }
    {
        let mut clients = Clients::of(alloc, changes)?;
        clients.rooms.sort_unstable_keys()?;
        Ok(Listing {
            rooms: listed_all(alloc, &clients.rooms)?,
            floor: clients.floor,
        })
    }

    /// The room of that name.
    pub fn room(&self, name: &str) -> Option<&ListedRoom>
        ensures { option_copied result ≡ named_in name.now self.now.rooms.items }
    {
        for room in &self.rooms {
            if room.name.as_str() == name {
                return Some(room);
            }
        }
        None
    }
}

/// The rooms of all clients, in their order.
fn listed_all(
    alloc: Global,
    clients: &IndexMap<String, Client>,
) -> Result<Vec<ListedRoom>, StoreFault>
    ensures { IfOk result (λ rooms. map shown rooms.items ≡ map held clients.now.entries) }
{
    let mut rooms = Vec::with_capacity(alloc, clients.len())?;
    for index in 0..clients.len() {
        let Some((name, client)) = clients.get_index(index) else {
            unreachable!()
        };
        rooms.push(listed(alloc, name.as_str(), client)?)?;
    }
    Ok(rooms)
}

/// The room of a client.
fn listed(alloc: Global, name: &str, client: &Client) -> Result<ListedRoom, StoreFault>
    ensures { IfOk result (λ room. shown room ≡ (name.now, client.now.follower)) }
{
    let Some((revision, document)) = client.made() else {
        return Err(StoreFault::Damaged);
    };
    Ok(ListedRoom {
        name: String::from_str(alloc, name)?,
        revision,
        document: document.copy(alloc)?,
    })
}
