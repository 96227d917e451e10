//! The rules by which good handshakes are judged before the hub is asked for a session.
ghost use Rattle.std.specs.Prelude.{◌≡◌, [], option_copied, IfOk};
ghost use Rattle.relay_link.specs.EntryRules.{admits_origin, denial, status_of, reply_to, watching};
ghost use Rattle.relay_link.specs.declared.entrance.Entrance.TheVariants as entry;
ghost use Rattle.relay_link.specs.declared.entry_rules.Watchers.TheVariants.{Begin};

use crate::entrance::Entrance;
use relay_access::Access;
use relay_hub::Hub;
use relay_shake::{closed_refusal, refusal};
use std::alloc::{AllocError, Global};

/// The rules for clients that ask to come in by a good handshake.
///
/// ```
/// let mut hub = Hub::new(alloc, 2, 2, 64, 32).ok()?;
/// let rules = EntryRules { watchers: Watchers::Join, ..EntryRules::none(alloc) };
/// // Who only watches begins no room.
/// let watcher = rules.denial(&hub, "board", Access::ReadOnly, None);
/// assert!(rt; watcher == Some(Denial::NoRoom));
/// assert!(rt; rules.denial(&hub, "board", Access::ReadWrite, None) == None);
/// ```
#[derive(Drop)]
pub struct EntryRules {
    /// The rooms in which clients may enter.
    pub entrance: Entrance,
    /// The origins whose pages may enter (RFC 6455, section 10.2); if it is empty, those of every
    /// origin may. A client that names no origin is no page, and may.
    pub origins: Vec<String>,
    /// The rooms in which those may enter who only watch.
    pub watchers: Watchers,
}

/// The rooms in which those may enter who only watch.
#[derive(Clone, Copy, Debug, PartialEq, Eq)]
pub enum Watchers {
    /// Every room. They begin it if there is none.
    Begin,
    /// The rooms that are there.
    Join,
    /// None: the places that are left are for those who edit.
    Wait,
}

/// The reason for which a good handshake opens no session, by the rules.
#[derive(Clone, Copy, Debug, PartialEq, Eq)]
pub enum Denial {
    /// It is a page's, of another origin.
    Origin,
    /// Clients may not enter in this room yet.
    Closed,
    /// It would only watch, and there is no room of this name.
    NoRoom,
    /// It would only watch, and the places that are left are for those who edit.
    Full,
}

impl EntryRules {
    /// Rules that let everybody in everywhere. Allocates nothing.
    ///
    /// ```
    /// let mut hub = Hub::new(alloc, 2, 2, 64, 32).ok()?;
    /// let rules = EntryRules::none(alloc);
    /// assert!(rt; rules.denial(&hub, "board", Access::ReadOnly, Some("null")) == None);
    /// ```
    pub fn none(alloc: Global) -> EntryRules
        ensures entrance { result.entrance ≡ entry.Open }
        ensures origins { result.origins.items ≡ [] }
        ensures watchers { result.watchers ≡ Begin }
    {
        EntryRules {
            entrance: Entrance::Open,
            origins: Vec::new(alloc),
            watchers: Watchers::Begin,
        }
    }

    /// The reason for which a good handshake opens no session in a room of the hub, if there is
    /// one: it is a page's of another origin, clients may not enter in that room, or it would only
    /// watch, and the room is not there or no place is left. Allocates nothing.
    pub fn denial(
        &self,
        hub: &Hub,
        room: &str,
        access: Access,
        origin: Option<&str>,
    ) -> Option<Denial>
        ensures { result ≡ denial self.now hub.now room.now access (option_copied origin.entry) }
    {
        if !admits_origin(self.origins.as_slice(), origin) {
            return Some(Denial::Origin);
        }
        if !self.entrance.lets_in(room) {
            return Some(Denial::Closed);
        }
        match access {
            Access::ReadWrite => None,
            Access::ReadOnly => self.watchers.denial(hub.room_named(room).is_some()),
        }
    }
}

impl Watchers {
    /// The reason for which a session that only watches is not opened, if there is one, by whether
    /// its room is there.
    fn denial(self, is_there: bool) -> Option<Denial>
        ensures { result ≡ watching self is_there }
    {
        match self {
            Watchers::Begin => None,
            Watchers::Join | Watchers::Wait if !is_there => Some(Denial::NoRoom),
            Watchers::Join => None,
            Watchers::Wait => Some(Denial::Full),
        }
    }
}

impl Denial {
    /// The status of the reply.
    pub(crate) fn status(self) -> u16
        ensures { result ≡ status_of self }
    {
        match self {
            Denial::Origin => 403,
            Denial::NoRoom => 404,
            Denial::Closed | Denial::Full => 503,
        }
    }

    /// The reply, after which the socket is closed.
    pub(crate) fn reply(self, alloc: Global) -> Result<Vec<u8>, AllocError>
        ensures { IfOk result (λ reply. reply.items ≡ reply_to self) }
    {
        match self {
            Denial::Closed => closed_refusal(alloc),
            Denial::Origin | Denial::NoRoom | Denial::Full => refusal(alloc, self.status()),
        }
    }
}

/// Returns true if pages of an origin may enter, or whoever is no page.
fn admits_origin(names: &[String], origin: Option<&str>) -> bool
    ensures { result ≡ admits_origin names.now (option_copied origin.entry) }
{
    match origin {
        Some(origin) => names.is_empty() || names.iter().any(|name| name.as_str() == origin),
        None => true,
    }
}
