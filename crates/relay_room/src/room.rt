//! A room: its document and its history. Only the history stores the revision, so the two cannot
//! disagree.
use crate::fault::RoomFault;
use relay_history::{History, HistoryFault, LAST_REVISION};
use relay_patch::Bounds;
use relay_tree::{Budget, Node, Tree};
use std::alloc::{AllocError, Global};
use std::marker::Model;

/// A shared document and the changes of its last revisions. Contracts see it as a `State`: the
/// document, and the `Past` of a history.
///
/// ```
/// let mut room = Room::new(alloc, 64).ok()?;
/// let ops = read(alloc, r#"[{"op": "add", "path": "", "value": {"n": 1}}]"#).ok()?;
/// let patch = Patch::from_owned(alloc, ops, PatchLimits::REQUEST).ok()?;
/// let rev = room.edit(alloc, ReservedRevision::new(alloc).ok()?, None, &patch).ok()?;
/// assert!(rt; rev == 1 && room.document().text(alloc).ok()?.as_str() == r#"{"n":1}"#);
/// ```
#[derive(Drop)]
pub struct Room {
    pub(crate) document: Tree,
    // The weight of the document, so that no edit has to measure it.
    pub(crate) weight: u64,
    pub(crate) history: History,
}

impl Model for Room {
    ghost use Rattle.relay_patch.specs.contracts.change.Change as change;
    ghost use Rattle.relay_room.specs.Room.{State, IsWeighed, state_code};

    ghost Value = { State };

    ghost coded = { state_code change.the_row.coded };

    ghost view = { λ r. record { document = r.document; history = r.history } };

    ghost invariant = { λ r.
        IsWeighed (record { document = r.document; history = r.history }) r.weight };
}

impl Room {
    ghost use Rattle.std.specs.Prelude.{◌≡◌, ◌<◌, ◌≤◌, ◌↔◌, ◌⊎◌, Some, None, Ok, IfOk, IfErr};
    ghost use Rattle.std.specs.Prelude.{IsErrOf};
    ghost use Rattle.relay_tree.specs.Document.{Document};
    ghost use Rattle.relay_tree.specs.Document.{null, weight};
    ghost use Rattle.relay_history.specs.Trimmed.{history_weight};
    ghost use Rattle.relay_history.specs.declared.history.TheConstants.{LAST_REVISION};
    ghost use Rattle.relay_patch.specs.Patch.{within};
    ghost use Rattle.relay_patch.specs.declared.bounds.TheConstants.Bounds.{DOCUMENT};
    ghost use Rattle.relay_limits.specs.declared.TheConstants.{MAX_REVISIONS};
    ghost use Rattle.relay_room.specs.Room.{IsRoom, begun, revision, trimmed};
    ghost use Rattle.relay_room.specs.Fault.{room_fault};
    ghost use Rattle.relay_room.specs.declared.fault.RoomFault.TheVariants.{BadLimit, NoMemory};

    /// Creates a room with the document `null` at revision 0, which holds the changes of the last
    /// `limit` revisions. Returns `BadLimit` if `limit` is not 1 to 1,024, and `NoMemory` if memory
    /// runs out.
    ///
    /// ```
    /// let room = Room::new(alloc, 64).ok()?;
    /// assert!(rt; room.revision() == 0 && room.document().same(&Tree::from(Node::Null)));
    /// ```
    pub fn new(alloc: Global, limit: u64) -> Result<Room, RoomFault>
        ensures ok { IfOk result (λ room. room ≡ begun null 0 limit) }
        ensures bad_limit { IsErrOf result BadLimit ↔ ((limit < 1) ⊎ (MAX_REVISIONS < limit)) }
        ensures other { IfErr result (λ fault. (fault ≡ BadLimit) ⊎ (fault ≡ NoMemory)) }
    {
        Room::starting_at(alloc, Tree::from(Node::Null), 0, limit)
    }

    /// Creates a room with this document at revision `rev`, which holds the changes of the last
    /// `limit` revisions after it.
    ///
    /// Checks in this order and returns the first error: `TooDeep` and `TooHeavy` if the document
    /// is not within `Bounds::DOCUMENT`, `BadRevision` if `rev` is above `2^53 - 1`, `BadLimit` if
    /// `limit` is not 1 to 1,024, and `NoMemory` if memory runs out. An error drops the document.
    /// Costs a walk over the document, to measure it.
    ///
    /// ```
    /// let document = read(alloc, "[1, 2]").ok()?;
    /// let room = Room::starting_at(alloc, document, 7, 64).ok()?;
    /// assert!(rt; room.revision() == 7);
    /// ```
    pub fn starting_at(
        alloc: Global,
        document: Tree,
        rev: u64,
        limit: u64,
    ) -> Result<Room, RoomFault>
        ensures ok { IfOk result (λ room. (room ≡ begun document rev limit)
            × (room_fault document rev limit ≡ None)) }
        ensures refused { IfErr result (λ fault. (room_fault document rev limit ≡ Some fault)
            ⊎ ((fault ≡ NoMemory) × (room_fault document rev limit ≡ None))) }
    {
        if document.depth() > Bounds::DOCUMENT.depth {
            return Err(RoomFault::TooDeep);
        }
        let weight = document.weight();
        if weight > Bounds::DOCUMENT.weight {
            return Err(RoomFault::TooHeavy);
        }
        if rev > LAST_REVISION {
            return Err(RoomFault::BadRevision);
        }
        let history = History::new(alloc, limit, rev)?;
        Ok(Room {
            document,
            weight,
            history,
        })
    }

    /// Creates a room with a document that was measured: it weighs `known`, and is within
    /// `Bounds::DOCUMENT`. Otherwise as [`Room::starting_at`], whose checks it does not repeat.
    /// Returns `AllocError` if memory runs out, which drops the document.
    ///
    /// ```
    /// let document = read(alloc, "[1, 2]").ok()?;
    /// let weight = document.weight();
    /// let room = Room::holding(alloc, document, weight, 7, 64).ok()?;
    /// assert!(rt; room.revision() == 7 && room.weight() == 8 + 8 + 8);
    /// ```
    pub fn holding(
        alloc: Global,
        document: Tree,
        known: u64,
        rev: u64,
        limit: u64,
    ) -> Result<Room, AllocError>
        requires weight { known ≡ weight document }
        requires within { within DOCUMENT document ≡ Ok document }
        requires last { rev ≤ LAST_REVISION }
        requires least { 1 ≤ limit }
        requires most { limit ≤ MAX_REVISIONS }
        ensures { IfOk result (λ room. room ≡ begun document rev limit) }
    {
        let history = match History::new(alloc, limit, rev) {
            Ok(history) => history,
            Err(HistoryFault::NoMemory) => return Err(AllocError),
            Err(HistoryFault::BadLimit) => unreachable!(),
        };
        Ok(Room {
            document,
            weight: known,
            history,
        })
    }

    /// Forgets the changes of the oldest revisions until those held weigh no more than the budget
    /// ([`History::trim`]). A client that returns from an earlier revision gets a snapshot.
    /// Allocates nothing.
    ///
    /// ```
    /// let mut room = Room::new(alloc, 64).ok()?;
    /// let patch = Patch::from_owned(alloc, read(alloc, "[]").ok()?, PatchLimits::REQUEST).ok()?;
    /// room.edit(alloc, ReservedRevision::new(alloc).ok()?, None, &patch).ok()?;
    /// room.trim(Budget::Left(0));
    /// assert!(rt; room.revision() == 1 && room.history_weight() == 0);
    /// ```
    pub fn trim(&mut self, budget: Budget)
        ensures { self.new ≡ trimmed budget self.old }
    {
        self.history.trim(budget);
    }

    /// Returns the present document. Allocates nothing.
    ///
    /// ```
    /// let room = Room::starting_at(alloc, read(alloc, "[1]").ok()?, 7, 64).ok()?;
    /// assert!(rt; room.document().item(0)?.count() == Some(1));
    /// ```
    pub fn document(&self) -> &Tree
        ensures kept { IsRoom self.now }
        ensures document { result.now ≡ self.now.document }
    {
        &self.document
    }

    /// Returns the present revision. Allocates nothing.
    ///
    /// ```
    /// let mut room = Room::new(alloc, 64).ok()?;
    /// // An edit makes a revision, even if it changes nothing.
    /// let patch = Patch::from_owned(alloc, read(alloc, "[]").ok()?, PatchLimits::REQUEST).ok()?;
    /// room.edit(alloc, ReservedRevision::new(alloc).ok()?, None, &patch).ok()?;
    /// assert!(rt; room.revision() == 1);
    /// ```
    pub fn revision(&self) -> u64
        ensures kept { IsRoom self.now }
        ensures revision { result ≡ revision self.now }
    {
        self.history.newest()
    }

    /// Returns the weight of the present document, which the room keeps, so that nothing is
    /// measured. Allocates nothing.
    ///
    /// ```
    /// let room = Room::starting_at(alloc, read(alloc, r#"["abc"]"#).ok()?, 7, 64).ok()?;
    /// // The list and the text, and the bytes of the text.
    /// assert!(rt; room.weight() == 8 + 8 + 3);
    /// ```
    pub fn weight(&self) -> u64
        ensures { result ≡ weight self.now.document }
    {
        self.weight
    }

    /// Returns what the changes that it holds weigh together ([`History::weight`]). Allocates
    /// nothing.
    ///
    /// ```
    /// let mut room = Room::starting_at(alloc, read(alloc, "[1]").ok()?, 7, 64).ok()?;
    /// let ops = read(alloc, r#"[{"op": "add", "path": "/0", "value": 2}]"#).ok()?;
    /// let patch = Patch::from_owned(alloc, ops, PatchLimits::REQUEST).ok()?;
    /// room.edit(alloc, ReservedRevision::new(alloc).ok()?, None, &patch).ok()?;
    /// // The change itself, its token "0", and the number.
    /// assert!(rt; room.history_weight() == 64 + (8 + 1) + 8);
    /// ```
    pub fn history_weight(&self) -> u64
        ensures { result ≡ history_weight self.now.history }
    {
        self.history.weight()
    }
}
