//! The hub: the rooms, the open sessions, and what each call does.
//!
//! Each call but `shed` and the queries is a step (`specs/Step`). A hub agrees with the log of the
//! calls that it answered (`specs/Stands`): it has the documents, sessions and views of the log,
//! and every client that watches, and applies what was drawn for it and what waits, in order, holds
//! exactly its view of the present document. A call that returns `NoMemory` changes nothing.
ghost use Rattle.std.specs.Prelude.{◌≡◌, ◌<◌, ◌≤◌, ◌↔◌, [], ◌∷◌, ℕ, Some, None, Ok, IfOk, IfErr};
ghost use Rattle.std.specs.Prelude.{IfSome, IsErrOf, IsSomeAnd, IsTrue, OnOk, OnErr, length, not};
ghost use Rattle.std.specs.Prelude.{◌==◌, option_map};
ghost use Rattle.relay_hub.specs.Call.{StepIf, opening, receiving, drawing, closing, doing_will};
ghost use Rattle.relay_hub.specs.Call.{forgetting, logged};
ghost use Rattle.relay_hub.specs.Log.{Log, entry};
ghost use Rattle.relay_hub.specs.State.{config, index_named, is_crowded, vacant_in, session_of};
ghost use Rattle.relay_hub.specs.State.{made_with, new_hub};
ghost use Rattle.relay_hub.specs.Session.{waiting};
ghost use Rattle.relay_hub.specs.Shed.{shed};
ghost use Rattle.relay_hub.specs.Stands.{StandsFor};
ghost use Rattle.relay_hub.specs.Step.{Step, open_fault, forget_fault, floor_after};
ghost use Rattle.relay_limits.specs.declared.TheConstants.{MAX_COUNT};
ghost use Rattle.relay_hub.specs.Queries.{BadLimits, may_hear, RefusesEdits};
ghost use Rattle.relay_hub.specs.declared.config.HubConfig.{HubConfig};
ghost use Rattle.relay_hub.specs.declared.event.Event.TheVariants.{Open, Receive, Draw, Close};
ghost use Rattle.relay_hub.specs.declared.event.Event.TheVariants.{DoWill, Forget};
ghost use Rattle.relay_hub.specs.declared.event.Heard.TheVariants.{Answered};
ghost use Rattle.relay_hub.specs.declared.fault.HubNewFault.TheVariants.{BadLimit};

mod queries;
mod restoring;
mod running;

use crate::config::HubConfig;
use crate::entering::{NewSession, open_session, vacant_index};
use crate::event::{Heard, Opening};
use crate::fault::{ForgetFault, HubFault, HubNewFault, NoSession, OpenFault};
use crate::kept_texts::bound_texts;
use crate::message_counts::MessageCounts;
use crate::report::Report;
use crate::room_sessions::RoomSessions;
use crate::shed::{shed_budget, shed_rooms};
use crate::will::{Will, leave_behind};
use bytes::ByteStr;
use indexmap::IndexMap;
use relay_access::{Access, is_room_name};
use relay_limits::MAX_COUNT;
use relay_tree::Scratch;
use std::alloc::{AllocError, Global};
use std::marker::Model;

/// The rooms and the open sessions of a relay.
///
/// ```
/// let mut hub = Hub::new(alloc, 1, 1, 64, 32).ok()?;
/// let session = hub.open(alloc, "board", Access::ReadWrite).ok()?.session;
/// hub.receive(alloc, session, r#"{"do": "watch", "id": 2, "view": [""]}"#).ok()?;
/// // The first message is the welcome.
/// hub.draw(alloc, session).ok()??;
/// let (reply, shown) = (hub.draw(alloc, session).ok()??, hub.draw(alloc, session).ok()??);
/// assert!(rt; reply.as_str() == r#"{"id":2,"kind":"watching"}"#);
/// assert!(rt; shown.as_str() == r#"{"kind":"snapshot","rev":0,"view":[[null]]}"#);
/// ```
#[derive(Drop)]
pub struct Hub {
    config: HubConfig,
    /// The number of the next session. If it is above [`MAX_COUNT`], no number is left.
    next: u64,
    /// The least revision at which a new room begins.
    floor: u64,
    /// The rooms by name, each at its index. A new one comes last, or replaces one that is
    /// evictable.
    rooms: IndexMap<String, RoomSessions>,
    /// The index of each open session's room, by the session's number.
    homes: IndexMap<u64, usize>,
    /// The wills that are left to be done, the oldest first. There is space for one of each
    /// session.
    wills: Vec<Will>,
    counts: MessageCounts,
    /// An upper bound of the bytes of the snapshot texts that rooms keep.
    kept_bytes: u64,
    /// Whom the last text or will notified, how many edits were accepted, and what all work cost.
    report: Report,
    /// The memory in which texts are read.
    scratch: Box<Scratch>,
}

impl Model for Hub {
    ghost use Rattle.std.specs.Prelude.{◌≤◌, vec_capacity};
    ghost use Rattle.relay_patch.specs.contracts.change.Change as change;
    ghost use Rattle.relay_patch.specs.contracts.op.Op as op;
    ghost use Rattle.relay_hub.specs.contracts.session.Session as session;
    ghost use Rattle.relay_hub.specs.State.{State, IsHub, hub_code};
    ghost use Rattle.relay_hub.specs.Representation.{hub_of};

    ghost Value = { State };

    ghost coded = { hub_code change.the_row.coded op.the_row.coded session.the_row.coded };

    ghost view = { hub_of };

    ghost invariant = { λ h. IsHub (hub_of h) × (h.config.sessions ≤ vec_capacity h.wills) };
}

impl Hub {
    /// Makes a hub without rooms or sessions, with no bound on weight. Sessions are numbered from
    /// `first` on. Each room keeps the changes of at most `history` revisions (1 to 1,024), and at
    /// most `max_waiting_patches` patches wait for a session (1 to 256). `BadLimit`: one of them is
    /// out of its range, or `epoch` or `first` is not a count.
    ///
    /// ```
    /// let hub = Hub::new(alloc, 1, 1, 64, 32).ok()?;
    /// assert!(rt; hub.config().sessions == DEFAULT_SESSIONS);
    /// assert!(rt; Hub::new(alloc, 1, 1, 0, 32).is_err());
    /// ```
    pub fn new(
        alloc: Global,
        epoch: u64,
        first: u64,
        history: u64,
        max_waiting_patches: u64,
    ) -> Result<Hub, HubNewFault>
        ensures empty { IfOk result (λ hub. hub ≡ new_hub epoch first history max_waiting_patches) }
        ensures stands { IfOk result (λ hub.
            StandsFor (config epoch first history max_waiting_patches) [] hub) }
        ensures bad_limit { IsErrOf result BadLimit
            ↔ BadLimits (config epoch first history max_waiting_patches) }
    {
        Hub::with_config(
            alloc,
            HubConfig::new(epoch, first, history, max_waiting_patches),
        )
    }

    /// Makes a hub without rooms or sessions. `BadLimit`: a number of the configuration is out of
    /// its range, or `epoch` or `first` is not a count.
    ///
    /// ```
    /// let config = HubConfig { rooms: 1, ..HubConfig::new(1, 1, 64, 32) };
    /// let mut hub = Hub::with_config(alloc, config).ok()?;
    /// let only = hub.open(alloc, "only", Access::ReadWrite).ok()?;
    /// assert!(rt; hub.open(alloc, "another", Access::ReadWrite) == Err(OpenFault::RoomsFull));
    /// assert!(rt; hub.room_of(only.session) == Some(0));
    /// ```
    pub fn with_config(alloc: Global, config: HubConfig) -> Result<Hub, HubNewFault>
        ensures empty { IfOk result (λ hub. hub ≡ made_with config) }
        ensures stands { IfOk result (λ hub. StandsFor config [] hub) }
        ensures bad_limit { IsErrOf result BadLimit ↔ BadLimits config }
    {
        config.check()?;
        let Ok(scratch) = Box::new(alloc, Scratch::new(alloc)) else {
            return Err(HubNewFault::NoMemory);
        };
        let Ok(wills) = Vec::with_capacity(alloc, config.sessions as usize) else {
            return Err(HubNewFault::NoMemory);
        };
        Ok(Hub {
            config,
            next: config.first,
            floor: 0,
            rooms: IndexMap::new(alloc),
            homes: IndexMap::new(alloc),
            wills,
            counts: MessageCounts::none(),
            kept_bytes: 0,
            report: Report::new(alloc),
            scratch,
        })
    }

    /// Opens a session in a room, which may edit there or only watch. If there is no room of that
    /// name, one begins, with the document `null`; if there are as many as may be, it replaces one
    /// in which nobody is and whose document is `null`, unless a will is left to be done. It begins
    /// at a revision above those of all rooms that were evicted, so that no client takes it for an
    /// earlier one; 0 as long as all of these were at revision 0. A `Welcome` waits in the
    /// session's outbox. An error leaves the hub unchanged. `NoMemory` comes only if no other error
    /// does.
    ///
    /// ```
    /// let mut hub = Hub::new(alloc, 1, 5, 64, 32).ok()?;
    /// let opening = hub.open(alloc, "board", Access::ReadWrite).ok()?;
    /// assert!(rt; opening.session == 5 && opening.rev == 0);
    /// assert!(rt; hub.waiting(5) == Some(1));
    /// ```
    pub fn open(&mut self, alloc: Global, room: &str, access: Access) -> Result<Opening, OpenFault>
        ensures step { StepIf self.old (Open room.now access) (opening result) self.new }
        ensures stands { (b : HubConfig) (E : Log) → StandsFor b E self.old →
            StandsFor b (logged E (Open room.now access) (opening result)) self.new }
        ensures no_memory { IsErrOf result OpenFault.NoMemory
            → open_fault self.old room.now ≡ None }
    {
        let index = self.admit(room)?;
        let new_session = NewSession {
            number: self.next,
            access,
            config: self.config,
            floor: self.floor_after(index),
            vacant: self.vacant_for(index),
        };
        if self.homes.reserve(1).is_err() {
            return Err(OpenFault::NoMemory);
        }
        let Ok((index, rev)) = open_session(alloc, &mut self.rooms, room, index, new_session) else {
            return Err(OpenFault::NoMemory);
        };
        let _ = self.homes.insert(new_session.number, index);
        self.next += 1;
        self.floor = new_session.floor;
        Ok(Opening {
            session: new_session.number,
            rev,
        })
    }

    /// The floor after a session enters: the present one; but if no room is at `index`, and the one
    /// that begins replaces another whose revision is not 0, at least one above that revision.
    fn floor_after(&self, index: Option<usize>) -> u64
        ensures floor { result ≡ floor_after index self.now }
        ensures count { result ≤ MAX_COUNT }
    {
        if index.is_some() {
            return self.floor;
        }
        let Some(vacant) = vacant_index(self.config.rooms, &self.wills, &self.rooms) else {
            return self.floor;
        };
        let Some((_, room_sessions)) = self.rooms.get_index(vacant) else {
            unreachable!()
        };
        self.floor.max(room_sessions.above())
    }

    /// The index of the room that a new one replaces, if it does not come last.
    fn vacant_for(&self, index: Option<usize>) -> Option<usize>
        ensures new { index ≡ None → result ≡ vacant_in self.now }
        ensures within { IfSome result (λ i. i < length self.now.rooms) }
    {
        match index {
            Some(_) => None,
            None => vacant_index(self.config.rooms, &self.wills, &self.rooms),
        }
    }

    /// Returns the index of the room of that name, if there is one, or the first reason not to open
    /// a session there.
    fn admit(&self, room: &str) -> Result<Option<usize>, OpenFault>
        ensures ok { IfOk result (λ index. index ≡ index_named room.now self.now.rooms) }
        ensures admitted { OnOk result (open_fault self.now room.now ≡ None) }
        ensures refused { IfErr result (λ fault. open_fault self.now room.now ≡ Some fault) }
    {
        if !is_room_name(room) {
            return Err(OpenFault::RoomName);
        }
        let index = self.rooms.get_index_of(room);
        if self.is_crowded(index) {
            return Err(OpenFault::RoomsFull);
        }
        if (self.homes.len() + self.wills.len()) as u64 >= self.config.sessions {
            return Err(OpenFault::SessionsFull);
        }
        if self.next > MAX_COUNT {
            return Err(OpenFault::Exhausted);
        }
        Ok(index)
    }

    /// Returns true if another room is needed, there are as many as the configuration allows, and
    /// none can be replaced now: none is evictable, or a will is left to be done.
    fn is_crowded(&self, index: Option<usize>) -> bool
        ensures { result ≡ is_crowded index self.now }
    {
        index.is_none()
            && self.rooms.len() as u64 >= self.config.rooms
            && vacant_index(self.config.rooms, &self.wills, &self.rooms).is_none()
    }

    /// Serves a text from a session. `NoSession`: it is not open. `Busy`, with nothing changed,
    /// exactly if 32 replies wait for it, which is checked before the text is read. Otherwise
    /// exactly one reply is added to its outbox, unless memory runs out. An edit that is refused
    /// changes no room and no other session. `NoMemory` comes only if [`Hub::may_hear`] is true,
    /// and leaves the hub unchanged.
    ///
    /// ```
    /// let mut hub = Hub::new(alloc, 1, 1, 64, 32).ok()?;
    /// let session = hub.open(alloc, "board", Access::ReadWrite).ok()?.session;
    /// let edit = r#"{"do": "edit", "id": 1, "patch": [{"op": "add", "path": "", "value": []}]}"#;
    /// assert!(rt; hub.receive(alloc, session, edit) == Ok(Heard::Answered { short: 0 }));
    /// ```
    pub fn receive(&mut self, alloc: Global, session: u64, text: &str) -> Result<Heard, HubFault>
        ensures step { StepIf self.old (Receive session text.now) (receiving result) self.new }
        ensures stands { (b : HubConfig) (E : Log) → StandsFor b E self.old →
            StandsFor b (logged E (Receive session text.now) (receiving result)) self.new }
        ensures refused { (short : ℕ) → result ≡ Ok (Answered short)
            → RefusesEdits session text.now self.old self.new }
        ensures no_memory { IsErrOf result HubFault.NoMemory
            → IsTrue (may_hear (session_of self.old session)) }
    {
        let Some(index) = self.homes.get(&session) else {
            return Err(HubFault::NoSession);
        };
        let Some(room_sessions) = self.rooms.get_index_mut(*index) else {
            unreachable!()
        };
        room_sessions.receive(
            alloc,
            self.config,
            session,
            text,
            &mut self.report,
            &mut self.scratch,
        )
    }

    /// Removes and returns the text at the front of a session's outbox: replies first, then
    /// patches, then the due snapshot, which is made from the present document. `None` exactly if
    /// nothing waits. `NoSession`: it is not open. `NoMemory` comes only if something waits, and
    /// leaves the message in the outbox.
    ///
    /// ```
    /// let mut hub = Hub::new(alloc, 1, 1, 64, 32).ok()?;
    /// let session = hub.open(alloc, "board", Access::ReadWrite).ok()?.session;
    /// let welcome = hub.draw(alloc, session).ok()??;
    /// assert!(rt; welcome.as_str() == r#"{"epoch":1,"kind":"welcome","rev":0,"session":1}"#);
    /// assert!(rt; hub.draw(alloc, session) == Ok(None));
    /// ```
    pub fn draw(&mut self, alloc: Global, session: u64) -> Result<Option<ByteStr>, HubFault>
        ensures step { StepIf self.old (Draw session) (drawing result) self.new }
        ensures stands { (b : HubConfig) (E : Log) → StandsFor b E self.old →
            StandsFor b (logged E (Draw session) (drawing result)) self.new }
        ensures empty { result ≡ Ok None
            → option_map waiting (session_of self.old session) ≡ Some 0 }
        ensures no_memory { IsErrOf result HubFault.NoMemory
            → IsSomeAnd (option_map waiting (session_of self.old session)) (λ n. 0 < n) }
    {
        let Some(index) = self.homes.get(&session) else {
            return Err(HubFault::NoSession);
        };
        let Some(room_sessions) = self.rooms.get_index_mut(*index) else {
            unreachable!()
        };
        let before = room_sessions.snapshot_bytes();
        let text = room_sessions.draw(alloc, session, &mut self.counts);
        bound_texts(&mut self.rooms, &mut self.kept_bytes, *index, before);
        text
    }

    /// Closes a session. Its room stays, and its will, if it has one, is left to be done
    /// ([`Hub::do_will`]). `NoSession`: it is not open. Allocates nothing.
    ///
    /// ```
    /// let mut hub = Hub::new(alloc, 1, 1, 64, 32).ok()?;
    /// let session = hub.open(alloc, "board", Access::ReadWrite).ok()?.session;
    /// assert!(rt; hub.close(session).is_ok());
    /// assert!(rt; hub.close(session).is_err());
    /// ```
    pub fn close(&mut self, session: u64) -> Result<(), NoSession>
        ensures step { Step self.old (Close session) (closing result) self.new }
        ensures stands { (b : HubConfig) (E : Log) → StandsFor b E self.old →
            StandsFor b (entry (Close session) (closing result) ∷ E) self.new }
    {
        let Some(index) = self.homes.get(&session) else {
            return Err(NoSession);
        };
        let Some(room_sessions) = self.rooms.get_index_mut(*index) else {
            unreachable!()
        };
        let will = room_sessions.leave(session, *index);
        leave_behind(&mut self.wills, will);
        let _ = self.homes.swap_remove(&session);
        Ok(())
    }

    /// Returns true if a will is left to be done. Allocates nothing.
    ///
    /// ```
    /// let mut hub = Hub::new(alloc, 1, 1, 64, 32).ok()?;
    /// let session = hub.open(alloc, "board", Access::ReadWrite).ok()?.session;
    /// let will = r#"{"do": "will", "id": 1, "patch": [{"op": "add", "path": "", "value": 7}]}"#;
    /// hub.receive(alloc, session, will).ok()?;
    /// assert!(rt; !hub.has_wills());
    /// hub.close(session).ok()?;
    /// assert!(rt; hub.has_wills());
    /// ```
    pub fn has_wills(&self) -> bool
        ensures { result ≡ not (length self.now.wills == 0) }
    {
        !self.wills.is_empty()
    }

    /// Does the oldest of the wills that closed sessions left: an edit of which nobody gets a
    /// reply. If the room refuses it, nothing changes but that it is done. Returns how many
    /// watchers' outboxes folded because memory ran out; `None` if no will is left. `AllocError`
    /// leaves the hub unchanged, so that it can be done later.
    ///
    /// ```
    /// let mut hub = Hub::new(alloc, 1, 1, 64, 32).ok()?;
    /// let session = hub.open(alloc, "board", Access::ReadWrite).ok()?.session;
    /// let will = r#"{"do": "will", "id": 1, "patch": [{"op": "add", "path": "", "value": 7}]}"#;
    /// hub.receive(alloc, session, will).ok()?;
    /// hub.close(session).ok()?;
    /// assert!(rt; hub.has_wills());
    /// assert!(rt; hub.do_will(alloc) == Ok(Some(0)) && !hub.has_wills());
    /// assert!(rt; hub.open(alloc, "board", Access::ReadWrite).ok()?.rev == 1);
    /// ```
    pub fn do_will(&mut self, alloc: Global) -> Result<Option<u64>, AllocError>
        ensures step { StepIf self.old DoWill (doing_will result) self.new }
        ensures stands { (b : HubConfig) (E : Log) → StandsFor b E self.old →
            StandsFor b (logged E DoWill (doing_will result)) self.new }
        ensures no_memory { OnErr result (0 < length self.old.wills) }
    {
        let Some(will) = self.wills.first() else {
            return Ok(None);
        };
        let Some(room_sessions) = self.rooms.get_index_mut(will.room_index) else {
            unreachable!()
        };
        let short = room_sessions.do_will(alloc, self.config, &will.patch, &mut self.report)?;
        let _ = self.wills.remove(0);
        Ok(Some(short))
    }

    /// Forgets the document of a room in which nobody is: it becomes `null` at the next revision,
    /// which is returned. A client that resumes from an earlier one gets a snapshot. A fault leaves
    /// the hub unchanged. `NoMemory` comes only if no other fault does.
    ///
    /// ```
    /// let mut hub = Hub::new(alloc, 1, 1, 64, 32).ok()?;
    /// let session = hub.open(alloc, "board", Access::ReadWrite).ok()?.session;
    /// assert!(rt; hub.forget(alloc, "board") == Err(ForgetFault::Occupied));
    /// hub.close(session).ok()?;
    /// assert!(rt; hub.forget(alloc, "board") == Ok(1));
    /// ```
    pub fn forget(&mut self, alloc: Global, room: &str) -> Result<u64, ForgetFault>
        ensures step { StepIf self.old (Forget room.now) (forgetting result) self.new }
        ensures stands { (b : HubConfig) (E : Log) → StandsFor b E self.old →
            StandsFor b (logged E (Forget room.now) (forgetting result)) self.new }
        ensures no_memory { IsErrOf result ForgetFault.NoMemory
            → forget_fault self.old room.now ≡ None }
    {
        let Some(index) = self.rooms.get_index_of(room) else {
            return Err(ForgetFault::NoRoom);
        };
        let Some(room_sessions) = self.rooms.get_index_mut(index) else {
            unreachable!()
        };
        room_sessions.forget(alloc, self.config.history)
    }

    /// Gives memory back after an allocation was refused: each room forgets its history, if a
    /// weight bounds that, so that a resume from before its last change is answered by a snapshot;
    /// and the patches that wait for a session fold into one snapshot that is due. Documents,
    /// sessions and replies stay. Allocates nothing.
    ///
    /// ```
    /// let mut hub = Hub::new(alloc, 1, 1, 64, 32).ok()?;
    /// let client = hub.open(alloc, "board", Access::ReadWrite).ok()?.session;
    /// hub.receive(alloc, client, r#"{"do":"resume","id":1,"epoch":1,"rev":0,"view":[""]}"#).ok()?;
    /// let edit = r#"{"do": "edit", "id": 2, "patch": [{"op": "add", "path": "", "value": 7}]}"#;
    /// hub.receive(alloc, client, edit).ok()?;
    /// hub.shed();
    /// while hub.waiting(client) != Some(1) { hub.draw(alloc, client).ok()??; }
    /// assert!(rt; hub.draw(alloc, client).ok()??.as_str().starts_with(r#"{"kind":"snapshot""#));
    /// ```
    pub fn shed(&mut self)
        ensures shed { self.new ≡ shed self.old }
        ensures stands { (b : HubConfig) (E : Log) → StandsFor b E self.old
            → StandsFor b E self.new }
    {
        shed_rooms(&mut self.rooms, shed_budget(self.config.history_weight));
        // No room keeps a text any more.
        self.kept_bytes = 0;
    }
}
