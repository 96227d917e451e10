//! Queries of a hub, which leave it unchanged.
ghost use Rattle.std.specs.Prelude.{◌≡◌, ◌≢◌, ◌↔◌, Some, None, IfOk, IsErrOf, option_map};
ghost use Rattle.std.specs.Prelude.{ℕ, List, slice_get};
ghost use Rattle.relay_hub.specs.State.{IsHub, IsRising, RoomSessions, index_of, session_of};
ghost use Rattle.relay_hub.specs.Representation.{rooms_of};
ghost use Rattle.relay_hub.specs.Session.{waiting};
ghost use Rattle.relay_hub.specs.SessionWill.{held_will, session_at, shown_will};
ghost use Rattle.relay_hub.specs.Summary.{room_named, shown_by, summary_of};
ghost use Rattle.relay_tree.specs.Document.{saturated};
ghost use Rattle.relay_hub.specs.Queries.{room_and_session, may_hear, rooms_weight, truth};
ghost use Rattle.relay_hub.specs.Queries.{is_due, replies};
ghost use Rattle.relay_hub.specs.Since.{message_there, revision_there, Tells};

use super::Hub;
use crate::config::HubConfig;
use crate::fault::HubFault;
use crate::message_counts::MessageCounts;
use crate::room_sessions::RoomSessions;
use crate::room_update::{RoomUpdate, update_since};
use crate::session::Session;
use crate::session_will::SessionWill;
use crate::summary::{RoomSummary, summary_of};
use crate::told::Told;
use crate::will::Will;
use indexmap::IndexMap;
use relay_room::Room;
use relay_tree::Tree;
use relay_view::View;
use std::alloc::{AllocError, Global};

impl Hub {
    /// The configuration that it was made with. Its clause `is` tells the caller what holds of
    /// every hub. Allocates nothing.
    ///
    /// ```
    /// let hub = Hub::new(alloc, 1_700_000_000, 1, 64, 32).ok()?;
    /// assert!(rt; hub.config() == HubConfig::new(1_700_000_000, 1, 64, 32));
    /// ```
    pub fn config(&self) -> HubConfig
        ensures config { result ≡ self.now.config }
        ensures is { IsHub self.now }
    {
        self.config
    }

    /// The number of messages that its sessions drew since it was made, by kind. No clause speaks
    /// of these numbers. Allocates nothing.
    ///
    /// ```
    /// let mut hub = Hub::new(alloc, 1, 1, 64, 32).ok()?;
    /// let session = hub.open(alloc, "board", Access::ReadWrite).ok()?.session;
    /// assert!(rt; hub.message_counts().replies == 0);
    /// hub.draw(alloc, session).ok()??;
    /// assert!(rt; hub.message_counts().replies == 1);
    /// ```
    pub fn message_counts(&self) -> &MessageCounts {
        &self.counts
    }

    /// The number of edits that its rooms accepted since it was made, those of wills among them. No
    /// clause speaks of it. Allocates nothing.
    ///
    /// ```
    /// let mut hub = Hub::new(alloc, 1, 1, 64, 32).ok()?;
    /// let session = hub.open(alloc, "board", Access::ReadWrite).ok()?.session;
    /// hub.receive(alloc, session, r#"{"do": "edit", "id": 1, "patch": []}"#).ok()?;
    /// // An edit that is refused does not count.
    /// hub.receive(alloc, session, r#"{"base": 0, "do": "edit", "id": 2, "patch": []}"#).ok()?;
    /// assert!(rt; hub.edits() == 1);
    /// ```
    pub fn edits(&self) -> u64 {
        self.report.edits
    }

    /// The cost of its texts, wills and draws since it was made: an estimate in microseconds on the
    /// machine of docs/PERFORMANCE.md, within a factor of about two, counted where the work is
    /// done. No clause speaks of it. Allocates nothing.
    ///
    /// ```
    /// let mut hub = Hub::new(alloc, 1, 1, 64, 32).ok()?;
    /// let session = hub.open(alloc, "board", Access::ReadWrite).ok()?.session;
    /// let before = hub.cost();
    /// let edit = r#"{"do": "edit", "id": 1, "patch": [{"op": "add", "path": "", "value": []}]}"#;
    /// hub.receive(alloc, session, edit).ok()?;
    /// assert!(rt; hub.cost() > before);
    /// ```
    pub fn cost(&self) -> u64 {
        let nanos = self.report.cost.total();
        nanos.saturating_add(self.counts.cost.total()) / 1_000
    }

    /// Whom the last text of an open session, or the last will, told something, besides the session
    /// that sent the text: no other outbox changed. No clause speaks of it. Allocates nothing.
    ///
    /// ```
    /// let mut hub = Hub::new(alloc, 1, 1, 64, 32).ok()?;
    /// let editor = hub.open(alloc, "board", Access::ReadWrite).ok()?.session;
    /// let watcher = hub.open(alloc, "board", Access::ReadOnly).ok()?.session;
    /// hub.receive(alloc, watcher, r#"{"do": "watch", "id": 1, "view": [""]}"#).ok()?;
    /// let edit = r#"{"do": "edit", "id": 1, "patch": [{"op": "add", "path": "", "value": []}]}"#;
    /// hub.receive(alloc, editor, edit).ok()?;
    /// assert!(rt; hub.told().sessions.as_slice() == [watcher].as_slice());
    /// ```
    pub fn told(&self) -> &Told {
        &self.report.told
    }

    /// The room of a session, and the session.
    fn find(&self, session: u64) -> Option<(&Room, &Session)>
        ensures { option_map (λ p. (p.0.now, p.1.now)) result ≡ room_and_session self.now session }
    {
        let index = self.homes.get(&session)?;
        let Some((_, room_sessions)) = self.rooms.get_index(*index) else {
            unreachable!()
        };
        Some((room_sessions.room(), room_sessions.session(session)))
    }

    /// Returns true if a text of the session would be answered: it is open, and fewer than 32
    /// replies wait. Allocates nothing.
    ///
    /// ```
    /// let mut hub = Hub::new(alloc, 1, 1, 64, 32).ok()?;
    /// let session = hub.open(alloc, "board", Access::ReadWrite).ok()?.session;
    /// for _ in 0..31 {
    ///     hub.receive(alloc, session, r#"{"do": "unwatch", "id": 1}"#).ok()?;
    /// }
    /// assert!(rt; !hub.may_hear(session));
    /// hub.draw(alloc, session).ok()??;
    /// assert!(rt; hub.may_hear(session));
    /// ```
    pub fn may_hear(&self, session: u64) -> bool
        ensures { result ≡ may_hear (session_of self.now session) }
    {
        match self.find(session) {
            Some((_, session)) => !session.is_full(),
            None => false,
        }
    }

    /// The number of messages that wait for the session, that is, of draws that would return a text
    /// now. `None` if it is not open. Allocates nothing.
    ///
    /// ```
    /// let mut hub = Hub::new(alloc, 1, 1, 64, 32).ok()?;
    /// let session = hub.open(alloc, "board", Access::ReadWrite).ok()?.session;
    /// hub.receive(alloc, session, r#"{"do": "watch", "id": 1, "view": [""]}"#).ok()?;
    /// // The welcome, the reply, and the snapshot that is due.
    /// assert!(rt; hub.waiting(session) == Some(3));
    /// assert!(rt; hub.waiting(session + 1) == None);
    /// ```
    pub fn waiting(&self, session: u64) -> Option<u64>
        ensures { result ≡ option_map waiting (session_of self.now session) }
    {
        let (_, session) = self.find(session)?;
        Some(session.waiting())
    }

    /// The number of replies among the messages that wait for the session. They are drawn before
    /// the patches, and before the snapshot that is due. `None` if it is not open. Allocates
    /// nothing.
    ///
    /// ```
    /// let mut hub = Hub::new(alloc, 1, 1, 64, 32).ok()?;
    /// let session = hub.open(alloc, "board", Access::ReadWrite).ok()?.session;
    /// hub.receive(alloc, session, r#"{"do": "watch", "id": 1, "view": [""]}"#).ok()?;
    /// // The welcome and the reply.
    /// assert!(rt; hub.replies(session) == Some(2));
    /// ```
    pub fn replies(&self, session: u64) -> Option<u64>
        ensures { result ≡ option_map replies (session_of self.now session) }
    {
        let (_, session) = self.find(session)?;
        Some(session.replies())
    }

    /// Returns true if a snapshot is due for the session, behind the replies that wait. Then no
    /// patch waits. Allocates nothing.
    ///
    /// ```
    /// let mut hub = Hub::new(alloc, 1, 1, 64, 32).ok()?;
    /// let session = hub.open(alloc, "board", Access::ReadWrite).ok()?.session;
    /// assert!(rt; !hub.is_due(session));
    /// hub.receive(alloc, session, r#"{"do": "watch", "id": 1, "view": [""]}"#).ok()?;
    /// assert!(rt; hub.is_due(session));
    /// ```
    pub fn is_due(&self, session: u64) -> bool
        ensures { result ≡ is_due (session_of self.now session) }
    {
        match self.find(session) {
            Some((_, session)) => session.is_due(),
            None => false,
        }
    }

    /// The index of the session's room ([`Hub::room_at`]), which it keeps while the session is
    /// open. `None` if it is not open. Allocates nothing.
    ///
    /// ```
    /// let mut hub = Hub::new(alloc, 1, 1, 64, 32).ok()?;
    /// hub.open(alloc, "board", Access::ReadWrite).ok()?;
    /// let lobby = hub.open(alloc, "lobby", Access::ReadOnly).ok()?.session;
    /// let index = hub.room_of(lobby)?;
    /// assert!(rt; index == 1 && hub.room_at(index)?.name == "lobby");
    /// ```
    pub fn room_of(&self, session: u64) -> Option<usize>
        ensures { result ≡ index_of self.now session }
    {
        self.homes.get(&session).copied()
    }

    /// The present revision and the session's view of the present document; `None` if it watches
    /// nothing. `NoSession`: it is not open. `NoMemory`: there is not enough for the view.
    ///
    /// ```
    /// let mut hub = Hub::new(alloc, 1, 1, 64, 32).ok()?;
    /// let session = hub.open(alloc, "board", Access::ReadWrite).ok()?.session;
    /// assert!(rt; hub.truth(alloc, session).ok()?.is_none());
    /// hub.receive(alloc, session, r#"{"do": "watch", "id": 1, "view": [""]}"#).ok()?;
    /// let (rev, view) = hub.truth(alloc, session).ok()??;
    /// assert!(rt; rev == 0 && view.text(alloc).ok()?.as_str() == "[[null]]");
    /// ```
    pub fn truth(&self, alloc: Global, session: u64) -> Result<Option<(u64, Tree)>, HubFault>
        ensures ok { IfOk result (λ shown. truth self.now session ≡ Some shown) }
        ensures no_session { IsErrOf result HubFault.NoSession
            ↔ (session_of self.now session ≡ None) }
        ensures no_memory { IsErrOf result HubFault.NoMemory → truth self.now session ≢ Some None }
    {
        let Some((room, session)) = self.find(session) else {
            return Err(HubFault::NoSession);
        };
        let Some(view) = session.view() else {
            return Ok(None);
        };
        match view.get().of(alloc, room.document()) {
            Ok(shown) => Ok(Some((room.revision(), shown))),
            Err(_) => Err(HubFault::NoMemory),
        }
    }

    /// The name and the size of the room at an index, from 0. `None` if no room has that index or
    /// a later one. Allocates nothing.
    ///
    /// ```
    /// let mut hub = Hub::new(alloc, 1, 1, 64, 32).ok()?;
    /// hub.open(alloc, "board", Access::ReadWrite).ok()?;
    /// hub.open(alloc, "board", Access::ReadOnly).ok()?;
    /// let board = hub.room_at(0)?;
    /// assert!(rt; board.name == "board" && board.sessions == 2);
    /// assert!(rt; hub.room_at(1).is_none());
    /// ```
    #[tactic(auto, using(crate::proofs::Representation::room_at, crate::proofs::Representation::no_room_at))]
    pub fn room_at(&self, index: usize) -> Option<RoomSummary<'_>>
        ensures { option_map shown_by result
            ≡ option_map summary_of (slice_get self.now.rooms index) }
    {
        let (name, room_sessions) = self.rooms.get_index(index)?;
        Some(summary_of(name, room_sessions))
    }

    /// The name and the size of the room of a name. `None` if there is none. Allocates nothing.
    ///
    /// ```
    /// let mut hub = Hub::new(alloc, 1, 1, 64, 32).ok()?;
    /// let session = hub.open(alloc, "board", Access::ReadWrite).ok()?.session;
    /// hub.receive(alloc, session, r#"{"do": "edit", "id": 1, "patch": []}"#).ok()?;
    /// assert!(rt; hub.room_named("board")?.revision == 1);
    /// assert!(rt; hub.room_named("lobby").is_none());
    /// ```
    pub fn room_named(&self, name: &str) -> Option<RoomSummary<'_>>
        ensures { option_map shown_by result
            ≡ option_map summary_of (room_named name.now self.now.rooms) }
    {
        match self.rooms.get_index_of(name) {
            Some(index) => self.room_at(index),
            None => None,
        }
    }

    /// The will of the session at a place among those of the room at an index, both from 0, in the
    /// order of the sessions' numbers. Its patch is empty if the session left none. `None` if the
    /// room has no more sessions, or no room has that index. Allocates nothing.
    ///
    /// ```
    /// let mut hub = Hub::new(alloc, 1, 1, 64, 32).ok()?;
    /// let ann = hub.open(alloc, "board", Access::ReadWrite).ok()?.session;
    /// hub.open(alloc, "board", Access::ReadOnly).ok()?;
    /// let will = r#"{"do": "will", "id": 1, "patch": [{"op": "add", "path": "", "value": 7}]}"#;
    /// hub.receive(alloc, ann, will).ok()?;
    /// let (first, second) = (hub.will_in(0, 0)?, hub.will_in(0, 1)?);
    /// assert!(rt; first.session == ann && first.number == 1 && second.number == 0);
    /// assert!(rt; hub.will_in(0, 2).is_none() && hub.will_in(1, 0).is_none());
    /// ```
    #[tactic(auto, using(crate::proofs::Representation::room_at, crate::proofs::Representation::no_room_at))]
    pub fn will_in(&self, index: usize, place: usize) -> Option<SessionWill<'_>>
        ensures will { option_map shown_will result
            ≡ option_map held_will (session_at self.now index place) }
        ensures rising { (room : List ℕ × RoomSessions) → slice_get self.now.rooms index ≡ Some room
            → IsRising room.1.sessions }
    {
        let (_, room_sessions) = self.rooms.get_index(index)?;
        room_sessions.will_at(place)
    }

    /// The wills of closed sessions that are not done yet, the oldest first ([`Hub::do_will`]).
    /// Allocates nothing.
    ///
    /// ```
    /// let mut hub = Hub::new(alloc, 1, 1, 64, 32).ok()?;
    /// let session = hub.open(alloc, "board", Access::ReadWrite).ok()?.session;
    /// let will = r#"{"do": "will", "id": 1, "patch": [{"op": "add", "path": "", "value": 7}]}"#;
    /// hub.receive(alloc, session, will).ok()?;
    /// assert!(rt; hub.waiting_wills().is_empty());
    /// hub.close(session).ok()?;
    /// assert!(rt; hub.waiting_wills().len() == 1);
    /// ```
    pub fn waiting_wills(&self) -> &[Will]
        ensures { result.now ≡ self.now.wills }
    {
        self.wills.as_slice()
    }

    /// The message for a client that holds its view of revision `held` of the room at an index, or
    /// nothing: a patch; or a snapshot, if it holds nothing, or the changes since are no longer all
    /// held, or they weigh more than the document. `None` if that is the present revision, or no
    /// room has that index. No session is told anything.
    ///
    /// ```
    /// let mut hub = Hub::new(alloc, 1, 1, 64, 32).ok()?;
    /// let session = hub.open(alloc, "board", Access::ReadWrite).ok()?.session;
    /// let edit = r#"{"do": "edit", "id": 1, "patch": [{"op": "add", "path": "", "value": 7}]}"#;
    /// hub.receive(alloc, session, edit).ok()?;
    /// let whole = View::read(alloc, &read(alloc, r#"[""]"#).ok()?).ok()?;
    /// let update = hub.update_since(alloc, 0, Some(0), &whole).ok()??;
    /// // A patch would weigh more than this document.
    /// assert!(rt; update.is_snapshot && update.revision == 1);
    /// assert!(rt; hub.update_since(alloc, 0, Some(1), &whole).ok()?.is_none());
    /// ```
    #[tactic(auto, using(crate::proofs::Representation::room_at, crate::proofs::Representation::no_room_at))]
    pub fn update_since(
        &self,
        alloc: Global,
        index: usize,
        held: Option<u64>,
        view: &View,
    ) -> Result<Option<RoomUpdate>, AllocError>
        ensures { IfOk result (λ update. Tells
            (revision_there (slice_get self.now.rooms index))
            (message_there (slice_get self.now.rooms index) view.now held) update) }
    {
        match self.rooms.get_index(index) {
            Some((_, room_sessions)) => update_since(alloc, room_sessions.room(), held, view),
            None => Ok(None),
        }
    }

    /// The weight of the patches that wait for all sessions; 0 if no bound was set, since then it
    /// is not counted ([`HubConfig::waiting_weight`]); `u64::MAX` if it is more. Allocates nothing.
    ///
    /// ```
    /// let bound = Budget::Left(65_536);
    /// let config = HubConfig { waiting_weight: bound, ..HubConfig::new(1, 1, 64, 32) };
    /// let mut hub = Hub::with_config(alloc, config).ok()?;
    /// let client = hub.open(alloc, "board", Access::ReadWrite).ok()?.session;
    /// hub.receive(alloc, client, r#"{"do":"resume","id":1,"epoch":1,"rev":0,"view":[""]}"#).ok()?;
    /// let edit = r#"{"do": "edit", "id": 2, "patch": [{"op": "add", "path": "", "value": 7}]}"#;
    /// hub.receive(alloc, client, edit).ok()?;
    /// assert!(rt; hub.waiting_weight() == 8 + 1 + 8 + 8); // The token "0", a list and a number.
    /// ```
    pub fn waiting_weight(&self) -> u64
        ensures { result ≡ saturated (rooms_weight self.now.rooms) }
    {
        weight_of_rooms(&self.rooms)
    }
}

/// The weight of the patches that wait for the sessions of all rooms, as far as that is bounded.
fn weight_of_rooms(rooms: &IndexMap<String, RoomSessions>) -> u64
    ensures { result ≡ saturated (rooms_weight (rooms_of rooms.now.entries)) }
{
    let mut weight = 0u64;
    for index in 0..rooms.len() {
        let Some((_, room_sessions)) = rooms.get_index(index) else {
            unreachable!()
        };
        weight = weight.saturating_add(room_sessions.load());
    }
    weight
}
