//! A room with its open sessions, and their audiences, by which an edit finds whom it touches.
ghost use Rattle.std.specs.Prelude.{◌≡◌};
ghost use Rattle.relay_tree.specs.Document.{saturated};
ghost use Rattle.relay_hub.specs.Queries.{sessions_weight};
ghost use Rattle.relay_hub.specs.State.{is_null};

use crate::asked::{Asked, ask};
use crate::caller::{Caller, session_at};
use crate::config::HubConfig;
use crate::event::Heard;
use crate::fault::{AdoptFault, ForgetFault, HubFault};
use crate::message_counts::MessageCounts;
use crate::report::Report;
use crate::session::Session;
use crate::session_will::{SessionWill, will_held};
use crate::shed::shed_sessions;
use crate::snapshot_text::SnapshotText;
use crate::told::Told;
use crate::will::Will;
use crate::{cost, requests};
use bytes::ByteStr;
use relay_audience::Audiences;
use relay_limits::MAX_COUNT;
use relay_patch::{Bounds, Patch};
use relay_room::Room;
use relay_tree::{Budget, Node, Scratch, Tree};
use std::alloc::{AllocError, Global};
use std::marker::Model;

/// A room with its sessions in the order in which they were opened, so that their numbers rise and
/// one is found by a binary search. Contracts see the room and the sessions, but neither the
/// audiences, which have each session that watches, nor the text that is kept of a snapshot.
#[derive(Drop)]
pub struct RoomSessions {
    room: Room,
    sessions: Vec<Session>,
    audiences: Audiences,
    /// The text of the present snapshot. It is dropped before the room may change.
    snapshot: SnapshotText,
}

impl Model for RoomSessions {
    ghost use Rattle.relay_patch.specs.contracts.change.Change as change;
    ghost use Rattle.relay_hub.specs.contracts.session.Session as session;
    ghost use Rattle.relay_hub.specs.SnapshotText.{IsSnapshotText};
    ghost use Rattle.relay_hub.specs.State.{RoomSessions, room_sessions, room_sessions_code};
    ghost use Rattle.relay_hub.specs.Watched.{AreAudiencesOf};

    ghost Value = { RoomSessions };

    ghost coded = { room_sessions_code change.the_row.coded session.the_row.coded };

    ghost view = { λ g. room_sessions g.room g.sessions.items };

    ghost invariant = { λ g. AreAudiencesOf g.audiences g.sessions.items
        × IsSnapshotText g.room g.snapshot };
}

impl RoomSessions {
    ghost use Rattle.std.specs.Prelude.{◌≡◌, ◌≢◌, ◌<◌, ◌≤◌, ◌+◌, true, [], ◌∷◌, Some, None, Ok};
    ghost use Rattle.std.specs.Prelude.{IfOk, IfErr, OnOk, OnErr, IsErrOf, IsSome, IsSomeAnd};
    ghost use Rattle.std.specs.Prelude.{length, option_map, slice_get};
    ghost use Rattle.relay_limits.specs.declared.TheConstants.{MAX_REVISIONS};
    ghost use Rattle.relay_room.specs.Room.{begun, revision};
    ghost use Rattle.relay_tree.specs.Document.{null, weight};
    ghost use Rattle.relay_hub.specs.Call.{receiving, drawing, ReceivesIf, WillServedIf, DrawsIf};
    ghost use Rattle.relay_hub.specs.Call.{HasSpace, IsAbove};
    ghost use Rattle.relay_hub.specs.Caller.{IsCaller};
    ghost use Rattle.relay_hub.specs.Session.{Session, waiting};
    ghost use Rattle.relay_hub.specs.SessionWill.{held_will, shown_will};
    ghost use Rattle.relay_hub.specs.Shed.{shed_room};
    ghost use Rattle.relay_hub.specs.State.{IsRising, room_sessions, is_evictable, above};
    ghost use Rattle.relay_hub.specs.State.{session_in};
    ghost use Rattle.relay_hub.specs.Step.{ChangesOnly, Serves, anew_fault, forget_fault_of};
    ghost use Rattle.relay_hub.specs.Step.{will_of};
    ghost use Rattle.relay_hub.specs.Told.{ChangesTold, ChangesToldAnd};

    /// A room with its first session, which watches nothing.
    pub fn begin(alloc: Global, room: Room, first: Session) -> Result<RoomSessions, AllocError>
        requires { first.view ≡ None }
        ensures { IfOk result (λ g. g ≡ room_sessions room (first ∷ [])) }
    {
        let mut sessions = Vec::with_capacity(alloc, 1)?;
        sessions.push(first)?;
        let audiences = Audiences::new(alloc);
        Ok(RoomSessions {
            room,
            sessions,
            audiences,
            snapshot: SnapshotText::none(),
        })
    }

    /// The room. Allocates nothing.
    pub fn room(&self) -> &Room
        ensures { result.now ≡ self.now.room }
    {
        &self.room
    }

    /// The number of its sessions. Allocates nothing.
    pub fn len(&self) -> usize
        ensures { result ≡ length self.now.sessions }
    {
        self.sessions.len()
    }

    /// The weight of the patches that wait for its sessions; 0 if no bound was set, since then it
    /// is not counted ([`Session::load`]); `u64::MAX` if it is more. Allocates nothing.
    pub fn load(&self) -> u64
        ensures { result ≡ saturated (sessions_weight self.now.sessions) }
    {
        load_of(self.sessions.as_slice())
    }

    /// The length in bytes of the text that is kept of a snapshot; 0 if none is. Allocates nothing.
    pub fn snapshot_bytes(&self) -> u64 {
        self.snapshot.bytes()
    }

    /// Drops the text that is kept of a snapshot. Allocates nothing.
    pub fn drop_snapshot(&mut self)
        ensures { self.new ≡ self.old }
    {
        self.snapshot = SnapshotText::none();
    }

    /// Returns true if it may be evicted for another room: its document is `null`, nobody is in it,
    /// and a revision above its own is left. Allocates nothing.
    pub fn is_evictable(&self) -> bool
        ensures { result ≡ is_evictable self.now }
    {
        is_null(self.room.document())
            && self.sessions.is_empty()
            && self.room.revision() < MAX_COUNT
    }

    /// A revision above all of its own, if it is evictable; 0 if its revision is 0. Allocates
    /// nothing.
    pub fn above(&self) -> u64
        requires { is_evictable self.now ≡ true }
        ensures { result ≡ above self.now }
    {
        match self.room.revision() {
            0 => 0,
            rev => rev + 1,
        }
    }

    /// The session with that number, which is there. Allocates nothing.
    pub fn session(&self, number: u64) -> &Session
        requires { IsSome (session_in self.now.sessions number) }
        ensures { session_in self.now.sessions number ≡ Some result.now }
    {
        let sessions = self.sessions.as_slice();
        session_at(sessions, Caller::find(sessions, number))
    }

    /// The will of the session at a place, in the order of their numbers. `None` if there are no
    /// more. Allocates nothing.
    pub fn will_at(&self, place: usize) -> Option<SessionWill<'_>>
        ensures will { option_map shown_will result
            ≡ option_map held_will (slice_get self.now.sessions place) }
        ensures rising { IsRising self.now.sessions }
    {
        let session = self.sessions.get(place)?;
        Some(will_held(session))
    }

    /// Adds a session, which watches nothing, behind the others. Its number is above theirs. Out of
    /// memory changes nothing.
    pub fn join(&mut self, session: Session) -> Result<(), AllocError>
        requires fresh { IsAbove session.number self.old.sessions }
        requires idle { session.view ≡ None }
        ensures ok { OnOk result (ChangesOnly session.number (Some session) self.old self.new) }
        ensures err { OnErr result (self.new ≡ self.old) }
    {
        self.sessions.push(session)?;
        Ok(())
    }

    /// Removes a session that is there, and returns the will that it leaves in the room at an
    /// index, which may be empty. Allocates nothing.
    pub fn leave(&mut self, number: u64, room_index: usize) -> Will
        requires { IsSome (session_in self.old.sessions number) }
        ensures gone { ChangesOnly number None self.old self.new }
        ensures will { (x : Session) → session_in self.old.sessions number ≡ Some x
            → result ≡ will_of room_index x }
    {
        requests::remove(&mut self.sessions, &mut self.audiences, number, room_index)
    }

    /// Does the will of a session that is closed ([`requests::do_will`]). `AllocError` changes
    /// nothing.
    pub fn do_will(
        &mut self,
        alloc: Global,
        config: HubConfig,
        patch: &Patch,
        report: &mut Report,
    ) -> Result<u64, AllocError>
        ensures done { WillServedIf config patch.now result self.old self.new }
        ensures told { ChangesTold report.new.told self.old.sessions self.new.sessions }
    {
        self.snapshot = SnapshotText::none();
        requests::do_will(
            alloc,
            config,
            &mut self.room,
            &self.audiences,
            self.sessions.as_mut_slice(),
            patch,
            report,
        )
    }

    /// Begins anew with the document `null`, at the next revision, which is returned. A fault
    /// changes nothing.
    pub fn forget(&mut self, alloc: Global, history: u64) -> Result<u64, ForgetFault>
        requires least { 1 ≤ history }
        requires most { history ≤ MAX_REVISIONS }
        ensures ok { IfOk result (λ rev. (rev ≡ revision self.old.room + 1)
            × (self.new ≡ room_sessions (begun null rev history) [])) }
        ensures fault { IfErr result (λ fault. fault ≢ ForgetFault.NoMemory
            → forget_fault_of self.old ≡ Some fault) }
        ensures may { OnOk result (forget_fault_of self.old ≡ None) }
        ensures no_memory { IsErrOf result ForgetFault.NoMemory
            → forget_fault_of self.old ≡ None }
        ensures err { OnErr result (self.new ≡ self.old) }
    {
        let rev = self.room.revision() + 1;
        match self.begin_anew(alloc, Tree::from(Node::Null), rev, history) {
            Ok(()) => Ok(rev),
            Err(AdoptFault::Occupied) => Err(ForgetFault::Occupied),
            Err(AdoptFault::NotAbove) => Err(ForgetFault::Exhausted),
            Err(AdoptFault::NoMemory) => Err(ForgetFault::NoMemory),
            Err(_) => unreachable!(),
        }
    }

    /// Begins anew with this document at this revision, and no change remembered. A fault changes
    /// nothing.
    pub fn begin_anew(
        &mut self,
        alloc: Global,
        document: Tree,
        rev: u64,
        history: u64,
    ) -> Result<(), AdoptFault>
        requires least { 1 ≤ history }
        requires most { history ≤ MAX_REVISIONS }
        ensures ok { OnOk result (self.new ≡ room_sessions (begun document rev history) []) }
        ensures fault { IfErr result (λ fault. fault ≢ AdoptFault.NoMemory
            → anew_fault document rev self.old ≡ Some fault) }
        ensures may { OnOk result (anew_fault document rev self.old ≡ None) }
        ensures no_memory { IsErrOf result AdoptFault.NoMemory
            → anew_fault document rev self.old ≡ None }
        ensures err { OnErr result (self.new ≡ self.old) }
    {
        let weight = self.may_begin(&document, rev)?;
        self.snapshot = SnapshotText::none();
        match Room::holding(alloc, document, weight, rev, history) {
            Ok(room) => self.room = room,
            Err(_) => return Err(AdoptFault::NoMemory),
        }
        Ok(())
    }

    /// The weight of a document with which the room may begin anew at this revision, or the first
    /// reason why it may not. Allocates nothing.
    pub fn may_begin(&self, document: &Tree, rev: u64) -> Result<u64, AdoptFault>
        ensures ok { IfOk result (λ n. (n ≡ weight document.now)
            × (anew_fault document.now rev self.now ≡ None)) }
        ensures fault { IfErr result (λ fault.
            anew_fault document.now rev self.now ≡ Some fault) }
        ensures memory { IsErrOf result AdoptFault.NoMemory → ⊥ }
    {
        if !self.sessions.is_empty() {
            return Err(AdoptFault::Occupied);
        }
        if rev <= self.room.revision() || rev > MAX_COUNT {
            return Err(AdoptFault::NotAbove);
        }
        if document.depth() > Bounds::DOCUMENT.depth {
            return Err(AdoptFault::TooDeep);
        }
        let weight = document.weight();
        if weight > Bounds::DOCUMENT.weight {
            return Err(AdoptFault::TooHeavy);
        }
        Ok(weight)
    }

    /// Drops the oldest changes that the budget does not pay for and the text that is kept of a
    /// snapshot, and folds the patches that wait. Allocates nothing.
    pub fn shed(&mut self, budget: Budget)
        ensures { self.new ≡ shed_room budget self.old }
    {
        self.snapshot = SnapshotText::none();
        self.room.trim(budget);
        shed_sessions(&mut self.sessions);
    }

    /// Serves a text from a session that is there, and writes down whom it told something. Adds
    /// exactly one reply to the session's outbox, unless 32 replies wait already.
    pub fn receive(
        &mut self,
        alloc: Global,
        config: HubConfig,
        number: u64,
        text: &str,
        report: &mut Report,
        scratch: &mut Scratch,
    ) -> Result<Heard, HubFault>
        requires { IsSome (session_in self.old.sessions number) }
        ensures told { ChangesToldAnd number report.new.told self.old.sessions self.new.sessions }
        ensures step { ReceivesIf config number text.now (receiving result) self.old self.new }
        ensures no_memory { IsErrOf result HubFault.NoMemory → HasSpace self.old.sessions number }
    {
        report.told = Told::nobody(alloc);
        let sessions = self.sessions.as_slice();
        let (budget, meter) = (config.view_weight, &mut report.cost);
        let asked = match ask(alloc, sessions, number, text, scratch, budget, meter) {
            Ok(Some(asked)) => asked,
            Ok(None) => return Ok(Heard::Busy),
            Err(_) => return Err(HubFault::NoMemory),
        };
        let held = self.room.history_weight();
        report.cost.add(cost::asking(&asked.request, held));
        match self.answer(alloc, config, asked, report) {
            Ok(short) => Ok(Heard::Answered { short }),
            Err(_) => Err(HubFault::NoMemory),
        }
    }

    /// Does what a session asks ([`requests::answer`]). `AllocError` changes nothing.
    fn answer(
        &mut self,
        alloc: Global,
        config: HubConfig,
        asked: Asked,
        report: &mut Report,
    ) -> Result<u64, AllocError>
        requires caller { IsCaller self.old.sessions asked.caller }
        requires space { HasSpace self.old.sessions asked.caller.number }
        ensures ok { IfOk result (λ short. (x : Session)
            → session_in self.old.sessions asked.caller.number ≡ Some x
            → Serves config asked.caller.number x asked.request short self.old self.new) }
        ensures told { ChangesToldAnd asked.caller.number report.new.told self.old.sessions
            self.new.sessions }
        ensures err { OnErr result (self.new ≡ self.old) }
    {
        self.snapshot.drop_over(&asked.request);
        requests::answer(
            alloc,
            config,
            &mut self.room,
            &mut self.audiences,
            self.sessions.as_mut_slice(),
            asked,
            report,
        )
    }

    /// Removes and returns the text at the front of the outbox of a session that is there
    /// ([`requests::draw`]).
    pub fn draw(
        &mut self,
        alloc: Global,
        number: u64,
        counts: &mut MessageCounts,
    ) -> Result<Option<ByteStr>, HubFault>
        requires { IsSome (session_in self.old.sessions number) }
        ensures step { DrawsIf number (drawing result) self.old self.new }
        ensures empty { result ≡ Ok None
            → option_map waiting (session_in self.old.sessions number) ≡ Some 0 }
        ensures no_memory { IsErrOf result HubFault.NoMemory
            → IsSomeAnd (option_map waiting (session_in self.old.sessions number)) (λ n. 0 < n) }
    {
        requests::draw(
            alloc,
            &self.room,
            &mut self.snapshot,
            self.sessions.as_mut_slice(),
            number,
            counts,
        )
    }
}

fn is_null(tree: &Tree) -> bool
    ensures { result ≡ is_null tree.now }
{
    matches!(tree.node, Node::Null)
}

/// The weight of the patches that wait for these sessions, as far as that is bounded.
fn load_of(sessions: &[Session]) -> u64
    ensures { result ≡ saturated (sessions_weight sessions.now) }
{
    let mut load = 0u64;
    for session in sessions {
        load = load.saturating_add(session.load());
    }
    load
}
