//! Notifying the watchers of an edit.
ghost use Rattle.std.specs.Prelude.{◌≡◌, ◌<◌, ◌-◌, ℕ, List, IfOk, OnOk, Some, IsSome, is_err, true};
ghost use Rattle.std.specs.List.Sorted.{IsStrictlyIncreasing};
ghost use Rattle.std.specs.Option.{option_copied};
ghost use Rattle.relay_audience.specs.Audiences.{AreExact, IsAudiences, OthersStay};
ghost use Rattle.relay_audience.specs.Sessions.{IsRising as AreRising};
ghost use Rattle.relay_history.specs.History.{Reaches, changes_since};
ghost use Rattle.relay_patch.specs.Change.{Leads};
ghost use Rattle.relay_patch.specs.declared.change.Change.{Change};
ghost use Rattle.relay_room.specs.Newest.{newest_changes};
ghost use Rattle.relay_room.specs.Room.{IsRoom, revision, trimmed};
ghost use Rattle.relay_tree.specs.Document.{Document};
ghost use Rattle.relay_hub.specs.State.{IsRising};
ghost use Rattle.relay_hub.specs.Step.{making, AllNotified};
ghost use Rattle.relay_hub.specs.Telling.{named, views_of, AreDue, AreWatching, Given, GivenTo};
ghost use Rattle.relay_hub.specs.Telling.{IsAudienceOf, OfNewest, ToldOne, ToldThose};
ghost use Rattle.relay_hub.specs.Told.{ChangesTold, IsTold};
ghost use Rattle.relay_hub.specs.Watched.{AreAudiencesOf};

use crate::caller::position_of;
use crate::config::HubConfig;
use crate::report::Report;
use crate::session::Session;
use crate::telling::Telling;
use crate::told::Told;
use crate::update::Update;
use relay_audience::{Audience, Audiences};
use relay_room::Room;
use std::alloc::{AllocError, Global};

/// Notifies the watchers of the newest edit within the hub's bounds, counts the edit, and records
/// whom it notified. Then the room drops the oldest changes that may not be kept. Returns how many
/// outboxes folded because memory ran out.
pub fn broadcast_and_trim(
    alloc: Global,
    config: HubConfig,
    room: &mut Room,
    audiences: &Audiences,
    sessions: &mut [Session],
    report: &mut Report,
) -> u64
    requires room { IsRoom room.old }
    requires edited { 0 < revision room.old }
    requires reaches { Reaches room.old.history (revision room.old - 1) }
    requires agree { AreAudiencesOf audiences.now sessions.old }
    ensures notified { (d : Document) (changes : List Change)
        → changes ≡ changes_since (revision room.old - 1) room.old.history
        → Leads d changes room.old.document
        → AllNotified d changes room.old config.waiting_weight config.telling_weight sessions.old
        sessions.new result }
    ensures told { ChangesTold report.new.told sessions.old sessions.new }
    ensures trimmed { room.new ≡ trimmed config.history_weight room.old }
{
    let mut telling = Telling::new(alloc, config);
    let short = broadcast(alloc, room, audiences, sessions, &mut telling);
    let Telling { told, cost, .. } = telling;
    report.told = told;
    report.cost.add(cost.total());
    report.edits = report.edits.saturating_add(1);
    room.trim(config.history_weight);
    short
}

/// Notifies the watchers of the newest edit. Only the audiences that the edit touches are visited;
/// if memory runs out before they are found, all are. Returns how many outboxes folded because
/// memory ran out.
///
/// Costs the look-up ([`Audiences::touched`]); for each audience that is found, what the edit means
/// to its view, and the text of that ([`Telling::make`]); and for each of its sessions, a binary
/// search. So an update is made and written once for all sessions that watch the same view.
fn broadcast(
    alloc: Global,
    room: &Room,
    audiences: &Audiences,
    sessions: &mut [Session],
    telling: &mut Telling,
) -> u64
    requires room { IsRoom room.now }
    requires edited { 0 < revision room.now }
    requires reaches { Reaches room.now.history (revision room.now - 1) }
    requires agree { AreAudiencesOf audiences.now sessions.old }
    ensures notified { OfNewest room.now (λ d changes. AllNotified d changes room.now
        telling.old.most telling.old.left sessions.old sessions.new result) }
    ensures told { ChangesTold telling.new.told sessions.old sessions.new }
{
    match touched(alloc, room, audiences) {
        Ok(numbers) => tell_those(
            alloc,
            room,
            audiences,
            numbers.as_slice(),
            sessions,
            telling,
        ),
        Err(_) => tell_all(alloc, room, audiences.all(), sessions, telling),
    }
}

/// Returns the numbers of the audiences that the newest edit touches, in the order in which they
/// came.
fn touched(alloc: Global, room: &Room, audiences: &Audiences) -> Result<Vec<u64>, AllocError>
    ensures rising { IfOk result (λ numbers. IsStrictlyIncreasing numbers.items) }
    ensures others { IfOk result (λ numbers. OthersStay (newest_changes room.now.history)
        audiences.now numbers.items) }
    ensures apart { OnOk result (IsAudiences audiences.now) }
{
    let changes = room.newest_changes(alloc)?;
    audiences.touched(alloc, changes.as_slice())
}

/// Notifies the audiences with these numbers, which rise.
fn tell_those(
    alloc: Global,
    room: &Room,
    audiences: &Audiences,
    numbers: &[u64],
    sessions: &mut [Session],
    telling: &mut Telling,
) -> u64
    requires room { IsRoom room.now }
    requires edited { 0 < revision room.now }
    requires reaches { Reaches room.now.history (revision room.now - 1) }
    requires agree { AreAudiencesOf audiences.now sessions.old }
    requires apart { IsAudiences audiences.now }
    requires exact { AreExact audiences.now }
    requires rising { IsStrictlyIncreasing numbers.now }
    ensures notified { OfNewest room.now (λ d changes. ToldThose d room.now
        (making telling.old.most changes room.now) telling.old.left telling.new.left
        (views_of (named audiences.now numbers.now)) sessions.old sessions.new result) }
    ensures told { IsTold telling.old.told telling.new.told sessions.old sessions.new }
{
    let mut short: u64 = 0;
    for number in numbers {
        if let Some(audience) = audiences.audience(*number) {
            short += tell(alloc, room, audience, sessions, telling);
        }
    }
    short
}

/// Notifies every audience.
fn tell_all(
    alloc: Global,
    room: &Room,
    audiences: &[Audience],
    sessions: &mut [Session],
    telling: &mut Telling,
) -> u64
    requires room { IsRoom room.now }
    requires edited { 0 < revision room.now }
    requires reaches { Reaches room.now.history (revision room.now - 1) }
    requires agree { AreAudiencesOf audiences.now sessions.old }
    requires apart { IsAudiences audiences.now }
    requires exact { AreExact audiences.now }
    ensures notified { OfNewest room.now (λ d changes. ToldThose d room.now
        (making telling.old.most changes room.now) telling.old.left telling.new.left
        (views_of audiences.now) sessions.old sessions.new result) }
    ensures told { IsTold telling.old.told telling.new.told sessions.old sessions.new }
{
    let mut short: u64 = 0;
    for audience in audiences {
        short += tell(alloc, room, audience, sessions, telling);
    }
    short
}

/// Notifies the sessions of an audience. No update is made if a snapshot is due for each of them:
/// it will show the edit.
fn tell(
    alloc: Global,
    room: &Room,
    audience: &Audience,
    sessions: &mut [Session],
    telling: &mut Telling,
) -> u64
    requires room { IsRoom room.now }
    requires edited { 0 < revision room.now }
    requires reaches { Reaches room.now.history (revision room.now - 1) }
    requires ordered { IsRising sessions.old }
    requires agree { IsAudienceOf audience.now sessions.old }
    ensures notified { OfNewest room.now (λ d changes. ToldOne d room.now
        (making telling.old.most changes room.now) telling.old.left telling.new.left
        audience.now.view sessions.old sessions.new result) }
    ensures told { IsTold telling.old.told telling.new.told sessions.old sessions.new }
    ensures most { telling.new.most ≡ telling.old.most }
{
    let numbers = audience.sessions.as_slice();
    telling.note(alloc, numbers);
    if all_due(sessions, numbers) {
        return 0;
    }
    match telling.make(alloc, room, audience.view.get()) {
        Ok(update) => give(sessions, numbers, Some(&update)),
        Err(_) => give(sessions, numbers, None),
    }
}

/// Returns true if a snapshot is due for each session with one of these numbers.
fn all_due(sessions: &[Session], numbers: &[u64]) -> bool
    requires ordered { IsRising sessions.now }
    ensures { result ≡ true → AreDue numbers.now sessions.now }
{
    for number in numbers {
        if let Some(index) = position_of(sessions, *number) {
            if !sessions[index].is_due() {
                return false;
            }
        }
    }
    true
}

/// Gives the sessions with these numbers, which rise, an update, or none if memory ran out for it.
/// Returns how many outboxes folded because memory ran out.
fn give(sessions: &mut [Session], numbers: &[u64], update: Option<&Update>) -> u64
    requires ordered { IsRising sessions.old }
    requires rising { AreRising numbers.now }
    requires watch { AreWatching numbers.now sessions.old }
    ensures { GivenTo (option_copied update.entry) numbers.now sessions.old sessions.new result }
{
    let mut short: u64 = 0;
    for number in numbers {
        if let Some(index) = position_of(sessions, *number) {
            if give_one(&mut sessions[index], update).is_err() {
                short += 1;
            }
        }
    }
    short
}

/// Gives a session an update, unless a snapshot is due: it will show the edit. If memory runs out,
/// the outbox folds.
fn give_one(session: &mut Session, update: Option<&Update>) -> Result<(), AllocError>
    requires { IsSome session.old.view }
    ensures given { Given (option_copied update.entry) (is_err result) session.old session.new }
{
    if session.is_due() {
        return Ok(());
    }
    match shared(update) {
        Ok(update) => {
            session.take_update(update);
            Ok(())
        }
        Err(_) => {
            session.take_update(Update::Snapshot);
            session.note_refused_memory();
            Err(AllocError)
        }
    }
}

/// The update, shared. `AllocError`: there is none, or it has too many owners.
fn shared(update: Option<&Update>) -> Result<Update, AllocError>
    ensures { IfOk result (λ shared. option_copied update.entry ≡ Some shared) }
{
    match update {
        Some(update) => update.share(),
        None => Err(AllocError),
    }
}
