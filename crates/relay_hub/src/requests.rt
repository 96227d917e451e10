//! The work of the hub's calls, on a room, its open sessions and their audiences.
ghost use Rattle.std.specs.Prelude.{◌≡◌, ◌<◌, ◌==◌, Some, None, Ok, IfOk, OnOk, OnErr, IsErrOf};
ghost use Rattle.std.specs.Prelude.{IsSome, IsSomeAnd, option_map, nat_le, filter, not};
ghost use Rattle.relay_room.specs.Edit.{edited};
ghost use Rattle.relay_room.specs.Room.{revision};
ghost use Rattle.relay_hub.specs.Call.{drawing, WillServedIf, DrawsIf, ChangesBy, HasSpace};
ghost use Rattle.relay_hub.specs.Caller.{IsCaller};
ghost use Rattle.relay_hub.specs.Refusal.{cause_word, edit_refusal};
ghost use Rattle.relay_hub.specs.Session.{Session, leaves_will, watches as watching, unwatches};
ghost use Rattle.relay_hub.specs.Session.{waiting};
ghost use Rattle.relay_hub.specs.SnapshotText.{IsSnapshotText};
ghost use Rattle.relay_hub.specs.State.{IsRising, is_number, room_sessions, numbers, session_in};
ghost use Rattle.relay_hub.specs.Step.{EditServed, ResumeServed, Serves, OnlyAt, will_of};
ghost use Rattle.relay_hub.specs.Told.{ChangesTold, ChangesToldAnd};
ghost use Rattle.relay_hub.specs.Watched.{AreAudiencesOf};

use crate::asked::Asked;
use crate::boxed_reply::ReservedReply;
use crate::broadcast::broadcast_and_trim;
use crate::caller::{Caller, session_at, session_mut};
use crate::config::HubConfig;
use crate::cost;
use crate::fault::HubFault;
use crate::message_counts::MessageCounts;
use crate::report::Report;
use crate::session::Session;
use crate::snapshot_text::SnapshotText;
use crate::text_size::TextSize;
use crate::told::Told;
use crate::update::Update;
use crate::will::Will;
use bytes::ByteStr;
use relay_audience::Audiences;
use relay_history::ReservedRevision;
use relay_patch::{Cause, Patch};
use relay_proto::{Refusal, Reply, Request, Word};
use relay_room::{CatchFault, CatchUp, EditFault, Room};
use relay_view::View;
use std::alloc::{AllocError, Global};

/// Does what a session asks, and writes down whom it told something. Adds exactly one reply to the
/// session's outbox. Returns how many outboxes folded because memory ran out.
pub fn answer(
    alloc: Global,
    config: HubConfig,
    room: &mut Room,
    audiences: &mut Audiences,
    sessions: &mut [Session],
    asked: Asked,
    report: &mut Report,
) -> Result<u64, AllocError>
    requires caller { IsCaller sessions.old asked.caller }
    requires space { HasSpace sessions.old asked.caller.number }
    requires agree { AreAudiencesOf audiences.old sessions.old }
    ensures ok { IfOk result (λ short. (x : Session)
        → session_in sessions.old asked.caller.number ≡ Some x
        → Serves config asked.caller.number x asked.request short
        (room_sessions room.old sessions.old) (room_sessions room.new sessions.new)) }
    ensures told { ChangesToldAnd asked.caller.number report.new.told sessions.old sessions.new }
    ensures err { OnErr result (room_sessions room.new sessions.new
        ≡ room_sessions room.old sessions.old) }
    ensures agree { AreAudiencesOf audiences.new sessions.new }
{
    let (caller, reserved, size) = (asked.caller, asked.reserved, asked.size);
    match asked.request {
        Ok(Request::Edit { id, base, patch }) => {
            let asked = AskedEdit {
                caller,
                reserved,
                size,
                id,
                base,
                patch,
            };
            edit(alloc, config, room, audiences, sessions, asked, report)
        }
        Ok(Request::Will { id, patch }) => {
            leave_will(audiences, sessions, caller, reserved, id, patch);
            Ok(0)
        }
        Ok(Request::Watch { id, view }) => {
            watch(alloc, audiences, sessions, caller, reserved, id, view)?;
            Ok(0)
        }
        Ok(Request::Unwatch { id }) => {
            unwatch(audiences, sessions, caller, reserved, id);
            Ok(0)
        }
        Ok(
            Request::Resume {
                id,
                epoch,
                rev,
                view,
            },
        ) => {
            let asked = AskedResume {
                caller,
                reserved,
                id,
                epoch,
                rev,
                view,
            };
            resume(alloc, config.epoch, room, audiences, sessions, asked)?;
            Ok(0)
        }
        Err(refusal) => {
            session_mut(sessions, caller).reply(reserved, refusal.reply());
            Ok(0)
        }
    }
}

/// An edit that a session asks for ([`Request::Edit`]), and the memory for the reply.
#[derive(Drop)]
struct AskedEdit {
    caller: Caller,
    reserved: ReservedReply,
    size: TextSize,
    id: u64,
    base: Option<u64>,
    patch: Patch,
}

/// A resume that a session asks for ([`Request::Resume`]), and the memory for the reply.
#[derive(Drop)]
struct AskedResume {
    caller: Caller,
    reserved: ReservedReply,
    id: u64,
    epoch: u64,
    rev: u64,
    view: View,
}

/// Makes the room's next document, replies to the sender, and notifies the watchers that the edit
/// touches, the sender among them. Then the room drops the oldest changes that may not be kept.
/// Returns how many outboxes folded because memory ran out.
fn edit(
    alloc: Global,
    config: HubConfig,
    room: &mut Room,
    audiences: &Audiences,
    sessions: &mut [Session],
    asked: AskedEdit,
    report: &mut Report,
) -> Result<u64, AllocError>
    requires caller { IsCaller sessions.old asked.caller }
    requires space { HasSpace sessions.old asked.caller.number }
    requires agree { AreAudiencesOf audiences.now sessions.old }
    ensures ok { IfOk result (λ short. (x : Session)
        → session_in sessions.old asked.caller.number ≡ Some x
        → EditServed config asked.caller.number x asked.id asked.patch
        (edited room.old asked.base asked.patch) short
        (room_sessions room.old sessions.old) (room_sessions room.new sessions.new)) }
    ensures told { ChangesToldAnd asked.caller.number report.new.told sessions.old sessions.new }
    ensures err { OnErr result (room_sessions room.new sessions.new
        ≡ room_sessions room.old sessions.old) }
    ensures agree { AreAudiencesOf audiences.now sessions.new }
{
    let AskedEdit {
        caller,
        reserved,
        size,
        id,
        base,
        patch,
    } = asked;
    let kept = ReservedRevision::new(alloc)?;
    let (weight, held) = (room.weight(), room.history_weight());
    match room.edit(alloc, kept, base, &patch) {
        Ok(rev) => {
            let changed = room.history_weight().saturating_sub(held);
            report
                .cost
                .add(cost::editing(&patch, Some(size), weight, changed));
            session_mut(sessions, caller).reply(reserved, Reply::Done { id, rev });
            Ok(broadcast_and_trim(alloc, config, room, audiences, sessions, report))
        }
        Err(fault) => {
            report.cost.add(cost::refusing(&patch, fault, weight));
            let Some(reply) = edit_refusal(id, fault) else {
                return Err(AllocError);
            };
            session_mut(sessions, caller).reply(reserved, reply);
            Ok(0)
        }
    }
}

/// Does the will of a session that is closed: an edit that nobody is answered. Returns how many
/// outboxes folded because memory ran out.
pub fn do_will(
    alloc: Global,
    config: HubConfig,
    room: &mut Room,
    audiences: &Audiences,
    sessions: &mut [Session],
    patch: &Patch,
    report: &mut Report,
) -> Result<u64, AllocError>
    requires agree { AreAudiencesOf audiences.now sessions.old }
    ensures done { WillServedIf config patch.now result (room_sessions room.old sessions.old)
        (room_sessions room.new sessions.new) }
    ensures told { ChangesTold report.new.told sessions.old sessions.new }
    ensures agree { AreAudiencesOf audiences.now sessions.new }
{
    report.told = Told::nobody(alloc);
    let kept = ReservedRevision::new(alloc)?;
    let (weight, held) = (room.weight(), room.history_weight());
    match room.edit(alloc, kept, None, patch) {
        Ok(_) => {
            let changed = room.history_weight().saturating_sub(held);
            report.cost.add(cost::editing(patch, None, weight, changed));
            Ok(broadcast_and_trim(alloc, config, room, audiences, sessions, report))
        }
        Err(EditFault::Apply(fault)) if fault.cause == Cause::NoMemory => Err(AllocError),
        Err(fault) => {
            report.cost.add(cost::refusing(patch, fault, weight));
            Ok(0)
        }
    }
}

/// The reply to a refused edit; `None` for out of memory, which is no refusal.
fn edit_refusal(id: u64, fault: EditFault) -> Option<Reply>
    ensures { result ≡ edit_refusal id fault }
{
    let (word, at, rev) = match fault {
        EditFault::Exhausted => (Word::Exhausted, None, None),
        EditFault::Stale { present } => (Word::Stale, None, Some(present)),
        EditFault::Apply(fault) => (word_of(fault.cause)?, Some(fault.at), None),
    };
    Some(Reply::Refused {
        id: Some(id),
        fault: word,
        at,
        rev,
    })
}

/// The word of a cause; `None` for out of memory.
fn word_of(cause: Cause) -> Option<Word>
    ensures { result ≡ cause_word cause }
{
    match cause {
        Cause::Missing => Some(Word::Missing),
        Cause::NotIndex => Some(Word::NotIndex),
        Cause::PastEnd => Some(Word::PastEnd),
        Cause::NoContainer => Some(Word::NoContainer),
        Cause::Root => Some(Word::Root),
        Cause::IntoItself => Some(Word::IntoItself),
        Cause::TestFailed => Some(Word::TestFailed),
        Cause::TooDeep => Some(Word::TooDeep),
        Cause::TooHeavy => Some(Word::TooHeavy),
        Cause::NoMemory => None,
    }
}

/// Leaves a will, in place of the one that was left before.
fn leave_will(
    audiences: &Audiences,
    sessions: &mut [Session],
    caller: Caller,
    reserved: ReservedReply,
    id: u64,
    patch: Patch,
)
    requires caller { IsCaller sessions.old caller }
    requires space { HasSpace sessions.old caller.number }
    requires agree { AreAudiencesOf audiences.now sessions.old }
    ensures leaves { ChangesBy caller.number (leaves_will id patch) sessions.old sessions.new }
    ensures agree { AreAudiencesOf audiences.now sessions.new }
{
    session_mut(sessions, caller).leave_will(reserved, id, patch);
}

/// Watches the view from now on, and makes a snapshot due.
fn watch(
    alloc: Global,
    audiences: &mut Audiences,
    sessions: &mut [Session],
    caller: Caller,
    reserved: ReservedReply,
    id: u64,
    view: View,
) -> Result<(), AllocError>
    requires caller { IsCaller sessions.old caller }
    requires space { HasSpace sessions.old caller.number }
    requires agree { AreAudiencesOf audiences.old sessions.old }
    ensures ok { OnOk result
        (ChangesBy caller.number (watching id view) sessions.old sessions.new) }
    ensures err { OnErr result (sessions.new ≡ sessions.old) }
    ensures agree { AreAudiencesOf audiences.new sessions.new }
{
    let former = session_at(sessions, caller).view();
    let view = audiences.watch(alloc, caller.number, former, view)?;
    session_mut(sessions, caller).watch(reserved, id, view);
    Ok(())
}

/// Watches nothing from now on.
fn unwatch(
    audiences: &mut Audiences,
    sessions: &mut [Session],
    caller: Caller,
    reserved: ReservedReply,
    id: u64,
)
    requires caller { IsCaller sessions.old caller }
    requires space { HasSpace sessions.old caller.number }
    requires agree { AreAudiencesOf audiences.old sessions.old }
    ensures unwatches { ChangesBy caller.number (unwatches id) sessions.old sessions.new }
    ensures agree { AreAudiencesOf audiences.new sessions.new }
{
    if let Some(view) = session_at(sessions, caller).view() {
        audiences.unwatch(caller.number, view);
    }
    session_mut(sessions, caller).unwatch(reserved, id);
}

/// Resumes a view from the revision that the request names. A resume from another epoch gets a
/// snapshot.
fn resume(
    alloc: Global,
    epoch: u64,
    room: &Room,
    audiences: &mut Audiences,
    sessions: &mut [Session],
    asked: AskedResume,
) -> Result<(), AllocError>
    requires caller { IsCaller sessions.old asked.caller }
    requires space { HasSpace sessions.old asked.caller.number }
    requires agree { AreAudiencesOf audiences.old sessions.old }
    ensures ok { OnOk result ((x : Session) → session_in sessions.old asked.caller.number ≡ Some x
        → ResumeServed (asked.epoch == epoch) (nat_le asked.rev (revision room.now)) asked.id
        asked.rev asked.view asked.caller.number x (room_sessions room.now sessions.old)
        (room_sessions room.now sessions.new)) }
    ensures err { OnErr result (sessions.new ≡ sessions.old) }
    ensures agree { AreAudiencesOf audiences.new sessions.new }
{
    let AskedResume {
        caller,
        reserved,
        id,
        view,
        ..
    } = asked;
    let how = if asked.epoch == epoch {
        let budget = session_at(sessions, caller).budget();
        match room.catch_up_within(alloc, asked.rev, &view, budget) {
            Ok(how) => how,
            Err(CatchFault::Future) => {
                let refusal = Refusal {
                    fault: Word::Future,
                    id: Some(id),
                    at: None,
                };
                session_mut(sessions, caller).reply(reserved, refusal.reply());
                return Ok(());
            }
            Err(CatchFault::NoMemory) => return Err(AllocError),
        }
    } else {
        CatchUp::Snapshot
    };
    let update = Update::of(alloc, room.revision(), how)?;
    let former = session_at(sessions, caller).view();
    let view = audiences.watch(alloc, caller.number, former, view)?;
    session_mut(sessions, caller).resume(reserved, id, view, update);
    Ok(())
}

/// Removes and returns the text at the front of the outbox of a session that is there, and counts
/// it.
pub fn draw(
    alloc: Global,
    room: &Room,
    snapshot: &mut SnapshotText,
    sessions: &mut [Session],
    number: u64,
    counts: &mut MessageCounts,
) -> Result<Option<ByteStr>, HubFault>
    requires there { IsSome (session_in sessions.old number) }
    requires rising { IsRising sessions.old }
    requires kept { IsSnapshotText room.now snapshot.old }
    ensures step { DrawsIf number (drawing result) (room_sessions room.now sessions.old)
        (room_sessions room.now sessions.new) }
    ensures numbers { numbers sessions.new ≡ numbers sessions.old }
    ensures empty { result ≡ Ok None
        → option_map waiting (session_in sessions.old number) ≡ Some 0 }
    ensures no_memory { IsErrOf result HubFault.NoMemory
        → IsSomeAnd (option_map waiting (session_in sessions.old number)) (λ n. 0 < n) }
    ensures kept { IsSnapshotText room.now snapshot.new }
{
    let caller = Caller::find(sessions, number);
    match session_mut(sessions, caller).draw(alloc, room, snapshot, counts) {
        Ok(text) => Ok(text),
        Err(_) => Err(HubFault::NoMemory),
    }
}

/// Removes a session that is there, from its audience too. Returns what it leaves behind in the
/// room at an index.
pub fn remove(
    sessions: &mut Vec<Session>,
    audiences: &mut Audiences,
    number: u64,
    room_index: usize,
) -> Will
    requires there { IsSome (session_in sessions.old.items number) }
    requires agree { AreAudiencesOf audiences.old sessions.old.items }
    ensures gone { OnlyAt number None sessions.old.items sessions.new.items }
    ensures will { (x : Session) → session_in sessions.old.items number ≡ Some x
        → result ≡ will_of room_index x }
    ensures agree { AreAudiencesOf audiences.new sessions.new.items }
{
    let session = take_session(sessions, number);
    if let Some(view) = session.view() {
        audiences.unwatch(number, view);
    }
    session.into_will(room_index)
}

/// Removes and returns the session with that number, which is there. The later ones move down.
fn take_session(sessions: &mut Vec<Session>, number: u64) -> Session
    requires there { IsSome (session_in sessions.old.items number) }
    requires rising { IsRising sessions.old.items }
    ensures session { session_in sessions.old.items number ≡ Some result }
    ensures others { sessions.new.items ≡ filter (λ x.
        not (is_number number x)) sessions.old.items }
{
    let caller = Caller::find(sessions.as_slice(), number);
    sessions.remove(caller.index)
}
