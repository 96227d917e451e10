//! The wills of an earlier run, which a later one does.
ghost use Rattle.std.specs.Prelude.{◌≡◌, ◌<◌, ℕ, IfOk, OnOk, map, string_bytes};
ghost use Rattle.relay_access.specs.declared.access.Access.TheVariants.{ReadWrite};
ghost use Rattle.relay_hub.specs.Step.{Step};
ghost use Rattle.relay_hub.specs.declared.event.Answer.TheVariants as answer;
ghost use Rattle.relay_hub.specs.declared.event.Event.TheVariants as event;
ghost use Rattle.relay_hub.specs.declared.event.Heard.TheVariants.{Answered};
ghost use Rattle.relay_keeping.specs.LeftWills.{AreDone, IsDone, kept_will};

use crate::left_wills::{LeftWill, LeftWills};
use relay_access::Access;
use relay_hub::{Heard, Hub, HubFault, OpenFault, Opening};
use relay_store::StoreFault;
use std::alloc::Global;

/// Does each will, in the order in which they were left.
pub(crate) fn do_wills(alloc: Global, hub: &mut Hub, left: &LeftWills) -> Result<(), StoreFault>
    ensures { OnOk result (AreDone (map kept_will left.now.wills.entries) hub.old hub.new) }
{
    for index in 0..left.wills.len() {
        let Some((_, will)) = left.wills.get_index(index) else {
            unreachable!()
        };
        do_left(alloc, hub, will)?;
    }
    Ok(())
}

/// Does a will: a session opens in its room, leaves it again and ends, and then it is done.
fn do_left(alloc: Global, hub: &mut Hub, will: &LeftWill) -> Result<(), StoreFault>
    ensures { (session : ℕ) → OnOk result (IsDone (kept_will (session, will.now)) hub.old hub.new) }
{
    let opening = open(alloc, hub, will.room.as_str())?;
    receive(alloc, hub, opening.session, will.text.as_str())?;
    close(hub, opening.session)?;
    do_next(alloc, hub)?;
    Ok(())
}

/// Opens a session in a room that is there.
fn open(alloc: Global, hub: &mut Hub, room: &str) -> Result<Opening, StoreFault>
    ensures { IfOk result (λ opening. Step hub.old (event.Open room.now ReadWrite)
        (answer.Opened opening) hub.new) }
{
    if hub.room_named(room).is_none() {
        return Err(StoreFault::Damaged);
    }
    match hub.open(alloc, room, Access::ReadWrite) {
        Ok(opening) => Ok(opening),
        Err(OpenFault::NoMemory) => Err(StoreFault::NoMemory),
        Err(_) => Err(StoreFault::Damaged),
    }
}

/// Receives the text of a session. Returns how many outboxes folded because memory ran out.
fn receive(alloc: Global, hub: &mut Hub, session: u64, text: &str) -> Result<u64, StoreFault>
    ensures { IfOk result (λ short. Step hub.old (event.Receive session text.now)
        (answer.Heard (Answered short)) hub.new) }
{
    match hub.receive(alloc, session, text) {
        Ok(Heard::Answered { short }) => Ok(short),
        Err(HubFault::NoMemory) => Err(StoreFault::NoMemory),
        _ => Err(StoreFault::Damaged),
    }
}

/// Closes a session.
fn close(hub: &mut Hub, session: u64) -> Result<(), StoreFault>
    ensures { OnOk result (Step hub.old (event.Close session) answer.Closed hub.new) }
{
    match hub.close(session) {
        Ok(()) => Ok(()),
        Err(_) => Err(StoreFault::Damaged),
    }
}

/// Does the will that waits; there is none, if a text left none. Returns how many outboxes folded
/// because memory ran out.
fn do_next(alloc: Global, hub: &mut Hub) -> Result<u64, StoreFault>
    ensures { IfOk result (λ short. Step hub.old event.DoWill (answer.WillDone short) hub.new) }
{
    match hub.do_will(alloc) {
        Ok(Some(short)) => Ok(short),
        Ok(None) => Err(StoreFault::Damaged),
        Err(_) => Err(StoreFault::NoMemory),
    }
}
