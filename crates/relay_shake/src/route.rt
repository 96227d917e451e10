//! The request of a target: a room, and what a session may do in it.
ghost use Rattle.std.specs.Prelude.{◌≡◌, IfOk, codes, option_copied, option_map};
ghost use Rattle.matchit.specs.declared.error.InsertError.TheVariants as InsertError;
ghost use Rattle.relay_shake.specs.Route.{asked_of, asked_by, before, routed, room_of};

use matchit::{InsertError, Router};
use relay_access::{Access, is_room_name};
use std::alloc::{AllocError, Global};

/// The suffix of the targets whose sessions may only watch.
const WATCH: &str = "/watch";

/// The request of a target.
#[derive(Drop)]
pub(crate) struct Asked<'b> {
    pub room: &'b str,
    pub access: Access,
}

/// Returns what a target asks for, if it is that of a room: `/rooms/NAME`, or `/rooms/NAME/watch`
/// to watch only.
///
/// The whole target is tried first. No target is of both forms, since a room name has no slash.
pub(crate) fn asked_of<'b>(alloc: Global, target: &'b str) -> Result<Option<Asked<'b>>, AllocError>
    ensures { IfOk result (λ asked. option_map asked_by asked ≡ asked_of target.now) }
{
    if let Some(room) = room_of(alloc, target)? {
        return Ok(Some(Asked {
            room,
            access: Access::ReadWrite,
        }));
    }
    let Some(front) = without_watch(target) else {
        return Ok(None);
    };
    Ok(room_of(alloc, front)?.map(|room| Asked {
        room,
        access: Access::ReadOnly,
    }))
}

/// Returns the target without the suffix [`WATCH`], if it ends with it.
fn without_watch(target: &str) -> Option<&str>
    ensures { option_copied result ≡ before (codes "/watch") target.now }
{
    target.strip_suffix(WATCH)
}

/// Returns the room if the whole target matches the route `/rooms/{room}` and that part is a room
/// name.
fn room_of<'b>(alloc: Global, target: &'b str) -> Result<Option<&'b str>, AllocError>
    ensures { IfOk result (λ room. option_copied room ≡ room_of target.now) }
{
    Ok(routed(alloc, target)?.filter(|name| is_room_name(name)))
}

// The part of a target that matches `{room}`.
fn routed<'b>(alloc: Global, target: &'b str) -> Result<Option<&'b str>, AllocError>
    ensures { IfOk result (λ part. option_copied part ≡ routed target.now) }
{
    let mut router = Router::new(alloc);
    match router.insert("/rooms/{room}", ()) {
        Ok(()) => {}
        Err(fault) => return Err(alloc_error(&fault)),
    }
    match router.at(target) {
        Ok(found) => Ok(found.params.get("room")),
        Err(_) => Ok(None),
    }
}

// The route is well-formed and the only one, so only a lack of memory can refuse it.
fn alloc_error(fault: &InsertError) -> AllocError
    requires { fault.now ≡ InsertError.OutOfMemory }
{
    match fault {
        InsertError::OutOfMemory => AllocError,
        InsertError::Conflict { .. }
        | InsertError::InvalidParamSegment
        | InsertError::InvalidParam
        | InsertError::InvalidCatchAll => unreachable!(),
    }
}
