//! Requests for one room: its part, an edit, or that it is forgotten.
ghost use Rattle.httparse.specs.Borrowed.{header_parts};
ghost use Rattle.std.specs.Prelude.{map, IfOk};
ghost use Rattle.relay_admin.specs.Asked.{HasHead};
ghost use Rattle.relay_admin.specs.Judged.{JudgesAsk};
ghost use Rattle.relay_admin.specs.Verdict.{room_asked, verdict_by};

mod edit;
mod entity_tags;
mod media_type;
mod number;
mod part;
mod query;
mod revision_tag;

use crate::admin_fault::AdminFault;
use crate::answer::Ask;
use edit::edit_of;
pub use edit::{EditRequest, MAX_BODY};
pub use entity_tags::EntityTags;
pub use part::PartRequest;
use part::part_of;
use relay_http_head::{Fault, Head};
pub use revision_tag::RevisionTag;
use std::alloc::Global;

/// Returns what a head of `len` bytes asks of a room, of which the name stands behind `/rooms/`,
/// or why not. Its method must be one that rooms take.
pub(crate) fn asked_of_room(
    alloc: Global,
    name: &str,
    head: &Head<'_, '_>,
    len: usize,
) -> Result<Ask, Fault<AdminFault>>
    ensures verdict { JudgesAsk result (verdict_by
        (room_asked name.now head.now.method.now (map header_parts head.now.fields.now))) }
    ensures head { IfOk result (HasHead len) }
{
    match head.method {
        "GET" => match part_of(alloc, name, head.fields) {
            Ok(part) => Ok(Ask::Read(part)),
            Err(fault) => Err(fault),
        },
        "PATCH" => match edit_of(alloc, name, head.fields, len) {
            Ok(edit) => Ok(Ask::Edit(edit)),
            Err(fault) => Err(fault),
        },
        _ => Ok(Ask::Forget(String::from_str(alloc, name)?)),
    }
}
