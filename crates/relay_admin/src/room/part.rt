//! Requests for a part of a room's document.
ghost use Rattle.std.specs.Prelude.{map};
ghost use Rattle.httparse.specs.Borrowed.{header_parts};
ghost use Rattle.relay_admin.specs.Judged.{Judges, part_of};
ghost use Rattle.relay_admin.specs.Verdict.{part_asked};

use crate::admin_fault::AdminFault;
use crate::room::entity_tags::EntityTags;
use crate::room::query::{path_and_query, pointer_in};
use httparse::Header;
use relay_http_head::Fault;
use std::alloc::Global;

/// A request for what a pointer leads to in a room's document.
///
/// ```
/// let head = "GET /rooms/board HTTP/1.1\r\nHost: localhost\r\n\r\n";
/// let Ask::Read(part) = ask(alloc, head.as_bytes()).ok()? else {
///     return None;
/// };
/// // Without a query it is the whole document.
/// assert!(rt; part.room.as_str() == "board" && part.at.as_str() == "");
/// ```
#[derive(Debug, Drop)]
pub struct PartRequest {
    /// The name of the room, which may be anything.
    pub room: String,
    /// The pointer (RFC 6901), which may be any text; the empty one leads to the whole document.
    pub at: String,
    /// The list in `If-None-Match`: [`crate::Response::NotModified`] is the response if it names
    /// the room's tag.
    pub if_none_match: EntityTags,
}

/// Returns what a `GET` asks of a room whose name and query stand behind `/rooms/`, or why not.
pub(crate) fn part_of(
    alloc: Global,
    name: &str,
    fields: &[Header<'_>],
) -> Result<PartRequest, Fault<AdminFault>>
    ensures { Judges part_of result (part_asked name.now (map header_parts fields.now)) }
{
    let (path, query) = path_and_query(name);
    let Some(at) = pointer_in(alloc, query)? else {
        return Err(Fault::Refused(AdminFault::BadQuery));
    };
    Ok(PartRequest {
        room: String::from_str(alloc, path)?,
        at,
        if_none_match: EntityTags::of(alloc, fields, "If-None-Match")?,
    })
}
