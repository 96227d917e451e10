//! Requests that edit a room.
ghost use Rattle.std.specs.Prelude.{◌≡◌, ◌-◌, ◌^◌, IfOk, map, min, codes, is_some, option_map};
ghost use Rattle.httparse.specs.Borrowed.{header_parts};
ghost use Rattle.relay_http_head.specs.Head.{only_value, kept};
ghost use Rattle.relay_admin.specs.Edits.{is_json_patch, length_of, length_asked};
ghost use Rattle.relay_admin.specs.Judged.{Judges, edit_of};
ghost use Rattle.relay_admin.specs.Verdict.{edit_asked};

use crate::admin_fault::AdminFault;
use crate::room::entity_tags::EntityTags;
use crate::room::media_type::is_json_patch;
use crate::room::number::number;
use crate::room::query::path_and_query;
use httparse::Header;
use relay_http_head::{Fault, demand, has_field, only_value};
use std::alloc::Global;

/// The most bytes of the body of an edit.
pub const MAX_BODY: u64 = 1_048_576;

/// A request to edit a room by the JSON Patch in its body.
///
/// ```
/// let head = "PATCH /rooms/board HTTP/1.1\r\nHost: localhost\r\n";
/// let fields = "Content-Type: application/json-patch+json\r\nContent-Length: 2\r\n";
/// let asked = format!(in alloc; "{head}{fields}\r\n[]").ok()?;
/// let Ask::Edit(edit) = ask(alloc, asked.as_bytes()).ok()? else {
///     return None;
/// };
/// assert!(rt; edit.room.as_str() == "board" && edit.length == 2 && edit.if_match.is_any());
/// ```
#[derive(Debug, Drop)]
pub struct EditRequest {
    /// The name of the room, which may be anything.
    pub room: String,
    /// The list in `If-Match`: the edit may be made only at a revision at which it holds
    /// ([`EntityTags::matches`]); otherwise the response is [`crate::Response::OtherRevision`].
    pub if_match: EntityTags,
    /// The number of bytes in the head: the body begins behind them.
    pub head: usize,
    /// The number of bytes in the body, at most [`MAX_BODY`].
    pub length: u64,
}

/// Returns what a `PATCH` with a head of `len` bytes asks of a room whose name stands behind
/// `/rooms/`, or why not.
pub(crate) fn edit_of(
    alloc: Global,
    name: &str,
    fields: &[Header<'_>],
    len: usize,
) -> Result<EditRequest, Fault<AdminFault>>
    ensures verdict { Judges edit_of result (edit_asked name.now (map header_parts fields.now)) }
    ensures head { IfOk result (λ edit. edit.head ≡ len) }
{
    let (_, query) = path_and_query(name);
    demand(query.is_none(), AdminFault::NoPath)?;
    demand(!has_field(fields, "Expect"), AdminFault::Expectation)?;
    demand(has_json_patch(fields), AdminFault::MediaType)?;
    let length = body_length(fields)?;
    Ok(EditRequest {
        room: String::from_str(alloc, name)?,
        if_match: EntityTags::of(alloc, fields, "If-Match")?,
        head: len,
        length,
    })
}

fn has_json_patch(fields: &[Header<'_>]) -> bool
    ensures { result ≡ is_some (kept is_json_patch
        (only_value (codes "Content-Type") (map header_parts fields.now))) }
{
    match only_value(fields, "Content-Type") {
        Some(value) => is_json_patch(value),
        None => false,
    }
}

/// The length of the body, which must be told beforehand and be short enough.
fn body_length(fields: &[Header<'_>]) -> Result<u64, Fault<AdminFault>>
    ensures { Judges (λ length. length) result (length_asked (map header_parts fields.now)) }
{
    demand(
        !has_field(fields, "Transfer-Encoding") && has_field(fields, "Content-Length"),
        AdminFault::NoLength,
    )?;
    let Some(length) = only_number(fields) else {
        return Err(Fault::Refused(AdminFault::BadLength));
    };
    demand(length <= MAX_BODY, AdminFault::BodyTooLong)?;
    Ok(length)
}

/// The one number of `Content-Length`. A number that is too large counts as the largest.
fn only_number(fields: &[Header<'_>]) -> Option<u64>
    ensures { result ≡ option_map (λ n. min n (2 ^ 64 - 1))
        (length_of (map header_parts fields.now)) }
{
    match only_value(fields, "Content-Length") {
        Some(value) => number(value),
        None => None,
    }
}
