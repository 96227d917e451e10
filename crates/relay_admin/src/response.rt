//! The responses to requests, as texts.
ghost use Rattle.std.specs.Prelude.{◌≡◌, IfOk, string_bytes};
ghost use Rattle.relay_admin.specs.Responses.{has_content, status_of, tag_of, line_of, lines_of};
ghost use Rattle.relay_admin.specs.Responses.{kind_of, body_of, bare_text, content_by};
ghost use Rattle.relay_admin.specs.Responses.{content_text, response_text};

use crate::admin_fault::AdminFault;
use crate::not_forgotten::NotForgotten;
use crate::room::RevisionTag;
use crate::unavailable::Unavailable;
use http::StatusCode;
use std::alloc::{AllocError, Global};

/// A response, by what it says.
///
/// ```
/// let text = response_text(alloc, &Response::Forgotten).ok()?;
/// assert!(rt; text.as_str().starts_with("HTTP/1.1 204 No Content\r\n"));
/// ```
#[derive(Clone, Copy, Debug)]
pub enum Response<'a> {
    /// 200: the relay serves its clients.
    Healthy,
    /// 503: it does not, for this reason.
    Unhealthy(&'a str),
    /// 200: its numbers ([`crate::metrics_text`]).
    Metrics(&'a str),
    /// 200: its rooms ([`crate::end_rooms`]).
    Rooms(&'a str),
    /// 200: the rooms that clients were refused at ([`crate::wanted_text`]).
    Wanted(&'a str),
    /// 204: it lets clients into every room.
    Opened,
    /// 204: clients may enter the room.
    Admitted,
    /// 204: nobody may enter the room, and who was in it leaves.
    Excluded,
    /// 409: the relay lets clients into every room, so it keeps them out of none. Nothing was
    /// changed.
    Open,
    /// 202: it ends once what waits was told.
    Stopping,
    /// 204: the room was forgotten.
    Forgotten,
    /// The room was not forgotten, for this reason, which has the status.
    NotForgotten(NotForgotten),
    /// 200: what a pointer leads to ([`crate::shown_value`]), at the revision with this tag.
    Part { tag: RevisionTag, value: &'a str },
    /// 304: `If-None-Match` names the present revision, which has this tag (RFC 9110, section
    /// 15.4.5).
    NotModified(RevisionTag),
    /// 200: an edit made the revision with this tag, as the relay's own reply says.
    Edited { tag: RevisionTag, reply: &'a str },
    /// 404: no room has this name, or none can have it.
    NoRoom,
    /// 404: the pointer leads to nothing.
    NoValue,
    /// 412: `If-Match` does not hold at the present revision, which has this tag (RFC 9110, section
    /// 15.5.13). Nothing was changed.
    OtherRevision(RevisionTag),
    /// 400: the body is no JSON Patch, or the text is no pointer, as the relay's own refusal says.
    Malformed(&'a str),
    /// 422: the patch cannot be made at the present document, as the relay's own refusal says (RFC
    /// 5789, section 2.2). Nothing was changed.
    Unprocessable(&'a str),
    /// 503, to be asked again in a second: the room could not be entered, or opened by name, for
    /// this reason.
    Unavailable(Unavailable),
    /// The status of the refusal.
    Refused(AdminFault),
}

impl<'a> Response<'a> {
    fn status(&self) -> StatusCode
        ensures { result ≡ status_of self.now }
    {
        match self {
            Response::Healthy
            | Response::Metrics(_)
            | Response::Rooms(_)
            | Response::Wanted(_)
            | Response::Part { .. }
            | Response::Edited { .. } => StatusCode::OK,
            Response::Stopping => StatusCode::ACCEPTED,
            Response::Opened | Response::Admitted | Response::Excluded | Response::Forgotten =>
                StatusCode::NO_CONTENT,
            Response::Open => StatusCode::CONFLICT,
            Response::NotForgotten(why) => why.status(),
            Response::NotModified(_) => StatusCode::NOT_MODIFIED,
            Response::Malformed(_) => StatusCode::BAD_REQUEST,
            Response::NoRoom | Response::NoValue => StatusCode::NOT_FOUND,
            Response::OtherRevision(_) => StatusCode::PRECONDITION_FAILED,
            Response::Unprocessable(_) => StatusCode::UNPROCESSABLE_ENTITY,
            Response::Unhealthy(_) | Response::Unavailable(_) => StatusCode::SERVICE_UNAVAILABLE,
            Response::Refused(refusal) => refusal.status(),
        }
    }

    /// True if it has content: a 204 and a 304 have none, and so no length (RFC 9110, sections 8.6,
    /// 15.3.5 and 15.4.5).
    fn has_content(&self) -> bool
        ensures { result ≡ has_content self.now }
    {
        !matches!(
            self,
            Response::Opened
                | Response::Admitted
                | Response::Excluded
                | Response::Forgotten
                | Response::NotModified(_)
        )
    }

    /// The media type of the body.
    fn kind(&self) -> &'static str
        ensures { result.now ≡ kind_of self.now }
    {
        match self {
            Response::Metrics(_) => "text/plain; version=0.0.4; charset=utf-8",
            Response::Rooms(_)
            | Response::Wanted(_)
            | Response::Part { .. }
            | Response::Edited { .. }
            | Response::Malformed(_)
            | Response::Unprocessable(_) => "application/json",
            Response::Healthy
            | Response::Unhealthy(_)
            | Response::Opened
            | Response::Admitted
            | Response::Excluded
            | Response::Open
            | Response::Stopping
            | Response::Forgotten
            | Response::NotForgotten(_)
            | Response::NotModified(_)
            | Response::NoRoom
            | Response::NoValue
            | Response::OtherRevision(_)
            | Response::Unavailable(_)
            | Response::Refused(_) => "text/plain; charset=utf-8",
        }
    }

    /// The tag of the revision that it speaks of, which is its field `ETag`.
    fn tag(&self) -> Option<RevisionTag>
        ensures { result ≡ tag_of self.now }
    {
        match self {
            Response::Part { tag, .. } | Response::Edited { tag, .. } => Some(*tag),
            Response::NotModified(tag) | Response::OtherRevision(tag) => Some(*tag),
            _ => None,
        }
    }

    /// The field that only responses of its kind have, as a line, if there is one and it has no
    /// tag.
    fn line(&self) -> &'static str
        ensures { result.now ≡ line_of self.now }
    {
        match self {
            Response::Unavailable(_) => "Retry-After: 1\r\n",
            Response::Refused(refusal) => refusal.line(),
            _ => "",
        }
    }

    /// The fields that only some responses have, as lines.
    fn lines(&self, alloc: Global) -> Result<String, AllocError>
        ensures { IfOk result (λ lines. string_bytes lines ≡ lines_of self.now) }
    {
        match self.tag() {
            Some(tag) => {
                let tag = tag.text(alloc)?;
                format!(in alloc; "ETag: {tag}\r\n")
            }
            None => String::from_str(alloc, self.line()),
        }
    }

    fn body(&self) -> &'a str
        ensures { result.now ≡ body_of self.now }
    {
        match self {
            Response::Healthy => "ok\n",
            Response::Stopping => "stopping\n",
            Response::Opened
            | Response::Admitted
            | Response::Excluded
            | Response::Forgotten
            | Response::NotModified(_) => "",
            Response::Open => "the relay is open\n",
            Response::NotForgotten(why) => why.why(),
            Response::Unhealthy(text)
            | Response::Metrics(text)
            | Response::Rooms(text)
            | Response::Wanted(text) => *text,
            Response::Part { value, .. } => *value,
            Response::Edited { reply, .. } => *reply,
            Response::Malformed(refusal) | Response::Unprocessable(refusal) => *refusal,
            Response::NoRoom => "there is no such room\n",
            Response::NoValue => "there is no such value\n",
            Response::OtherRevision(_) => "the room is at another revision\n",
            Response::Unavailable(why) => why.why(),
            Response::Refused(refusal) => refusal.why(),
        }
    }
}

/// Returns each byte of a response, after which the connection is closed. No cache keeps it, and no
/// browser reads it as another type. If memory runs out, it returns `AllocError` and leaves nothing
/// behind.
///
/// ```
/// let tag = RevisionTag { epoch: 5, rev: 7 };
/// let text = response_text(alloc, &Response::NotModified(tag)).ok()?;
/// assert!(rt; text.as_str().starts_with("HTTP/1.1 304 Not Modified\r\nETag: \"5-7\"\r\n"));
/// ```
pub fn response_text(alloc: Global, reply: &Response<'_>) -> Result<String, AllocError>
    ensures { IfOk result (λ text. string_bytes text ≡ response_text reply.now) }
{
    if reply.has_content() {
        content_text(alloc, reply)
    } else {
        bare_text(alloc, reply)
    }
}

fn bare_text(alloc: Global, reply: &Response<'_>) -> Result<String, AllocError>
    ensures { IfOk result (λ text. string_bytes text ≡ bare_text reply.now) }
{
    let (status, lines) = (reply.status(), reply.lines(alloc)?);
    format!(in alloc;
        "HTTP/1.1 {status}\r\n\
         {lines}Cache-Control: no-store\r\n\
         X-Content-Type-Options: nosniff\r\n\
         Connection: close\r\n\r\n"
    )
}

fn content_text(alloc: Global, reply: &Response<'_>) -> Result<String, AllocError>
    ensures { IfOk result (λ text. string_bytes text ≡ content_text reply.now) }
{
    let lines = reply.lines(alloc)?;
    content_by(
        alloc,
        reply.status(),
        reply.kind(),
        lines.as_str(),
        reply.body(),
    )
}

fn content_by(
    alloc: Global,
    status: StatusCode,
    kind: &str,
    lines: &str,
    body: &str,
) -> Result<String, AllocError>
    ensures { IfOk result (λ text. string_bytes text
        ≡ content_by status kind.now lines.now body.now) }
{
    let length = body.len();
    format!(in alloc;
        "HTTP/1.1 {status}\r\n\
         Content-Type: {kind}\r\n\
         Content-Length: {length}\r\n\
         {lines}Cache-Control: no-store\r\n\
         X-Content-Type-Options: nosniff\r\n\
         Connection: close\r\n\r\n\
         {body}"
    )
}
