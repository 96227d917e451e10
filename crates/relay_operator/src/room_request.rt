//! The request for a room, and the response by what came of it.
ghost use Rattle.std.specs.Prelude.{◌≡◌, IfOk, string_bytes};
ghost use Rattle.relay_operator.specs.RoomRequest.{asked_of_room, is_of};
ghost use Rattle.relay_operator.specs.Visiting.{AnswersTexts, AnswersVisit, IsVisitResponse};
ghost use Rattle.relay_operator.specs.Visiting.{PreparesEdit, PreparesRead, Responds, SaysNotJson};
ghost use Rattle.relay_operator.specs.Visiting.{forgotten_response, holds_at, lacks_room};
ghost use Rattle.relay_operator.specs.Visiting.{refused_response, revision_named, tag_of};

use relay_access::{Access, is_room_name};
use relay_admin::{
    Ask, EditRequest, NOT_JSON, NotForgotten, Outcome, PartRequest, Response, RevisionTag,
    Unavailable, edit_text, outcome_of, response_text, shown_value, watch_text,
};
use relay_hub::{ForgetFault, Hub, OpenFault, Text};
use relay_link::{Visit, VisitOutcome};
use std::alloc::{AllocError, Global};

/// The request of a connection for a room.
#[derive(Drop)]
pub(crate) enum RoomRequest {
    /// `PUT /open/NAME`: that clients may enter it.
    Open(String),
    /// `DELETE /open/NAME`: that they may not.
    Close(String),
    /// `DELETE`: that the room of this name is forgotten.
    Forget(String),
    /// `GET`: a part of its document.
    Read(PartRequest),
    /// `PATCH`: an edit, by the patch in the request's body.
    Edit(EditRequest),
}

impl RoomRequest {
    /// The request for a room. If there is none, or it has a name that is none of a room, it is
    /// returned as it was asked.
    pub(crate) fn of(asked: Ask) -> Result<RoomRequest, Ask>
        ensures { result ≡ asked_of_room asked }
    {
        match asked {
            Ask::Admit(room) if is_room_name(room.as_str()) => Ok(RoomRequest::Open(room)),
            Ask::Exclude(room) => Ok(RoomRequest::Close(room)),
            Ask::Forget(room) => Ok(RoomRequest::Forget(room)),
            Ask::Read(part) => Ok(RoomRequest::Read(part)),
            Ask::Edit(edit) => Ok(RoomRequest::Edit(edit)),
            asked => Err(asked),
        }
    }

    /// True if it is of that kind.
    pub(crate) fn is(&self, kind: Kind) -> bool
        ensures { result ≡ is_of kind self.now }
    {
        match (kind, self) {
            (Kind::Admission, RoomRequest::Open(_) | RoomRequest::Close(_)) => true,
            (Kind::Forgetting, RoomRequest::Forget(_)) => true,
            (Kind::Visit, RoomRequest::Read(_) | RoomRequest::Edit(_)) => true,
            _ => false,
        }
    }
}

/// The kinds of requests, by the call of a server that serves them.
#[derive(Clone, Copy, Debug, PartialEq, Eq)]
pub(crate) enum Kind {
    Admission,
    Forgetting,
    Visit,
}

/// A visit that answers a request ([`Visit::make`]).
#[derive(Drop)]
pub struct RoomVisit {
    pub room: String,
    pub access: Access,
    pub text: Text,
}

/// The result of a request, before the hub is asked.
#[derive(Drop)]
pub(crate) enum Prepared {
    Visit(RoomVisit),
    /// The whole response: the hub need not be asked.
    Response(String),
}

/// Prepares the visit that reads a part of a room.
pub(crate) fn prepare_read(
    alloc: Global,
    hub: &Hub,
    request: &PartRequest,
) -> Result<Prepared, AllocError>
    ensures { IfOk result (PreparesRead hub.now request.now) }
{
    let Some(room) = hub.room_named(request.room.as_str()) else {
        return respond(alloc, &Response::NoRoom);
    };
    let tag = tag_of(hub, room.revision);
    if request.if_none_match.names(alloc, tag)? {
        return respond(alloc, &Response::NotModified(tag));
    }
    Ok(Prepared::Visit(RoomVisit {
        room: String::from_str(alloc, request.room.as_str())?,
        access: Access::ReadOnly,
        text: Text::of(watch_text(alloc, request.at.as_str())?),
    }))
}

/// Prepares the visit that makes an edit. A room that is not there counts as at revision 0, and is
/// not what `If-Match: *` asks for.
pub(crate) fn prepare_edit(
    alloc: Global,
    hub: &Hub,
    request: &EditRequest,
    body: &[u8],
) -> Result<Prepared, AllocError>
    ensures { IfOk result (PreparesEdit hub.now request.now body.now) }
{
    let tag = tag_of(hub, revision_named(hub, request.room.as_str()));
    if !holds_at(alloc, hub, request, tag)? {
        return respond(alloc, &Response::OtherRevision(tag));
    }
    match edit_text(alloc, None, body)? {
        Some(text) => Ok(Prepared::Visit(RoomVisit {
            room: String::from_str(alloc, request.room.as_str())?,
            access: Access::ReadWrite,
            text: Text::of(text),
        })),
        None => respond(alloc, &not_json()),
    }
}

/// Returns true if the condition of an edit holds at its room's present tag.
fn holds_at(
    alloc: Global,
    hub: &Hub,
    request: &EditRequest,
    tag: RevisionTag,
) -> Result<bool, AllocError>
    ensures { IfOk result (λ holds. holds ≡ holds_at hub.now request.now tag) }
{
    Ok(request.if_match.matches(alloc, tag)? && !lacks_room(hub, request))
}

/// Returns true if the edit asks for a room that is there, by `If-Match: *`, and there is none.
fn lacks_room(hub: &Hub, request: &EditRequest) -> bool
    ensures { result ≡ lacks_room hub.now request.now }
{
    request.if_match.is_star() && hub.room_named(request.room.as_str()).is_none()
}

/// The present revision of a room; 0 of one that is not there.
fn revision_named(hub: &Hub, room: &str) -> u64
    ensures { result ≡ revision_named room.now hub.now }
{
    match hub.room_named(room) {
        Some(room) => room.revision,
        None => 0,
    }
}

/// The response to an edit whose body is no JSON.
fn not_json() -> Response<'static>
    ensures { SaysNotJson result }
{
    Response::Malformed(NOT_JSON)
}

fn respond(alloc: Global, response: &Response<'_>) -> Result<Prepared, AllocError>
    ensures { IfOk result (Responds response.now) }
{
    Ok(Prepared::Response(response_text(alloc, response)?))
}

fn tag_of(hub: &Hub, rev: u64) -> RevisionTag
    ensures { result ≡ tag_of hub.now rev }
{
    RevisionTag {
        epoch: hub.config().epoch,
        rev,
    }
}

/// The response to a request, by the visit that it came to. `AllocError` if there is no memory for
/// it, or was none for what the hub said of an edit: then nobody knows whether it was made, so
/// there is no response.
#[tactic(auto, using(crate::proofs::Visits::is_visit_response))]
pub(crate) fn visited(
    alloc: Global,
    hub: &Hub,
    request: &RoomRequest,
    visit: &Visit,
) -> Result<String, AllocError>
    ensures { IfOk result
        (λ text. IsVisitResponse hub.now request.now visit.now (string_bytes text)) }
{
    let response = response_by(hub, request, visit)?;
    response_text(alloc, &response)
}

/// That response.
fn response_by<'v>(
    hub: &Hub,
    request: &RoomRequest,
    visit: &'v Visit,
) -> Result<Response<'v>, AllocError>
    ensures { IfOk result (AnswersVisit hub.now request.now visit.now.outcome
        visit.now.texts.items) }
{
    match visit.outcome {
        VisitOutcome::Refused(fault) => Ok(refused(fault)),
        VisitOutcome::Unheard(_) => Ok(Response::Unavailable(Unavailable::Memory)),
        VisitOutcome::Undrawn(_) => Err(AllocError),
        VisitOutcome::Answered(opening) => {
            answered(hub, request, opening.rev, visit.texts.as_slice())
        }
    }
}

/// The response to a request whose session could not be opened.
fn refused(fault: OpenFault) -> Response<'static>
    ensures { result ≡ refused_response fault }
{
    match fault {
        OpenFault::RoomName => Response::NoRoom,
        OpenFault::RoomsFull => Response::Unavailable(Unavailable::Rooms),
        OpenFault::SessionsFull | OpenFault::Exhausted => {
            Response::Unavailable(Unavailable::Sessions)
        }
        OpenFault::NoMemory => Response::Unavailable(Unavailable::Memory),
    }
}

/// The response by what the hub said to a session that was opened at a revision: the welcome, the
/// reply, and the snapshot that a watch makes due.
fn answered<'t>(
    hub: &Hub,
    request: &RoomRequest,
    rev: u64,
    texts: &'t [Text],
) -> Result<Response<'t>, AllocError>
    ensures { IfOk result
        (AnswersTexts hub.now request.now rev texts.now) }
{
    let (Some(reply), tag) = (texts.get(1), tag_of(hub, rev)) else {
        return Err(AllocError);
    };
    let reply = reply.as_str();
    match (outcome_of(reply), request) {
        (Outcome::Malformed, _) => Ok(Response::Malformed(reply)),
        (Outcome::Unprocessable, _) => Ok(Response::Unprocessable(reply)),
        (Outcome::Stale, _) => Ok(Response::OtherRevision(tag)),
        (Outcome::Accepted, RoomRequest::Edit(_)) => Ok(Response::Edited {
            tag: tag_of(hub, rev.saturating_add(1)),
            reply,
        }),
        (Outcome::Accepted, _) => {
            let snapshot = texts.get(2).ok_or(AllocError)?;
            match shown_value(snapshot.as_str(), rev) {
                Some("") => Ok(Response::NoValue),
                Some(value) => Ok(Response::Part { tag, value }),
                None => Err(AllocError),
            }
        }
    }
}

/// The response to a request to forget a room, by what came of it.
pub(crate) fn forgotten(came: Result<u64, ForgetFault>) -> Response<'static>
    ensures { result ≡ forgotten_response came }
{
    match came {
        Ok(_) => Response::Forgotten,
        Err(ForgetFault::NoRoom) => Response::NotForgotten(NotForgotten::NoRoom),
        Err(ForgetFault::Occupied) => Response::NotForgotten(NotForgotten::Occupied),
        Err(ForgetFault::Exhausted) => Response::NotForgotten(NotForgotten::Exhausted),
        Err(ForgetFault::NoMemory) => Response::NotForgotten(NotForgotten::NoMemory),
    }
}
