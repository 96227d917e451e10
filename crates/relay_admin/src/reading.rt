//! The path from bytes to a head, and from the head to the answer.
ghost use Rattle.std.specs.Prelude.{◌≡◌, IfOk};
ghost use Rattle.relay_admin.specs.Admitted.{AdmitsExactly};
ghost use Rattle.relay_admin.specs.Asked.{AnswersHead, AnswersNoHead, FollowsHead, HasHead};
ghost use Rattle.relay_admin.specs.Judged.{JudgesAsk, verdict_told};
ghost use Rattle.relay_admin.specs.Verdict.{verdict_on};
ghost use Rattle.relay_http_head.specs.Parsing.{parts};

use crate::admin_fault::AdminFault;
use crate::answer::Ask;
use crate::checks::judge;
use crate::door::asked_of_door;
use crate::room::asked_of_room;
use crate::target::Target;
use httparse::{EMPTY_HEADER, Request};
use relay_http_head::{Fault, Head, Parsed, head_of, parse_head};
use std::alloc::{AllocError, Global};

/// The most bytes of a head.
pub const MAX_HEAD: usize = 4_096;

/// The most header fields in [`MAX_HEAD`] bytes, since each takes at least three bytes.
pub(crate) const MAX_HEAD_FIELDS: usize = 1_365;

/// Answers all bytes received so far, of which the head must be within the first 4,096.
///
/// If they begin with a head, the first check that fails gives the [`AdminFault`]: at most 32
/// fields; one field `Host`; it names the loopback; no field `Origin`; one of the six paths, with
/// no query, or `/rooms/NAME`, or `/open/NAME`; a method of the path. Then, of a `GET` for a room,
/// a query that is one `at=`, or none; of a `PATCH`, no query; no `Expect`; the `Content-Type` of a
/// JSON Patch; no `Transfer-Encoding`, and a `Content-Length`; which is one number; at most
/// [`crate::MAX_BODY`]. A head that passes is a request, whatever follows it.
///
/// ```
/// let head = "GET /rooms/board?at=/cards/0 HTTP/1.1\r\nHost: localhost\r\n\r\n";
/// let Ok(Ask::Read(part)) = ask(alloc, head.as_bytes()) else {
///     return None;
/// };
/// assert!(rt; part.room.as_str() == "board" && part.at.as_str() == "/cards/0");
/// ```
///
/// If there is no head but one can still come, the answer is [`Ask::More`], or
/// [`AdminFault::TooLong`] after more than 4,096 bytes. If none can come, it is
/// [`AdminFault::NoHead`]. One case is left open, as in `relay_shake`: if the bytes end in a
/// target that no head can have, either answer may come until the target has ended.
///
/// Each call reads from the first byte and allocates about 45 KB, which it frees before it returns.
/// If memory runs out, it returns `AllocError` and leaves nothing behind.
pub fn ask(alloc: Global, bytes: &[u8]) -> Result<Ask, AllocError>
    // The requests that are accepted.
    ensures admits { IfOk result (AdmitsExactly bytes.now) }
    ensures head { IfOk result (AnswersHead bytes.now) }
    ensures no_head { IfOk result (AnswersNoHead bytes.now) }
    // The place at which the body of an edit begins.
    ensures body { IfOk result (FollowsHead bytes.now) }
{
    answered(alloc, bytes)
}

fn answered(alloc: Global, bytes: &[u8]) -> Result<Ask, AllocError>
    ensures head { IfOk result (AnswersHead bytes.now) }
    ensures no_head { IfOk result (AnswersNoHead bytes.now) }
    ensures body { IfOk result (FollowsHead bytes.now) }
{
    let mut fields = vec![in alloc; EMPTY_HEADER; MAX_HEAD_FIELDS]?;
    let mut request = Request::new(&mut fields);
    match parse_head(&mut request, bytes, MAX_HEAD) {
        Parsed::Complete(len) => answer(alloc, &head_of(request, bytes, len), len),
        Parsed::Partial => Ok(Ask::More),
        Parsed::TooLong => Ok(Ask::Refused(AdminFault::TooLong)),
        Parsed::Invalid => Ok(Ask::Refused(AdminFault::NoHead)),
    }
}

/// The answer to a head of `len` bytes.
fn answer(alloc: Global, head: &Head<'_, '_>, len: usize) -> Result<Ask, AllocError>
    ensures verdict { IfOk result (λ answer. verdict_told answer ≡ verdict_on (parts head.now)) }
    ensures head { IfOk result (HasHead len) }
{
    match asked(alloc, head, len) {
        Ok(answer) => Ok(answer),
        Err(Fault::Refused(refusal)) => Ok(Ask::Refused(refusal)),
        Err(Fault::NoMemory) => Err(AllocError),
    }
}

/// Returns the request in a head of `len` bytes, or the cause for which there is none.
fn asked(alloc: Global, head: &Head<'_, '_>, len: usize) -> Result<Ask, Fault<AdminFault>>
    ensures verdict { JudgesAsk result (verdict_on (parts head.now)) }
    ensures head { IfOk result (HasHead len) }
{
    match judge(alloc, head) {
        Ok(Target::Request(request)) => Ok(Ask::Request(request)),
        Ok(Target::Room(name)) => asked_of_room(alloc, name, head, len),
        Ok(Target::Door(name)) => Ok(asked_of_door(alloc, name, head.method)?),
        Err(fault) => Err(fault),
    }
}
