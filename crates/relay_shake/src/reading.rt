//! The path from bytes to a head, and from the head to the answer.
ghost use Rattle.std.specs.Prelude.{◌≡◌, IfOk, IsTrue, option_copied, option_map, string_bytes};
ghost use Rattle.relay_http_head.specs.Parsing.{parts};
ghost use Rattle.relay_shake.specs.Handshake.{verdict_on, refuse};
ghost use Rattle.relay_shake.specs.Replies.{is_refusal};
ghost use Rattle.relay_shake.specs.Shaken.{Shows, AnswersHead, AnswersNoHead};

use crate::answer::Shake;
use crate::checks::judge;
use crate::reply::{accept_reply, refusal};
use httparse::{EMPTY_HEADER, Request};
use relay_http_head::{Fault, Head, Parsed, head_of, parse_head};
use std::alloc::{AllocError, Global};

/// The most bytes of a head.
pub(crate) const MAX_HEAD: usize = 8_192;

/// The most header fields in [`MAX_HEAD`] bytes, since each takes at least three bytes.
pub(crate) const MAX_HEAD_FIELDS: usize = 2_730;

/// Answers all bytes received so far.
///
/// The head must be within the first 8,192 bytes. If they begin with one, the first check that
/// fails gives the status of [`Shake::Refuse`]:
///
/// 1. at most 32 header fields, else 431;
/// 2. the method `GET`, else 405;
/// 3. the target `/rooms/NAME` or `/rooms/NAME/watch`, where NAME is a room name, with no query,
///    else 404; with `/watch` the session may only watch;
/// 4. HTTP/1.1, else 400;
/// 5. one field `Host`, else 400;
/// 6. no field `Origin`, or one, whose value is printable ASCII, else 400;
/// 7. the element `websocket` in a field `Upgrade`, else 400;
/// 8. the element `Upgrade` in a field `Connection`, else 400;
/// 9. one field `Sec-WebSocket-Version`, else 400; its value is `13`, else 426;
/// 10. one field `Sec-WebSocket-Key`, whose value is 16 bytes in base64, else 400;
/// 11. no byte after the head, since a client must wait for the reply, else 400.
///
/// A head that passes is accepted, whichever origin it names, and other headers are ignored: no
/// extension and no subprotocol is negotiated.
///
/// If there is no head but one can still come, the answer is [`Shake::More`], or 431 after more
/// than 8,192 bytes. If none can come, it is 400. One case is left open: if the bytes end in a
/// target that no head can have, such as one that is not UTF-8, either answer may come until the
/// target has ended.
///
/// Each call reads from the first byte and allocates about 90 KB for the header fields, which it
/// frees before it returns. If memory runs out, it returns `AllocError` and leaves nothing behind.
/// See `docs/PROTOCOL.md`, "The handshake".
///
/// ```
/// // The key, and what it is accepted by, are those of RFC 6455, section 1.3.
/// let fields = "Host: localhost\r\nUpgrade: websocket\r\nConnection: Upgrade\r\n";
/// let key = "Sec-WebSocket-Version: 13\r\nSec-WebSocket-Key: dGhlIHNhbXBsZSBub25jZQ==\r\n";
/// let head = format!(in alloc; "GET /rooms/board HTTP/1.1\r\n{fields}{key}\r\n").ok()?;
/// let Shake::Accept { reply, .. } = shake(alloc, head.as_bytes()).ok()? else {
///     return None;
/// };
/// assert!(rt; reply.as_slice().ends_with(b"Accept: s3pPLMBiTxaQ9kYGzzhZRbK+xOo=\r\n\r\n"));
/// ```
pub fn shake(alloc: Global, bytes: &[u8]) -> Result<Shake, AllocError>
    ensures head { IfOk result (AnswersHead bytes.now) }
    // Both cases of `AnswersNoHead` hold only if the bytes end in a target that no head can have.
    ensures no_head { IfOk result (AnswersNoHead bytes.now) }
{
    let mut fields = vec![in alloc; EMPTY_HEADER; MAX_HEAD_FIELDS]?;
    let mut request = Request::new(&mut fields);
    match parse_head(&mut request, bytes, MAX_HEAD) {
        Parsed::Complete(len) => answer(alloc, &head_of(request, bytes, len)),
        Parsed::Partial => Ok(Shake::More),
        Parsed::TooLong => refused(alloc, 431),
        Parsed::Invalid => refused(alloc, 400),
    }
}

fn answer(alloc: Global, head: &Head<'_, '_>) -> Result<Shake, AllocError>
    ensures { IfOk result (λ answer. Shows answer (verdict_on (parts head.now))) }
{
    match judge(alloc, head) {
        Ok(accepted) => Ok(Shake::Accept {
            room: String::from_str(alloc, accepted.room)?,
            access: accepted.access,
            origin: owned(alloc, accepted.origin)?,
            reply: accept_reply(alloc, accepted.key)?,
        }),
        Err(Fault::Refused(status)) => refused(alloc, status),
        Err(Fault::NoMemory) => Err(AllocError),
    }
}

fn owned(alloc: Global, text: Option<&str>) -> Result<Option<String>, AllocError>
    ensures { IfOk result (λ owned. option_map string_bytes owned ≡ option_copied text.entry) }
{
    match text {
        Some(text) => Ok(Some(String::from_str(alloc, text)?)),
        None => Ok(None),
    }
}

fn refused(alloc: Global, status: u16) -> Result<Shake, AllocError>
    requires { IsTrue (is_refusal status) }
    ensures { IfOk result (λ answer. Shows answer (refuse status)) }
{
    Ok(Shake::Refuse {
        status,
        reply: refusal(alloc, status)?,
    })
}
