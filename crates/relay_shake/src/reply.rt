//! The bytes of the handshake replies.
ghost use Rattle.std.specs.Prelude.{◌≡◌, ◌++◌, IfOk, OnOk, IsTrue, codes, string_bytes};
ghost use Rattle.relay_shake.specs.Replies.{accept_value, accept_reply, closed_refusal};
ghost use Rattle.relay_shake.specs.Replies.{status_text, refusal_fields, refusal_of, is_refusal};

use base64::engine::general_purpose::STANDARD;
use http::StatusCode;
use sha1::Sha1;
use std::alloc::{AllocError, Global};

/// The GUID that is appended to the key (RFC 6455, section 1.3).
const GUID: &str = "258EAFA5-E914-47DA-95CA-C5AB0DC85B11";

/// Returns the 101 reply to a handshake with this key (RFC 6455, section 4.2.2).
pub(crate) fn accept_reply(alloc: Global, key: &[u8]) -> Result<Vec<u8>, AllocError>
    ensures { IfOk result (λ reply. reply.items ≡ accept_reply key.now) }
{
    let value = accept_value(alloc, key)?;
    let mut reply = Vec::new(alloc);
    reply.extend_from_slice(
        b"HTTP/1.1 101 Switching Protocols\r\nUpgrade: websocket\r\nConnection: Upgrade\r\n",
    )?;
    reply.extend_from_slice(b"Sec-WebSocket-Accept: ")?;
    reply.extend_from_slice(value.as_bytes())?;
    reply.extend_from_slice(b"\r\n\r\n")?;
    Ok(reply)
}

fn accept_value(alloc: Global, key: &[u8]) -> Result<String, AllocError>
    ensures { IfOk result (λ text. string_bytes text ≡ accept_value key.now) }
{
    let mut hasher = Sha1::new();
    hasher.update(key);
    hasher.update(GUID.as_bytes());
    STANDARD.encode(alloc, &hasher.finalize())
}

/// Returns the reply that refuses a handshake, after which the socket is closed.
///
/// The status is one of 400, 404, 405, 426 and 431, as in [`crate::Shake::Refuse`], 403 if pages of
/// the origin may not enter (RFC 6455, section 4.2.2), or 503 if the relay has no place for another
/// session. Returns `AllocError` if memory runs out. See `docs/PROTOCOL.md`, "The handshake".
///
/// ```
/// let reply = refusal(alloc, 404).ok()?;
/// let wanted = "HTTP/1.1 404 Not Found\r\nContent-Length: 0\r\nConnection: close\r\n\r\n";
/// assert!(rt; reply.as_slice() == wanted.as_bytes());
/// ```
pub fn refusal(alloc: Global, status: u16) -> Result<Vec<u8>, AllocError>
    requires { IsTrue (is_refusal status) }
    ensures { IfOk result (λ reply. reply.items ≡ refusal_of status) }
{
    let mut reply = Vec::new(alloc);
    reply.extend_from_slice(b"HTTP/1.1 ")?;
    write_status(&mut reply, status)?;
    reply.extend_from_slice(refusal_fields(status).as_bytes())?;
    Ok(reply)
}

/// Returns the reply to a good handshake while the relay lets no client in: 503, with the number of
/// seconds after which the client may try again (RFC 9110, section 10.2.3). The socket is closed
/// afterwards. Returns `AllocError` if memory runs out.
///
/// ```
/// let reply = closed_refusal(alloc).ok()?;
/// let wanted = b"HTTP/1.1 503 Service Unavailable\r\nRetry-After: 1\r\n";
/// assert!(rt; reply.as_slice().starts_with(wanted));
/// ```
pub fn closed_refusal(alloc: Global) -> Result<Vec<u8>, AllocError>
    ensures { IfOk result (λ reply. reply.items ≡ closed_refusal) }
{
    let mut reply = Vec::new(alloc);
    reply.extend_from_slice(
        b"HTTP/1.1 503 Service Unavailable\r\n\
          Retry-After: 1\r\n\
          Content-Length: 0\r\n\
          Connection: close\r\n\r\n",
    )?;
    Ok(reply)
}

// Appends the status and its phrase to the reply.
fn write_status(reply: &mut Vec<u8>, status: u16) -> Result<(), AllocError>
    requires { IsTrue (is_refusal status) }
    ensures { OnOk result (reply.new.items ≡ reply.old.items ++ status_text status) }
{
    let code = StatusCode::from_u16(status).unwrap();
    reply.extend_from_slice(code.as_str().as_bytes())?;
    reply.extend_from_slice(b" ")?;
    reply.extend_from_slice(code.canonical_reason().unwrap().as_bytes())?;
    Ok(())
}

fn refusal_fields(status: u16) -> &'static str
    ensures { result.now ≡ refusal_fields status }
{
    match status {
        405 => "\r\nAllow: GET\r\nContent-Length: 0\r\nConnection: close\r\n\r\n",
        426 => {
            "\r\n\
             Upgrade: websocket\r\n\
             Sec-WebSocket-Version: 13\r\n\
             Content-Length: 0\r\n\
             Connection: close, Upgrade\r\n\r\n"
        }
        _ => "\r\nContent-Length: 0\r\nConnection: close\r\n\r\n",
    }
}
