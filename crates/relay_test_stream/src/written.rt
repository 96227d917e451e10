//! The output of a relay, in words: handshake replies, compared byte for byte, and the frames after
//! them (RFC 6455, section 5.2).
use std::alloc::{AllocError, Global};

/// The replies that the protocol spells out, and their names in rows.
const REPLIES: [(&str, &str); 6] = [
    (
        "switched",
        "HTTP/1.1 101 Switching Protocols\r\n\
         Upgrade: websocket\r\n\
         Connection: Upgrade\r\n\
         Sec-WebSocket-Accept: s3pPLMBiTxaQ9kYGzzhZRbK+xOo=\r\n\r\n",
    ),
    (
        "upgrade required",
        "HTTP/1.1 426 Upgrade Required\r\n\
         Upgrade: websocket\r\n\
         Sec-WebSocket-Version: 13\r\n\
         Content-Length: 0\r\n\
         Connection: close, Upgrade\r\n\r\n",
    ),
    (
        "forbidden",
        "HTTP/1.1 403 Forbidden\r\nContent-Length: 0\r\nConnection: close\r\n\r\n",
    ),
    (
        "not found",
        "HTTP/1.1 404 Not Found\r\nContent-Length: 0\r\nConnection: close\r\n\r\n",
    ),
    (
        "unavailable",
        "HTTP/1.1 503 Service Unavailable\r\nContent-Length: 0\r\nConnection: close\r\n\r\n",
    ),
    (
        "try again",
        "HTTP/1.1 503 Service Unavailable\r\n\
         Retry-After: 1\r\n\
         Content-Length: 0\r\n\
         Connection: close\r\n\r\n",
    ),
];

/// Each reply and each frame of these bytes, after a ` > `.
pub fn in_words(alloc: Global, bytes: &[u8]) -> Result<String, AllocError> {
    let mut words = String::new(alloc);
    let mut rest = bytes;
    for _ in 0..bytes.len() {
        if !rest.is_empty() {
            let len = item_len(rest).min(rest.len());
            say(alloc, &mut words, &rest[..len])?;
            rest = &rest[len..];
        }
    }
    Ok(words)
}

/// The length of the first reply or frame.
fn item_len(bytes: &[u8]) -> usize {
    match bytes {
        [b'H', ..] => reply_at(bytes).1.len(),
        [_, 126, high, low, ..] => 4 + usize::from(u16::from_be_bytes([*high, *low])),
        [_, len, ..] if *len < 126 => 2 + usize::from(*len),
        _ => usize::MAX,
    }
}

/// The name and the bytes of the first reply.
fn reply_at(bytes: &[u8]) -> (&'static str, &'static str) {
    let mut found = ("no reply", "HTTP");
    for (name, reply) in REPLIES {
        if bytes.starts_with(reply.as_bytes()) {
            found = (name, reply);
        }
    }
    found
}

/// Appends the words for a reply or a frame. Only complete, unmasked frames have words, and pongs
/// only without further data.
fn say(alloc: Global, words: &mut String, item: &[u8]) -> Result<(), AllocError> {
    match item {
        [b'H', ..] => write!(words, " > {}", reply_at(item).0),
        [0x81, 126, high, low, text @ ..]
            if text.len() == usize::from(u16::from_be_bytes([*high, *low])) => {
            say_text(alloc, words, text)
        }
        [0x81, len, text @ ..] if text.len() == usize::from(*len) => say_text(alloc, words, text),
        [0x88, 0] => write!(words, " > close"),
        [0x88, len, high, low, reason @ ..] if 2 + reason.len() == usize::from(*len) => {
            say_close(words, u16::from_be_bytes([*high, *low]), reason)
        }
        [0x8a, 0] => write!(words, " > pong"),
        _ => write!(words, " > {} bytes", item.len()),
    }
}

fn say_text(alloc: Global, words: &mut String, bytes: &[u8]) -> Result<(), AllocError> {
    let text = String::from_utf8_lossy(alloc, bytes)?;
    write!(words, " > {text}")
}

/// Appends the words for a close: its code, and that it has a reason.
fn say_close(words: &mut String, code: u16, reason: &[u8]) -> Result<(), AllocError> {
    let more = if reason.is_empty() {
        ""
    } else {
        " with a reason"
    };
    write!(words, " > close {code}{more}")
}
