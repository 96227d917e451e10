//! Tests of what no contract states: that the definitions mean RFC 6455, and that the calls
//! succeed.
use crate::shared::{Came, number, owned, repeated, words};
use relay_access::Access;
use relay_shake::{Shake, refusal, shake};
use relay_test_stream::{Subject, cut, play};
use std::alloc::{AllocGlobal, Global};

const SAMPLE: &str = "GET /rooms/a HTTP/1.1\r\n\
     Host: localhost\r\n\
     Upgrade: websocket\r\n\
     Connection: keep-alive, Upgrade\r\n\
     Sec-WebSocket-Key: dGhlIHNhbXBsZSBub25jZQ==\r\n\
     Sec-WebSocket-Version: 13\r\n\
     Sec-WebSocket-Extensions: permessage-deflate\r\n\r\n";

/// The part of an accepting reply before the accept value.
const SWITCH: &str = "HTTP/1.1 101 Switching Protocols\r\n\
     Upgrade: websocket\r\n\
     Connection: Upgrade\r\n\
     Sec-WebSocket-Accept: ";

/// Of an acceptance a row wants the room, `read-only` if that is the access, the origin if the head
/// names one, and the accept value, and of a refusal the status. `s3pPLMBiTxaQ9kYGzzhZRbK+xOo=` is
/// the accept value of the sample's key (RFC 6455, section 1.3).
const ROWS: &str = r#"
# Accepts handshakes.
sample => a s3pPLMBiTxaQ9kYGzzhZRbK+xOo=
with dGhlIHNhbXBsZSBub25jZQ== -> AQIDBAUGBwgJCgsMDQ4PEC== => a OfS0wDaT5NoxF2gqm7Zj2YtetzM=
with /rooms/a -> /rooms/R-2_x => R-2_x s3pPLMBiTxaQ9kYGzzhZRbK+xOo=
with Upgrade: websocket -> uPGRADE: WebSocket => a s3pPLMBiTxaQ9kYGzzhZRbK+xOo=
with keep-alive, Upgrade -> keep-alive,\t upgrade ,x => a s3pPLMBiTxaQ9kYGzzhZRbK+xOo=
with Connection: keep-alive, Upgrade -> connection: close\r\nCONNECTION: Upgrade => a s3pPLMBiTxaQ9kYGzzhZRbK+xOo=
with Sec-WebSocket-Key -> sec-websocket-key => a s3pPLMBiTxaQ9kYGzzhZRbK+xOo=

# Behind a room's name stands `/watch` for a session that only watches. A room may be named `watch`.
with /rooms/a -> /rooms/a/watch => a read-only s3pPLMBiTxaQ9kYGzzhZRbK+xOo=
with /rooms/a -> /rooms/watch => watch s3pPLMBiTxaQ9kYGzzhZRbK+xOo=
with /rooms/a -> /rooms/watch/watch => watch read-only s3pPLMBiTxaQ9kYGzzhZRbK+xOo=
with /rooms/a -> /rooms/watch/watch/watch => 404
with /rooms/a -> /rooms/a/watch/ => 404
with /rooms/a -> /rooms/a/watch/watch => 404
with /rooms/a -> /rooms/a/Watch => 404
with /rooms/a -> /rooms/a/watch?x=1 => 404
with /rooms/a -> /rooms//watch => 404
with /rooms/a -> /rooms/a%2Fwatch => 404
with /rooms/a -> /watch => 404
with GET /rooms/a -> POST /rooms/a/watch => 405
with /rooms/a HTTP/1.1 -> /rooms/a/watch HTTP/1.0 => 400

# Names the origin, as a browser sends it or not. Two fields name none, and neither does one that is not printable ASCII.
with Host: localhost\r\n -> Host: localhost\r\nOrigin: https://example.org\r\n => a from "https://example.org" s3pPLMBiTxaQ9kYGzzhZRbK+xOo=
with Host: localhost\r\n -> ORIGIN:\t null \r\nHost: localhost\r\n => a from "null" s3pPLMBiTxaQ9kYGzzhZRbK+xOo=
with Host: localhost\r\n -> Host: localhost\r\nOrigin:\r\n => a from "" s3pPLMBiTxaQ9kYGzzhZRbK+xOo=
with Host: localhost\r\n -> Host: localhost\r\nOrigins: null\r\nSec-WebSocket-Origin: null\r\n => a s3pPLMBiTxaQ9kYGzzhZRbK+xOo=
with /rooms/a HTTP/1.1\r\n -> /rooms/a/watch HTTP/1.1\r\nOrigin: HTTP://Example.org:81\r\n => a read-only from "HTTP://Example.org:81" s3pPLMBiTxaQ9kYGzzhZRbK+xOo=
with Host: localhost\r\n -> Host: localhost\r\nOrigin: null\r\nOrigin: null\r\n => 400
with Host: localhost\r\n -> Host: localhost\r\nOrigin: https://example.org\r\norigin: https://evil.example\r\n => 400
with Host: localhost\r\n -> Host: localhost\r\nOrigin: https://exämple.org\r\n => 400
with Host: localhost\r\n -> Host: localhost\r\nOrigin: https://a.example\thttps://b.example\r\n => 400
with Version: 13\r\n -> Version: 8\r\nOrigin: null\r\nOrigin: null\r\n => 400
with /rooms/a HTTP/1.1\r\n -> /other HTTP/1.1\r\nOrigin: null\r\nOrigin: null\r\n => 404

# Refuses by the first check that fails.
with GET -> POST => 405
with GET /rooms/a -> POST /other => 405
with /rooms/a -> /other => 404
with /rooms/a -> /rooms/ => 404
with /rooms/a -> /rooms/a?x=1 => 404
with /rooms/a -> /rooms/a/b => 404
with /rooms/a HTTP/1.1 -> /other HTTP/1.0 => 404
with HTTP/1.1 -> HTTP/1.0 => 400
without Host: localhost\r\n => 400
with Upgrade: websocket -> Upgrade: websockets => 400
with keep-alive, Upgrade -> keep-alive => 400
with Version: 13 -> Version: 8 => 426
without Sec-WebSocket-Version: 13\r\n => 400
without Sec-WebSocket-Key: dGhlIHNhbXBsZSBub25jZQ==\r\n => 400
with ZQ== -> ZQ= => 400
with deflate\r\n\r\n -> deflate\r\n\r\nx => 400
with 13\r\nSec-WebSocket-Extensions: permessage-deflate\r\n\r\n -> 8\r\n\r\nx => 426

# Refuses a header that stands twice.
with Host: localhost\r\n -> Host: localhost\r\nHost: localhost\r\n => 400
with Sec-WebSocket-Key: dGhlIHNhbXBsZSBub25jZQ==\r\n -> Sec-WebSocket-Key: dGhlIHNhbXBsZSBub25jZQ==\r\nSec-WebSocket-Key: dGhlIHNhbXBsZSBub25jZQ==\r\n => 400

# Waits for the rest of a head, whatever part of it has come.
each-part => more

# Waits for 8,192 bytes at most.
unfinished 8192 => more
unfinished 8193 => 431

# Takes 32 header lines at most. The sample has 6.
lines 0 => a s3pPLMBiTxaQ9kYGzzhZRbK+xOo=
lines 26 => a s3pPLMBiTxaQ9kYGzzhZRbK+xOo=
lines 27 => 431

# No head begins with a byte 0.
byte-0 => 400

# Refuses a page whose origin may not enter, and whoever comes where there is no room.
refusal-403 => 403
refusal-503 => 503
"#;

/// Handshakes: the sample, or the sample with a change.
#[derive(Drop)]
struct Handshakes;

impl<R: AllocGlobal> Subject<R> for Handshakes {
    fn act(&mut self, rt: &R, act: &str) -> Option<String> {
        let alloc = rt.alloc();
        let (word, rest) = cut(act);
        match word {
            "sample" => answer_to(alloc, SAMPLE.as_bytes()),
            "with" => answer_with(alloc, rest),
            "without" => answer_to_changed(alloc, rest, ""),
            "each-part" => answer_to_each_part(alloc),
            "unfinished" => answer_to_unfinished(alloc, number(rest)?),
            "lines" => answer_with_lines(alloc, number(rest)?),
            "byte-0" => answer_to(alloc, "\0".as_bytes()),
            "refusal-403" => refusal_403(alloc),
            "refusal-503" => refusal_503(alloc),
            _ => None,
        }
    }
}

/// The answer to the sample with a part replaced, as in `PART -> OTHER`.
fn answer_with(alloc: Global, change: &str) -> Came {
    let (part, other) = change.split_once(" -> ")?;
    answer_to_changed(alloc, part, other)
}

/// The answer to the sample with one of its parts replaced by another text. Both have `\r\n` and
/// `\t` as letters.
fn answer_to_changed(alloc: Global, part: &str, other: &str) -> Came {
    let part = unescaped(alloc, part)?;
    let (before, behind) = SAMPLE.split_once(part.as_str())?;
    let other = unescaped(alloc, other)?;
    answer_to_joined(alloc, before, other.as_str(), behind)
}

fn answer_to_joined(alloc: Global, before: &str, part: &str, behind: &str) -> Came {
    let head = format!(in alloc; "{before}{part}{behind}").ok()?;
    answer_to(alloc, head.as_bytes())
}

fn unescaped(alloc: Global, text: &str) -> Came {
    let text = text.replace(alloc, r"\r\n", "\r\n").ok()?;
    text.as_str().replace(alloc, r"\t", "\t").ok()
}

/// The answer to each part that the sample begins with, if it is always that more has to come.
fn answer_to_each_part(alloc: Global) -> Came {
    let bytes = SAMPLE.as_bytes();
    for len in 0..bytes.len() {
        let answer = answer_to(alloc, &bytes[..len])?;
        if answer.as_str() != MORE {
            return Some(answer);
        }
    }
    owned(alloc, MORE)
}

/// The answer to so many bytes whose last header line does not end.
fn answer_to_unfinished(alloc: Global, len: u64) -> Came {
    let head = "GET /rooms/a HTTP/1.1\r\nX: ";
    let rest = repeated(alloc, "a", len.saturating_sub(head.len() as u64))?;
    answer_to_joined(alloc, head, rest.as_str(), "")
}

/// The answer to the sample with so many more lines behind its line `Host`, which are ignored.
fn answer_with_lines(alloc: Global, count: u64) -> Came {
    let lines = repeated(alloc, "\r\nX: y", count)?;
    let (host, _) = SAMPLE.split_once("\r\nUpgrade")?;
    let (_, behind) = SAMPLE.split_once("localhost")?;
    answer_to_joined(alloc, host, lines.as_str(), behind)
}

/// The answer to these bytes, as text.
fn answer_to(alloc: Global, bytes: &[u8]) -> Came {
    match shake(alloc, bytes).ok()? {
        Shake::More => owned(alloc, MORE),
        Shake::Accept {
            room,
            access,
            origin,
            reply,
        } => {
            let asked = asked_in_words(alloc, room.as_str(), access, origin.as_deref())?;
            acceptance_in_words(alloc, asked.as_str(), reply.as_slice())
        }
        Shake::Refuse { status, reply } => refusal_in_words(alloc, status, reply.as_slice()),
    }
}

const MORE: &str = "more";

/// The request of an accepted head, as text: the room, the access if it is `read-only`, and the
/// origin if the head names one.
fn asked_in_words(alloc: Global, room: &str, access: Access, origin: Option<&str>) -> Came {
    let access = match access {
        Access::ReadWrite => "",
        Access::ReadOnly => " read-only",
    };
    match origin {
        Some(origin) => format!(in alloc; "{room}{access} from {origin:?}").ok(),
        None => format!(in alloc; "{room}{access}").ok(),
    }
}

/// An acceptance, as text: what was asked for, and the accept value, if the rest of the reply is as
/// it should be.
fn acceptance_in_words(alloc: Global, asked: &str, reply: &[u8]) -> Came {
    let reply = String::from_utf8_lossy(alloc, reply).ok()?;
    let value = accept_value(reply.as_str()).unwrap_or("and another reply");
    format!(in alloc; "{asked} {value}").ok()
}

fn accept_value(reply: &str) -> Option<&str> {
    reply.strip_prefix(SWITCH)?.strip_suffix("\r\n\r\n")
}

/// A refusal, as text: its status, if the reply has exactly the bytes for it, and otherwise its
/// bytes.
fn refusal_in_words(alloc: Global, status: u16, reply: &[u8]) -> Came {
    if reply == refused(status).as_bytes() {
        words(alloc, status)
    } else {
        words(alloc, reply)
    }
}

/// The refusal of a page whose origin may not enter, as text.
fn refusal_403(alloc: Global) -> Came {
    let reply = refusal(alloc, 403).ok()?;
    refusal_in_words(alloc, 403, reply.as_slice())
}

/// The refusal of those for whom there is no room, as text.
fn refusal_503(alloc: Global) -> Came {
    let reply = refusal(alloc, 503).ok()?;
    refusal_in_words(alloc, 503, reply.as_slice())
}

/// The bytes of a refusal with this status.
fn refused(status: u16) -> &'static str {
    match status {
        403 => "HTTP/1.1 403 Forbidden\r\nContent-Length: 0\r\nConnection: close\r\n\r\n",
        404 => "HTTP/1.1 404 Not Found\r\nContent-Length: 0\r\nConnection: close\r\n\r\n",
        405 => {
            "HTTP/1.1 405 Method Not Allowed\r\n\
             Allow: GET\r\n\
             Content-Length: 0\r\n\
             Connection: close\r\n\r\n"
        }
        426 => {
            "HTTP/1.1 426 Upgrade Required\r\n\
             Upgrade: websocket\r\n\
             Sec-WebSocket-Version: 13\r\n\
             Content-Length: 0\r\n\
             Connection: close, Upgrade\r\n\r\n"
        }
        431 => {
            "HTTP/1.1 431 Request Header Fields Too Large\r\n\
             Content-Length: 0\r\n\
             Connection: close\r\n\r\n"
        }
        503 => "HTTP/1.1 503 Service Unavailable\r\nContent-Length: 0\r\nConnection: close\r\n\r\n",
        _ => "HTTP/1.1 400 Bad Request\r\nContent-Length: 0\r\nConnection: close\r\n\r\n",
    }
}

#[test]
fn answers_handshakes(rt: HostRuntime) {
    play(&rt, &mut Handshakes, ROWS).expect(&rt, "each row holds");
}
