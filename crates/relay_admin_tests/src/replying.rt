//! Tests of the responses, and of the lists of rooms.
use crate::shared::shown;
use relay_admin::{
    AdminFault, NotForgotten, Response, RevisionTag, RoomRow, Unavailable, begin_rooms, end_rooms,
    response_text, wanted_text, write_room,
};
use relay_test_stream::{Subject, cut, play};
use std::alloc::{AllocGlobal, Global};

// Each response of the list below and its bytes are written as their `Debug` texts.
const ROWS: &str = r#"
# Replies to requests.
reply 0 => (Healthy, "HTTP/1.1 200 OK\r\nContent-Type: text/plain; charset=utf-8\r\nContent-Length: 3\r\nCache-Control: no-store\r\nX-Content-Type-Options: nosniff\r\nConnection: close\r\n\r\nok\n")
reply 1 => (Unhealthy("tired\n"), "HTTP/1.1 503 Service Unavailable\r\nContent-Type: text/plain; charset=utf-8\r\nContent-Length: 6\r\nCache-Control: no-store\r\nX-Content-Type-Options: nosniff\r\nConnection: close\r\n\r\ntired\n")
reply 2 => (Stopping, "HTTP/1.1 202 Accepted\r\nContent-Type: text/plain; charset=utf-8\r\nContent-Length: 9\r\nCache-Control: no-store\r\nX-Content-Type-Options: nosniff\r\nConnection: close\r\n\r\nstopping\n")
reply 3 => (Metrics("a 1\n"), "HTTP/1.1 200 OK\r\nContent-Type: text/plain; version=0.0.4; charset=utf-8\r\nContent-Length: 4\r\nCache-Control: no-store\r\nX-Content-Type-Options: nosniff\r\nConnection: close\r\n\r\na 1\n")
reply 4 => (Rooms("[]"), "HTTP/1.1 200 OK\r\nContent-Type: application/json\r\nContent-Length: 2\r\nCache-Control: no-store\r\nX-Content-Type-Options: nosniff\r\nConnection: close\r\n\r\n[]")

# Replies to refused heads.
reply 5 => (Refused(NoHead), "HTTP/1.1 400 Bad Request\r\nContent-Type: text/plain; charset=utf-8\r\nContent-Length: 19\r\nCache-Control: no-store\r\nX-Content-Type-Options: nosniff\r\nConnection: close\r\n\r\nthis is no request\n")
reply 6 => (Refused(TooLong), "HTTP/1.1 431 Request Header Fields Too Large\r\nContent-Type: text/plain; charset=utf-8\r\nContent-Length: 21\r\nCache-Control: no-store\r\nX-Content-Type-Options: nosniff\r\nConnection: close\r\n\r\nthe head is too long\n")
reply 7 => (Refused(NoHost), "HTTP/1.1 400 Bad Request\r\nContent-Type: text/plain; charset=utf-8\r\nContent-Length: 22\r\nCache-Control: no-store\r\nX-Content-Type-Options: nosniff\r\nConnection: close\r\n\r\nthere is not one Host\n")
reply 8 => (Refused(OtherHost), "HTTP/1.1 403 Forbidden\r\nContent-Type: text/plain; charset=utf-8\r\nContent-Length: 29\r\nCache-Control: no-store\r\nX-Content-Type-Options: nosniff\r\nConnection: close\r\n\r\nthe Host is not the loopback\n")
reply 9 => (Refused(Origin), "HTTP/1.1 403 Forbidden\r\nContent-Type: text/plain; charset=utf-8\r\nContent-Length: 18\r\nCache-Control: no-store\r\nX-Content-Type-Options: nosniff\r\nConnection: close\r\n\r\npages may not ask\n")

# Replies to other paths and methods.
reply 10 => (Refused(NoPath), "HTTP/1.1 404 Not Found\r\nContent-Type: text/plain; charset=utf-8\r\nContent-Length: 22\r\nCache-Control: no-store\r\nX-Content-Type-Options: nosniff\r\nConnection: close\r\n\r\nthere is no such path\n")
reply 11 => (Refused(OnlyGet), "HTTP/1.1 405 Method Not Allowed\r\nContent-Type: text/plain; charset=utf-8\r\nContent-Length: 9\r\nAllow: GET\r\nCache-Control: no-store\r\nX-Content-Type-Options: nosniff\r\nConnection: close\r\n\r\nonly GET\n")
reply 12 => (Refused(OnlyPost), "HTTP/1.1 405 Method Not Allowed\r\nContent-Type: text/plain; charset=utf-8\r\nContent-Length: 10\r\nAllow: POST\r\nCache-Control: no-store\r\nX-Content-Type-Options: nosniff\r\nConnection: close\r\n\r\nonly POST\n")

# Replies to requests to forget a room.
reply 13 => (Forgotten, "HTTP/1.1 204 No Content\r\nCache-Control: no-store\r\nX-Content-Type-Options: nosniff\r\nConnection: close\r\n\r\n")
reply 14 => (NotForgotten(NoRoom), "HTTP/1.1 404 Not Found\r\nContent-Type: text/plain; charset=utf-8\r\nContent-Length: 22\r\nCache-Control: no-store\r\nX-Content-Type-Options: nosniff\r\nConnection: close\r\n\r\nthere is no such room\n")
reply 15 => (NotForgotten(Occupied), "HTTP/1.1 409 Conflict\r\nContent-Type: text/plain; charset=utf-8\r\nContent-Length: 25\r\nCache-Control: no-store\r\nX-Content-Type-Options: nosniff\r\nConnection: close\r\n\r\na session is in the room\n")
reply 16 => (NotForgotten(Exhausted), "HTTP/1.1 409 Conflict\r\nContent-Type: text/plain; charset=utf-8\r\nContent-Length: 20\r\nCache-Control: no-store\r\nX-Content-Type-Options: nosniff\r\nConnection: close\r\n\r\nno revision is left\n")
reply 17 => (NotForgotten(NoMemory), "HTTP/1.1 503 Service Unavailable\r\nContent-Type: text/plain; charset=utf-8\r\nContent-Length: 19\r\nCache-Control: no-store\r\nX-Content-Type-Options: nosniff\r\nConnection: close\r\n\r\nmemory was refused\n")
reply 18 => (Refused(OnlyRoomMethods), "HTTP/1.1 405 Method Not Allowed\r\nContent-Type: text/plain; charset=utf-8\r\nContent-Length: 27\r\nAllow: GET, PATCH, DELETE\r\nCache-Control: no-store\r\nX-Content-Type-Options: nosniff\r\nConnection: close\r\n\r\nonly GET, PATCH and DELETE\n")
reply 19 => (Opened, "HTTP/1.1 204 No Content\r\nCache-Control: no-store\r\nX-Content-Type-Options: nosniff\r\nConnection: close\r\n\r\n")

# Replies to requests that read or edit a room.
reply 20 => (Part { tag: RevisionTag { epoch: 1700000000, rev: 9007199254740991 }, value: "[1]" }, "HTTP/1.1 200 OK\r\nContent-Type: application/json\r\nContent-Length: 3\r\nETag: \"1700000000-9007199254740991\"\r\nCache-Control: no-store\r\nX-Content-Type-Options: nosniff\r\nConnection: close\r\n\r\n[1]")
reply 21 => (NotModified(RevisionTag { epoch: 1700000000, rev: 9007199254740991 }), "HTTP/1.1 304 Not Modified\r\nETag: \"1700000000-9007199254740991\"\r\nCache-Control: no-store\r\nX-Content-Type-Options: nosniff\r\nConnection: close\r\n\r\n")
reply 22 => (Edited { tag: RevisionTag { epoch: 1700000000, rev: 9007199254740991 }, reply: "{\"id\":1,\"kind\":\"done\",\"rev\":2}" }, "HTTP/1.1 200 OK\r\nContent-Type: application/json\r\nContent-Length: 30\r\nETag: \"1700000000-9007199254740991\"\r\nCache-Control: no-store\r\nX-Content-Type-Options: nosniff\r\nConnection: close\r\n\r\n{\"id\":1,\"kind\":\"done\",\"rev\":2}")
reply 23 => (NoRoom, "HTTP/1.1 404 Not Found\r\nContent-Type: text/plain; charset=utf-8\r\nContent-Length: 22\r\nCache-Control: no-store\r\nX-Content-Type-Options: nosniff\r\nConnection: close\r\n\r\nthere is no such room\n")
reply 24 => (NoValue, "HTTP/1.1 404 Not Found\r\nContent-Type: text/plain; charset=utf-8\r\nContent-Length: 23\r\nCache-Control: no-store\r\nX-Content-Type-Options: nosniff\r\nConnection: close\r\n\r\nthere is no such value\n")
reply 25 => (OtherRevision(RevisionTag { epoch: 1700000000, rev: 9007199254740991 }), "HTTP/1.1 412 Precondition Failed\r\nContent-Type: text/plain; charset=utf-8\r\nContent-Length: 32\r\nETag: \"1700000000-9007199254740991\"\r\nCache-Control: no-store\r\nX-Content-Type-Options: nosniff\r\nConnection: close\r\n\r\nthe room is at another revision\n")
reply 26 => (Malformed("{\"at\":0,\"fault\":\"missing\",\"id\":1,\"kind\":\"refused\"}"), "HTTP/1.1 400 Bad Request\r\nContent-Type: application/json\r\nContent-Length: 50\r\nCache-Control: no-store\r\nX-Content-Type-Options: nosniff\r\nConnection: close\r\n\r\n{\"at\":0,\"fault\":\"missing\",\"id\":1,\"kind\":\"refused\"}")
reply 27 => (Unprocessable("{\"at\":0,\"fault\":\"missing\",\"id\":1,\"kind\":\"refused\"}"), "HTTP/1.1 422 Unprocessable Entity\r\nContent-Type: application/json\r\nContent-Length: 50\r\nCache-Control: no-store\r\nX-Content-Type-Options: nosniff\r\nConnection: close\r\n\r\n{\"at\":0,\"fault\":\"missing\",\"id\":1,\"kind\":\"refused\"}")
reply 28 => (Unavailable(Rooms), "HTTP/1.1 503 Service Unavailable\r\nContent-Type: text/plain; charset=utf-8\r\nContent-Length: 20\r\nRetry-After: 1\r\nCache-Control: no-store\r\nX-Content-Type-Options: nosniff\r\nConnection: close\r\n\r\nall rooms are taken\n")
reply 29 => (Unavailable(Sessions), "HTTP/1.1 503 Service Unavailable\r\nContent-Type: text/plain; charset=utf-8\r\nContent-Length: 23\r\nRetry-After: 1\r\nCache-Control: no-store\r\nX-Content-Type-Options: nosniff\r\nConnection: close\r\n\r\nall sessions are taken\n")
reply 30 => (Unavailable(Memory), "HTTP/1.1 503 Service Unavailable\r\nContent-Type: text/plain; charset=utf-8\r\nContent-Length: 19\r\nRetry-After: 1\r\nCache-Control: no-store\r\nX-Content-Type-Options: nosniff\r\nConnection: close\r\n\r\nmemory was refused\n")

# Replies to refused requests of that kind.
reply 31 => (Refused(BadQuery), "HTTP/1.1 400 Bad Request\r\nContent-Type: text/plain; charset=utf-8\r\nContent-Length: 25\r\nCache-Control: no-store\r\nX-Content-Type-Options: nosniff\r\nConnection: close\r\n\r\nthe query is not one at=\n")
reply 32 => (Refused(Expectation), "HTTP/1.1 417 Expectation Failed\r\nContent-Type: text/plain; charset=utf-8\r\nContent-Length: 17\r\nCache-Control: no-store\r\nX-Content-Type-Options: nosniff\r\nConnection: close\r\n\r\nno Expect is met\n")
reply 33 => (Refused(MediaType), "HTTP/1.1 415 Unsupported Media Type\r\nContent-Type: text/plain; charset=utf-8\r\nContent-Length: 52\r\nAccept-Patch: application/json-patch+json\r\nCache-Control: no-store\r\nX-Content-Type-Options: nosniff\r\nConnection: close\r\n\r\nthe Content-Type is not application/json-patch+json\n")
reply 34 => (Refused(NoLength), "HTTP/1.1 411 Length Required\r\nContent-Type: text/plain; charset=utf-8\r\nContent-Length: 27\r\nCache-Control: no-store\r\nX-Content-Type-Options: nosniff\r\nConnection: close\r\n\r\nthere is no Content-Length\n")
reply 35 => (Refused(BadLength), "HTTP/1.1 400 Bad Request\r\nContent-Type: text/plain; charset=utf-8\r\nContent-Length: 37\r\nCache-Control: no-store\r\nX-Content-Type-Options: nosniff\r\nConnection: close\r\n\r\nthe Content-Length is not one number\n")
reply 36 => (Refused(BodyTooLong), "HTTP/1.1 413 Payload Too Large\r\nContent-Type: text/plain; charset=utf-8\r\nContent-Length: 21\r\nCache-Control: no-store\r\nX-Content-Type-Options: nosniff\r\nConnection: close\r\n\r\nthe body is too long\n")

# Replies to requests of doors, and for the rooms that are wanted.
reply 37 => (Admitted, "HTTP/1.1 204 No Content\r\nCache-Control: no-store\r\nX-Content-Type-Options: nosniff\r\nConnection: close\r\n\r\n")
reply 38 => (Excluded, "HTTP/1.1 204 No Content\r\nCache-Control: no-store\r\nX-Content-Type-Options: nosniff\r\nConnection: close\r\n\r\n")
reply 39 => (Open, "HTTP/1.1 409 Conflict\r\nContent-Type: text/plain; charset=utf-8\r\nContent-Length: 18\r\nCache-Control: no-store\r\nX-Content-Type-Options: nosniff\r\nConnection: close\r\n\r\nthe relay is open\n")
reply 40 => (Refused(OnlyDoorMethods), "HTTP/1.1 405 Method Not Allowed\r\nContent-Type: text/plain; charset=utf-8\r\nContent-Length: 20\r\nAllow: PUT, DELETE\r\nCache-Control: no-store\r\nX-Content-Type-Options: nosniff\r\nConnection: close\r\n\r\nonly PUT and DELETE\n")
reply 41 => (Wanted("[\"board\"]"), "HTTP/1.1 200 OK\r\nContent-Type: application/json\r\nContent-Length: 9\r\nCache-Control: no-store\r\nX-Content-Type-Options: nosniff\r\nConnection: close\r\n\r\n[\"board\"]")

# Lists the names of rooms in their order.
wanted => []
wanted board => ["board"]
wanted lobby board => ["lobby","board"]
wanted a"b \ ä => ["a\"b","\\","ä"]

# Lists rooms. Of an empty one it says for how long it has been empty.
rooms => [{"name":"r","revision":0,"sessions":2,"weight":8},{"name":"\"","revision":18446744073709551615,"sessions":2,"weight":8,"empty":60}]
"#;

const REPLIES: [Response<'static>; 42] = [
    Response::Healthy,
    Response::Unhealthy("tired\n"),
    Response::Stopping,
    Response::Metrics("a 1\n"),
    Response::Rooms("[]"),
    Response::Refused(AdminFault::NoHead),
    Response::Refused(AdminFault::TooLong),
    Response::Refused(AdminFault::NoHost),
    Response::Refused(AdminFault::OtherHost),
    Response::Refused(AdminFault::Origin),
    Response::Refused(AdminFault::NoPath),
    Response::Refused(AdminFault::OnlyGet),
    Response::Refused(AdminFault::OnlyPost),
    Response::Forgotten,
    Response::NotForgotten(NotForgotten::NoRoom),
    Response::NotForgotten(NotForgotten::Occupied),
    Response::NotForgotten(NotForgotten::Exhausted),
    Response::NotForgotten(NotForgotten::NoMemory),
    Response::Refused(AdminFault::OnlyRoomMethods),
    Response::Opened,
    Response::Part {
        tag: TAG,
        value: "[1]",
    },
    Response::NotModified(TAG),
    Response::Edited {
        tag: TAG,
        reply: r#"{"id":1,"kind":"done","rev":2}"#,
    },
    Response::NoRoom,
    Response::NoValue,
    Response::OtherRevision(TAG),
    Response::Malformed(MISSING),
    Response::Unprocessable(MISSING),
    Response::Unavailable(Unavailable::Rooms),
    Response::Unavailable(Unavailable::Sessions),
    Response::Unavailable(Unavailable::Memory),
    Response::Refused(AdminFault::BadQuery),
    Response::Refused(AdminFault::Expectation),
    Response::Refused(AdminFault::MediaType),
    Response::Refused(AdminFault::NoLength),
    Response::Refused(AdminFault::BadLength),
    Response::Refused(AdminFault::BodyTooLong),
    Response::Admitted,
    Response::Excluded,
    Response::Open,
    Response::Refused(AdminFault::OnlyDoorMethods),
    Response::Wanted(r#"["board"]"#),
];

const TAG: RevisionTag = RevisionTag {
    epoch: 1_700_000_000,
    rev: 9_007_199_254_740_991,
};

const MISSING: &str = r#"{"at":0,"fault":"missing","id":1,"kind":"refused"}"#;

#[test]
fn replies_have_their_bytes(rt: HostRuntime) {
    play(&rt, &mut Replies, ROWS).expect(&rt, "each row holds");
}

/// Responses, by their places in the list.
#[derive(Clone, Copy)]
struct Replies;

impl<R: AllocGlobal> Subject<R> for Replies {
    fn act(&mut self, rt: &R, act: &str) -> Option<String> {
        match cut(act) {
            ("reply", index) => reply_at(rt.alloc(), index),
            ("rooms", _) => rooms(rt.alloc()),
            ("wanted", names) => wanted(rt.alloc(), names),
            _ => None,
        }
    }
}

/// A response of the list, and its bytes.
fn reply_at(alloc: Global, index: &str) -> Option<String> {
    let reply = *REPLIES.get(index.parse::<usize>().ok()?)?;
    shown(alloc, (reply, response_text(alloc, &reply).ok()?))
}

/// The list of two rooms.
fn rooms(alloc: Global) -> Option<String> {
    let mut out = begin_rooms(alloc).ok()?;
    write_room(&mut out, &row("r", 0, None)).ok()?;
    write_room(&mut out, &row("\"", u64::MAX, Some(60))).ok()?;
    end_rooms(out).ok()
}

/// The list of the names between spaces.
fn wanted(alloc: Global, names: &str) -> Option<String> {
    let mut list = Vec::new(alloc);
    for name in names.split_whitespace() {
        list.push(String::from_str(alloc, name).ok()?).ok()?;
    }
    wanted_text(alloc, &list).ok()
}

fn row(name: &str, revision: u64, empty: Option<u64>) -> RoomRow<'_> {
    RoomRow {
        name,
        revision,
        sessions: 2,
        weight: 8,
        empty,
    }
}
