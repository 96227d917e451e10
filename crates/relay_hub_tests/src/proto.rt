//! Tests of the texts of requests and messages, as `docs/PROTOCOL.md` shows them. The answer to
//! each text is data in `tests/scripts`.
use crate::replies::REPLIES;
use crate::shared::{Came, number, owned, patch_of, tree_of, view_of, words};
use relay_access::is_room_name;
use relay_proto::{Message, Reply, Request, patch_text, shown_text, snapshot_text, will_text};
use relay_test_stream::{Subject, cut, play};
use std::alloc::{AllocGlobal, Global};

const ROWS: &str = r#"
# Names of rooms have 1 to 64 letters, digits, `-` and `_`.
name r => true
name 0123456789abcdefghijklmnopqrstuvwxyzABCDEFGHIJKLMNOPQRSTUVWXYZ-_ => true
name 0123456789abcdefghijklmnopqrstuvwxyzABCDEFGHIJKLMNOPQRSTUVWXYZ-_0 => false
name => false
name a/b => false
name é => false

# Writes each reply, except refusals. The message of a reply has the same text.
reply 0 => {"epoch":1,"kind":"welcome","rev":0,"session":2}
reply 1 => {"id":2,"kind":"done","rev":1}
reply 2 => {"id":1,"kind":"watching"}
reply 3 => {"how":"nothing","id":4,"kind":"resumed"}
reply 4 => {"id":5,"kind":"unwatched"}
message-of-reply 0 => {"epoch":1,"kind":"welcome","rev":0,"session":2}
message-of-reply 1 => {"id":2,"kind":"done","rev":1}
message-of-reply 2 => {"id":1,"kind":"watching"}
message-of-reply 3 => {"how":"nothing","id":4,"kind":"resumed"}
message-of-reply 4 => {"id":5,"kind":"unwatched"}
reply 8 => {"id":6,"kind":"willing"}
message-of-reply 8 => {"id":6,"kind":"willing"}

# Writes refusals. Only one that has a revision writes it.
reply 5 => {"at":2,"fault":"test-failed","id":7,"kind":"refused"}
reply 6 => {"at":null,"fault":"not-json","id":null,"kind":"refused"}
reply 7 => {"at":null,"fault":"stale","id":9,"kind":"refused","rev":2}
message-of-reply 5 => {"at":2,"fault":"test-failed","id":7,"kind":"refused"}
message-of-reply 6 => {"at":null,"fault":"not-json","id":null,"kind":"refused"}
message-of-reply 7 => {"at":null,"fault":"stale","id":9,"kind":"refused","rev":2}

# Writes patches, snapshots, and what a view shows of a document.
patch 3 [{"op":"move","path":"/0/0/b","from":"/0/0/a~1","more":1},{"op":"test","path":"","value":null}] => {"kind":"patch","patch":[{"from":"/0/0/a~1","op":"move","path":"/0/0/b"},{"op":"test","path":"","value":null}],"rev":3}
snapshot 1 [[1],[]] => {"kind":"snapshot","rev":1,"view":[[1],[]]}
shown 2 ["/a","/b",{"size":""}] {"a":{"c":"\u0007\"é","b":[-1]}} => {"kind":"snapshot","rev":2,"view":[[{"b":[-1],"c":"\u0007\"é"}],[],[1]]}

# Writes a request that leaves a will, which reads as that will.
will [{"op":"move","path":"/b","from":"/a~1","more":1},{"op":"test","path":"","value":"é"}] => {"do":"will","id":1,"patch":[{"from":"/a~1","op":"move","path":"/b"},{"op":"test","path":"","value":"é"}]}
will [] => {"do":"will","id":1,"patch":[]}
request {"do":"will","id":1,"patch":[{"from":"/a~1","op":"move","path":"/b"},{"op":"test","path":"","value":"é"}]} => will 1 2

# Messages read back: each is written again as the same text.
message {"epoch":1,"kind":"welcome","rev":0,"session":2} => {"epoch":1,"kind":"welcome","rev":0,"session":2}
message {"at":null,"fault":"stale","id":9,"kind":"refused","rev":2} => {"at":null,"fault":"stale","id":9,"kind":"refused","rev":2}
message {"how":"snapshot","id":4,"kind":"resumed"} => {"how":"snapshot","id":4,"kind":"resumed"}
message {"kind":"patch","patch":[{"op":"replace","path":"/0","value":[5]}],"rev":5} => {"kind":"patch","patch":[{"op":"replace","path":"/0","value":[5]}],"rev":5}
message {"kind":"snapshot","rev":1,"view":[[{"x":1}],[]]} => {"kind":"snapshot","rev":1,"view":[[{"x":1}],[]]}
message {"id":6,"kind":"willing"} => {"id":6,"kind":"willing"}
message {} => NotMessage

# Reads each request.
request {"base":4,"do":"edit","id":1,"patch":[{"op":"remove","path":""}]} => edit 1 Some(4) 1
request {"do":"watch","id":2,"view":["/a",""]} => watch 2 2
request {"do":"resume","epoch":1,"id":3,"rev":0,"view":[""]} => resume 3 1
request {"do":"unwatch","id":4} => unwatch 4 0
request {"do":"will","id":5,"patch":[{"op":"remove","path":""}]} => will 5 1
request {"do":"will","id":6,"patch":[]} => will 6 0

# A will has no base, and its patch weighs 65,536 at most.
request {"base":4,"do":"will","id":1,"patch":[]} => Refused(Refusal { fault: Shape, id: Some(1), at: None })
request {"do":"will","id":1} => Refused(Refusal { fault: Shape, id: Some(1), at: None })
request {"do":"will","id":1,"patch":[{"op":"add","path":"a"}]} => Refused(Refusal { fault: Shape, id: Some(1), at: Some(0) })
will-of 65528 => will 1 1
will-of 65529 => Refused(Refusal { fault: TooHeavy, id: Some(1), at: None })

# A request has 1,048,576 bytes at most.
unwatch-of 1048576 => unwatch 1 0
unwatch-of 1048577 => Refused(Refusal { fault: TooLong, id: None, at: None })
"#;

/// The texts of requests and messages.
#[derive(Drop)]
struct Texts;

impl<R: AllocGlobal> Subject<R> for Texts {
    fn act(&mut self, rt: &R, act: &str) -> Option<String> {
        let alloc = rt.alloc();
        let (word, rest) = cut(act);
        match word {
            "name" => words(alloc, is_room_name(rest)),
            "reply" => reply_at(rest)?.text(alloc).ok(),
            "message-of-reply" => Message::Reply(reply_at(rest)?).text(alloc).ok(),
            "patch" => patch_written(alloc, rest),
            "snapshot" => snapshot_written(alloc, rest),
            "shown" => shown_written(alloc, rest),
            "will" => will_text(alloc, &patch_of(alloc, rest)?).ok(),
            _ => act_of_reading(alloc, word, rest),
        }
    }
}

/// The outcome of reading a text.
fn act_of_reading(alloc: Global, word: &str, text: &str) -> Came {
    match word {
        "message" => written_again(alloc, text),
        "request" => asked(alloc, text),
        "unwatch-of" => asked_by_unwatch_of(alloc, text),
        "will-of" => asked_by_will_of(alloc, text),
        _ => None,
    }
}

/// The reply at a place.
fn reply_at(place: &str) -> Option<Reply> {
    REPLIES.get(number(place)? as usize).copied()
}

fn patch_written(alloc: Global, rest: &str) -> Came {
    let (rev, patch) = cut(rest);
    patch_text(alloc, number(rev)?, &patch_of(alloc, patch)?).ok()
}

fn snapshot_written(alloc: Global, rest: &str) -> Came {
    let (rev, view) = cut(rest);
    snapshot_text(alloc, number(rev)?, &tree_of(alloc, view)?).ok()
}

/// The part that a view shows of a document at a revision.
fn shown_written(alloc: Global, rest: &str) -> Came {
    let (rev, rest) = cut(rest);
    let (view, document) = cut(rest);
    let view = view_of(alloc, view)?;
    shown_text(alloc, number(rev)?, &view, &tree_of(alloc, document)?).ok()
}

/// The text of the message that is read from a text, or why it is no message.
fn written_again(alloc: Global, text: &str) -> Came {
    match Message::read(alloc, text) {
        Ok(message) => message.text(alloc).ok(),
        Err(fault) => words(alloc, fault),
    }
}

/// The request of a text, as text, or the cause for which it is none.
fn asked(alloc: Global, text: &str) -> Came {
    match Request::read(alloc, text) {
        Ok(Request::Edit { id, base, patch }) => {
            let count = patch.ops().len();
            format!(in alloc; "edit {id} {base:?} {count}").ok()
        }
        Ok(Request::Will { id, patch }) => of_len(alloc, "will", id, patch.ops().len() as u64),
        Ok(Request::Watch { id, view }) => of_len(alloc, "watch", id, view.len()),
        Ok(Request::Resume { id, view, .. }) => of_len(alloc, "resume", id, view.len()),
        Ok(Request::Unwatch { id }) => of_len(alloc, "unwatch", id, 0),
        Err(fault) => words(alloc, fault),
    }
}

fn of_len(alloc: Global, what: &str, id: u64, len: u64) -> Came {
    format!(in alloc; "{what} {id} {len}").ok()
}

/// The request that a valid text of so many bytes makes.
fn asked_by_unwatch_of(alloc: Global, len: &str) -> Came {
    let len = len.parse::<usize>().ok()?;
    let request = r#"{"do":"unwatch","id":1}"#;
    let blanks = " ".repeat(alloc, len.saturating_sub(request.len())).ok()?;
    let text = format!(in alloc; "{request}{blanks}").ok()?;
    asked(alloc, text.as_str())
}

/// The request of a will whose patch adds a string of so many bytes, which weighs 8 more.
fn asked_by_will_of(alloc: Global, len: &str) -> Came {
    let string = "a".repeat(alloc, len.parse::<usize>().ok()?).ok()?;
    let patch = format!(in alloc;
        "[{{\"op\":\"add\",\"path\":\"\",\"value\":\"{string}\"}}]"
    ).ok()?;
    let text = format!(in alloc; "{{\"do\":\"will\",\"id\":1,\"patch\":{patch}}}").ok()?;
    asked(alloc, text.as_str())
}

#[test]
fn reads_and_writes_texts(rt: HostRuntime) {
    play(&rt, &mut Texts, ROWS).expect(&rt, "each row holds");
}
