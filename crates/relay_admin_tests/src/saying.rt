//! Tests of what is said to a hub for a plain request, and of what its answers come to.
use crate::shared::shown;
use relay_admin::{NOT_JSON, edit_text, outcome_of, shown_value, watch_text};
use relay_test_stream::{Subject, cut, play};
use std::alloc::{AllocGlobal, Global};

const ROWS: &str = r#"
# Watches one pointer, whatever it is.
watch  => {"do":"watch","id":1,"view":[""]}
watch /a~1b => {"do":"watch","id":1,"view":["/a~1b"]}
watch "],"do":"edit => {"do":"watch","id":1,"view":["\"],\"do\":\"edit"]}
watch \ä => {"do":"watch","id":1,"view":["\\ä"]}

# Edits by a body that is one JSON text, at a revision if one is named.
edit - [] => {"do":"edit","id":1,"patch":[]}
edit 0 [] => {"do":"edit","id":1,"base":0,"patch":[]}
edit 9007199254740991 [{"op": "add", "path": "/a", "value": -1.50E+3}] => {"do":"edit","id":1,"base":9007199254740991,"patch":[{"op":"add","path":"/a","value":-1.50E+3}]}
edit -   "a\u0041\/\u0001"   => {"do":"edit","id":1,"patch":"aA/\u0001"}
edit - null => {"do":"edit","id":1,"patch":null}
edit -  => nothing
edit - [],"base":0 => nothing
edit - []} => nothing
edit - [}] => nothing
edit - 1 2 => nothing
edit - "a => nothing
edit - \xff => nothing
edit - "\xff" => nothing

# Finds the value that a snapshot of one slot shows; an empty one stands for nothing.
shown 7 {"kind":"snapshot","rev":7,"view":[[{"a":[1]}]]} => {"a":[1]}
shown 7 {"kind":"snapshot","rev":7,"view":[[]]} => nothing
shown 0 {"kind":"snapshot","rev":0,"view":[[null]]} => null
shown 7 {"kind":"snapshot","rev":77,"view":[[1]]} => no snapshot
shown 77 {"kind":"snapshot","rev":7,"view":[[1]]} => no snapshot
shown 7 {"kind":"snapshot","rev":7,"view":[]} => no snapshot
shown 7 {"kind":"patch","patch":[],"rev":7} => no snapshot
shown 7  => no snapshot

# Tells what came of a request by the hub's reply.
outcome {"id":1,"kind":"done","rev":2} => Accepted
outcome {"id":1,"kind":"watching"} => Accepted
outcome {"at":null,"fault":"stale","id":1,"kind":"refused","rev":2} => Stale
outcome {"at":null,"fault":"too-long","id":null,"kind":"refused"} => Malformed
outcome_of_no_json => Malformed
outcome {"at":null,"fault":"not-json","id":null,"kind":"refused"} => Malformed
outcome {"at":null,"fault":"number","id":null,"kind":"refused"} => Malformed
outcome {"at":3,"fault":"shape","id":1,"kind":"refused"} => Malformed
outcome {"at":null,"fault":"too-many","id":1,"kind":"refused"} => Malformed
outcome {"at":3,"fault":"unknown-op","id":1,"kind":"refused"} => Malformed
outcome {"at":3,"fault":"pointer","id":1,"kind":"refused"} => Malformed
outcome {"at":3,"fault":"missing","id":1,"kind":"refused"} => Unprocessable
outcome {"at":3,"fault":"not-index","id":1,"kind":"refused"} => Unprocessable
outcome {"at":3,"fault":"past-end","id":1,"kind":"refused"} => Unprocessable
outcome {"at":3,"fault":"no-container","id":1,"kind":"refused"} => Unprocessable
outcome {"at":3,"fault":"root","id":1,"kind":"refused"} => Unprocessable
outcome {"at":3,"fault":"into-itself","id":1,"kind":"refused"} => Unprocessable
outcome {"at":3,"fault":"test-failed","id":1,"kind":"refused"} => Unprocessable
outcome {"at":3,"fault":"too-deep","id":1,"kind":"refused"} => Unprocessable
outcome {"at":3,"fault":"too-heavy","id":1,"kind":"refused"} => Unprocessable
outcome {"at":null,"fault":"exhausted","id":1,"kind":"refused"} => Unprocessable
"#;

#[test]
fn texts_are_said_and_heard(rt: HostRuntime) {
    play(&rt, &mut Texts, ROWS).expect(&rt, "each row holds");
}

/// The texts that are said, and those that are heard.
#[derive(Clone, Copy)]
struct Texts;

impl<R: AllocGlobal> Subject<R> for Texts {
    fn act(&mut self, rt: &R, act: &str) -> Option<String> {
        let alloc = rt.alloc();
        match cut(act) {
            ("watch", at) => watch_text(alloc, at).ok(),
            ("edit", rest) => said_edit(alloc, rest),
            ("shown", rest) => value_shown(alloc, rest),
            ("outcome", reply) => shown(alloc, outcome_of(reply)),
            ("outcome_of_no_json", _) => shown(alloc, outcome_of(NOT_JSON)),
            _ => None,
        }
    }
}

/// The edit at a revision, or at any for `-`, by a body, in which `\xff` stands for that byte.
fn said_edit(alloc: Global, rest: &str) -> Option<String> {
    let (base, body) = cut(rest);
    let mut bytes = Vec::new(alloc);
    for (place, part) in body.split(r"\xff").enumerate() {
        if place > 0 {
            bytes.push(0xff).ok()?;
        }
        bytes.extend_from_slice(part.as_bytes()).ok()?;
    }
    match edit_text(alloc, base.parse::<u64>().ok(), bytes.as_slice()).ok()? {
        Some(text) => Some(text),
        None => String::from_str(alloc, "nothing").ok(),
    }
}

fn value_shown(alloc: Global, rest: &str) -> Option<String> {
    let (rev, text) = cut(rest);
    let value = match shown_value(text, rev.parse::<u64>().ok()?) {
        None => "no snapshot",
        Some("") => "nothing",
        Some(value) => value,
    };
    String::from_str(alloc, value).ok()
}
