//! A link beside other sessions of the same hub.
use crate::links::play_anew;

/// The acts of a link, and the outcome of a session beside it.
const ROWS: &str = r#"
# The outbox of a watcher that never reads stays bounded, and the other session keeps working.
hub 4
asks 13 /rooms/a => open a; Open as 1 > switched
join
beside draws 0 => Open as 1, done: true, few wait: true
beside says {"do":"watch","id":1,"view":[""]} => receive 1; Open as 1, done: true, few wait: true
beside writes not-ready => Open as 1, done: true, few wait: true
beside draws 32 => draw 1; draw 1; draw 1; draw 1; Open as 1, done: true, few wait: true
999 beside idle => Open as 1, done: true, few wait: true

# A link that dies leaves the other.
asks 13 /rooms/a => open a; Open as 1 > switched
other
asks 13 /rooms/a => open a; Open as 2 > switched
other
writes fail => draw 1; draw 1; close 1; Gone by Stream
idle => Gone
other
says {"do":"edit","id":7,"patch":[]} => receive 2; draw 2; draw 2; draw 2; Open as 2 > {"epoch":1,"kind":"welcome","rev":0,"session":2} > {"id":7,"kind":"done","rev":1}
"#;

#[test]
fn leaves_the_others_alone(rt: HostRuntime) {
    play_anew(&rt, ROWS);
}
