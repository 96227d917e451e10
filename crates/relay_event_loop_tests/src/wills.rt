//! The outcome of the will of a session that ends.
use crate::clients::play_anew;

/// The edits that clients leave to be done, and what the others are told of them.
const ROWS: &str = r#"
# A session whose stream breaks off leaves its will, of which a watcher is told in the same round.
enters
watches
joins
send 1 says {"do":"will","id":1,"patch":[{"op":"add","path":"","value":7}]}
round => 2 sleeps, 0r0w, 1r1w
wire 1 reads fail
wire 1 writes fail
readable 1
round => 1 sleeps, 0r1w patch, 1r0w
round => 1 sleeps, 0r0w, 0r0w

# So does one that closes in order.
enters
watches
joins
send 1 says {"do":"will","id":1,"patch":[{"op":"add","path":"","value":7}]}
round => 2 sleeps, 0r0w, 1r1w
send 1 hex 88 82 00 00 00 00 03 e8
round => 2 sleeps, 0r1w patch, 1r1w close
round => 1, 0r0w, 0r0w

# One that ends without a will leaves nothing.
enters
watches
joins
wire 1 ends
over 1
round => 1 sleeps, 0r0w, 1r0w

# Two wills are done in the order in which the sessions ended.
each 3 enter
send 0 says {"do":"watch","id":1,"view":[""]}
send 1 says {"do":"will","id":1,"patch":[{"op":"add","path":"","value":["first"]}]}
send 2 says {"do":"will","id":1,"patch":[{"op":"add","path":"/-","value":"second"}]}
rounds 2
clear 0
wire 1 ends
over 1
rounds 1
wire 2 ends
over 2
rounds 2
connections => 1
count 0 "patch":[{"op":"replace","path":"/0","value":[["first"]]}] => 1

# A will that the room refuses tells nobody anything, and the next one is done.
each 3 enter
send 0 says {"do":"watch","id":1,"view":[""]}
send 1 says {"do":"will","id":1,"patch":[{"op":"test","path":"","value":1}]}
send 2 says {"do":"will","id":1,"patch":[{"op":"add","path":"","value":"second"}]}
rounds 2
clear 0
wire 1 ends
over 1
wire 2 ends
over 2
rounds 3
count 0 "kind":"patch" => 1

# Many wills of a room at once fold no watcher that keeps up: more rounds are made.
server waiting=4
each 19 enter
send 18 says {"do":"watch","id":1,"view":[""]}
each 18 send says {"do":"will","id":1,"patch":[{"op":"add","path":"","value":7}]}
rounds 3
clear 18
each 18 wire ends
each 18 over
rounds 40
connections => 1
count 18 "kind":"patch" => 18

# A will that is done is an edit like others: its room makes no place for another one.
server rooms=1
enters
send 0 says {"do":"will","id":1,"patch":[{"op":"add","path":"","value":7}]}
rounds 1
wire 0 ends
over 0
rounds 1
connect 1
wire 1 asks 13 /rooms/s
rounds 1
count 1 HTTP/1.1 503 => 1
"#;

#[test]
fn wills_are_done_when_sessions_end(rt: HostRuntime) {
    play_anew(&rt, ROWS);
}
