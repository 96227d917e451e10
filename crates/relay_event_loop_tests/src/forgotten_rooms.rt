//! The rooms that are forgotten, so that another one has a place.
use crate::clients::play_anew;

/// Rooms that are taken, and who finds a place.
const ROWS: &str = r#"
# If all places are taken by rooms that have documents, a client of another room is refused.
server rooms=1
enters
send 0 says {"do":"edit","id":2,"patch":[{"op":"add","path":"","value":7}]}
rounds 1
wire 0 ends
over 0
rounds 1
connect 1
wire 1 asks 13 /rooms/s
rounds 1
count 1 HTTP/1.1 503 => 1

# A server that forgets rooms then forgets the one in which nobody is, and the next one who asks
# finds a place.
server rooms=1
forget-rooms
enters
send 0 says {"do":"edit","id":2,"patch":[{"op":"add","path":"","value":7}]}
rounds 1
wire 0 ends
over 0
rounds 1
connect 1
wire 1 asks 13 /rooms/s
rounds 1
count 1 HTTP/1.1 503 => 1
connect 2
wire 2 asks 13 /rooms/s
rounds 1
count 2 "kind":"welcome" => 1

# It forgets none as long as nobody asks for another.
server rooms=1
forget-rooms
enters
send 0 says {"do":"edit","id":2,"patch":[{"op":"add","path":"","value":7}]}
rounds 1
wire 0 ends
over 0
rounds 3
connect 1
wire 1 asks 13 /rooms/r
rounds 1
count 1 "rev":1 => 1

# It forgets none in which a session is.
server rooms=1
forget-rooms
enters
send 0 says {"do":"edit","id":2,"patch":[{"op":"add","path":"","value":7}]}
rounds 1
connect 1
wire 1 asks 13 /rooms/s
rounds 2
count 1 HTTP/1.1 503 => 1
connect 2
wire 2 asks 13 /rooms/s
rounds 2
count 2 HTTP/1.1 503 => 1

# It forgets none that has a document if there is one that has none: s makes room for t.
server rooms=2
forget-rooms
enters
send 0 says {"do":"edit","id":2,"patch":[{"op":"add","path":"","value":7}]}
connect 1
wire 1 asks 13 /rooms/s
rounds 2
wire 0 ends
over 0
wire 1 ends
over 1
rounds 1
connect 2
wire 2 asks 13 /rooms/t
rounds 1
count 2 "kind":"welcome" => 1
connect 3
wire 3 asks 13 /rooms/r
rounds 1
count 3 "rev":1 => 1

# It forgets the one that was left first, also if the other was left in the same second: s, so t
# has its place, and r is as it was.
server rooms=2
forget-rooms
enters
send 0 says {"do":"edit","id":2,"patch":[{"op":"add","path":"","value":7}]}
connect 1
wire 1 asks 13 /rooms/s
rounds 2
send 1 says {"do":"edit","id":2,"patch":[{"op":"add","path":"","value":7}]}
rounds 1
wire 1 ends
over 1
rounds 1
wire 0 ends
over 0
rounds 1
connect 2
wire 2 asks 13 /rooms/t
rounds 1
count 2 HTTP/1.1 503 => 1
connect 3
wire 3 asks 13 /rooms/t
rounds 1
count 3 "kind":"welcome" => 1
connect 4
wire 4 asks 13 /rooms/r
rounds 1
count 4 "rev":1 => 1
"#;

#[test]
fn a_room_is_forgotten_when_another_finds_no_place(rt: HostRuntime) {
    play_anew(&rt, ROWS);
}
