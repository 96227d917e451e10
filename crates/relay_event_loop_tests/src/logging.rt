//! The log: which entries a connection's life makes, and what they say.
use crate::clients::play_anew;

/// The acts, and the lines of the log, each with its end, `\n`.
const ROWS: &str = r#"
# A line for each opening, each refusal and each end, which names the session and the room again.
enters
connect 1
wire 1 asks 13 /nowhere
round => 1 sleeps, 0r0w, 1r1w
send 0 hex 82 81 00 00 00 00 78
round => 1 sleeps, 1r1w unsupported, 0r0w
send 0 hex 88 82 00 00 00 00 03 e8
round => 1 sleeps, 1r0w, 0r0w
round => 0, 0r0w, 0r0w
log => event=opened peer=127.0.0.1:1 link=0 session=1 room=r\nevent=refused peer=127.0.0.1:1 link=1 status=404\nevent=ended peer=127.0.0.1:1 link=0 session=1 room=r cause=binary rounds=3\n

# A refusal with 503 names the limit that was reached.
server sessions=1
enters
connect 1
wire 1 asks 13 /rooms/r
round => 1 sleeps, 0r0w, 1r1w 503
log => event=opened peer=127.0.0.1:1 link=0 session=1 room=r\nevent=refused peer=127.0.0.1:1 link=1 status=503 cause=sessions\n

server sessions=1
enters
connect 1
wire 1 asks 13 /rooms/s
round => 1 sleeps, 0r0w, 1r1w 503
log => event=opened peer=127.0.0.1:1 link=0 session=1 room=r\nevent=refused peer=127.0.0.1:1 link=1 status=503 cause=sessions\n

# So does one whose reply comes later, since the stream takes nothing.
server sessions=1
enters
connect 1
wire 1 asks 13 /rooms/r
wire 1 writes not-ready
round => 2 sleeps, 0r0w, 1r1w
wire 1 writes well
writable 1
round => 1 sleeps, 0r0w, 0r1w 503
log => event=opened peer=127.0.0.1:1 link=0 session=1 room=r\nevent=refused peer=127.0.0.1:1 link=1 status=503 cause=sessions\n

# While no client may enter, who comes is refused, and who is in stays. Later others may enter.
enters
closed
connect 1
wire 1 asks 13 /rooms/r
round => 1 sleeps, 0r0w, 1r1w 503
send 0 says {"do":"edit","id":2,"patch":[]}
round => 1 sleeps, 1r1w done, 0r0w
opened
connect 1
wire 1 asks 13 /rooms/r
round => 2 sleeps, 0r0w, 1r2w 101 welcome
log => event=opened peer=127.0.0.1:1 link=0 session=1 room=r\nevent=refused peer=127.0.0.1:1 link=1 status=503 cause=closed\nevent=opened peer=127.0.0.1:1 link=1 session=2 room=r\n

# A closed server that is full says that it is closed.
server sessions=1
enters
closed
connect 1
wire 1 asks 13 /rooms/r
round => 1 sleeps, 0r0w, 1r1w 503
log => event=opened peer=127.0.0.1:1 link=0 session=1 room=r\nevent=refused peer=127.0.0.1:1 link=1 status=503 cause=closed\n

server rooms=1
enters
connect 1
wire 1 asks 13 /rooms/s
round => 1 sleeps, 0r0w, 1r1w 503
log => event=opened peer=127.0.0.1:1 link=0 session=1 room=r\nevent=refused peer=127.0.0.1:1 link=1 status=503 cause=rooms\n
"#;

#[test]
fn logs_its_connections(rt: HostRuntime) {
    play_anew(&rt, ROWS);
}
