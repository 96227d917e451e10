//! Many connections of one server.
use crate::clients::play_anew;

/// The connections that a server holds. Those of one wire open a session each, and those of another
/// send nothing.
const ROWS: &str = r#"
# 400 silent connections do not keep out a client that sends its handshake, and no connection with a session is ended for it.
255 enter 0
400 arrive 1
enter 0
connections => 320
logs  session=256 room=r\n => true
logs event=evicted peer=127.0.0.1:1 link=255 rounds=65\n => true
logs event=evicted peer=127.0.0.1:1 link=0  => false
logs event=evicted peer=127.0.0.1:1 link=254  => false
logs event=ended => false
logs event=refused => false

# Nor do they take the place of one that sends its head slowly, though it came before them.
255 enter 0
connect 2
wire 2 text GET /rooms/s HTTP
rounds 1
400 arrive 1
wire 2 line /1.1
wire 2 line Host: localhost
wire 2 line Upgrade: websocket
wire 2 line Connection: Upgrade
wire 2 line Sec-WebSocket-Key: dGhlIHNhbXBsZSBub25jZQ==
wire 2 line Sec-WebSocket-Version: 13
wire 2 hex 0d 0a
readable 255
rounds 2
logs  session=256 room=s\n => true

# An address has as many connections as it may, and the others are rejected as they come.
per-peer 2
enter 0
2 connect 1
rounds 1
connections => 2
logs event=rejected peer=127.0.0.1:1 cause=per-peer\n => true

# Sessions that only watch do not take the last quarter of those that may be, and begin no room.
server sessions=4
connect 1
wire 1 asks 13 /rooms/r/watch
rounds 2
logs status=404\n => true
enter 0
connect 3
wire 3 asks 13 /rooms/r/watch
rounds 2
connect 4
wire 4 asks 13 /rooms/r/watch
rounds 2
logs  session=3 room=r\n => true
connect 5
wire 5 asks 13 /rooms/r/watch
rounds 2
logs status=503 cause=sessions\n => true
enter 6
logs  session=4 room=r\n => true

# Pages of another origin are kept out.
only https://example.org
connect 1
wire 1 asks 13 /rooms/r https://example.com
rounds 2
logs status=403\n => true

# Of twelve waiting connections a round accepts eight, and the next round accepts the others.
12 connect 1
rounds 1
connections => 8
rounds 1
connections => 12
rounds 1
connections => 12
"#;

#[test]
fn many_connections_keep_nobody_out(rt: HostRuntime) {
    play_anew(&rt, ROWS);
}
