//! The reads and writes of a round, and the times at which it sleeps.
use crate::clients::play_anew;

/// The acts of the streams of two clients, and the outcome of the rounds.
const ROWS: &str = r#"
# A server sleeps where there is nothing to do.
enters
watches
joins
3 round => 2 sleeps, 0r0w, 0r0w

round => 0, 0r0w, 0r0w
3 round => 0 sleeps, 0r0w, 0r0w

# The patches of three edits are sent to a watcher by one write, without a read of its stream; also if it was sent patches just before.
enters
watches
joins
3 wire 1 says {"do":"edit","id":2,"patch":[{"op":"add","path":"","value":7}]}
readable 1
round => 2 sleeps, 0r1w patch patch patch, 1r1w done done done
3 wire 1 says {"do":"edit","id":2,"patch":[{"op":"add","path":"","value":7}]}
readable 1
round => 2 sleeps, 0r1w patch patch patch, 1r1w done done done
round => 2 sleeps, 0r0w, 0r0w

# If two patches may wait, a round reads one text, and no outbox folds.
server waiting=2
enters
watches
round => 1 sleeps, 0r0w, 0r0w
joins
3 wire 1 says {"do":"edit","id":2,"patch":[{"op":"add","path":"","value":7}]}
readable 1
round => 2 sleeps, 0r1w patch, 1r1w done
2 round => 2, 0r1w patch, 0r1w done
round => 2 sleeps, 0r0w, 0r0w

# If waiting patches may weigh 100, a round reads no other text after one of 50 bytes.
server waiting=32 waiting-weight=100
enters
watches
joins
3 wire 1 says {"do":"edit","id":2,"patch":[{"op":"add","path":"","value":7}]}
readable 1
round => 2 sleeps, 0r1w patch, 1r1w done
2 round => 2, 0r1w patch, 0r1w done
round => 2 sleeps, 0r0w, 0r0w

# The reply to a text is sent before later bytes of the same segment end the link.
enters
wire 0 says {"do":"edit","id":2,"patch":[{"op":"add","path":"","value":7}]}
send 0 hex 81 01 78
round => 0 sleeps, 1r1w done, 0r0w

enters
wire 0 says {"do":"edit","id":2,"patch":[{"op":"add","path":"","value":7}]}
send 0 hex 88 82 00 00 00 00 03 e8
round => 1 sleeps, 1r1w done close, 0r0w
round => 0, 0r0w, 0r0w

# The end behind the last text is read in the same round, although no event tells of it alone.
enters
wire 0 says {"do":"edit","id":2,"patch":[{"op":"add","path":"","value":7}]}
wire 0 ends
over 0
round => 0 sleeps, 2r1w done, 0r0w

# The end behind a ping is read in the next one.
enters
wire 0 hex 89 80 00 00 00 00
wire 0 ends
over 0
round => 1 sleeps, 1r1w, 0r0w
round => 0, 1r0w, 0r0w

# A watcher whose stream is full is written to again once it is writable.
enters
watches
joins
wire 0 writes not-ready
send 1 says {"do":"edit","id":2,"patch":[{"op":"add","path":"","value":7}]}
round => 2 sleeps, 0r1w, 1r1w done
2 round => 2 sleeps, 0r0w, 0r0w
send 1 says {"do":"edit","id":2,"patch":[{"op":"add","path":"","value":7}]}
round => 2 sleeps, 0r0w, 1r1w done
wire 0 writes well
2 round => 2 sleeps, 0r0w, 0r0w
writable 0
round => 2 sleeps, 0r2w patch patch, 0r0w
round => 2 sleeps, 0r0w, 0r0w

# Events that are spurious, that repeat, or that name no connection do no harm.
enters
watches
joins
2 readable 0
round => 2 sleeps, 1r0w, 0r0w
2 writable 0
readable 7
readable 18446744073709551615
round => 2 sleeps, 0r0w, 0r0w

# A stream fails while it is read or written. Later events of it do no harm, even if another connection has its key.
enters
watches
joins
wire 1 reads fail
wire 1 writes fail
readable 1
round => 1 sleeps, 0r0w, 1r0w
readable 1
round => 1 sleeps, 0r0w, 0r0w

enters
watches
joins
wire 0 reads fail
wire 0 writes fail
send 1 says {"do":"edit","id":2,"patch":[{"op":"add","path":"","value":7}]}
round => 1 sleeps, 0r1w, 1r1w done

enters
wire 0 reads fail
wire 0 writes fail
readable 0
round => 0 sleeps, 1r0w, 0r0w
connect 1
wire 1 asks 13 /rooms/r
readable 0
round => 1 sleeps, 0r0w, 1r2w 101 welcome

# If a wait fails, everything counts as ready, in that round only.
enters
watches
joins
wire 1 says {"do":"edit","id":2,"patch":[{"op":"add","path":"","value":7}]}
wait-fails
round => 2 sleeps, 1r1w patch, 2r1w done
round => 2 sleeps, 0r0w, 0r0w

# An event that exceeds the capacity comes with the next round, in which nothing else is new. If it is lost, everything counts as ready.
enters
watches
joins
wire 0 says {"do":"edit","id":2,"patch":[{"op":"add","path":"","value":7}]}
wire 1 says {"do":"edit","id":2,"patch":[{"op":"add","path":"","value":7}]}
readable 0
readable 1
capacity 1
round => 2 sleeps, 1r1w done patch, 0r0w
round => 2 sleeps, 0r1w patch, 1r1w done
round => 2 sleeps, 0r0w, 0r0w

enters
watches
joins
wire 0 says {"do":"edit","id":2,"patch":[{"op":"add","path":"","value":7}]}
wire 1 says {"do":"edit","id":2,"patch":[{"op":"add","path":"","value":7}]}
readable 0
readable 1
capacity 1
wait-fails
round => 2 sleeps, 2r1w done patch patch, 2r1w done
round => 2 sleeps, 0r0w, 0r0w

# A closing link gets a turn when its peer sent something, or when a wait has passed without events.
enters
watches
joins
send 1 hex 82 81 00 00 00 00 78
round => 2 sleeps, 0r0w, 1r1w unsupported
8 round => 2 sleeps, 0r0w, 0r0w
readable 0
round => 2 sleeps, 1r0w, 0r0w
7 round => 2 sleeps, 0r0w, 0r0w
round => 1 sleeps, 0r0w, 0r0w

enters
watches
joins
send 1 hex 82 81 00 00 00 00 78
round => 2 sleeps, 0r0w, 1r1w unsupported
send 1 hex 88 82 00 00 00 00 03 e8
round => 2 sleeps, 0r0w, 1r0w
round => 1, 0r0w, 0r0w
"#;

#[test]
fn a_round_does_what_is_ready(rt: HostRuntime) {
    play_anew(&rt, ROWS);
}
