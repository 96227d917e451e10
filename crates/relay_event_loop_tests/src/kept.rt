//! Servers that tell only what is kept.
use crate::clients::play_anew;

/// The acts of the streams of two clients, and the outcome of the rounds.
const ROWS: &str = r#"
# What a round heard is told in the same round, once it is kept.
keeps done
enters
watches
joins
3 wire 1 says {"do":"edit","id":2,"patch":[{"op":"add","path":"","value":7}]}
readable 1
round => 2 sleeps, 0r1w patch patch patch, 1r1w done done done
round => 2 sleeps, 0r0w, 0r0w

# Nobody is told while there is no memory to keep it, and then all are. The hub gave memory back meanwhile, so the patch became a snapshot.
enters
watches
joins
keeps later
send 1 says {"do":"edit","id":2,"patch":[{"op":"add","path":"","value":7}]}
round => 2 sleeps, 0r0w, 1r0w
2 round => 2, 0r0w, 0r0w
keeps done
round => 2, 0r1w snapshot, 0r1w done
round => 2 sleeps, 0r0w, 0r0w

# Whoever closes behind its edit gets no reply to it.
enters
keeps later
wire 0 says {"do":"edit","id":2,"patch":[{"op":"add","path":"","value":7}]}
send 0 hex 88 82 00 00 00 00 03 e8
round => 1 sleeps, 1r1w close, 0r0w

# A commit that takes more than a second is logged. A call that found nothing to keep is no commit, however long it looked.
enters
keeps unchanged
turns-take 1000001
round => 1 sleeps, 0r0w, 0r0w
log => event=opened peer=127.0.0.1:1 link=0 session=1 room=r\n
keeps done
turns-take 1000000
round => 1 sleeps, 0r0w, 0r0w
log => event=opened peer=127.0.0.1:1 link=0 session=1 room=r\n
turns-take 1999999
round => 1 sleeps, 0r0w, 0r0w
log => event=opened peer=127.0.0.1:1 link=0 session=1 room=r\nevent=slow-commit millis=1999\n

# One that fails is logged once, since nothing is kept after it; one for which there is no memory is not, but that memory was refused.
enters
keeps later
round => 1 sleeps, 0r0w, 0r0w
log => event=opened peer=127.0.0.1:1 link=0 session=1 room=r\nevent=out-of-memory\n
keeps lost
2 round => 1 sleeps, 0r0w, 0r0w
log => event=opened peer=127.0.0.1:1 link=0 session=1 room=r\nevent=out-of-memory\nevent=commit-failed\n

# Once nothing can be kept any more nobody is told anything.
enters
watches
joins
keeps lost
send 1 says {"do":"edit","id":2,"patch":[{"op":"add","path":"","value":7}]}
round => 2 sleeps, 0r0w, 1r0w
keeps done
round => 2, 0r0w, 0r0w
"#;

#[test]
fn nobody_is_told_what_is_not_kept(rt: HostRuntime) {
    play_anew(&rt, ROWS);
}
