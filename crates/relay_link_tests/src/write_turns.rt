//! Read turns and write turns, what they cork, and whether a link is idle after a turn.
use crate::links::play_anew;

/// The input that arrives, the turn that reads it, and the turn that sends what came of it.
const ROWS: &str = r#"
# A write turn reads nothing: it draws what waits, and a request waits for the next turn.
asks 13 /rooms/a => open a; Open as 1 > switched
bring says {"do":"unwatch","id":7}
bring draws 0
tell => Open as 1
bring draws 32
tell => draw 1; draw 1; Open as 1 > {"epoch":1,"kind":"welcome","rev":0,"session":1}
bring draws 1
tell => draw 1; Open as 1
bring draws 32
idle => receive 1; draw 1; draw 1; Open as 1 > {"id":7,"kind":"unwatched"}

# A link is idle once it has read a head, or a message with nothing behind it. It is not if it was interrupted, or bytes behind a message
# were read: a second message, a part of one, or the headers of more frames than one, which count as such a part.
flags idle => idle
flags hex => idle
flags idle => idle
flags asks 13 /rooms/a => idle
flags draws 0 => idle
flags says {"do":"unwatch","id":7} => idle
flags draws 9 => idle
flags idle => idle
bring says {"do":"unwatch","id":7}
flags says {"do":"unwatch","id":7} => busy
flags idle => idle
flags idle => idle
bring says {"do":"unwatch","id":7}
flags hex 81 => busy
flags idle => idle
flags hex 80 00 00 00 00 => idle
flags hex 89 80 00 00 00 00 => idle
flags hex 01 80 00 00 00 00 80 80 00 00 00 00 => busy
flags idle => idle
flags says {"do":"unwatch","id":7} => busy
flags idle => idle
flags reads interrupt => busy

# Nor is one that found a close: the next turn learns that the connection is over.
asks 13 /rooms/a => open a; Open as 1 > switched
flags hex 88 80 00 00 00 00 => busy
look => Closing
idle => Gone by Peer

# The replies to two texts are sent by one write, in the write turn.
asks 13 /rooms/a => open a; Open as 1 > switched
idle => draw 1; draw 1; Open as 1 > {"epoch":1,"kind":"welcome","rev":0,"session":1}
2 bring says {"do":"unwatch","id":7}
hear => receive 1; draw 1; draw 1; Open as 1
flags look => busy, corked
hear => receive 1; draw 1; draw 1; Open as 1
flags look => idle, corked
count-writes => 2
tell => draw 1; Open as 1 > {"id":7,"kind":"unwatched"} > {"id":7,"kind":"unwatched"}
count-writes => 1
flags look => idle

# A link that ends sends its corked output first.
asks 13 /rooms/a => open a; Open as 1 > switched
idle => draw 1; draw 1; Open as 1 > {"epoch":1,"kind":"welcome","rev":0,"session":1}
bring says {"do":"unwatch","id":7}
bring hex 88 82 00 00 00 00 03 e8
hear => receive 1; draw 1; draw 1; Open as 1
hear => close 1; Closing by Peer > {"id":7,"kind":"unwatched"} > close 1000

asks 13 /rooms/a => open a; Open as 1 > switched
idle => draw 1; draw 1; Open as 1 > {"epoch":1,"kind":"welcome","rev":0,"session":1}
bring says {"do":"unwatch","id":7}
bring hex 82 81 00 00 00 00 78
hear => receive 1; draw 1; draw 1; Open as 1
hear => close 1; Closing by Binary > {"id":7,"kind":"unwatched"} > close 1003

asks 13 /rooms/a => open a; Open as 1 > switched
idle => draw 1; draw 1; Open as 1 > {"epoch":1,"kind":"welcome","rev":0,"session":1}
bring says {"do":"unwatch","id":7}
bring hex 81 01 78
hear => receive 1; draw 1; draw 1; Open as 1
hear => close 1; Gone by Broken > {"id":7,"kind":"unwatched"}

asks 13 /rooms/a => open a; Open as 1 > switched
idle => draw 1; draw 1; Open as 1 > {"epoch":1,"kind":"welcome","rev":0,"session":1}
bring says {"do":"unwatch","id":7}
bring ends
hear => receive 1; draw 1; draw 1; Open as 1
hear => close 1; Gone by Peer > {"id":7,"kind":"unwatched"}

# If the stream is not writable, uncorked output stays pending as other output does, and nothing more is read.
asks 13 /rooms/a => open a; Open as 1 > switched
idle => draw 1; draw 1; Open as 1 > {"epoch":1,"kind":"welcome","rev":0,"session":1}
bring says {"do":"unwatch","id":7}
bring writes not-ready
hear => receive 1; draw 1; draw 1; Open as 1
hear => draw 1; Open as 1
tell => draw 1; Open as 1
bring says {"do":"unwatch","id":7}
hear => Open as 1
bring writes well
hear => receive 1; draw 1; draw 1; Open as 1 > {"id":7,"kind":"unwatched"}
hear => draw 1; Open as 1
tell => draw 1; Open as 1 > {"id":7,"kind":"unwatched"}
flags look => idle

# A request of 65,536 bytes, whose frame has a length of eight bytes (RFC 6455, section 5.2).
enter
pads 65536 {"do":"unwatch","id":7} => receive 1; Open as 1
draws 9 => draw 1; draw 1; draw 1; Open as 1 > {"epoch":1,"kind":"welcome","rev":0,"session":1} > {"id":7,"kind":"unwatched"}
"#;

#[test]
fn turns_read_and_write(rt: HostRuntime) {
    play_anew(&rt, ROWS);
}
