//! Streams that interrupt, that move one byte at a time, or that never end.
use crate::links::play_anew;

/// The acts of a stream, and that each turn ends.
const ROWS: &str = r#"
# Writes that are interrupted hang no turn.
writes interrupt => Head
asks 13 /rooms/a => open a; Head as 1
9 idle => Head as 1
writes well => Open as 1 > switched
writes interrupt => draw 1; draw 1; Open as 1
9 idle => Open as 1
writes well => draw 1; Open as 1 > {"epoch":1,"kind":"welcome","rev":0,"session":1}

# Reads that are interrupted hang no turn.
reads interrupt => Head
asks 13 /rooms/a => Head
1000 idle => Head
reads well => open a; Open as 1 > switched
draws 0 => Open as 1
reads interrupt => Open as 1
hex 88 82 00 00 00 00 03 e8 => Open as 1
1000 idle => Open as 1
reads well => close 1; Closing by Peer > close 1000

# A closing link waits 16 turns. A stream that interrupts forever counts as silent, as one that is never ready.
enter
hex 82 81 00 00 00 00 78 => close 1; Closing by Binary > close 1003
reads interrupt => Closing
14 idle => Closing
hex 88 82 00 00 00 00 03 e8 => Gone by Silent

enter
hex 82 81 00 00 00 00 78 => close 1; Closing by Binary > close 1003
reads not-ready => Closing
14 idle => Closing
hex 88 82 00 00 00 00 03 e8 => Gone by Silent

# A flood ends a turn, which asks for at most 160 KiB: 128 reads of 1,280 bytes.
enter
reads one-byte => Open as 1
hex 81 fe 02 00 00 00 00 00 => Open as 1
fills 512 => Open as 1
2 idle => Open as 1
idle => receive 1; Open as 1

# Once a read was filled, the next text of 16 KiB takes two reads in place of thirteen.
enter
count-reads => 1
hex 81 fe 40 00 00 00 00 00 => Open as 1
count-reads => 2
fills 16384 => receive 1; Open as 1
count-reads => 13
hex 81 fe 40 00 00 00 00 00 => Open as 1
count-reads => 2
fills 16384 => receive 1; Open as 1
count-reads => 2

# While 32 replies wait, nothing is read.
enter
31 says {"do":"unwatch","id":1} => receive 1; Open as 1
says {"do":"unwatch","id":2} => Open as 1
9 idle => Open as 1
draws 1 => draw 1; Open as 1 > {"epoch":1,"kind":"welcome","rev":0,"session":1}
idle => receive 1; draw 1; Open as 1 > {"id":1,"kind":"unwatched"}
"#;

#[test]
fn no_stream_hangs_a_turn(rt: HostRuntime) {
    play_anew(&rt, ROWS);
}

/// Each write takes one byte. `tests/refuse-allocations` refuses each allocation of this test in
/// turn.
const BY_BYTES: &str = r#"
writes one-byte => Head
asks 13 /rooms/a => open a; Open as 1 > switched
says {"do":"watch","id":1,"view":[""]} => receive 1; draw 1; draw 1; draw 1; draw 1; Open as 1 > {"epoch":1,"kind":"welcome","rev":0,"session":1} > {"id":1,"kind":"watching"} > {"kind":"snapshot","rev":0,"view":[[null]]}
hex 88 82 00 00 00 00 03 e8 => close 1; Closing by Peer > close 1000
"#;

#[test]
fn writes_a_byte_at_a_time(rt: HostRuntime) {
    play_anew(&rt, BY_BYTES);
}
