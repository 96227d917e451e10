//! The end of a link in each stage: from this side, or because its stream ends or fails.
use crate::links::play_anew;

/// The rows that lead to a stage, the row that ends the link, and that it stays ended.
const ROWS: &str = r#"
# Nothing has arrived yet.
end => Gone by Ended
writes well => Gone
end => Gone
idle => Gone

ends => Gone by Peer
writes well => Gone
end => Gone
idle => Gone

reads fail => Gone by Stream
writes well => Gone
end => Gone
idle => Gone

# A part of the head has arrived.
text GET /rooms/a => Head
end => Gone by Ended
writes well => Gone
end => Gone
idle => Gone

text GET /rooms/a => Head
ends => Gone by Peer
writes well => Gone
end => Gone
idle => Gone

text GET /rooms/a => Head
reads fail => Gone by Stream
writes well => Gone
end => Gone
idle => Gone

# The session is open, and the reply is not written yet.
writes not-ready => Head
asks 13 /rooms/a => open a; Head as 1
end => close 1; Gone by Ended
writes well => Gone
end => Gone
idle => Gone

writes not-ready => Head
asks 13 /rooms/a => open a; Head as 1
writes fail => close 1; Gone by Stream
writes well => Gone
end => Gone
idle => Gone

writes not-ready => Head
asks 13 /rooms/a => open a; Head as 1
writes end => close 1; Gone by Stream
writes well => Gone
end => Gone
idle => Gone

# The link is open.
asks 13 /rooms/a => open a; Open as 1 > switched
draws 0 => Open as 1
reads fail => close 1; Gone by Stream
writes well => Gone
end => Gone
idle => Gone

asks 13 /rooms/a => open a; Open as 1 > switched
draws 0 => Open as 1
reads end => close 1; Gone by Peer
writes well => Gone
end => Gone
idle => Gone

# The head of a frame has arrived, but not its mask.
asks 13 /rooms/a => open a; Open as 1 > switched
draws 0 => Open as 1
hex 81 85 => Open as 1
ends => close 1; Gone by Peer
writes well => Gone
end => Gone
idle => Gone

asks 13 /rooms/a => open a; Open as 1 > switched
draws 0 => Open as 1
hex 81 85 => Open as 1
reads fail => close 1; Gone by Stream
writes well => Gone
end => Gone
idle => Gone

# Output waits for the stream. The link tries once to send a close frame.
asks 13 /rooms/a => open a; Open as 1 > switched
writes not-ready => draw 1; draw 1; Open as 1
end => close 1; Gone by Ended
writes well => Gone
end => Gone
idle => Gone

# The link has sent its close.
asks 13 /rooms/a => open a; Open as 1 > switched
draws 0 => Open as 1
hex 82 81 00 00 00 00 78 => close 1; Closing by Binary > close 1003
end => Gone by Ended
writes well => Gone
end => Gone
idle => Gone

asks 13 /rooms/a => open a; Open as 1 > switched
draws 0 => Open as 1
hex 82 81 00 00 00 00 78 => close 1; Closing by Binary > close 1003
ends => Gone by Peer
writes well => Gone
end => Gone
idle => Gone

asks 13 /rooms/a => open a; Open as 1 > switched
draws 0 => Open as 1
hex 82 81 00 00 00 00 78 => close 1; Closing by Binary > close 1003
reads fail => Gone by Stream
writes well => Gone
end => Gone
idle => Gone

asks 13 /rooms/a => open a; Open as 1 > switched
draws 0 => Open as 1
hex 82 81 00 00 00 00 78 => close 1; Closing by Binary > close 1003
hex 81 01 78 => Gone by Broken
writes well => Gone
end => Gone
idle => Gone

# Requests that arrived before the end of the input are answered.
asks 13 /rooms/a => open a; Open as 1 > switched
draws 2 => draw 1; draw 1; Open as 1 > {"epoch":1,"kind":"welcome","rev":0,"session":1}
says {"do":"unwatch","id":7} => receive 1; draw 1; draw 1; Open as 1 > {"id":7,"kind":"unwatched"}
ends 81 80 00 00 00 00 => receive 1; draw 1; draw 1; Open as 1 > {"at":null,"fault":"not-json","id":null,"kind":"refused"}
idle => close 1; Gone by Peer
"#;

#[test]
fn ends_in_each_stage(rt: HostRuntime) {
    play_anew(&rt, ROWS);
}
