//! The frames that an open link receives (RFC 6455, section 5). All masks of the client are zeros.
use crate::links::play_anew;

/// The bytes that arrive at an open link, and what the link makes of it. The sections are those of
/// RFC 6455.
const ROWS: &str = r#"
# A binary message closes the link.
enter
hex 82 81 00 00 00 00 78 => close 1; Closing by Binary > close 1003
15 idle => Closing
idle => Gone by Silent
idle => Gone

# A close is answered.
enter
hex 89 80 00 00 00 00 88 82 00 00 00 00 03 e8 => Open as 1 > pong
idle => close 1; Closing by Peer > close 1000
idle => Gone by Peer

# A closing link drops the messages before the other side's close.
enter
hex 82 81 00 00 00 00 78 => close 1; Closing by Binary > close 1003
says {} => Closing
hex 88 82 00 00 00 00 03 e8 => Closing
idle => Gone by Peer

# A link ends where the other side does: between frames, in a head, in a payload, and by a close.
enter
ends => close 1; Gone by Peer

enter
ends 81 => close 1; Gone by Peer

enter
ends 81 82 00 00 00 00 78 => close 1; Gone by Peer

enter
hex 88 82 00 00 00 00 03 e8 => close 1; Closing by Peer > close 1000

# A ping is answered, and a pong is not.
enter
hex 8a 80 00 00 00 00 => Open as 1
hex 89 80 00 00 00 00 => Open as 1 > pong
idle => Open as 1

# Fragments are joined. A character may be cut in two, and a ping may come between the fragments.
enter
hex 01 82 00 00 00 00 22 c3 => Open as 1
hex 89 80 00 00 00 00 => Open as 1 > pong
hex 80 82 00 00 00 00 a9 22 => receive 1; Open as 1
draws 9 => draw 1; draw 1; draw 1; Open as 1 > {"epoch":1,"kind":"welcome","rev":0,"session":1} > {"at":null,"fault":"shape","id":null,"kind":"refused"}

# A frame without a mask ends the link (section 5.1).
enter
hex 81 01 78 => close 1; Gone by Broken
idle => Gone

# A continuation without a first fragment, and a message inside another (section 5.4).
enter
hex 80 81 00 00 00 00 78 => close 1; Gone by Broken
idle => Gone

enter
hex 01 81 00 00 00 00 78 81 81 00 00 00 00 78 => close 1; Gone by Broken
idle => Gone

# A close with half a status code (section 5.5.1).
enter
hex 88 81 00 00 00 00 03 => close 1; Gone by Broken
idle => Gone

# Reserved bits, and reserved opcodes of messages and of control frames (section 5.2).
enter
hex c1 81 00 00 00 00 78 => close 1; Gone by Broken
idle => Gone

enter
hex 83 81 00 00 00 00 78 => close 1; Gone by Broken
idle => Gone

enter
hex 8b 80 00 00 00 00 => close 1; Gone by Broken
idle => Gone

enter
hex 91 81 00 00 00 00 78 => close 1; Gone by Broken

enter
hex a1 81 00 00 00 00 78 => close 1; Gone by Broken

enter
hex 84 81 00 00 00 00 78 => close 1; Gone by Broken

enter
hex 85 81 00 00 00 00 78 => close 1; Gone by Broken

enter
hex 86 81 00 00 00 00 78 => close 1; Gone by Broken

enter
hex 87 81 00 00 00 00 78 => close 1; Gone by Broken

enter
hex 8c 81 00 00 00 00 78 => close 1; Gone by Broken

enter
hex 8d 81 00 00 00 00 78 => close 1; Gone by Broken

enter
hex 8e 81 00 00 00 00 78 => close 1; Gone by Broken

enter
hex 8f 81 00 00 00 00 78 => close 1; Gone by Broken

# A close, a ping and a pong in fragments, and of 126 bytes, by a length of two bytes or of eight (section 5.5).
enter
hex 08 80 00 00 00 00 => close 1; Gone by Broken

enter
bring hex 88 fe 00 7e 00 00 00 00
fills 126 => close 1; Gone by Broken
idle => Gone

enter
bring hex 88 ff 00 00 00 00 00 00 00 7e 00 00 00 00
fills 126 => close 1; Gone by Broken

enter
hex 09 80 00 00 00 00 => close 1; Gone by Broken
idle => Gone

enter
bring hex 89 fe 00 7e 00 00 00 00
fills 126 => close 1; Gone by Broken
idle => Gone

enter
bring hex 89 ff 00 00 00 00 00 00 00 7e 00 00 00 00
fills 126 => close 1; Gone by Broken

enter
hex 0a 80 00 00 00 00 => close 1; Gone by Broken

enter
bring hex 8a fe 00 7e 00 00 00 00
fills 126 => close 1; Gone by Broken
idle => Gone

enter
bring hex 8a ff 00 00 00 00 00 00 00 7e 00 00 00 00
fills 126 => close 1; Gone by Broken

# A text that is not UTF-8 (section 8.1): no character, half a character, and in the reason of a close.
enter
hex 81 81 00 00 00 00 ff => close 1; Gone by Broken

enter
hex 81 81 00 00 00 00 c3 => close 1; Gone by Broken

enter
hex 88 83 00 00 00 00 03 e8 ff => close 1; Gone by Broken

# A character that is cut by the end of a fragment goes on in the next one, or the text is not UTF-8.
enter
hex 01 82 00 00 00 00 22 c3 => Open as 1
hex 80 81 00 00 00 00 78 => close 1; Gone by Broken

enter
hex 01 82 00 00 00 00 22 c3 => Open as 1
hex 80 80 00 00 00 00 => close 1; Gone by Broken

enter
hex 01 82 00 00 00 00 22 c3 => Open as 1
hex 00 81 00 00 00 00 c3 => close 1; Gone by Broken

# The length that a frame announces decides: 1,056,768 bytes are accepted, and one more is not.
enter
hex 81 ff 00 00 00 00 00 10 20 00 00 00 00 00 => Open as 1

enter
hex 81 ff 00 00 00 00 00 10 20 01 00 00 00 00 => close 1; Gone by Broken

enter
hex 81 ff 7f ff ff ff ff ff ff ff 00 00 00 00 => close 1; Gone by Broken

# A close code that no frame may carry is answered by 1002, a protocol error (section 7.4.1).
enter
hex 88 82 00 00 00 00 00 00 => close 1; Closing by Peer > close 1002 with a reason

enter
hex 88 82 00 00 00 00 03 e7 => close 1; Closing by Peer > close 1002 with a reason

enter
hex 88 82 00 00 00 00 03 ec => close 1; Closing by Peer > close 1002 with a reason

enter
hex 88 82 00 00 00 00 03 ed => close 1; Closing by Peer > close 1002 with a reason

enter
hex 88 82 00 00 00 00 03 ee => close 1; Closing by Peer > close 1002 with a reason

enter
hex 88 82 00 00 00 00 03 f7 => close 1; Closing by Peer > close 1002 with a reason
"#;

#[test]
fn answers_or_ends_at_each_frame(rt: HostRuntime) {
    play_anew(&rt, ROWS);
}
