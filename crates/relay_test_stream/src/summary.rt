//! The output of a relay, in brief: a word for each reply and message.
use std::alloc::AllocError;

/// The bytes that a reply or a message has somewhere, and the word for it.
const WORDS: [(&[u8], &str); 10] = [
    (b"HTTP/1.1 101", "101"),
    (b"HTTP/1.1 503", "503"),
    (b"\"kind\":\"welcome\"", "welcome"),
    (b"\"kind\":\"watching\"", "watching"),
    (b"\"kind\":\"done\"", "done"),
    (b"\"kind\":\"patch\"", "patch"),
    (b"\"kind\":\"snapshot\"", "snapshot"),
    (b"\x88\x02\x03\xe8", "close"),
    (b"\x88\x02\x03\xe9", "going-away"),
    (b"\x88\x02\x03\xeb", "unsupported"),
];

/// Appends the word for each reply and message of these bytes, after a blank.
pub fn push_summary(told: &mut String, bytes: &[u8]) -> Result<(), AllocError> {
    for start in 0..bytes.len() {
        push_word(told, bytes.get(start..).unwrap_or(&[]))?;
    }
    Ok(())
}

/// Appends the word for what these bytes start with, if there is one.
fn push_word(told: &mut String, rest: &[u8]) -> Result<(), AllocError> {
    for (bytes, word) in WORDS {
        if rest.starts_with(bytes) {
            write!(told, " {word}")?;
        }
    }
    Ok(())
}
