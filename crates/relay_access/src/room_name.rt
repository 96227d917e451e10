//! The names of rooms.
//!
//! A room name comes from the target of a handshake or from a line of a script. The same bytes are
//! allowed in both, and none needs an escape in either.
ghost use Rattle.std.specs.Prelude.{◌≡◌};
ghost use Rattle.std.specs.List.{list_all};
ghost use Rattle.relay_access.specs.RoomName.{is_room_name, is_room_byte};

/// The most bytes of a room name.
pub const MAX_NAME: usize = 64;

/// Returns whether the text is a room name: 1 to [`MAX_NAME`] bytes, each an ASCII letter, an ASCII
/// digit, `-` or `_`. Allocates nothing.
///
/// ```
/// assert!(rt; is_room_name("board_7-A"));
/// assert!(rt; !is_room_name("") && !is_room_name("two words") && !is_room_name("a/b"));
/// ```
pub fn is_room_name(name: &str) -> bool
    ensures { result ≡ is_room_name name.now }
{
    !name.is_empty() && name.len() <= MAX_NAME && are_room_bytes(name.as_bytes())
}

fn are_room_bytes(bytes: &[u8]) -> bool
    ensures { result ≡ list_all is_room_byte bytes.now }
{
    bytes.iter().all(|byte| is_room_byte(*byte))
}

fn is_room_byte(byte: u8) -> bool
    ensures { result ≡ is_room_byte byte }
{
    matches!(byte, b'A'..=b'Z' | b'a'..=b'z' | b'0'..=b'9' | b'-' | b'_')
}
