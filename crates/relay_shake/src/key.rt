//! The key of a handshake (RFC 6455, section 4.2.1).
ghost use Rattle.std.specs.Prelude.{◌≡◌, map, option_map};
ghost use Rattle.std.specs.List.{list_all};
ghost use Rattle.httparse.specs.Borrowed.{header_parts};
ghost use Rattle.relay_shake.specs.Key.{is_base64_byte, is_key, key_of};

use httparse::Header;
use relay_http_head::only_value;

/// The number of base64 characters before the `==` in the encoding of 16 bytes.
const DIGITS: usize = 22;

/// Returns the value of the key field if there is exactly one and the value has the form of 16
/// bytes in base64.
pub(crate) fn key_of<'b>(fields: &[Header<'b>]) -> Option<&'b [u8]>
    ensures { option_map (λ key. key.now) result ≡ key_of (map header_parts fields.now) }
{
    only_value(fields, "Sec-WebSocket-Key").filter(|key| is_key(key))
}

fn is_key(value: &[u8]) -> bool
    ensures { result ≡ is_key value.now }
{
    match value.split_at_checked(DIGITS) {
        Some((digits, padding)) => are_base64_bytes(digits) && padding == "==".as_bytes(),
        None => false,
    }
}

fn are_base64_bytes(bytes: &[u8]) -> bool
    ensures { result ≡ list_all is_base64_byte bytes.now }
{
    bytes.iter().all(|byte| is_base64_byte(*byte))
}

fn is_base64_byte(byte: u8) -> bool
    ensures { result ≡ is_base64_byte byte }
{
    matches!(byte, b'A'..=b'Z' | b'a'..=b'z' | b'0'..=b'9' | b'+' | b'/')
}
