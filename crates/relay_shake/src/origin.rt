//! The origin of the page that sends a head (RFC 6454, section 7; RFC 6455, section 4.1).
ghost use Rattle.std.specs.Prelude.{◌≡◌, Some, map, option_copied};
ghost use Rattle.std.specs.List.{list_all};
ghost use Rattle.httparse.specs.Borrowed.{header_parts};
ghost use Rattle.relay_http_head.specs.Head.{kept};
ghost use Rattle.relay_shake.specs.Origin.{at_most_one_origin, is_origin_byte, origin_of};

use httparse::Header;
use relay_http_head::{has_field, only_value};
use std::str::from_utf8;

/// The name of the field.
const ORIGIN: &str = "Origin";

/// Returns true if the head names no origin, or one that [`origin_of`] returns.
pub(crate) fn has_at_most_one_origin(fields: &[Header<'_>]) -> bool
    ensures { result ≡ at_most_one_origin (map header_parts fields.now) }
{
    !has_field(fields, ORIGIN) || origin_of(fields).is_some()
}

/// Returns the value of the field `Origin` if there is exactly one and the value is printable
/// ASCII.
pub(crate) fn origin_of<'b>(fields: &[Header<'b>]) -> Option<&'b str>
    ensures { option_copied result ≡ origin_of (map header_parts fields.now) }
{
    origin_text(only_value(fields, ORIGIN)?)
}

/// Returns the text of a value if it is printable ASCII.
#[tactic(auto, using(crate::proofs::Origins::origin_utf8))]
fn origin_text(value: &[u8]) -> Option<&str>
    ensures { option_copied result ≡ kept (list_all is_origin_byte) (Some value.now) }
{
    if are_origin_bytes(value) {
        Some(from_utf8(value).unwrap())
    } else {
        None
    }
}

fn are_origin_bytes(bytes: &[u8]) -> bool
    ensures { result ≡ list_all is_origin_byte bytes.now }
{
    bytes.iter().all(|byte| is_origin_byte(*byte))
}

fn is_origin_byte(byte: u8) -> bool
    ensures { result ≡ is_origin_byte byte }
{
    matches!(byte, b' '..=b'~')
}
