//! Header fields by name.
//!
//! Names, and the elements of a list, compare without regard to ASCII case (RFC 9110, sections 5.1
//! and 5.6.1). A value comes without spaces and tabs at its ends; an element is trimmed of them
//! before it is compared.
ghost use Rattle.std.specs.Prelude.{◌≡◌, map, reverse, option_map};
ghost use Rattle.std.specs.Str.{str_eq_ignore_ascii_case};
ghost use Rattle.httparse.specs.Borrowed.{header_parts};
ghost use Rattle.httparse.specs.Grammar.{skip_ows, trim_ows};
ghost use Rattle.relay_http_head.specs.Head.{count_of, first_value, only_value, has_field, lists};
ghost use Rattle.relay_http_head.specs.Head.{has_element};

use httparse::Header;

/// Returns the value of the field with this name, if there is exactly one.
///
/// ```
/// let mut fields = [EMPTY_HEADER; 16];
/// let mut request = httparse::Request::new(&mut fields);
/// let bytes = b"GET / HTTP/1.1\r\nHost: localhost\r\n\r\n";
/// assert!(rt; matches!(parse_head(&mut request, bytes, 48), Parsed::Complete(_)));
/// assert!(rt; only_value(request.headers, "host") == Some(b"localhost".as_slice()));
/// assert!(rt; only_value(request.headers, "Origin") == None);
/// ```
pub fn only_value<'b>(fields: &[Header<'b>], name: &str) -> Option<&'b [u8]>
    ensures { option_map (λ value. value.now) result
        ≡ only_value name.now (map header_parts fields.now) }
{
    if count(fields, name) == 1 {
        first_value(fields, name)
    } else {
        None
    }
}

/// Returns whether there is a field with this name.
///
/// ```
/// let mut fields = [EMPTY_HEADER; 16];
/// let mut request = httparse::Request::new(&mut fields);
/// let bytes = b"GET / HTTP/1.1\r\nHost: localhost\r\n\r\n";
/// assert!(rt; matches!(parse_head(&mut request, bytes, 48), Parsed::Complete(_)));
/// assert!(rt; has_field(request.headers, "host") && !has_field(request.headers, "Origin"));
/// ```
pub fn has_field(fields: &[Header<'_>], name: &str) -> bool
    ensures { result ≡ has_field name.now (map header_parts fields.now) }
{
    count(fields, name) != 0
}

/// Returns whether a field with this name lists the element.
///
/// ```
/// let mut fields = [EMPTY_HEADER; 32];
/// let mut request = httparse::Request::new(&mut fields);
/// let bytes = b"GET / HTTP/1.1\r\nConnection: keep-alive, Upgrade\r\n\r\n";
/// assert!(rt; matches!(parse_head(&mut request, bytes, 96), Parsed::Complete(_)));
/// assert!(rt; has_element(request.headers, "Connection", "upgrade"));
/// assert!(rt; !has_element(request.headers, "Connection", "close"));
/// ```
pub fn has_element(fields: &[Header<'_>], name: &str, element: &str) -> bool
    ensures { result ≡ has_element name.now element.now (map header_parts fields.now) }
{
    fields.iter().any(|field| is_named(field, name) && lists(field.value, element))
}

fn count(fields: &[Header<'_>], name: &str) -> usize
    ensures { result ≡ count_of name.now (map header_parts fields.now) }
{
    fields.iter().filter(|field| is_named(field, name)).count()
}

fn first_value<'b>(fields: &[Header<'b>], name: &str) -> Option<&'b [u8]>
    ensures { option_map (λ value. value.now) result
        ≡ first_value name.now (map header_parts fields.now) }
{
    for field in fields {
        if is_named(field, name) {
            return Some(field.value);
        }
    }
    None
}

fn is_named(field: &Header<'_>, name: &str) -> bool
    ensures { result ≡ str_eq_ignore_ascii_case field.now.name.now name.now }
{
    field.name.eq_ignore_ascii_case(name)
}

fn lists(value: &[u8], element: &str) -> bool
    ensures { result ≡ lists element.now value.now }
{
    value
        .split(|byte| *byte == b',')
        .any(|part| is_element(part, element))
}

fn is_element(part: &[u8], element: &str) -> bool
    ensures { result ≡ str_eq_ignore_ascii_case (trim_ows part.now) element.now }
{
    trimmed(part).eq_ignore_ascii_case(element.as_bytes())
}

#[tactic(auto, unfolding(httparse::specs::Grammar::trim_ows))]
fn trimmed(bytes: &[u8]) -> &[u8]
    ensures { result.now ≡ trim_ows bytes.now }
{
    trimmed_end(trimmed_start(bytes))
}

fn trimmed_start(bytes: &[u8]) -> &[u8]
    ensures { result.now ≡ skip_ows bytes.now }
{
    let mut rest = bytes;
    while let [b' ' | b'\t', behind @ ..] = rest {
        rest = behind;
    }
    rest
}

fn trimmed_end(bytes: &[u8]) -> &[u8]
    ensures { result.now ≡ reverse (skip_ows (reverse bytes.now)) }
{
    let mut rest = bytes;
    while let [before @ .., b' ' | b'\t'] = rest {
        rest = before;
    }
    rest
}
