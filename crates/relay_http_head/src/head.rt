//! The parts of a request head.
ghost use Rattle.httparse.specs.Borrowed.{HoldsSomeRequest};
ghost use Rattle.relay_http_head.specs.Parsing.{IsHead};

use httparse::{Header, Request};

/// The parts of a request head (RFC 9112, section 3).
///
/// ```
/// let mut fields = [EMPTY_HEADER; 16];
/// let mut request = httparse::Request::new(&mut fields);
/// let bytes = b"GET / HTTP/1.1\r\n\r\nmore";
/// let Parsed::Complete(len) = parse_head(&mut request, bytes, 48) else {
///     return None;
/// };
/// let head = head_of(request, bytes, len);
/// assert!(rt; head.method == "GET" && head.minor == 1 && head.has_surplus);
/// ```
#[derive(Drop)]
pub struct Head<'h, 'b> {
    pub method: &'b str,
    pub target: &'b str,
    /// The digit after `HTTP/1.`.
    pub minor: u8,
    pub fields: &'h [Header<'b>],
    /// True if any byte follows the head.
    pub has_surplus: bool,
}

/// Returns the parts of a head that was parsed from the bytes, of which it is the first `len`.
///
/// ```
/// let mut fields = [EMPTY_HEADER; 32];
/// let mut request = httparse::Request::new(&mut fields);
/// let bytes = b"GET /rooms/board HTTP/1.1\r\nHost: localhost\r\n\r\n";
/// let Parsed::Complete(len) = parse_head(&mut request, bytes, 96) else {
///     return None;
/// };
/// let head = head_of(request, bytes, len);
/// assert!(rt; head.target == "/rooms/board" && head.fields.len() == 1 && !head.has_surplus);
/// ```
pub fn head_of<'h, 'b>(request: Request<'h, 'b>, bytes: &[u8], len: usize) -> Head<'h, 'b>
    requires { HoldsSomeRequest bytes.now request len }
    ensures { IsHead bytes.now result }
{
    let Request {
        method,
        path,
        version,
        headers,
    } = request;
    Head {
        method: method.unwrap(),
        target: path.unwrap(),
        minor: version.unwrap(),
        fields: headers,
        has_surplus: len < bytes.len(),
    }
}
