//! The head that bytes begin with, if it is within a bound.
ghost use Rattle.std.specs.Prelude.{◌≡◌, ◌+◌, ◌*◌, ◌<◌, length, take};
ghost use Rattle.httparse.specs.Grammar.{HasNoRequest, MayBecomeRequest};
ghost use Rattle.relay_http_head.specs.Parsing.{IsParsed, IsBeforeHead};

use httparse::{Error, Request, Status};

/// The state of the head that bytes begin with.
///
/// ```
/// let mut fields = [EMPTY_HEADER; 16];
/// let mut request = httparse::Request::new(&mut fields);
/// assert!(rt; parse_head(&mut request, b"GET / HTTP/1.1\r\n", 48) == Parsed::Partial);
/// ```
#[derive(Clone, Copy, Debug, PartialEq, Eq)]
pub enum Parsed {
    /// A head of so many bytes.
    Complete(usize),
    /// No head, but one can still come.
    Partial,
    /// No head within the bound.
    TooLong,
    /// No head, and none can come.
    Invalid,
}

/// Parses the head that the bytes begin with, which must be within the first `most`.
///
/// The request must have room for a third as many fields as `most`: each takes at least three
/// bytes. If the head is complete, the request holds its parts, and [`crate::head_of`] takes them.
/// One case is left open: if the bytes end in a target that no head can have, such as one that is
/// not UTF-8, they may count as the beginning of a head until the target has ended.
///
/// ```
/// let mut fields = [EMPTY_HEADER; 16];
/// let mut request = httparse::Request::new(&mut fields);
/// let bytes = b"GET / HTTP/1.1\r\n\r\nmore";
/// // The head has 18 bytes.
/// assert!(rt; parse_head(&mut request, bytes, 48) == Parsed::Complete(18));
/// ```
pub fn parse_head<'b>(request: &mut Request<'_, 'b>, bytes: &'b [u8], most: usize) -> Parsed
    requires { most < 3 * (length request.old.headers.now + 1) }
    ensures { IsParsed most bytes.now request.new result }
{
    match request.parse(window(bytes, most)) {
        Ok(Status::Complete(len)) => Parsed::Complete(len),
        Ok(Status::Partial) => before_head(bytes, most),
        // There is room for every field that the window can hold.
        Err(Error::TooManyHeaders) => unreachable!(),
        Err(_) => Parsed::Invalid,
    }
}

// The bytes in which the head must be.
fn window(bytes: &[u8], most: usize) -> &[u8]
    ensures { result.now ≡ take most bytes.now }
{
    if bytes.len() > most {
        &bytes[..most]
    } else {
        bytes
    }
}

fn before_head(bytes: &[u8], most: usize) -> Parsed
    requires none { HasNoRequest (take most bytes.now) }
    requires unfinished { MayBecomeRequest (take most bytes.now) }
    ensures { IsBeforeHead most bytes.now result }
{
    if bytes.len() > most {
        Parsed::TooLong
    } else {
        Parsed::Partial
    }
}
