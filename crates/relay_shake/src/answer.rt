//! The answer to a handshake.
use relay_access::Access;

/// The answer to the bytes received so far.
///
/// ```
/// let start = "GET /rooms/board HTTP/1.1\r\nHost: localhost\r\n";
/// assert!(rt; matches!(shake(alloc, start.as_bytes()), Ok(Shake::More)));
/// // The whole head asks for no WebSocket.
/// let head = "GET /rooms/board HTTP/1.1\r\nHost: localhost\r\n\r\n";
/// let refused = shake(alloc, head.as_bytes());
/// assert!(rt; matches!(refused, Ok(Shake::Refuse { status: 400, .. })));
/// ```
#[derive(Debug, Drop)]
pub enum Shake {
    /// The head is not complete: more bytes are needed.
    More,
    /// A good handshake.
    Accept {
        /// The name of the room in the target.
        room: String,
        /// The access of the session there, by the target.
        access: Access,
        /// The value of the field `Origin`, if the head has one: printable ASCII, in the case in
        /// which it came. A browser names the origin of the page that connects; other clients need
        /// not (RFC 6455, section 4.1). The caller decides which pages may enter (section 10.2).
        origin: Option<String>,
        /// The 101 reply, to be sent whole.
        reply: Vec<u8>,
    },
    /// A refused handshake.
    Refuse {
        /// The status of the reply: 400, 404, 405, 426 or 431.
        status: u16,
        /// The reply, to be sent whole before the socket is closed.
        reply: Vec<u8>,
    },
}
