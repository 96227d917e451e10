//! The client side of a handshake, written without `tungstenite`.
ghost use Rattle.std.specs.Prelude.{◌≤◌, length, IfSome};

use crate::client::Client;
use relay_access::Access;
use std::alloc::{AllocError, Global};
use std::io::{Read, Write};
use std::str;

/// The size of one read of a reply, in bytes.
const MAX_READ: usize = 1_024;

/// A client that has sent its handshake and waits for the reply.
///
/// ```
/// let wire = Wire::new(alloc);
/// let end = End { wire: &wire };
/// let mut handshake = ClientHandshake::at(alloc, end, "board", Access::ReadWrite).ok()??;
/// wire.try_borrow_mut().ok()?.perform(alloc, "line HTTP/1.1 404 Not Found").ok()?;
/// assert!(rt; handshake.status() == None);
/// wire.try_borrow_mut().ok()?.perform(alloc, "line ").ok()?;
/// assert!(rt; handshake.status() == Some(404));
/// ```
#[derive(Drop)]
pub struct ClientHandshake<S> {
    stream: S,
    /// The bytes of the reply that were read so far.
    reply: Vec<u8>,
}

impl<S: Read + Write + Drop> ClientHandshake<S> {
    /// Sends the request for a room, with this access. `None` if it cannot be sent. After
    /// `AllocError` nothing was sent.
    ///
    /// ```
    /// let wire = Wire::new(alloc);
    /// let end = End { wire: &wire };
    /// let handshake = ClientHandshake::at(alloc, end, "board", Access::ReadOnly).ok()?;
    /// let sent = &wire.try_borrow_mut().ok()?.output;
    /// assert!(rt; handshake.is_some());
    /// assert!(rt; sent.as_slice().starts_with(b"GET /rooms/board/watch HTTP/1.1\r\n"));
    /// ```
    pub fn at(
        alloc: Global,
        mut stream: S,
        room: &str,
        access: Access,
    ) -> Result<Option<ClientHandshake<S>>, AllocError> {
        let suffix = suffix_of(access);
        let head = format!(in alloc;
            "GET /rooms/{room}{suffix} HTTP/1.1\r\n\
             Host: localhost\r\n\
             Upgrade: websocket\r\n\
             Connection: Upgrade\r\n\
             Sec-WebSocket-Key: dGhlIHNhbXBsZSBub25jZQ==\r\n\
             Sec-WebSocket-Version: 13\r\n\r\n"
        )?;
        if stream.write_all(head.as_bytes()).is_err() {
            return Ok(None);
        }
        let reply = Vec::new(alloc);
        Ok(Some(ClientHandshake { stream, reply }))
    }

    /// Reads once, and returns the status of the reply once its head is complete. If it is out of
    /// memory nothing is read, and the next call tries again.
    ///
    /// ```
    /// let wire = Wire::new(alloc);
    /// let end = End { wire: &wire };
    /// let mut handshake = ClientHandshake::at(alloc, end, "board", Access::ReadWrite).ok()??;
    /// wire.try_borrow_mut().ok()?.feed(b"HTTP/1.1 503 Service Unavailable\r\n\r\n").ok()?;
    /// assert!(rt; handshake.status() == Some(503));
    /// ```
    pub fn status(&mut self) -> Option<u16> {
        self.reply.reserve(MAX_READ).ok()?;
        let mut part = [0; MAX_READ];
        if let Ok(count) = self.stream.read(&mut part) {
            let _ = self.reply.extend_from_slice(&part[..count]);
        }
        head_len(self.reply.as_slice())?;
        let digits = self.reply.get(9..12)?;
        str::from_utf8(digits).ok()?.parse::<u16>().ok()
    }

    /// The client, once its handshake was accepted. The bytes after the reply's head are its first
    /// messages.
    ///
    /// ```
    /// let wire = Wire::new(alloc);
    /// let end = End { wire: &wire };
    /// let mut handshake = ClientHandshake::at(alloc, end, "board", Access::ReadWrite).ok()??;
    /// // Behind the reply comes the text of RFC 6455, section 5.7.
    /// let bytes = b"HTTP/1.1 101 Switching Protocols\r\n\r\n\x81\x05Hello";
    /// wire.try_borrow_mut().ok()?.feed(bytes).ok()?;
    /// assert!(rt; handshake.status() == Some(101));
    /// assert!(rt; handshake.client(alloc).text()?.as_str() == "Hello");
    /// ```
    pub fn client(self, alloc: Global) -> Client<S> {
        let ClientHandshake { stream, mut reply } = self;
        if let Some(len) = head_len(reply.as_slice()) {
            reply.drain(..len);
        }
        Client::of(alloc, stream, reply)
    }
}

/// The text that stands behind the room's name in the target.
fn suffix_of(access: Access) -> &'static str {
    match access {
        Access::ReadWrite => "",
        Access::ReadOnly => "/watch",
    }
}

/// The length of a reply's head in bytes, with the empty line that ends it. `None` if the head is
/// incomplete.
fn head_len(reply: &[u8]) -> Option<usize>
    ensures { IfSome result (λ len. len ≤ length reply.now) }
{
    for start in 0..reply.len() {
        if reply[start..].starts_with(b"\r\n\r\n") {
            return Some(start.saturating_add(4).min(reply.len()));
        }
    }
    None
}
