//! The client side of a loopback socket, after its handshake was accepted.
use std::alloc::{AllocError, Global};
use std::io::{Read, Write};
use tungstenite::{CloseCode, CloseFrame, Error, MaskKeys, Message, Role, Utf8Bytes, WebSocket};

/// The mask keys of a loopback client: a constant, since nobody else sees the frames.
#[derive(Clone, Copy, Debug)]
pub struct LoopKeys;

impl MaskKeys for LoopKeys {
    fn next_key(&mut self) -> [u8; 4] {
        [1, 2, 3, 4]
    }
}

/// A client whose handshake was accepted.
///
/// ```
/// let wire = Wire::new(alloc);
/// let mut client = Client::of(alloc, End { wire: &wire }, Vec::new(alloc));
/// wire.try_borrow_mut().ok()?.feed(b"\x81\x05Hello").ok()?;
/// assert!(rt; client.text()?.as_str() == "Hello" && client.text().is_none());
/// ```
#[derive(Drop)]
pub struct Client<S> {
    socket: WebSocket<S, LoopKeys>,
}

impl<S: Read + Write + Drop> Client<S> {
    /// A client over a stream. `first` has the bytes that followed the reply's head: its first
    /// messages.
    pub fn of(alloc: Global, stream: S, first: Vec<u8>) -> Client<S> {
        let socket = WebSocket::from_partially_read(
            alloc,
            stream,
            LoopKeys,
            first,
            Role::Client,
            None,
        );
        Client { socket }
    }

    /// Sends a text. [`Client::send_rest`] sends what the stream does not accept now. After
    /// `AllocError` nothing was sent. Other errors are ignored.
    ///
    /// ```
    /// let wire = Wire::new(alloc);
    /// let mut client = Client::of(alloc, End { wire: &wire }, Vec::new(alloc));
    /// client.send(alloc, "Hello").ok()?;
    /// // A text of five bytes, masked (RFC 6455, section 5.2).
    /// assert!(rt; wire.try_borrow_mut().ok()?.output.as_slice().starts_with(b"\x81\x85"));
    /// ```
    pub fn send(&mut self, alloc: Global, text: &str) -> Result<(), AllocError> {
        let _ = self.socket.send(Message::text(alloc, text)?);
        Ok(())
    }

    /// Sends unsent output. Errors are ignored.
    pub fn send_rest(&mut self) {
        let _ = self.socket.flush();
    }

    /// Reads one message, and returns it if it is a text.
    pub fn text(&mut self) -> Option<Utf8Bytes> {
        match self.socket.read() {
            Ok(Message::Text(text)) => Some(text),
            Ok(_) | Err(_) => None,
        }
    }

    /// Sends a close frame with 1000.
    ///
    /// ```
    /// let wire = Wire::new(alloc);
    /// let mut client = Client::of(alloc, End { wire: &wire }, Vec::new(alloc));
    /// client.close();
    /// // A close frame with a code, masked (RFC 6455, section 5.5.1).
    /// assert!(rt; wire.try_borrow_mut().ok()?.output.as_slice().starts_with(b"\x88\x82"));
    /// ```
    pub fn close(&mut self) {
        let reason = Utf8Bytes::new();
        let code = CloseCode::Normal;
        let _ = self.socket.close(Some(CloseFrame { code, reason }));
    }
}
