//! The rights of a session in its room.

/// The rights of a session in its room, as the target of its handshake asks.
///
/// ```
/// let mut hub = Hub::new(alloc, 1, 1, 64, 32).ok()?;
/// let session = hub.open(alloc, "board", Access::ReadOnly).ok()?.session;
/// hub.receive(alloc, session, r#"{"do": "edit", "id": 1, "patch": []}"#).ok()?;
/// hub.draw(alloc, session).ok()??;
/// let refused = hub.draw(alloc, session).ok()??;
/// assert!(rt; refused.as_str() == r#"{"at":null,"fault":"read-only","id":1,"kind":"refused"}"#);
/// ```
#[derive(Clone, Copy, Debug, PartialEq, Eq)]
pub enum Access {
    /// `/rooms/NAME`: it may edit, watch, resume and stop watching.
    ReadWrite,
    /// `/rooms/NAME/watch`: its edits are refused as `read-only`.
    ReadOnly,
}
