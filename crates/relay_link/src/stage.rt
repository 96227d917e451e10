//! The stages of a link.

/// The stage of a link, in order. A link never returns to an earlier stage.
///
/// ```
/// let wire = Wire::new(alloc);
/// let mut hub = Hub::new(alloc, 1, 1, 64, 32).ok()?;
/// let mut link = Link::new(alloc, End { wire: &wire }).ok()?;
/// wire.try_borrow_mut().ok()?.perform(alloc, "asks 13 /rooms/a").ok()?;
/// link.turn(alloc, &mut hub, MAX_DRAWS).ok()?;
/// // A close frame, masked and without a code.
/// wire.try_borrow_mut().ok()?.perform(alloc, "hex 88 80 00 00 00 00").ok()?;
/// assert!(rt; link.turn(alloc, &mut hub, MAX_DRAWS).ok()?.stage == Stage::Closing);
/// ```
#[derive(Clone, Copy, Debug, PartialEq, Eq)]
pub enum Stage {
    /// The handshake: the link waits for the request head, or writes the reply.
    Head,
    /// Messages pass in both directions.
    Open,
    /// The session is closed, and the link waits for the other side's part of the closing
    /// handshake.
    Closing,
    /// The stream is dropped.
    Gone,
}
