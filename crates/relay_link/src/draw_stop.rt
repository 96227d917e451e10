//! Causes for which a turn draws no more.

/// The cause for which a turn of an open link drew no more messages.
///
/// ```
/// let wire = Wire::new(alloc);
/// let mut hub = Hub::new(alloc, 1, 1, 64, 32).ok()?;
/// let mut link = Link::new(alloc, End { wire: &wire }).ok()?;
/// wire.try_borrow_mut().ok()?.perform(alloc, "asks 13 /rooms/a").ok()?;
/// link.turn(alloc, &mut hub, MAX_DRAWS).ok()?;
/// // One message waits, the welcome.
/// assert!(rt; link.turn(alloc, &mut hub, 1).ok()?.stop == Some(DrawStop::Limit));
/// assert!(rt; link.turn(alloc, &mut hub, 1).ok()?.stop == Some(DrawStop::Empty));
/// ```
#[derive(Clone, Copy, Debug, PartialEq, Eq)]
pub enum DrawStop {
    /// Nothing waits for the session any more.
    Empty,
    /// It drew as many as it may.
    Limit,
    /// The stream takes no output now, so that output may be unsent. If it took none when the turn
    /// began, nothing was heard or drawn.
    Pending,
    /// Memory was refused for a message, which still waits.
    Memory,
}
