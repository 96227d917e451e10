//! The error of adding a reply to a full outbox.

/// [`MAX_REPLIES`](crate::MAX_REPLIES) replies wait already, so this one was not added and is
/// returned.
///
/// ```
/// let mut outbox: Outbox<u64, u64> = Outbox::new(alloc, 1).ok()?;
/// for reply in 0..MAX_REPLIES {
///     outbox.reply(reply).ok()?;
/// }
/// assert!(rt; matches!(outbox.reply(99), Err(Busy(99))));
/// ```
#[derive(Debug, Drop)]
pub struct Busy<R>(pub R);
