//! The next message of an outbox.

/// The message at the front of an outbox, borrowed so that it can be written before it is removed.
///
/// ```
/// let mut outbox: Outbox<&str, u64> = Outbox::new(alloc, 32).ok()?;
/// assert!(rt; matches!(outbox.front(), Front::Nothing));
/// outbox.patch(1);
/// assert!(rt; matches!(outbox.front(), Front::Patch(1)));
/// outbox.fold();
/// assert!(rt; matches!(outbox.front(), Front::Snapshot));
/// ```
#[derive(Drop)]
pub enum Front<'a, R, P> {
    Reply(&'a R),
    Patch(&'a P),
    /// A snapshot of the present document is due.
    Snapshot,
    /// Nothing waits.
    Nothing,
}
