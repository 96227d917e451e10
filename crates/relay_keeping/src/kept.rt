//! The outcome of keeping rooms.

/// The way in which rooms are kept as they are.
#[derive(Clone, Copy, Debug, PartialEq, Eq)]
pub enum Kept {
    /// A commit kept what had happened in them.
    Committed,
    /// Nothing had happened in them, and nothing was committed.
    Unchanged,
}
