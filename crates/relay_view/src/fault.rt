//! The errors of reading a view from a tree.
use thiserror::Error;

/// The reason why a tree is no view. A list that is too long is refused before its elements are
/// checked. Of the elements, the first that is refused gives the fault, and `at` is its place,
/// counted from 0.
///
/// ```
/// let one = read(alloc, r#""/cards""#).ok()?;
/// assert!(rt; matches!(View::read(alloc, &one), Err(ViewFault::Shape { at: None })));
/// let second = read(alloc, r#"["/cards", 7]"#).ok()?;
/// assert!(rt; matches!(View::read(alloc, &second), Err(ViewFault::Shape { at: Some(1) })));
/// ```
#[derive(Clone, Copy, Debug, PartialEq, Eq, Error)]
pub enum ViewFault {
    /// More than [`crate::MAX_SLOTS`] slots.
    #[error("a view of more than 16 slots")]
    TooMany,
    /// The tree is no list (`at` is `None`), or an element is neither a text nor an object with a
    /// text `size`.
    #[error("a view is a list of texts, or of objects with a text `size`")]
    Shape { at: Option<u64> },
    /// A text is no JSON Pointer (RFC 6901), or one of more than [`relay_pointer::MAX_TOKENS`]
    /// tokens.
    #[error("element {at} is no pointer of at most 64 tokens")]
    Pointer { at: u64 },
    #[error("out of memory")]
    NoMemory,
}
