//! The errors of applying a text to a follower.
use thiserror::Error;

/// The reason why a text is refused, in the order of the checks. The follower is unchanged.
///
/// ```
/// let mut follower = Follower::new();
/// let patch = r#"{"kind":"patch","patch":[],"rev":2}"#;
/// assert!(rt; follower.hear(alloc, patch) == Err(HearFault::NoView));
/// follower.hear(alloc, r#"{"kind":"snapshot","rev":2,"view":[]}"#).ok()?;
/// assert!(rt; follower.hear(alloc, patch) == Err(HearFault::Order));
/// ```
#[derive(Clone, Copy, Debug, PartialEq, Eq, Error)]
pub enum HearFault {
    #[error("not a message")]
    NotMessage,
    /// A patch came while no view is held.
    #[error("no view to patch")]
    NoView,
    /// The revision of a patch is not above the one held.
    #[error("a patch of an older revision")]
    Order,
    /// A patch does not apply to the view.
    #[error("a patch that does not apply")]
    Apply,
    #[error("out of memory")]
    NoMemory,
}
