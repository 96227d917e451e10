//! The causes for which a patch is not applied.
use std::alloc::AllocError;
use thiserror::Error;

/// The cause of an operation's refusal. Its own checks come first, in the order of RFC 6902,
/// then the weight of the changes so far, and then the depth and the weight of the document that it
/// made. Memory is allocated only after an operation's own checks have passed.
///
/// ```
/// let mut board = read(alloc, r#"{"a": 1}"#).ok()?;
/// let ops = read(alloc, r#"[{"op": "remove", "path": ""}]"#).ok()?;
/// let patch = Patch::from_owned(alloc, ops, PatchLimits::REQUEST).ok()?;
/// let refused = apply(alloc, &mut board, &patch, Bounds::DOCUMENT).err()?;
/// assert!(rt; refused.cause == Cause::Root);
/// ```
#[derive(Clone, Copy, Debug, PartialEq, Eq, Error)]
pub enum Cause {
    /// A path names a part that is not there.
    #[error("no such part")]
    Missing,
    /// A token that must be the index of an element is not an index.
    #[error("not an index")]
    NotIndex,
    /// The index of an insertion is larger than the length of the list.
    #[error("past the end of the list")]
    PastEnd,
    /// A path continues below a scalar.
    #[error("not a container")]
    NoContainer,
    /// A `remove` of the whole document.
    #[error("the root stays")]
    Root,
    /// A `move` of a value to a place inside itself.
    #[error("moved into itself")]
    IntoItself,
    /// A `test` found another value.
    #[error("another value")]
    TestFailed,
    /// The document would be deeper than the bound.
    #[error("too deep")]
    TooDeep,
    /// The changes of the patch, or the document, would weigh more than their bound.
    #[error("too heavy")]
    TooHeavy,
    #[error("out of memory")]
    NoMemory,
}

impl From<AllocError> for Cause {
    ghost use Rattle.std.specs.Prelude.{◌≡◌};
    ghost use Rattle.relay_patch.specs.declared.fault.Cause.TheVariants.{NoMemory};

    ghost from_gives = { λ _ cause. cause ≡ NoMemory };

    fn from(_: AllocError) -> Cause {
        Cause::NoMemory
    }
}

/// The first operation that is refused, counted from 0, and why.
///
/// ```
/// let mut board = read(alloc, r#"{"a": 1}"#).ok()?;
/// let ops = r#"[{"op": "test", "path": "/a", "value": 1}, {"op": "remove", "path": "/b"}]"#;
/// let ops = read(alloc, ops).ok()?;
/// let patch = Patch::from_owned(alloc, ops, PatchLimits::REQUEST).ok()?;
/// let refused = apply(alloc, &mut board, &patch, Bounds::DOCUMENT).err()?;
/// assert!(rt; refused == ApplyFault { at: 1, cause: Cause::Missing });
/// ```
#[derive(Clone, Copy, Debug, PartialEq, Eq, Error)]
#[error("operation {at}: {cause}")]
pub struct ApplyFault {
    pub at: u64,
    pub cause: Cause,
}
