//! The limits on a patch that is read, and why one is refused.
use relay_pointer::MAX_TOKENS;
use thiserror::Error;

/// The most operations of a patch in a request.
pub const MAX_OPS: u64 = 64;

/// The most tokens of a path in a patch that the relay sends: two more than in a request, which
/// name a slot of a view.
pub const MAX_RELAYED_TOKENS: u64 = MAX_TOKENS + 2;

/// The most operations of a patch, and the most tokens of each of its paths.
///
/// ```
/// let ops = read(alloc, r#"[{"op": "remove", "path": "/a/b"}]"#).ok()?;
/// let short = PatchLimits { tokens: 1, ..PatchLimits::REQUEST };
/// let patch = Patch::from_tree(alloc, &ops, short);
/// assert!(rt; matches!(patch, Err(PatchFault::Pointer { at: 0 })));
/// ```
#[derive(Clone, Copy, Debug, PartialEq, Eq)]
pub struct PatchLimits {
    pub ops: u64,
    pub tokens: u64,
}

impl PatchLimits {
    /// The limits of a patch in a request.
    pub const REQUEST: PatchLimits = PatchLimits {
        ops: MAX_OPS,
        tokens: MAX_TOKENS,
    };

    /// The limits of a patch that the relay sends: any number of operations.
    pub const RELAYED: PatchLimits = PatchLimits {
        ops: u64::MAX,
        tokens: MAX_RELAYED_TOKENS,
    };
}

/// The fault of a tree that does not read as a patch. A list that is too long is refused before its
/// elements are checked. Otherwise the fault is that of the first element that is refused, and `at`
/// is its place, counted from 0.
///
/// ```
/// let ops = read(alloc, r#"[{"op": "remove", "path": "/a"}, {"op": "swap"}]"#).ok()?;
/// let patch = Patch::from_tree(alloc, &ops, PatchLimits::REQUEST);
/// assert!(rt; matches!(patch, Err(PatchFault::UnknownOp { at: 1 })));
/// ```
#[derive(Clone, Copy, Debug, PartialEq, Eq, Error)]
pub enum PatchFault {
    #[error("too many operations")]
    TooManyOps,
    /// The tree is not a list (`at` is `None`), or an element lacks a member of the right type that
    /// its operation needs.
    #[error("a patch is a list of operations")]
    Shape { at: Option<u64> },
    /// An `op` that is not one of the six.
    #[error("operation {at} is unknown")]
    UnknownOp { at: u64 },
    /// A `path` or a `from` that is not a JSON Pointer (RFC 6901), or has too many tokens.
    #[error("operation {at} has no pointer of so few tokens")]
    Pointer { at: u64 },
    #[error("out of memory")]
    NoMemory,
}
