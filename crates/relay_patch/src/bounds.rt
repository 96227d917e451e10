//! Bounds on the size of a document, and on the changes of one patch.
use relay_tree::Budget;

/// The most levels of a shared document.
pub const MAX_DEPTH: u64 = 64;

/// The largest weight of a shared document.
pub const MAX_WEIGHT: u64 = 262_144;

/// The largest weight of all changes that one patch makes to a shared document: that of four
/// largest documents.
pub const MAX_CHANGES_WEIGHT: u64 = 4 * MAX_WEIGHT;

/// The bounds on an application of a patch.
///
/// ```
/// let mut cards = read(alloc, "[1]").ok()?;
/// let ops = read(alloc, r#"[{"op": "add", "path": "/-", "value": 2}]"#).ok()?;
/// let patch = Patch::from_owned(alloc, ops, PatchLimits::REQUEST).ok()?;
/// // A list of two numbers weighs 24.
/// let narrow = Bounds { weight: 23, ..Bounds::FREE };
/// let refused = apply(alloc, &mut cards, &patch, narrow).err()?;
/// assert!(rt; refused == ApplyFault { at: 0, cause: Cause::TooHeavy });
/// ```
#[derive(Clone, Copy, Debug, PartialEq, Eq)]
pub struct Bounds {
    /// The most levels of the document after each operation. `u64::MAX` means no bound.
    pub depth: u64,
    /// The largest weight of the document after each operation. `u64::MAX` means no bound.
    pub weight: u64,
    /// The weight that the changes of the patch may have together. A change weighs as much as its
    /// value and its paths.
    pub changes: Budget,
}

impl Bounds {
    /// The bounds of a shared document.
    pub const DOCUMENT: Bounds = Bounds {
        depth: MAX_DEPTH,
        weight: MAX_WEIGHT,
        changes: Budget::Left(MAX_CHANGES_WEIGHT),
    };

    /// No bound at all.
    pub const FREE: Bounds = Bounds {
        depth: u64::MAX,
        weight: u64::MAX,
        changes: Budget::Unbounded,
    };
}
