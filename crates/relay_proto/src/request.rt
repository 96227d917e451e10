//! The requests that a client sends.
use relay_patch::Patch;
use relay_view::View;

/// One request. Ids, epochs and revisions are counts, from 0 to `2^53 - 1`.
///
/// ```
/// let text = r#"{"base":4,"do":"edit","id":9,"patch":[{"op":"remove","path":"/cards/0"}]}"#;
/// let Request::Edit { id, base, patch } = Request::read(alloc, text).ok()? else {
///     return None;
/// };
/// assert!(rt; id == 9 && base == Some(4) && patch.ops().len() == 1);
/// ```
#[derive(Drop)]
pub enum Request {
    /// Apply the patch to the room's document; if `base` is given, only at that revision.
    Edit {
        id: u64,
        base: Option<u64>,
        patch: Patch,
    },
    /// Leave the patch for when the session has ended, in place of one that was left before. An
    /// empty one leaves nothing.
    Will {
        id: u64,
        patch: Patch,
    },
    /// Watch this view from now on.
    Watch {
        id: u64,
        view: View,
    },
    /// Watch this view, starting from the epoch and revision that the client holds.
    Resume {
        id: u64,
        epoch: u64,
        rev: u64,
        view: View,
    },
    /// Stop watching.
    Unwatch {
        id: u64,
    },
}
