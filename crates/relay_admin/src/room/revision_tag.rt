//! The entity tag of a revision.
ghost use Rattle.std.specs.Prelude.{◌≡◌, IfOk, string_bytes};
ghost use Rattle.relay_admin.specs.Conditions.{tag_text};

use std::alloc::{AllocError, Global};

/// The strong entity tag of a room's revision, `"EPOCH-REV"` (RFC 9110, section 8.8.3).
///
/// ```
/// let tag = RevisionTag { epoch: 5, rev: 7 };
/// let text = response_text(alloc, &Response::OtherRevision(tag)).ok()?;
/// assert!(rt; text.as_str().starts_with("HTTP/1.1 412 Precondition Failed\r\n"));
/// assert!(rt; text.as_str().contains("\r\nETag: \"5-7\"\r\n"));
/// ```
#[derive(Clone, Copy, Debug, PartialEq, Eq)]
pub struct RevisionTag {
    pub epoch: u64,
    pub rev: u64,
}

impl RevisionTag {
    /// Returns the tag with its quotes.
    pub(crate) fn text(self, alloc: Global) -> Result<String, AllocError>
        ensures { IfOk result (λ text. string_bytes text ≡ tag_text self) }
    {
        let RevisionTag { epoch, rev } = self;
        format!(in alloc; "\"{epoch}-{rev}\"")
    }
}
