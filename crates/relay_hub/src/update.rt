//! The meaning of an edit or a resume to a view, ready to be added to an outbox.
ghost use Rattle.std.specs.Prelude.{◌≡◌, IfOk};
ghost use Rattle.relay_hub.specs.Update.{update_of, word_of};

use crate::encoded_patch::EncodedPatch;
use relay_proto::ResumeOutcome;
use relay_room::CatchUp;
use std::alloc::{AllocError, Global};

/// An update, which brings a view to a later revision ([`CatchUp`]). A patch comes with the text of
/// its message.
#[derive(Drop)]
pub enum Update {
    Nothing,
    Patch(EncodedPatch),
    Snapshot,
}

impl Update {
    /// Makes the update to revision `rev`. A patch costs the text of its message.
    pub fn of(alloc: Global, rev: u64, how: CatchUp) -> Result<Update, AllocError>
        ensures { IfOk result (λ update. update ≡ update_of rev how) }
    {
        match how {
            CatchUp::Nothing => Ok(Update::Nothing),
            CatchUp::Patch(patch) => Ok(Update::Patch(EncodedPatch::new(alloc, rev, patch)?)),
            CatchUp::Snapshot => Ok(Update::Snapshot),
        }
    }

    /// Shares the update. Allocates nothing ([`EncodedPatch::share`]).
    pub fn share(&self) -> Result<Update, AllocError>
        ensures { IfOk result (λ update. update ≡ self.now) }
    {
        match self {
            Update::Nothing => Ok(Update::Nothing),
            Update::Patch(encoded_patch) => Ok(Update::Patch(encoded_patch.share()?)),
            Update::Snapshot => Ok(Update::Snapshot),
        }
    }

    /// The word for the update in the reply to a resume.
    pub fn word(&self) -> ResumeOutcome
        ensures { result ≡ word_of self.now }
    {
        match self {
            Update::Nothing => ResumeOutcome::Nothing,
            Update::Patch(_) => ResumeOutcome::Patch,
            Update::Snapshot => ResumeOutcome::Snapshot,
        }
    }
}
