//! A room as a store has it.
ghost use Rattle.std.specs.Prelude.{◌≡◌, IfSome};

/// The least length of the texts of a room, in bytes, at which a record replaces them.
const MIN_TEXTS: u64 = 65_536;

/// A room as it is kept.
#[derive(Drop)]
pub(crate) struct KeptRoom {
    pub(crate) name: String,
    pub(crate) texts: KeptTexts,
}

/// The texts that are kept of a room: its record, and the patches since.
#[derive(Clone, Copy)]
pub(crate) struct KeptTexts {
    /// The revision to which the last text leads.
    pub(crate) revision: u64,
    /// The length of the record, in bytes.
    record: u64,
    /// The length of the patches since, in bytes.
    patches: u64,
}

impl KeptTexts {
    /// A record of a revision, with this length in bytes.
    pub(crate) fn begun(revision: u64, record: u64) -> KeptTexts
        ensures { result.revision ≡ revision }
    {
        KeptTexts {
            revision,
            record,
            patches: 0,
        }
    }

    /// The same with one patch more, which leads to a revision, and its length in bytes.
    pub(crate) fn with_patch(self, revision: u64, length: u64) -> KeptTexts
        ensures { result.revision ≡ revision }
    {
        KeptTexts {
            revision,
            record: self.record,
            patches: self.patches.saturating_add(length),
        }
    }

    /// The revision behind which the next patch leads on; `None` if a new record begins, since the
    /// patches are longer than the record and 64 KiB.
    pub(crate) fn leads_on_from(&self) -> Option<u64>
        ensures { IfSome result (λ rev. rev ≡ self.now.revision) }
    {
        if self.patches > self.record.max(MIN_TEXTS) {
            None
        } else {
            Some(self.revision)
        }
    }
}
