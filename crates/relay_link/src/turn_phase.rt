//! The phases of a turn: reading, writing, or both.
ghost use Rattle.std.specs.Prelude.{◌≡◌, cond};
ghost use Rattle.relay_link.specs.Adds.{texts_of};

/// The phases that a turn runs.
#[derive(Clone, Copy, Debug, PartialEq, Eq)]
pub(crate) enum TurnPhase {
    /// The link reads, and an open link receives at most one text. Its output stays corked.
    Read,
    /// The link reads nothing, and sends all unsent and corked output.
    Write,
    /// The link reads, and sends all output.
    Both,
}

impl TurnPhase {
    /// True if the link reads.
    pub(crate) fn reads(self) -> bool
        ensures { texts_of self ≡ cond result 1 0 }
    {
        self != TurnPhase::Write
    }
}
