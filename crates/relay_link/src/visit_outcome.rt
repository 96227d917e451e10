//! The outcome of a visit.
ghost use Rattle.std.specs.Prelude.{◌≡◌, ℕ, List, [], ◌∷◌, cond};
ghost use Rattle.relay_link.specs.Visits.{heard_in, lacked_memory};

use relay_hub::{OpenFault, Opening};

/// The outcome of a visit: whether a session was opened, its text passed to the hub, and what
/// waited for it drawn.
///
/// ```
/// let mut hub = Hub::new(alloc, 1, 1, 64, 32).ok()?;
/// let room = String::from_str(alloc, "two words").ok()?;
/// let text = Text::of(String::from_str(alloc, "{}").ok()?);
/// let visit = Visit::make(alloc, &mut hub, room, Access::ReadWrite, text).ok()?;
/// assert!(rt; visit.outcome == VisitOutcome::Refused(OpenFault::RoomName));
/// ```
#[derive(Clone, Copy, Debug, PartialEq, Eq)]
pub enum VisitOutcome {
    /// The hub opened no session. After [`OpenFault::NoMemory`] nothing has happened.
    Refused(OpenFault),
    /// Memory was refused for the text, so that the hub did not hear it.
    Unheard(Opening),
    /// The hub heard the text. Memory was refused for a text that was to be drawn.
    Undrawn(Opening),
    /// The hub heard the text, and what waited was drawn: all of it, or as much as a visit draws.
    Answered(Opening),
}

impl VisitOutcome {
    /// True if the hub heard the text.
    ///
    /// ```
    /// let opening = Opening { session: 1, rev: 0 };
    /// assert!(rt; VisitOutcome::Answered(opening).is_heard());
    /// assert!(rt; !VisitOutcome::Unheard(opening).is_heard());
    /// ```
    pub fn is_heard(self) -> bool
        ensures { (text : List ℕ) → heard_in self text ≡ cond result (text ∷ []) [] }
    {
        match self {
            VisitOutcome::Undrawn(_) | VisitOutcome::Answered(_) => true,
            VisitOutcome::Refused(_) | VisitOutcome::Unheard(_) => false,
        }
    }

    /// True if memory was refused.
    ///
    /// ```
    /// assert!(rt; VisitOutcome::Refused(OpenFault::NoMemory).lacked_memory());
    /// assert!(rt; !VisitOutcome::Refused(OpenFault::RoomsFull).lacked_memory());
    /// ```
    pub fn lacked_memory(self) -> bool
        ensures { result ≡ lacked_memory self }
    {
        match self {
            VisitOutcome::Refused(fault) => fault == OpenFault::NoMemory,
            VisitOutcome::Unheard(_) | VisitOutcome::Undrawn(_) => true,
            VisitOutcome::Answered(_) => false,
        }
    }
}
