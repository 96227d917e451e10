//! Whom a text or a will told something.
ghost use Rattle.std.specs.Prelude.{◌≡◌, ◌||◌, nat_eq, ℕ, OnOk, true, false};
ghost use Rattle.std.specs.List.{list_any};
ghost use Rattle.relay_hub.specs.Told.{is_told};

use std::alloc::{AllocError, Global};

/// The sessions whose outboxes a text or a will may have changed, besides that of the session that
/// sent the text. See [`Hub::told`](crate::Hub::told).
#[derive(Drop)]
pub struct Told {
    /// Their numbers, each once: audience by audience, and within one in ascending order.
    pub sessions: Vec<u64>,
    /// True if it may be any session of the room, since memory ran out before they were found.
    pub all: bool,
}

impl Told {
    /// No session. Allocates nothing.
    pub(crate) fn nobody(alloc: Global) -> Told
        ensures { (t : ℕ) → is_told result t ≡ false }
    {
        Told {
            sessions: Vec::new(alloc),
            all: false,
        }
    }

    /// Any session of the room. Allocates nothing.
    pub(crate) fn everybody(alloc: Global) -> Told
        ensures { (t : ℕ) → is_told result t ≡ true }
    {
        Told {
            sessions: Vec::new(alloc),
            all: true,
        }
    }
    /// Adds these sessions. Out of memory changes nothing.
    pub(crate) fn add(&mut self, sessions: &[u64]) -> Result<(), AllocError>
        ensures { OnOk result ((t : ℕ) → is_told self.new t
            ≡ (is_told self.old t || list_any (nat_eq t) sessions.now)) }
    {
        self.sessions.extend_from_slice(sessions)
    }
}
