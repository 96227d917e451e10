//! The trait of a script's transport: a hub, or sockets in front of one.
ghost use Rattle.std.specs.Prelude.{◌≡◌, ℕ, Option, Result, IfOk};
ghost use Rattle.relay_hub.specs.declared.event.Event.{Event};
ghost use Rattle.relay_hub.specs.declared.event.Event.TheVariants.{Open, Receive, Draw, Close};
ghost use Rattle.relay_hub.specs.declared.event.Event.TheVariants.{DoWill};
ghost use Rattle.relay_hub.specs.declared.fault.HubFault.{HubFault};
ghost use Rattle.relay_tree.specs.Document.{Document};
ghost use Rattle.relay_script.specs.declared.outcome.Outcome.{Outcome};

use crate::outcome::Outcome;
use relay_access::Access;
use relay_hub::HubFault;
use relay_tree::Tree;
use std::alloc::{AllocError, Global};

/// Carries a script's events to a hub. An `AllocError` ends the script; a hub call that is out of
/// memory is an outcome.
///
/// ```
/// let mut hub = Hub::new(alloc, 1, 1, 64, 32).ok()?;
/// let opened = hub.open_session(alloc, "board", Access::ReadWrite).ok()?;
/// assert!(rt; matches!(opened, Outcome::Answered(Answer::Opened(_))));
/// let closed = hub.close_session(alloc, 1).ok()?;
/// assert!(rt; matches!(closed, Outcome::Answered(Answer::Closed)));
/// ```
pub trait Transport {
    // The state before an event, the event, its outcome, and the state after it.
    ghost comes: { Self → Event → Outcome → Self → Type 0 };

    // A state, a session, and the result of `truth_of` for them.
    ghost tells: { Self → ℕ → Result (Option (ℕ × Document)) HubFault → Type 0 };

    /// Opens a session in a room, with this access.
    fn open_session(
        &mut self,
        alloc: Global,
        room: &str,
        access: Access,
    ) -> Result<Outcome, AllocError>
        ensures { IfOk result (λ outcome. comes self.old (Open room.now access) outcome self.new) };

    /// Sends a text from a session.
    fn say(&mut self, alloc: Global, session: u64, text: &str) -> Result<Outcome, AllocError>
        ensures { IfOk result
            (λ outcome. comes self.old (Receive session text.now) outcome self.new) };

    /// Draws the next text from a session's outbox.
    fn draw_one(&mut self, alloc: Global, session: u64) -> Result<Outcome, AllocError>
        ensures { IfOk result (λ outcome. comes self.old (Draw session) outcome self.new) };

    /// Closes a session.
    fn close_session(&mut self, alloc: Global, session: u64) -> Result<Outcome, AllocError>
        ensures { IfOk result (λ outcome. comes self.old (Close session) outcome self.new) };

    /// Does the oldest of the wills that closed sessions left.
    fn do_one_will(&mut self, alloc: Global) -> Result<Outcome, AllocError>
        ensures { IfOk result (λ outcome. comes self.old DoWill outcome self.new) };

    /// The present revision, and the session's view of the present document. `None` if the session
    /// watches nothing.
    fn truth_of(&self, alloc: Global, session: u64) -> Result<Option<(u64, Tree)>, HubFault>
        ensures { tells self.now session result };
}
