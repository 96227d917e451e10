//! The will of an open session, as a store asks for it.
ghost use Rattle.std.specs.Prelude.{◌≡◌};
ghost use Rattle.relay_hub.specs.SessionWill.{held_will, shown_will};

use crate::session::Session;
use relay_patch::Patch;

/// The will that an open session has left. Each later one of the session has a higher number, up to
/// `u64::MAX`.
///
/// ```
/// let mut hub = Hub::new(alloc, 1, 1, 64, 32).ok()?;
/// let session = hub.open(alloc, "board", Access::ReadWrite).ok()?.session;
/// let will = r#"{"do": "will", "id": 1, "patch": [{"op": "add", "path": "", "value": 7}]}"#;
/// hub.receive(alloc, session, will).ok()?;
/// let kept = hub.will_in(0, 0)?;
/// assert!(rt; kept.session == session && kept.number == 1 && kept.patch.ops().len() == 1);
/// ```
#[derive(Clone, Copy)]
pub struct SessionWill<'h> {
    /// The number of the session.
    pub session: u64,
    /// The number of wills that it has left so far; 0 if none.
    pub number: u64,
    /// The patch for when it has ended. It is empty if it left none.
    pub patch: &'h Patch,
}

/// The will of a session. Allocates nothing.
pub(crate) fn will_held(session: &Session) -> SessionWill<'_>
    ensures { shown_will result ≡ held_will session.now }
{
    SessionWill {
        session: session.number(),
        number: session.will_number(),
        patch: session.will(),
    }
}
