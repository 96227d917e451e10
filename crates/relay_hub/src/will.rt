//! The will that a session leaves behind.
ghost use Rattle.std.specs.Prelude.{◌≡◌, ◌<◌, ◌++◌, length, vec_capacity};
ghost use Rattle.relay_hub.specs.Step.{left_of};

use relay_patch::Patch;

/// The will of a session that is closed, which waits to be done.
///
/// ```
/// let mut hub = Hub::new(alloc, 1, 5, 64, 32).ok()?;
/// let session = hub.open(alloc, "board", Access::ReadWrite).ok()?.session;
/// let will = r#"{"do": "will", "id": 1, "patch": [{"op": "add", "path": "", "value": 7}]}"#;
/// hub.receive(alloc, session, will).ok()?;
/// hub.close(session).ok()?;
/// let will = hub.waiting_wills().first()?;
/// assert!(rt; will.session == 5 && will.number == 1 && will.room_index == 0);
/// ```
#[derive(Drop)]
pub struct Will {
    /// The number of the session that left it.
    pub session: u64,
    /// Its number among the wills that the session left, from 1 on.
    pub number: u64,
    /// The index of the room in which the session was.
    pub room_index: usize,
    /// An edit of that room. It is not empty.
    pub patch: Patch,
}

/// Adds the will of a session, unless it is empty. There is space for it.
pub(crate) fn leave_behind(wills: &mut Vec<Will>, will: Will)
    requires { length wills.old.items < vec_capacity wills.old }
    ensures wills { wills.new.items ≡ wills.old.items
        ++ left_of will.session will.number will.room_index will.patch }
    ensures capacity { vec_capacity wills.new ≡ vec_capacity wills.old }
{
    if !will.patch.ops().is_empty() {
        wills.push_reserved(will);
    }
}
