//! Requests for a room's door: that clients may enter the room, or that nobody may.
ghost use Rattle.std.specs.Prelude.{◌≡◌, IfOk};
ghost use Rattle.relay_admin.specs.Judged.{verdict_told};
ghost use Rattle.relay_admin.specs.Verdict.{accept, door_asked};

use crate::answer::Ask;
use std::alloc::{AllocError, Global};

/// Returns what a method asks of the door of a room, of which the name stands behind `/open/`. It
/// must be a method that doors take.
pub(crate) fn asked_of_door(alloc: Global, name: &str, method: &str) -> Result<Ask, AllocError>
    ensures { IfOk result (λ answer. verdict_told answer
        ≡ accept (door_asked name.now method.now)) }
{
    let name = String::from_str(alloc, name)?;
    match method {
        "PUT" => Ok(Ask::Admit(name)),
        _ => Ok(Ask::Exclude(name)),
    }
}
