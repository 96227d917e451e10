//! Copies of views.
ghost use Rattle.std.specs.Prelude.{◌≡◌, IfOk};

use relay_view::{Slot, View};
use std::alloc::{AllocError, Global};

/// Returns a copy of the view, which shares its pointers.
pub(crate) fn copy_view(alloc: Global, view: &View) -> Result<View, AllocError>
    ensures { IfOk result (λ copy. copy ≡ view.now) }
{
    let mut slots = Vec::with_capacity(alloc, view.slots().len())?;
    for slot in view.slots() {
        slots.push(copy_slot(alloc, slot)?)?;
    }
    Ok(View::of_slots(slots))
}

fn copy_slot(alloc: Global, slot: &Slot) -> Result<Slot, AllocError>
    ensures { IfOk result (λ copy. copy ≡ slot.now) }
{
    Ok(Slot {
        pointer: slot.pointer.copy()?,
        kind: slot.kind,
    })
}
