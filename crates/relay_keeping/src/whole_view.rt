//! The view of a whole document.
ghost use Rattle.std.specs.Prelude.{◌≡◌};
ghost use Rattle.relay_keeping.specs.Mirrored.{whole_view};

use relay_pointer::Pointer;
use relay_view::{Slot, SlotKind, View};
use std::alloc::{AllocError, Global};

/// A view whose only slot is the value at the root.
#[derive(Drop)]
pub(crate) struct WholeView {
    view: View,
    ghost is_whole: { view ≡ whole_view },
}

impl WholeView {
    pub(crate) fn new(alloc: Global) -> Result<WholeView, AllocError> {
        let mut slots = Vec::new(alloc);
        slots.push(Slot {
            pointer: Pointer::root(),
            kind: SlotKind::Value,
        })?;
        Ok(WholeView {
            view: View::of_slots(slots),
        })
    }

    /// The view. Allocates nothing.
    pub(crate) fn view(&self) -> &View
        ensures { result.now ≡ whole_view }
    {
        &self.view
    }
}
