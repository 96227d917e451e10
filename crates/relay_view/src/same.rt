//! Equality of views.
ghost use Rattle.std.specs.Prelude.{◌≡◌, ◌↔◌, IsTrue, length};

use crate::slot::Slot;
use crate::view::View;
use relay_pointer::same_path;

impl View {
    /// Returns whether both views have the same slots in the same order. Allocates nothing.
    ///
    /// ```
    /// let value = View::read(alloc, &read(alloc, r#"["/cards"]"#).ok()?).ok()?;
    /// let size = View::read(alloc, &read(alloc, r#"[{"size": "/cards"}]"#).ok()?).ok()?;
    /// assert!(rt; value.same(&value) && !value.same(&size));
    /// ```
    pub fn same(&self, other: &View) -> bool
        ensures { IsTrue result ↔ (self.now ≡ other.now) }
    {
        same_slots(self.slots(), other.slots())
    }
}

fn same_slots(slots: &[Slot], others: &[Slot]) -> bool
    ensures { IsTrue result ↔ (slots.now ≡ others.now) }
{
    if slots.len() != others.len() {
        return false;
    }
    for (slot, other) in slots.iter().zip(others) {
        if !same_slot(slot, other) {
            return false;
        }
    }
    true
}

fn same_slot(slot: &Slot, other: &Slot) -> bool
    ensures { IsTrue result ↔ (slot.now ≡ other.now) }
{
    slot.kind == other.kind && same_path(slot.pointer.tokens(), other.pointer.tokens())
}
