//! The order of views.
ghost use Rattle.std.specs.Prelude.{◌≡◌};
ghost use Rattle.relay_audience.specs.ViewOrder.{kind_rank, slot_cmp, view_cmp};

use relay_view::{Slot, SlotKind};
use std::cmp::Ordering;

/// Compares the slots of two views one by one. A view is before those that begin with its slots and
/// have more. Allocates nothing.
pub fn compare_slots(slots: &[Slot], others: &[Slot]) -> Ordering
    ensures { result ≡ view_cmp slots.now others.now }
{
    for (slot, other) in slots.iter().zip(others) {
        let order = compare_slot(slot, other);
        if order.is_ne() {
            return order;
        }
    }
    slots.len().cmp(&others.len())
}

/// Compares two slots by their tokens, and then by their kind.
fn compare_slot(slot: &Slot, other: &Slot) -> Ordering
    ensures { result ≡ slot_cmp slot.now other.now }
{
    let tokens = slot.pointer.tokens().cmp(&other.pointer.tokens());
    tokens.then(rank(slot.kind).cmp(&rank(other.kind)))
}

/// Returns the place of a kind among the kinds.
fn rank(kind: SlotKind) -> u8
    ensures { result ≡ kind_rank kind }
{
    match kind {
        SlotKind::Value => 0,
        SlotKind::Size => 1,
    }
}
