//! Translation of changes into the operations on a view.
ghost use Rattle.std.specs.Prelude.{◌≡◌, ◌++◌, [], ◌∷◌, map, flat_map, IfOk, IsSome};
ghost use Rattle.std.specs.List.{list_any};
ghost use Rattle.relay_translate.specs.Local.{LeavesApart, FollowsInside, ReplacesReset};
ghost use Rattle.relay_translate.specs.Sizes.{FitsWith};
ghost use Rattle.relay_translate.specs.Touch.{touch_slot};
ghost use Rattle.relay_translate.specs.Translate.{LeadsViews, afforded, in_view, is_reset, local};
ghost use Rattle.relay_translate.specs.Translate.{op_of, slot_op, slot_ops};
ghost use Rattle.relay_tree.specs.Budget.{paid};
ghost use Rattle.relay_pointer.specs.Index.{index_text};
ghost use Rattle.relay_patch.specs.Weight.{op_weight, ops_weight};
ghost use Rattle.relay_patch.specs.declared.op.Op.TheVariants as op;
ghost use Rattle.relay_view.specs.View.{slot as shown};

use crate::kind::Touch;
use crate::site::Site;
use crate::touching::touch;
use relay_patch::{Change, Op, Patch, pay_part};
use relay_tree::{Budget, Tree};
use relay_view::{Slot, SlotKind, View};
use std::alloc::{AllocError, Global};

/// Returns the operations, slot by slot, that bring a view of the document before the changes to
/// the view of `now`, the document after them. A slot that a change resets is replaced whole. In
/// any other slot, each change inside becomes one operation.
///
/// Costs the number of changes times the number of slots, and a copy of each value that an
/// operation carries. The document is read only for the slots that are reset. See
/// `docs/PROTOCOL.md`, "What a change means to a slot".
///
/// ```
/// let view = View::read(alloc, &read(alloc, r#"["/title", "/cards"]"#).ok()?).ok()?;
/// let change = Change::DropItem { path: Pointer::read(alloc, "/cards/3", 64).ok()? };
/// let now = read(alloc, r#"{"cards": ["a", "b", "c"], "title": "x"}"#).ok()?;
/// let patch = translate(alloc, &[&change], &now, &view).ok()?;
/// // Element 3 of the list, which is the value that slot 1 shows.
/// let ops = patch.to_tree(alloc).ok()?;
/// assert!(rt; ops.text(alloc).ok()?.as_str() == r#"[{"op":"remove","path":"/1/0/3"}]"#);
/// ```
pub fn translate(
    alloc: Global,
    changes: &[&Change],
    now: &Tree,
    view: &View,
) -> Result<Patch, AllocError>
    ensures exact { IfOk result
        (λ patch. patch ≡ local (map (λ c. c.now) changes.now) now.now view.now) }
    ensures apart { IfOk result (LeavesApart (map (λ c. c.now) changes.now) view.now) }
    ensures inside { IfOk result (FollowsInside (map (λ c. c.now) changes.now) view.now) }
    ensures reset { IfOk result (ReplacesReset (map (λ c. c.now) changes.now) now.now view.now) }
    ensures leads { IfOk result
        (λ patch. LeadsViews (map (λ c. c.now) changes.now) now.now view.now patch) }
    ensures sizes { IfOk result (λ patch. FitsWith (map (λ c. c.now) changes.now) now.now patch) }
{
    match translate_within(alloc, changes, now, view, Budget::Unbounded)? {
        Some(patch) => Ok(patch),
        None => unreachable!(),
    }
}

/// Like [`translate`], but returns `None` if the operations together weigh more than the budget.
///
/// No value is copied before it is paid for, so the cost is the number of changes times the number
/// of slots, plus what the budget pays for.
///
/// ```
/// let view = View::read(alloc, &read(alloc, r#"["/n"]"#).ok()?).ok()?;
/// let path = Pointer::read(alloc, "/n", 64).ok()?;
/// let change = Change::Set { path, value: Tree::of_count(7) };
/// let now = read(alloc, r#"{"n": 7}"#).ok()?;
/// // The operation sets "/0" to [7], which weighs 25.
/// let some = translate_within(alloc, &[&change], &now, &view, Budget::Left(25)).ok()?;
/// let none = translate_within(alloc, &[&change], &now, &view, Budget::Left(24)).ok()?;
/// assert!(rt; some.is_some() && none.is_none());
/// ```
pub fn translate_within(
    alloc: Global,
    changes: &[&Change],
    now: &Tree,
    view: &View,
    budget: Budget,
) -> Result<Option<Patch>, AllocError>
    ensures { IfOk result
        (λ patch. patch ≡ afforded budget (local (map (λ c. c.now) changes.now) now.now view.now)) }
{
    let mut ops = Vec::new(alloc);
    let mut left = budget;
    for (number, slot) in view.slots().iter().enumerate() {
        match push_slot(alloc, number as u64, slot, changes, now, &mut ops, left)? {
            Some(rest) => left = rest,
            None => return Ok(None),
        }
    }
    Ok(Some(Patch::from_ops(ops)))
}

/// Adds the operations on one slot and returns the rest of the budget, or `None` if the budget does
/// not pay for them.
#[tactic(auto, using(crate::proofs::Lent::reset_slot, crate::proofs::Weights::one_weighs))]
fn push_slot(
    alloc: Global,
    number: u64,
    slot: &Slot,
    changes: &[&Change],
    now: &Tree,
    ops: &mut Vec<Op>,
    budget: Budget,
) -> Result<Option<Budget>, AllocError>
    ensures left { IfOk result
        (λ left. left
        ≡ paid (ops_weight (slot_ops number slot.now (map (λ c. c.now) changes.now) now.now))
        budget) }
    ensures pushed { IfOk result
        (λ left. IsSome left
        → ops.new.items ≡ ops.old.items
        ++ slot_ops number slot.now (map (λ c. c.now) changes.now) now.now) }
{
    let site = Site {
        number,
        pointer: &slot.pointer,
    };
    if is_reset(changes, slot) {
        push_reset(alloc, &site, slot, now, ops, budget)
    } else {
        push_inside(alloc, &site, slot.kind, changes, ops, budget)
    }
}

/// Adds the operation that replaces a whole slot.
#[tactic(auto, using(relay_tree::proofs::Budgets::paid_on, relay_tree::proofs::Budgets::paid_out))]
fn push_reset(
    alloc: Global,
    site: &Site<'_>,
    slot: &Slot,
    now: &Tree,
    ops: &mut Vec<Op>,
    budget: Budget,
) -> Result<Option<Budget>, AllocError>
    ensures left { IfOk result
        (λ left. left
        ≡ paid (op_weight (op.Replace (index_text site.now.number ∷ []) (shown slot.now now.now)))
        budget) }
    ensures pushed { IfOk result
        (λ left. IsSome left
        → ops.new.items ≡ ops.old.items
        ++ op.Replace (index_text site.now.number ∷ []) (shown slot.now now.now) ∷ []) }
{
    let path = site.place(alloc)?;
    let Some(left) = slot.pay(now, budget) else {
        return Ok(None);
    };
    let Some(left) = path.pay(left) else {
        return Ok(None);
    };
    let value = slot.of(alloc, now)?;
    ops.push(Op::Replace { path, value })?;
    Ok(Some(left))
}

/// Adds one operation for each change inside what a slot of this kind shows.
fn push_inside(
    alloc: Global,
    site: &Site<'_>,
    kind: SlotKind,
    changes: &[&Change],
    ops: &mut Vec<Op>,
    budget: Budget,
) -> Result<Option<Budget>, AllocError>
    ensures left { IfOk result
        (λ left. left
        ≡ paid (ops_weight
        (flat_map (slot_op site.now.number (record { pointer = site.now.pointer.now; kind = kind }))
        (map (λ c. c.now) changes.now))) budget) }
    ensures pushed { IfOk result
        (λ left. IsSome left
        → ops.new.items ≡ ops.old.items
        ++ flat_map (slot_op site.now.number
        (record { pointer = site.now.pointer.now; kind = kind })) (map (λ c. c.now) changes.now)) }
{
    let mut left = budget;
    for change in changes {
        match push_change(alloc, site, kind, change, ops, left)? {
            Some(rest) => left = rest,
            None => return Ok(None),
        }
    }
    Ok(Some(left))
}

/// Adds the operation of a change, if it is inside what a slot of this kind shows.
fn push_change(
    alloc: Global,
    site: &Site<'_>,
    kind: SlotKind,
    change: &Change,
    ops: &mut Vec<Op>,
    budget: Budget,
) -> Result<Option<Budget>, AllocError>
    ensures left { IfOk result
        (λ left. left
        ≡ paid (ops_weight
        (slot_op site.now.number
        (record { pointer = site.now.pointer.now; kind = kind }) change.now)) budget) }
    ensures pushed { IfOk result
        (λ left. IsSome left
        → ops.new.items ≡ ops.old.items
        ++ slot_op site.now.number
        (record { pointer = site.now.pointer.now; kind = kind }) change.now) }
{
    match touch(change, site.pointer, kind) {
        Touch::Inside => push_operation(alloc, site, change, ops, budget),
        Touch::Apart | Touch::Reset => Ok(Some(budget)),
    }
}

/// Adds the operation that a change inside becomes.
#[tactic(auto, using(relay_tree::proofs::Budgets::paid_on, relay_tree::proofs::Budgets::paid_out, crate::proofs::Weights::carried_in_view))]
fn push_operation(
    alloc: Global,
    site: &Site<'_>,
    change: &Change,
    ops: &mut Vec<Op>,
    budget: Budget,
) -> Result<Option<Budget>, AllocError>
    ensures left { IfOk result
        (λ left. left
        ≡ paid (op_weight
        (in_view site.now.number site.now.pointer.now (op_of site.now.pointer.now change.now)))
        budget) }
    ensures pushed { IfOk result
        (λ left. IsSome left
        → ops.new.items ≡ ops.old.items
        ++ in_view site.now.number site.now.pointer.now (op_of site.now.pointer.now change.now)
        ∷ []) }
{
    let Some(left) = pay_part(site.carried(change), budget) else {
        return Ok(None);
    };
    let operation = site.operation(alloc, change)?;
    let Some(left) = operation.pay_paths(left) else {
        return Ok(None);
    };
    ops.push(operation)?;
    Ok(Some(left))
}

/// Returns whether some change resets the slot.
fn is_reset(changes: &[&Change], slot: &Slot) -> bool
    ensures { result ≡ list_any (λ c. is_reset (touch_slot c.now slot.now)) changes.now }
{
    changes.iter().any(|change| touch(change, &slot.pointer, slot.kind).is_reset())
}
