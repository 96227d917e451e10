//! Application of patches: all operations of a patch, or none.
ghost use Rattle.std.specs.Prelude.{◌≡◌, ◌≢◌, ◌<◌, ◌-◌, ◌^◌, Ok, Err, Some, IsSome, IfOk, IfErr};
ghost use Rattle.std.specs.Prelude.{OnOk, OnErr};
ghost use Rattle.std.specs.List.{AllByRecursion};
ghost use Rattle.relay_tree.specs.Budget.{paid};
ghost use Rattle.relay_tree.specs.Document.{weight};
ghost use Rattle.relay_patch.specs.After.{after, Reaches};
ghost use Rattle.relay_patch.specs.Patch.{within};
ghost use Rattle.relay_patch.specs.Change.{Leads, all_changes};
ghost use Rattle.relay_patch.specs.Sizes.{ChangeFits};
ghost use Rattle.relay_patch.specs.Measure.{Known};
ghost use Rattle.relay_apply.specs.Undo.{taken_back};
ghost use Rattle.relay_patch.specs.Weight.{changes_weight};
ghost use Rattle.relay_patch.specs.declared.fault.Cause.TheVariants.{NoMemory};

use crate::steps::{Done, perform};
use crate::undo::{Undo, take_back};
use relay_patch::{ApplyFault, Bounds, Change, Op, Patch};
use relay_tree::Tree;
use std::alloc::Global;

/// Applies a patch to the tree (RFC 6902, section 5) and returns what it changed. The operations
/// are applied in order, and after each the document, and the changes so far, must be within the
/// bounds. If an operation is refused or memory runs out, the tree is as it was.
///
/// The changes are those of the operations in order, with canonical paths. They lead from the old
/// document to the new one. A `test`, and a `move` to its own place, change nothing. If the depth
/// is bounded and the old document is within the bounds, no path of a change has more tokens than
/// that bound and no value is deeper.
///
/// The tree is changed in place. An operation costs its paths, what it removes, and two copies of
/// its value: one in the change, and one in the tree; a move copies its value for the change alone.
/// An insertion or a removal shifts the later parts of its container. A move within one list by at
/// most 64 places swaps neighbours; a longer one takes the element out and puts it in. If an
/// operation is refused, the earlier ones are undone. A removal reserves the memory for its undo
/// before it is made; that memory is hardly ever used. The document is measured once, as far as
/// there are bounds, and again after the first change if it was outside them. After that, only what
/// an operation changed is measured.
///
/// ```
/// let mut board = read(alloc, r#"{"cards": ["a", "b"]}"#).ok()?;
/// let ops = read(alloc, r#"[{"op": "remove", "path": "/cards/0"}]"#).ok()?;
/// let patch = Patch::from_owned(alloc, ops, PatchLimits::REQUEST).ok()?;
/// let changes = apply(alloc, &mut board, &patch, Bounds::DOCUMENT).ok()?;
/// assert!(rt; board.text(alloc).ok()?.as_str() == r#"{"cards":["b"]}"#);
/// assert!(rt; matches!(&changes[0], Change::DropItem { .. }));
/// ```
pub fn apply(
    alloc: Global,
    tree: &mut Tree,
    patch: &Patch,
    bounds: Bounds,
) -> Result<Vec<Change>, ApplyFault>
    ensures document { OnOk result (after tree.old patch.now bounds ≡ Ok tree.new) }
    ensures changes { IfOk result (λ changes. changes.items ≡ all_changes tree.old patch.now) }
    ensures paid { IfOk result (λ changes.
        IsSome (paid (changes_weight changes.items) bounds.changes)) }
    ensures led { IfOk result (λ changes. Leads tree.old changes.items tree.new) }
    ensures sizes { IfOk result (λ changes. bounds.depth < 2 ^ 64 - 1
        → within bounds tree.old ≡ Ok tree.old
        → AllByRecursion (ChangeFits bounds.depth bounds.depth) changes.items) }
    ensures refused { IfErr result (λ fault. fault.cause ≢ NoMemory
        → after tree.old patch.now bounds ≡ Err fault) }
    ensures memory { IfErr result (λ fault. fault.cause ≡ NoMemory
        → Reaches tree.old patch.now bounds fault.at) }
    ensures unchanged { IfErr result (λ _. tree.new ≡ tree.old) }
{
    match run(alloc, tree, None, patch.ops(), bounds) {
        Ok(Done { changes, .. }) => Ok(changes),
        Err(fault) => Err(fault),
    }
}

/// The result of a patch on a document whose weight the caller keeps. See [`apply_within`].
#[derive(Drop)]
pub struct Applied {
    pub changes: Vec<Change>,
    /// The new weight of the document. Unspecified if the weight is not bounded.
    pub weight: u64,
}

/// Applies a patch as [`apply`] does, to a tree that is within the bounds and has the weight
/// `known`. The document is not measured, so an edit costs only what it touches.
///
/// ```
/// let mut count = read(alloc, r#"{"n": 1}"#).ok()?;
/// let ops = read(alloc, r#"[{"op": "replace", "path": "/n", "value": 2}]"#).ok()?;
/// let patch = Patch::from_owned(alloc, ops, PatchLimits::REQUEST).ok()?;
/// let weight = count.weight();
/// let applied = apply_within(alloc, &mut count, weight, &patch, Bounds::DOCUMENT).ok()?;
/// assert!(rt; applied.weight == weight);
/// ```
pub fn apply_within(
    alloc: Global,
    tree: &mut Tree,
    known: u64,
    patch: &Patch,
    bounds: Bounds,
) -> Result<Applied, ApplyFault>
    requires fits { within bounds tree.old ≡ Ok tree.old }
    requires weighs { known ≡ weight tree.old }
    ensures document { OnOk result (after tree.old patch.now bounds ≡ Ok tree.new) }
    ensures changes { IfOk result (λ applied.
        applied.changes.items ≡ all_changes tree.old patch.now) }
    ensures paid { IfOk result (λ applied.
        IsSome (paid (changes_weight applied.changes.items) bounds.changes)) }
    ensures led { IfOk result (λ applied. Leads tree.old applied.changes.items tree.new) }
    ensures sizes { IfOk result (λ applied. bounds.depth < 2 ^ 64 - 1
        → AllByRecursion (ChangeFits bounds.depth bounds.depth) applied.changes.items) }
    ensures weight { IfOk result (λ applied. bounds.weight < 2 ^ 64 - 1
        → applied.weight ≡ weight tree.new) }
    ensures refused { IfErr result (λ fault. fault.cause ≢ NoMemory
        → after tree.old patch.now bounds ≡ Err fault) }
    ensures memory { IfErr result (λ fault. fault.cause ≡ NoMemory
        → Reaches tree.old patch.now bounds fault.at) }
    ensures unchanged { IfErr result (λ _. tree.new ≡ tree.old) }
{
    match run(alloc, tree, Some(known), patch.ops(), bounds) {
        Ok(
            Done {
                changes,
                weight,
                ..
            },
        ) => Ok(Applied {
            changes,
            weight: weight.unwrap(),
        }),
        Err(fault) => Err(fault),
    }
}

// Applies the operations in order. If one is refused, those before it are taken back.
fn run(
    alloc: Global,
    tree: &mut Tree,
    known: Option<u64>,
    ops: &[Op],
    bounds: Bounds,
) -> Result<Done, ApplyFault>
    requires { Known bounds tree.old known }
    ensures known { IfOk result (λ done. Known bounds tree.new done.weight) }
    ensures weighed { IfOk result (λ done. IsSome known → IsSome done.weight) }
    ensures document { OnOk result (after tree.old ops.now bounds ≡ Ok tree.new) }
    ensures changes { IfOk result (λ done. done.changes.items ≡ all_changes tree.old ops.now) }
    ensures paid { IfOk result (λ done. paid (changes_weight done.changes.items) bounds.changes
        ≡ Some done.left) }
    ensures refused { IfErr result (λ fault. fault.cause ≢ NoMemory
        → after tree.old ops.now bounds ≡ Err fault) }
    ensures memory { IfErr result (λ fault. fault.cause ≡ NoMemory
        → Reaches tree.old ops.now bounds fault.at) }
    ensures unchanged { IfErr result (λ _. tree.new ≡ tree.old) }
{
    let mut kept = Vec::new(alloc);
    match run_keeping(alloc, tree, &mut kept, known, ops, bounds) {
        Ok(done) => Ok(done),
        Err(fault) => {
            take_back(tree, kept);
            Err(fault)
        }
    }
}

// Applies the operations in order and keeps what takes them back.
#[tactic(auto, using(relay_tree::proofs::Budgets::paid_nothing))]
fn run_keeping(
    alloc: Global,
    tree: &mut Tree,
    kept: &mut Vec<Undo>,
    known: Option<u64>,
    ops: &[Op],
    bounds: Bounds,
) -> Result<Done, ApplyFault>
    requires { Known bounds tree.old known }
    ensures known { IfOk result (λ done. Known bounds tree.new done.weight) }
    ensures weighed { IfOk result (λ done. IsSome known → IsSome done.weight) }
    ensures document { OnOk result (after tree.old ops.now bounds ≡ Ok tree.new) }
    ensures changes { IfOk result (λ done. done.changes.items ≡ all_changes tree.old ops.now) }
    ensures paid { IfOk result (λ done. paid (changes_weight done.changes.items) bounds.changes
        ≡ Some done.left) }
    ensures refused { IfErr result (λ fault. fault.cause ≢ NoMemory
        → after tree.old ops.now bounds ≡ Err fault) }
    ensures memory { IfErr result (λ fault. fault.cause ≡ NoMemory
        → Reaches tree.old ops.now bounds fault.at) }
    ensures back { OnErr result (taken_back tree.new kept.new.items
        ≡ taken_back tree.old kept.old.items) }
{
    let mut done = Done {
        changes: Vec::new(alloc),
        weight: known,
        left: bounds.changes,
    };
    for (at, op) in ops.iter().enumerate() {
        let following = ops.len() - at - 1;
        done = match perform(alloc, tree, kept, done, op, bounds, following) {
            Ok(done) => done,
            Err(cause) => return Err(ApplyFault {
                at: at as u64,
                cause,
            }),
        };
    }
    Ok(done)
}
