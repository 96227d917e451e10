//! One operation of a patch: its checks, the change that it makes, and the bounds on the document
//! after it.
ghost use Rattle.std.specs.Prelude.{◌≡◌, ◌≢◌, ◌<◌, ◌+◌, ◌++◌, ◌∷◌, [], Ok, Err, Some, false, IsOk};
ghost use Rattle.std.specs.Prelude.{IsSome, OnOk, OnErr, IfOk, IfErr, IfSome, IfNone, None};
ghost use Rattle.relay_tree.specs.Document.{Document, weight};
ghost use Rattle.relay_tree.specs.Budget.{paid};
ghost use Rattle.relay_tree.specs.declared.budget.Budget.{Budget};
ghost use Rattle.relay_patch.specs.Patch.{effect, within};
ghost use Rattle.relay_patch.specs.After.{afforded, performed};
ghost use Rattle.relay_patch.specs.Change.{Makes, Leads, changes_of};
ghost use Rattle.relay_patch.specs.Measure.{is_transfer, Known};
ghost use Rattle.relay_apply.specs.Steps.{listed};
ghost use Rattle.relay_apply.specs.Undo.{taken_back};
ghost use Rattle.relay_patch.specs.Weight.{change_weight, changes_weight};
ghost use Rattle.relay_patch.specs.declared.fault.Cause.TheVariants.{NoMemory, TooHeavy};

use crate::change_of::change_of;
use crate::keeping::{as_transfer, finish_transfer, make_keeping, make_with_undo};
use crate::making::make;
use crate::measuring::{displaced, gone, measure, weight_after};
use crate::reinsertion::{reinsert, remove_with_undo};
use crate::undo::Undo;
use relay_patch::{Bounds, Cause, Change, Op};
use relay_tree::{Budget, Tree};
use std::alloc::{AllocError, Global};

/// The effects of the operations so far on the document.
#[derive(Drop)]
pub(crate) struct Done {
    pub(crate) changes: Vec<Change>,
    /// The weight of the document, once it is known to be within the bounds. Unspecified if the
    /// weight is not bounded.
    pub(crate) weight: Option<u64>,
    /// The weight that the changes of the operations to come may have.
    pub(crate) left: Budget,
}

/// Performs one operation, which `following` others follow, and checks the bounds. Keeps what takes
/// it back if others follow, and for a transfer in any case.
pub(crate) fn perform(
    alloc: Global,
    tree: &mut Tree,
    kept: &mut Vec<Undo>,
    done: Done,
    op: &Op,
    bounds: Bounds,
    following: usize,
) -> Result<Done, Cause>
    requires known { Known bounds tree.old done.weight }
    requires paid { paid (changes_weight done.changes.items) bounds.changes ≡ Some done.left }
    ensures known { IfOk result (λ next. Known bounds tree.new next.weight) }
    ensures paid { IfOk result (λ next. paid (changes_weight next.changes.items) bounds.changes
        ≡ Some next.left) }
    ensures weighed { IfOk result (λ next. IsSome next.weight) }
    ensures document { OnOk result (performed bounds (changes_weight done.changes.items) tree.old
        op.now ≡ Ok tree.new) }
    ensures changes { IfOk result (λ next. next.changes.items
        ≡ done.changes.items ++ changes_of tree.old op.now) }
    ensures refused { IfErr result (λ cause. cause ≢ NoMemory
        → performed bounds (changes_weight done.changes.items) tree.old op.now ≡ Err cause) }
    ensures memory { IfErr result (λ cause. cause ≡ NoMemory → IsOk (effect tree.old op.now)) }
    ensures back { OnOk result (0 < following
        → taken_back tree.new kept.new.items ≡ taken_back tree.old kept.old.items) }
    ensures refused_back { OnErr result (taken_back tree.new kept.new.items
        ≡ taken_back tree.old kept.old.items) }
{
    let change = change_of(alloc, tree, op, done.left)?;
    advance(alloc, tree, kept, done, change, bounds, following)
}

// Makes the change, if there is one, within the bounds.
fn advance(
    alloc: Global,
    tree: &mut Tree,
    kept: &mut Vec<Undo>,
    done: Done,
    change: Option<Change>,
    bounds: Bounds,
    following: usize,
) -> Result<Done, Cause>
    requires makes { (next : Document) × Leads tree.old (listed change) next }
    requires known { Known bounds tree.old done.weight }
    requires paid { paid (changes_weight done.changes.items) bounds.changes ≡ Some done.left }
    ensures known { IfOk result (λ next. Known bounds tree.new next.weight) }
    ensures paid { IfOk result (λ next. paid (changes_weight next.changes.items) bounds.changes
        ≡ Some next.left) }
    ensures weighed { IfOk result (λ next. IsSome next.weight) }
    ensures fits { OnOk result (afforded bounds
        (changes_weight done.changes.items + changes_weight (listed change)) tree.new
        ≡ Ok tree.new) }
    ensures document { OnOk result (Leads tree.old (listed change) tree.new) }
    ensures changes { IfOk result (λ next. next.changes.items
        ≡ done.changes.items ++ listed change) }
    ensures refused { IfErr result (λ cause. cause ≢ NoMemory
        → (next : Document) × Leads tree.old (listed change) next
        × (afforded bounds (changes_weight done.changes.items + changes_weight (listed change))
        next ≡ Err cause)) }
    ensures back { OnOk result (0 < following
        → taken_back tree.new kept.new.items ≡ taken_back tree.old kept.old.items) }
    ensures refused_back { OnErr result (taken_back tree.new kept.new.items
        ≡ taken_back tree.old kept.old.items) }
{
    match change {
        Some(change) => make_paid(alloc, tree, kept, done, change, bounds, following),
        None => stay(tree, done, bounds),
    }
}

// Leaves the document as it is, which still has to be within the bounds.
fn stay(tree: &Tree, done: Done, bounds: Bounds) -> Result<Done, Cause>
    requires { Known bounds tree.now done.weight }
    ensures known { IfOk result (λ next. Known bounds tree.now next.weight) }
    ensures weighed { IfOk result (λ next. IsSome next.weight) }
    ensures changes { IfOk result (λ next. next.changes ≡ done.changes) }
    ensures left { IfOk result (λ next. next.left ≡ done.left) }
    ensures refused { IfErr result (λ cause. within bounds tree.now ≡ Err cause) }
{
    let weight = weigh(tree, done.weight, bounds)?;
    Ok(Done {
        weight: Some(weight),
        ..done
    })
}

// Makes a change within the bounds. It is paid for before it is made.
#[tactic(auto, using(crate::proofs::Spent::paid_more, crate::proofs::Spent::paid_afforded, crate::proofs::Spent::too_heavy))]
fn make_paid(
    alloc: Global,
    tree: &mut Tree,
    kept: &mut Vec<Undo>,
    done: Done,
    change: Change,
    bounds: Bounds,
    following: usize,
) -> Result<Done, Cause>
    requires makes { (next : Document) × Makes tree.old change next }
    requires known { Known bounds tree.old done.weight }
    requires paid { paid (changes_weight done.changes.items) bounds.changes ≡ Some done.left }
    ensures known { IfOk result (λ next. Known bounds tree.new next.weight) }
    ensures paid { IfOk result (λ next. paid (changes_weight next.changes.items) bounds.changes
        ≡ Some next.left) }
    ensures weighed { IfOk result (λ next. IsSome next.weight) }
    ensures fits { OnOk result (afforded bounds
        (changes_weight done.changes.items + changes_weight (change ∷ [])) tree.new ≡ Ok tree.new) }
    ensures document { OnOk result (Makes tree.old change tree.new) }
    ensures changes { IfOk result (λ next. next.changes.items ≡ done.changes.items ++ change ∷ []) }
    ensures refused { IfErr result (λ cause. cause ≢ NoMemory
        → (next : Document) × Makes tree.old change next
        × (afforded bounds (changes_weight done.changes.items + changes_weight (change ∷ [])) next
        ≡ Err cause)) }
    ensures back { OnOk result (0 < following
        → taken_back tree.new kept.new.items ≡ taken_back tree.old kept.old.items) }
    ensures refused_back { OnErr result (taken_back tree.new kept.new.items
        ≡ taken_back tree.old kept.old.items) }
{
    let index = done.changes.len();
    let mut next = pay_for(done, change)?;
    let change = &next.changes[index];
    match make_weighed(alloc, tree, kept, next.weight, change, bounds, following) {
        Ok(weight) => next.weight = Some(weight),
        Err(cause) => return Err(cause),
    }
    Ok(next)
}

// Pays for a change, and adds it to the others.
fn pay_for(done: Done, change: Change) -> Result<Done, Cause>
    ensures paid { IfOk result (λ next. paid (change_weight change) done.left ≡ Some next.left) }
    ensures weight { IfOk result (λ next. next.weight ≡ done.weight) }
    ensures changes { IfOk result (λ next. next.changes.items ≡ done.changes.items ++ change ∷ []) }
    ensures heavy { IfErr result (λ cause. cause ≢ NoMemory
        → (cause ≡ TooHeavy) × (paid (change_weight change) done.left ≡ None)) }
{
    let mut next = done;
    let left = change.pay(next.left);
    push(&mut next.changes, change)?;
    next.left = left.ok_or(Cause::TooHeavy)?;
    Ok(next)
}

// Adds a change, which is dropped if memory runs out.
fn push(changes: &mut Vec<Change>, change: Change) -> Result<(), AllocError>
    ensures { OnOk result (changes.new.items ≡ changes.old.items ++ change ∷ []) }
{
    changes.push(change)?;
    Ok(())
}

// The weight of a document that is within the bounds, measured unless it is known.
fn weigh(tree: &Tree, known: Option<u64>, bounds: Bounds) -> Result<u64, Cause>
    requires { Known bounds tree.now known }
    ensures ok { IfOk result (λ n. Known bounds tree.now (Some n)) }
    ensures err { IfErr result (λ cause. within bounds tree.now ≡ Err cause) }
{
    match known {
        Some(weight) => Ok(weight),
        None => measure(tree, bounds),
    }
}

// Makes a change and returns the weight after it.
fn make_weighed(
    alloc: Global,
    tree: &mut Tree,
    kept: &mut Vec<Undo>,
    known: Option<u64>,
    change: &Change,
    bounds: Bounds,
    following: usize,
) -> Result<u64, Cause>
    requires makes { (next : Document) × Makes tree.old change.now next }
    requires known { Known bounds tree.old known }
    ensures known { IfOk result (λ n. Known bounds tree.new (Some n)) }
    ensures made { OnOk result (Makes tree.old change.now tree.new) }
    ensures refused { IfErr result (λ cause. cause ≢ NoMemory
        → (next : Document) × Makes tree.old change.now next × (within bounds next ≡ Err cause)) }
    ensures back { OnOk result (0 < following
        → taken_back tree.new kept.new.items ≡ taken_back tree.old kept.old.items) }
    ensures refused_back { OnErr result (taken_back tree.new kept.new.items
        ≡ taken_back tree.old kept.old.items) }
{
    match weigh(tree, known, bounds) {
        Ok(weight) if following == 0 && as_transfer(change).is_none() => {
            make_last(alloc, tree, weight, change, bounds)
        }
        Ok(weight) => make_judged(alloc, tree, kept, weight, change, bounds),
        Err(_) => make_unjudged(alloc, tree, kept, change, bounds),
    }
}

// Makes the last change of a patch, to a document of this weight. It is judged before it is made,
// so nothing has to be kept.
fn make_last(
    alloc: Global,
    tree: &mut Tree,
    weight: u64,
    change: &Change,
    bounds: Bounds,
) -> Result<u64, Cause>
    requires makes { (next : Document) × Makes tree.old change.now next }
    requires in_place { is_transfer change.now ≡ false }
    requires known { Known bounds tree.old (Some weight) }
    ensures known { IfOk result (λ n. Known bounds tree.new (Some n)) }
    ensures made { OnOk result (Makes tree.old change.now tree.new) }
    ensures refused { IfErr result (λ cause. cause ≢ NoMemory
        → (next : Document) × Makes tree.old change.now next × (within bounds next ≡ Err cause)) }
    ensures unchanged { OnErr result (tree.new ≡ tree.old) }
{
    let weight = weight_after(weight, change, gone(tree, change), bounds)?;
    drop(make(alloc, tree, change)?);
    Ok(weight)
}

// Makes a change to a document of this weight and keeps what takes it back. A transfer is judged
// once its value is removed.
fn make_judged(
    alloc: Global,
    tree: &mut Tree,
    kept: &mut Vec<Undo>,
    weight: u64,
    change: &Change,
    bounds: Bounds,
) -> Result<u64, Cause>
    requires makes { (next : Document) × Makes tree.old change.now next }
    requires known { Known bounds tree.old (Some weight) }
    ensures known { IfOk result (λ n. Known bounds tree.new (Some n)) }
    ensures made { OnOk result (Makes tree.old change.now tree.new) }
    ensures refused { IfErr result (λ cause. cause ≢ NoMemory
        → (next : Document) × Makes tree.old change.now next × (within bounds next ≡ Err cause)) }
    ensures back { taken_back tree.new kept.new.items ≡ taken_back tree.old kept.old.items }
{
    let Some((from, to)) = as_transfer(change) else {
        return make_in_place(alloc, tree, kept, weight, change, bounds);
    };
    let removed = remove_with_undo(alloc, tree, from)?;
    let next = match weight_after(weight, change, displaced(tree, to), bounds) {
        Ok(next) => next,
        Err(cause) => {
            reinsert(tree, removed.reinsertion, removed.value);
            return Err(cause);
        }
    };
    finish_transfer(alloc, tree, kept, to, removed)?;
    Ok(next)
}

// The same for a change that is no transfer. It is made first, and then judged by the part that it
// removed, so its path is walked once.
fn make_in_place(
    alloc: Global,
    tree: &mut Tree,
    kept: &mut Vec<Undo>,
    weight: u64,
    change: &Change,
    bounds: Bounds,
) -> Result<u64, Cause>
    requires makes { (next : Document) × Makes tree.old change.now next }
    requires in_place { is_transfer change.now ≡ false }
    requires known { Known bounds tree.old (Some weight) }
    ensures known { IfOk result (λ n. Known bounds tree.new (Some n)) }
    ensures made { OnOk result (Makes tree.old change.now tree.new) }
    ensures refused { IfErr result (λ cause. cause ≢ NoMemory
        → (next : Document) × Makes tree.old change.now next × (within bounds next ≡ Err cause)) }
    ensures back { taken_back tree.new kept.new.items ≡ taken_back tree.old kept.old.items }
{
    kept.reserve(1)?;
    let undo = make_with_undo(alloc, tree, change)?;
    let judged = weight_after(weight, change, undo.part(), bounds);
    kept.push_reserved(undo);
    judged
}

// Makes a change to a document that is not within the bounds, keeps what takes it back, and
// measures the result.
fn make_unjudged(
    alloc: Global,
    tree: &mut Tree,
    kept: &mut Vec<Undo>,
    change: &Change,
    bounds: Bounds,
) -> Result<u64, Cause>
    requires { (next : Document) × Makes tree.old change.now next }
    ensures known { IfOk result (λ n. Known bounds tree.new (Some n)) }
    ensures made { OnOk result (Makes tree.old change.now tree.new) }
    ensures refused { IfErr result (λ cause. cause ≢ NoMemory
        → (next : Document) × Makes tree.old change.now next × (within bounds next ≡ Err cause)) }
    ensures back { taken_back tree.new kept.new.items ≡ taken_back tree.old kept.old.items }
{
    make_keeping(alloc, tree, kept, change)?;
    measure(tree, bounds)
}
