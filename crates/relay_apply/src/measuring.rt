//! Checks of the bounds on a document, which is measured as a whole or from what a change added and
//! removed.
ghost use Rattle.std.specs.Prelude.{◌≡◌, ◌≢◌, ◌<◌, ◌≤◌, ◌-◌, ◌+◌, ◌^◌, Some, Ok, Err, OnOk, IfOk};
ghost use Rattle.std.specs.Prelude.{IfErr, IsOk, false, length, option_copied};
ghost use Rattle.relay_tree.specs.Document.{Document, depth, weight, saturated};
ghost use Rattle.relay_patch.specs.Patch.{within, exceeds};
ghost use Rattle.relay_patch.specs.Measure.{reach, displaced, gone, is_transfer, Known, lost};
ghost use Rattle.relay_patch.specs.Measure.{gained, part_weight, name_weight, place_weight};
ghost use Rattle.relay_patch.specs.Measure.{new_name, judged, Became};
ghost use Rattle.relay_patch.specs.declared.fault.Cause.TheVariants.{NoMemory};

use relay_patch::{Bounds, Cause, Change, Place};
use relay_pointer::{Pointer, resolve};
use relay_tree::Tree;

/// Returns the weight of a document that is within the bounds; 0 if the weight is not bounded. What
/// is not bounded is not measured.
pub(crate) fn measure(tree: &Tree, bounds: Bounds) -> Result<u64, Cause>
    ensures ok { OnOk result (within bounds tree.now ≡ Ok tree.now) }
    ensures weight { IfOk result (λ n. bounds.weight < 2 ^ 64 - 1 → n ≡ weight tree.now) }
    ensures err { IfErr result (λ cause. within bounds tree.now ≡ Err cause) }
    ensures other { IfErr result (λ cause. cause ≢ NoMemory) }
{
    if exceeds_depth(tree, bounds.depth) {
        return Err(Cause::TooDeep);
    }
    if bounds.weight == u64::MAX {
        return Ok(0);
    }
    let weight = tree.weight();
    if bounds.weight < weight {
        return Err(Cause::TooHeavy);
    }
    Ok(weight)
}

fn exceeds_depth(tree: &Tree, most: u64) -> bool
    ensures { result ≡ exceeds most (depth tree.now) }
{
    most < u64::MAX && most < tree.depth()
}

/// Returns the weight of a document after a change, from its weight before and from what the change
/// removes. The document before the change is within the bounds. Only the values that the change
/// adds and removes are walked.
pub(crate) fn weight_after(
    known: u64,
    change: &Change,
    went: Option<&Tree>,
    bounds: Bounds,
) -> Result<u64, Cause>
    requires { (next : Document) × Became bounds (Some known) change.now (option_copied went) next }
    ensures known { IfOk result (λ n. (next : Document)
        → Became bounds (Some known) change.now (option_copied went.entry) next
        → Known bounds next (Some n)) }
    ensures err { IfErr result (λ cause. (next : Document)
        → Became bounds (Some known) change.now (option_copied went.entry) next
        → within bounds next ≡ Err cause) }
    ensures other { IfErr result (λ cause. cause ≢ NoMemory) }
{
    judge(known, change, went, bounds)
}

/// Returns the value that a change removes or replaces, if it is no transfer.
pub(crate) fn gone<'t>(tree: &'t Tree, change: &Change) -> Option<&'t Tree>
    ensures { is_transfer change.now ≡ false → option_copied result ≡ gone tree.now change.now }
{
    match change {
        Change::Set { path, .. } => resolve(tree, path),
        Change::AddMember { .. } => None,
        Change::AddItem { .. } => None,
        Change::DropMember { path } => resolve(tree, path),
        Change::DropItem { path } => resolve(tree, path),
        Change::Move { .. } => None,
        Change::Copy { to, .. } => displaced(tree, to),
    }
}

/// Returns the value that is replaced when one is put at the place. In a list none is.
pub(crate) fn displaced<'t>(tree: &'t Tree, place: &Place) -> Option<&'t Tree>
    ensures { option_copied result ≡ displaced place.now tree.now }
{
    if place.item {
        None
    } else {
        resolve(tree, &place.path)
    }
}

// The weight after a change, from the weight before it. The document before was within the bounds,
// so it is too deep after the change exactly if the value that was added reaches too deep.
fn judge(weight: u64, change: &Change, went: Option<&Tree>, bounds: Bounds) -> Result<u64, Cause>
    requires { bounds.weight < 2 ^ 64 - 1 → lost change.now (option_copied went) ≤ weight }
    ensures ok { OnOk result (IsOk (judged bounds change.now
        (weight - lost change.now (option_copied went.entry)
        + gained change.now (option_copied went.entry)))) }
    ensures weight { IfOk result (λ n. bounds.weight < 2 ^ 64 - 1
        → n ≡ weight - lost change.now (option_copied went.entry)
        + gained change.now (option_copied went.entry)) }
    ensures err { IfErr result (λ cause.
        judged bounds change.now
        (weight - lost change.now (option_copied went.entry)
        + gained change.now (option_copied went.entry)) ≡ Err cause) }
    ensures other { IfErr result (λ cause. cause ≢ NoMemory) }
{
    if exceeds_reach(change, bounds.depth) {
        return Err(Cause::TooDeep);
    }
    if bounds.weight == u64::MAX {
        return Ok(0);
    }
    let weight = (weight - lost(change, went)).saturating_add(gained(change, went));
    if bounds.weight < weight {
        return Err(Cause::TooHeavy);
    }
    Ok(weight)
}

fn exceeds_reach(change: &Change, most: u64) -> bool
    ensures { result ≡ exceeds most (reach change.now) }
{
    most < u64::MAX && most < reach(change)
}

// The level that the value added by a change reaches; 0 if none is added.
fn reach(change: &Change) -> u64
    ensures { result ≡ saturated (reach change.now) }
{
    match change {
        Change::Set { path, value } => reach_at(path, value),
        Change::AddMember { path, value } => reach_at(path, value),
        Change::AddItem { path, value } => reach_at(path, value),
        Change::DropMember { .. } => 0,
        Change::DropItem { .. } => 0,
        Change::Move { to, value, .. } => reach_at(&to.path, value),
        Change::Copy { to, value, .. } => reach_at(&to.path, value),
    }
}

fn reach_at(path: &Pointer, value: &Tree) -> u64
    ensures { result ≡ saturated (length path.now + depth value.now) }
{
    (path.tokens().len() as u64).saturating_add(value.depth())
}

// The weight that a change removes.
fn lost(change: &Change, went: Option<&Tree>) -> u64
    ensures { result ≡ saturated (lost change.now (option_copied went.entry)) }
{
    let name = match change {
        Change::DropMember { path } => name_weight(path),
        Change::Move { from, .. } => place_weight(from),
        _ => 0,
    };
    part_weight(went).saturating_add(name)
}

// The weight that a change adds.
fn gained(change: &Change, went: Option<&Tree>) -> u64
    ensures { result ≡ saturated (gained change.now (option_copied went.entry)) }
{
    match change {
        Change::Set { value, .. } => value.weight(),
        Change::AddMember { path, value } => value.weight().saturating_add(name_weight(path)),
        Change::AddItem { value, .. } => value.weight(),
        Change::DropMember { .. } => 0,
        Change::DropItem { .. } => 0,
        Change::Move { to, .. } => new_name(to, went),
        Change::Copy { to, value, .. } => value.weight().saturating_add(new_name(to, went)),
    }
}

fn part_weight(part: Option<&Tree>) -> u64
    ensures { result ≡ saturated (part_weight (option_copied part.entry)) }
{
    match part {
        Some(part) => part.weight(),
        None => 0,
    }
}

// The weight of the member name at the place, or 0 if a value was there, whose name stays.
fn new_name(place: &Place, went: Option<&Tree>) -> u64
    ensures { result ≡ saturated (new_name (place_weight place.now) (option_copied went.entry)) }
{
    match went {
        Some(_) => 0,
        None => place_weight(place),
    }
}

// The weight of the member name at the place, or 0 for an element, which has none.
fn place_weight(place: &Place) -> u64
    ensures { result ≡ saturated (place_weight place.now) }
{
    if place.item {
        0
    } else {
        name_weight(&place.path)
    }
}

// The number of bytes of a path's last token.
fn name_weight(path: &Pointer) -> u64
    ensures { result ≡ saturated (name_weight path.now) }
{
    match path.tokens() {
        [.., last] => last.len() as u64,
        [] => 0,
    }
}
