//! The change that an operation makes: first the operation's own checks, then the parts of the
//! change. A value is copied only if what is left for the change pays for it. Nothing here changes
//! a tree.
ghost use Rattle.std.specs.Prelude.{◌≡◌, IsOk, IsSome, IfOk, IfErr, OnOk};
ghost use Rattle.relay_tree.specs.Document.{weight};
ghost use Rattle.relay_tree.specs.Budget.{paid};
ghost use Rattle.relay_patch.specs.Patch.{effect};
ghost use Rattle.relay_patch.specs.declared.op.Op.TheVariants.{Add, Remove, Replace, Move, Copy};
ghost use Rattle.relay_patch.specs.declared.op.Op.TheVariants.{Test};
ghost use Rattle.relay_patch.specs.Change.{changes_of};
ghost use Rattle.relay_patch.specs.Walk.{Refuses};
ghost use Rattle.relay_apply.specs.Steps.{insert_place, insertion, listed, removal};
ghost use Rattle.relay_apply.specs.Steps.{IsUnpaid, RefusesWithin};
ghost use Rattle.relay_patch.specs.declared.change.Change.TheVariants as change;

use crate::insert_place::insert_place;
use crate::insert_target::{InsertTarget, is_item_at, resolve_existing, resolve_insert};
use crate::moving::{resolve_insert_after_removal, stays};
use crate::walk::walk;
use relay_patch::{Cause, Change, Op, Place};
use relay_pointer::Pointer;
use relay_tree::{Budget, Tree};
use std::alloc::{AllocError, Global};

/// Returns the change that an operation makes, if any, or `TooHeavy` if `left` does not pay for its
/// value. Allocates only after the operation's own checks have passed.
pub(crate) fn change_of(
    alloc: Global,
    tree: &Tree,
    op: &Op,
    left: Budget,
) -> Result<Option<Change>, Cause>
    ensures ok { OnOk result (IsOk (effect tree.now op.now)) }
    ensures changes { IfOk result (λ change. listed change ≡ changes_of tree.now op.now) }
    ensures err { IfErr result (RefusesWithin tree.now op.now left) }
{
    match op {
        Op::Add { path, value } => change_of_add(alloc, tree, path, value, left),
        Op::Remove { path } => change_of_remove(tree, path),
        Op::Replace { path, value } => change_of_replace(alloc, tree, path, value, left),
        Op::Move { from, path } => change_of_move(alloc, tree, from, path, left),
        Op::Copy { from, path } => change_of_copy(alloc, tree, from, path, left),
        Op::Test { path, value } => change_of_test(tree, path, value),
    }
}

fn change_of_add(
    alloc: Global,
    tree: &Tree,
    path: &Pointer,
    value: &Tree,
    left: Budget,
) -> Result<Option<Change>, Cause>
    ensures ok { OnOk result (IsOk (effect tree.now (Add path.now value.now))) }
    ensures changes { IfOk result (λ change.
        listed change ≡ changes_of tree.now (Add path.now value.now)) }
    ensures err { IfErr result (RefusesWithin tree.now (Add path.now value.now) left) }
{
    let insert_target = resolve_insert(tree, path.tokens())?;
    Ok(Some(insertion(alloc, path, insert_target, value, left)?))
}

fn change_of_remove(tree: &Tree, path: &Pointer) -> Result<Option<Change>, Cause>
    ensures ok { OnOk result (IsOk (effect tree.now (Remove path.now))) }
    ensures changes { IfOk result (λ change.
        listed change ≡ changes_of tree.now (Remove path.now)) }
    ensures err { IfErr result (Refuses (effect tree.now (Remove path.now))) }
{
    let item = resolve_existing(tree, path.tokens())?;
    Ok(Some(removal(path, item)?))
}

fn change_of_replace(
    alloc: Global,
    tree: &Tree,
    path: &Pointer,
    value: &Tree,
    left: Budget,
) -> Result<Option<Change>, Cause>
    ensures ok { OnOk result (IsOk (effect tree.now (Replace path.now value.now))) }
    ensures changes { IfOk result (λ change.
        listed change ≡ changes_of tree.now (Replace path.now value.now)) }
    ensures err { IfErr result (RefusesWithin tree.now (Replace path.now value.now) left) }
{
    walk(tree, path.tokens())?;
    Ok(Some(replacement(alloc, path, value, left)?))
}

fn change_of_move(
    alloc: Global,
    tree: &Tree,
    from: &Pointer,
    path: &Pointer,
    left: Budget,
) -> Result<Option<Change>, Cause>
    ensures ok { OnOk result (IsOk (effect tree.now (Move from.now path.now))) }
    ensures changes { IfOk result (λ change.
        listed change ≡ changes_of tree.now (Move from.now path.now)) }
    ensures err { IfErr result (RefusesWithin tree.now (Move from.now path.now) left) }
{
    let value = walk(tree, from.tokens())?;
    if from.is_proper_prefix(path) {
        return Err(Cause::IntoItself);
    }
    if stays(tree, from.tokens(), path.tokens()) {
        return Ok(None);
    }
    let insert_target = resolve_insert_after_removal(tree, from.tokens(), path.tokens())?;
    let item = is_item_at(tree, from.tokens());
    Ok(Some(relocation(alloc, from, item, path, insert_target, value, left)?))
}

fn change_of_copy(
    alloc: Global,
    tree: &Tree,
    from: &Pointer,
    path: &Pointer,
    left: Budget,
) -> Result<Option<Change>, Cause>
    ensures ok { OnOk result (IsOk (effect tree.now (Copy from.now path.now))) }
    ensures changes { IfOk result (λ change.
        listed change ≡ changes_of tree.now (Copy from.now path.now)) }
    ensures err { IfErr result (RefusesWithin tree.now (Copy from.now path.now) left) }
{
    let value = walk(tree, from.tokens())?;
    let insert_target = resolve_insert(tree, path.tokens())?;
    Ok(Some(duplication(alloc, from, path, insert_target, value, left)?))
}

fn change_of_test(tree: &Tree, path: &Pointer, value: &Tree) -> Result<Option<Change>, Cause>
    ensures ok { OnOk result (IsOk (effect tree.now (Test path.now value.now))) }
    ensures changes { IfOk result (λ change.
        listed change ≡ changes_of tree.now (Test path.now value.now)) }
    ensures err { IfErr result (Refuses (effect tree.now (Test path.now value.now))) }
{
    match walk(tree, path.tokens()) {
        Ok(part) if part.same(value) => Ok(None),
        Ok(_) => Err(Cause::TestFailed),
        Err(cause) => Err(cause),
    }
}

// Copies a value, unless what is left for its change does not pay for it.
fn copy_within(alloc: Global, value: &Tree, left: Budget) -> Result<Tree, Cause>
    ensures copy { IfOk result (λ copy. copy ≡ value.now) }
    ensures paid { OnOk result (IsSome (paid (weight value.now) left)) }
    ensures unpaid { IfErr result (IsUnpaid value.now left) }
{
    if value.pay(left).is_none() {
        return Err(Cause::TooHeavy);
    }
    Ok(value.copy(alloc)?)
}

// The change that an insertion makes, by its target.
fn insertion(
    alloc: Global,
    path: &Pointer,
    insert_target: InsertTarget,
    value: &Tree,
    left: Budget,
) -> Result<Change, Cause>
    ensures ok { IfOk result (λ made. made
        ≡ insertion insert_target (insert_place insert_target path.now).path value.now) }
    ensures paid { OnOk result (IsSome (paid (weight value.now) left)) }
    ensures unpaid { IfErr result (IsUnpaid value.now left) }
{
    let Place { path, .. } = insert_place(alloc, path, insert_target)?;
    let value = copy_within(alloc, value, left)?;
    Ok(match insert_target {
        InsertTarget::Root | InsertTarget::Member { there: true } => Change::Set { path, value },
        InsertTarget::Member { there: false } => Change::AddMember { path, value },
        InsertTarget::Item { .. } => Change::AddItem { path, value },
    })
}

fn replacement(alloc: Global, path: &Pointer, value: &Tree, left: Budget) -> Result<Change, Cause>
    ensures ok { IfOk result (λ made. made ≡ change.Set path.now value.now) }
    ensures paid { OnOk result (IsSome (paid (weight value.now) left)) }
    ensures unpaid { IfErr result (IsUnpaid value.now left) }
{
    let path = path.copy()?;
    let value = copy_within(alloc, value, left)?;
    Ok(Change::Set { path, value })
}

fn removal(path: &Pointer, item: bool) -> Result<Change, AllocError>
    ensures { IfOk result (λ made. made ≡ removal item path.now) }
{
    let path = path.copy()?;
    Ok(if item {
        Change::DropItem { path }
    } else {
        Change::DropMember { path }
    })
}

fn relocation(
    alloc: Global,
    from: &Pointer,
    item: bool,
    path: &Pointer,
    insert_target: InsertTarget,
    value: &Tree,
    left: Budget,
) -> Result<Change, Cause>
    ensures ok { IfOk result (λ made. made
        ≡ change.Move (record { path = from.now; item = item })
        (insert_place insert_target path.now) value.now) }
    ensures paid { OnOk result (IsSome (paid (weight value.now) left)) }
    ensures unpaid { IfErr result (IsUnpaid value.now left) }
{
    let from = Place {
        path: from.copy()?,
        item,
    };
    let to = insert_place(alloc, path, insert_target)?;
    let value = copy_within(alloc, value, left)?;
    Ok(Change::Move { from, to, value })
}

fn duplication(
    alloc: Global,
    from: &Pointer,
    path: &Pointer,
    insert_target: InsertTarget,
    value: &Tree,
    left: Budget,
) -> Result<Change, Cause>
    ensures ok { IfOk result (λ made. made
        ≡ change.Copy from.now (insert_place insert_target path.now) value.now) }
    ensures paid { OnOk result (IsSome (paid (weight value.now) left)) }
    ensures unpaid { IfErr result (IsUnpaid value.now left) }
{
    let from = from.copy()?;
    let to = insert_place(alloc, path, insert_target)?;
    let value = copy_within(alloc, value, left)?;
    Ok(Change::Copy { from, to, value })
}
