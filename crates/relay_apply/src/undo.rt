//! Undo records: each takes a change back without allocating.
ghost use Rattle.std.specs.Prelude.{◌≡◌, None, option_map, option_copied, IfNone};
ghost use Rattle.relay_pointer.specs.Path.{path_of, put};
ghost use Rattle.relay_patch.specs.Patch.{at_path, drop_child};
ghost use Rattle.relay_apply.specs.Undo.{undo_of_put, removed_part, or_same, put_undone};
ghost use Rattle.relay_apply.specs.Undo.{transfer_undone, undone, taken_back};

use crate::insert_target::resolve_existing;
use crate::making::remove_at;
use crate::reinsertion::{Reinsertion, RemovedValue, reinsert};
use crate::sliding::slide_at;
use relay_pointer::{Pointer, exchange};
use relay_tree::Tree;

/// The record that takes a change back.
#[derive(Drop)]
pub enum Undo {
    /// A value was put at the path, in place of this part.
    Part {
        path: Pointer,
        part: Tree,
    },
    /// A value was inserted at the path.
    Inserted {
        path: Pointer,
    },
    /// A value was removed.
    Removed(RemovedValue),
    /// A value was removed, and put at the path `to`, where it replaced this part, if any.
    Transferred {
        reinsertion: Reinsertion,
        to: Pointer,
        part: Option<Tree>,
    },
    /// An element slid within its list: it slides back from the index `from` to the index `to`.
    Slid {
        list: Pointer,
        from: usize,
        to: usize,
    },
}

impl Undo {
    /// The part that the change removed or replaced, if any.
    pub(crate) fn part(&self) -> Option<&Tree>
        ensures { option_copied result ≡ removed_part self.now }
    {
        match self {
            Undo::Part { part, .. } => Some(part),
            Undo::Removed(removed) => Some(&removed.value),
            Undo::Transferred { part, .. } => part.as_ref(),
            Undo::Inserted { .. } | Undo::Slid { .. } => None,
        }
    }
}

/// Returns the record of a put: a value was put at the path, and replaced this part, if any.
pub(crate) fn undo_of_put(path: Pointer, part: Option<Tree>) -> Undo
    ensures { result ≡ undo_of_put path part }
{
    match part {
        Some(part) => Undo::Part { path, part },
        None => Undo::Inserted { path },
    }
}

/// Takes the changes back, the last one first. Allocates nothing.
pub(crate) fn take_back(tree: &mut Tree, kept: Vec<Undo>)
    ensures { tree.new ≡ taken_back tree.old kept.items }
{
    let mut kept = kept;
    while let Some(last) = kept.pop() {
        undo_one(tree, last);
    }
}

fn undo_one(tree: &mut Tree, kept: Undo)
    ensures { tree.new ≡ undone kept tree.old }
{
    match kept {
        Undo::Part { path, part } => put_back(tree, &path, part),
        Undo::Inserted { path } => drop_inserted(tree, path.tokens()),
        Undo::Removed(RemovedValue { reinsertion, value }) => reinsert(tree, reinsertion, value),
        Undo::Transferred {
            reinsertion,
            to,
            part,
        } => undo_transfer(tree, reinsertion, &to, part),
        Undo::Slid { list, from, to } => slide_at(tree, &list, from, to),
    }
}

fn put_back(tree: &mut Tree, path: &Pointer, part: Tree)
    ensures { tree.new ≡ put tree.old path.now part }
{
    drop(exchange(tree, path, part));
}

fn drop_inserted(tree: &mut Tree, path: &[String])
    ensures { tree.new ≡ or_same (at_path drop_child (path_of path.now) tree.old) tree.old }
{
    drop(remove_inserted(tree, path));
}

// Moves the value at the path back to its old place. If it replaced a part, that is put back too.
fn undo_transfer(tree: &mut Tree, reinsertion: Reinsertion, path: &Pointer, part: Option<Tree>)
    ensures { tree.new ≡ transfer_undone reinsertion (put_undone part path.now tree.old) tree.old }
{
    if let Some(value) = undo_put(tree, path, part) {
        reinsert(tree, reinsertion, value);
    }
}

// Removes the value at the path and returns it. If it replaced a part, that is put back.
fn undo_put(tree: &mut Tree, path: &Pointer, part: Option<Tree>) -> Option<Tree>
    ensures undone { option_map (λ value. (value, tree.new)) result
        ≡ put_undone part path.now tree.old }
    ensures none { IfNone result (tree.new ≡ tree.old) }
{
    match part {
        Some(part) => exchange(tree, path, part),
        None => remove_inserted(tree, path.tokens()),
    }
}

fn remove_inserted(tree: &mut Tree, path: &[String]) -> Option<Tree>
    ensures undone { option_map (λ value. (value, tree.new)) result
        ≡ put_undone None (path_of path.now) tree.old }
    ensures rest { tree.new ≡ or_same (at_path drop_child (path_of path.now) tree.old) tree.old }
    ensures none { IfNone result (tree.new ≡ tree.old) }
{
    if resolve_existing(tree, path).is_ok() {
        Some(remove_at(tree, path))
    } else {
        None
    }
}
