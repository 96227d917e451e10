//! Replacement of the value at a path.
ghost use Rattle.std.specs.Prelude.{◌≡◌, Ok, IsOk};
ghost use Rattle.relay_patch.specs.Walk.{walk};
ghost use Rattle.relay_patch.specs.Patch.{replaced};

use relay_pointer::Pointer;
use relay_tree::Tree;

/// Replaces the value to which the path leads and returns the old one. Allocates nothing.
pub(crate) fn exchange(tree: &mut Tree, path: &Pointer, value: Tree) -> Tree
    requires { IsOk (walk tree.old path.now) }
    ensures old { walk tree.old path.now ≡ Ok result }
    ensures new { replaced path.now value tree.old ≡ Ok tree.new }
{
    relay_pointer::exchange(tree, path, value).unwrap()
}
