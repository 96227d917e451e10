//! Writes at a path, through [`resolve_mut`]. Of two writes to one place the last wins, and writing
//! the old value back restores the old document (`proofs/Puts.antt`).
ghost use Rattle.std.specs.Prelude.{◌≡◌, Some, None, IfSome, IsNone, IsTrue, IsFalse, is_some};
ghost use Rattle.relay_tree.specs.Document.{null};
ghost use Rattle.relay_pointer.specs.Path.{at, put};

use crate::lent::resolve_mut;
use crate::pointer::Pointer;
use relay_tree::{Node, Tree};
use std::mem;

/// Replaces the value at the pointer and returns the old one. Returns `None`, with nothing changed
/// and the new value dropped, if the pointer leads to nothing. Allocates nothing.
///
/// ```
/// let mut board = read(alloc, "[1, 2]").ok()?;
/// let first = Pointer::read(alloc, "/0", 64).ok()?;
/// let old = exchange(&mut board, &first, Tree::of_count(3))?;
/// assert!(rt; old.count() == Some(1) && board.text(alloc).ok()?.as_str() == "[3,2]");
/// ```
pub fn exchange(whole: &mut Tree, pointer: &Pointer, value: Tree) -> Option<Tree>
    ensures old { result ≡ at whole.old pointer.now }
    ensures found { IfSome result (λ _. whole.new ≡ put whole.old pointer.now value) }
    ensures missing { IsNone result → whole.new ≡ whole.old }
{
    let Tree { node } = value;
    let part = resolve_mut(whole, pointer)?;
    Some(Tree {
        node: mem::replace(part, node),
    })
}

/// Takes the value at the pointer out and leaves null there. Returns `None`, with nothing changed,
/// if the pointer leads to nothing. Allocates nothing.
///
/// ```
/// let mut board = read(alloc, "[1, 2]").ok()?;
/// let first = take(&mut board, &Pointer::read(alloc, "/0", 64).ok()?)?;
/// assert!(rt; first.count() == Some(1) && board.text(alloc).ok()?.as_str() == "[null,2]");
/// ```
pub fn take(whole: &mut Tree, pointer: &Pointer) -> Option<Tree>
    ensures old { result ≡ at whole.old pointer.now }
    ensures found { IfSome result (λ _. whole.new ≡ put whole.old pointer.now null) }
    ensures missing { IsNone result → whole.new ≡ whole.old }
{
    exchange(whole, pointer, Tree::from(Node::Null))
}

/// Replaces the value at the pointer. Returns `false`, with nothing changed and the new value
/// dropped, if the pointer leads to nothing. Allocates nothing.
///
/// ```
/// let mut board = read(alloc, "[1, 2]").ok()?;
/// assert!(rt; set(&mut board, &Pointer::read(alloc, "/0", 64).ok()?, Tree::of_count(3)));
/// assert!(rt; !set(&mut board, &Pointer::read(alloc, "/2", 64).ok()?, Tree::of_count(4)));
/// assert!(rt; board.text(alloc).ok()?.as_str() == "[3,2]");
/// ```
pub fn set(whole: &mut Tree, pointer: &Pointer, value: Tree) -> bool
    ensures found { result ≡ is_some (at whole.old pointer.now) }
    ensures set { IsTrue result → whole.new ≡ put whole.old pointer.now value }
    ensures missing { IsFalse result → whole.new ≡ whole.old }
{
    exchange(whole, pointer, value).is_some()
}
