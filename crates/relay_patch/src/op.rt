//! The six operations of a patch.
use relay_pointer::Pointer;
use relay_tree::Tree;

/// One operation (RFC 6902, section 4), by its `op`.
///
/// ```
/// // RFC 6902, section A.6.
/// let ops = r#"[{"op": "move", "from": "/foo/waldo", "path": "/qux/thud"}]"#;
/// let ops = read(alloc, ops).ok()?;
/// let patch = Patch::from_owned(alloc, ops, PatchLimits::REQUEST).ok()?;
/// let Op::Move { from, .. } = &patch.ops()[0] else {
///     return None;
/// };
/// assert!(rt; from.tokens()[1].as_str() == "waldo");
/// ```
#[derive(Drop)]
pub enum Op {
    Add { path: Pointer, value: Tree },
    Remove { path: Pointer },
    Replace { path: Pointer, value: Tree },
    Move { from: Pointer, path: Pointer },
    Copy { from: Pointer, path: Pointer },
    Test { path: Pointer, value: Tree },
}
