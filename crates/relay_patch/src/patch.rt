//! A list of operations.
use crate::op::Op;
use std::marker::Model;

/// A patch document (RFC 6902, section 3). Contracts see it as the list of its operations.
///
/// ```
/// let ops = read(alloc, r#"[{"op": "remove", "path": "/a"}]"#).ok()?;
/// let patch = Patch::from_owned(alloc, ops, PatchLimits::REQUEST).ok()?;
/// assert!(rt; patch.ops().len() == 1 && matches!(&patch.ops()[0], Op::Remove { .. }));
/// ```
#[derive(Drop)]
pub struct Patch {
    ops: Vec<Op>,
}

impl Model for Patch {
    ghost use Rattle.std.specs.Prelude.{List};
    ghost use Rattle.relay_patch.specs.declared.op.Op.{Op};

    ghost Value = { List Op };

    ghost use Rattle.std.specs.Coded.{codes};
    ghost use Rattle.relay_patch.specs.contracts.op.Op as op;

    ghost coded = { Prim.hlevel (codes, op.the_row.coded) };

    ghost view = { λ p. p.ops.items };
}

impl Patch {
    ghost use Rattle.std.specs.Prelude.{◌≡◌};

    /// Returns the patch of these operations. Allocates nothing.
    ///
    /// ```
    /// let mut ops = Vec::new(alloc);
    /// ops.push(Op::Remove { path: Pointer::read(alloc, "/a", 64).ok()? }).ok()?;
    /// let text = Patch::from_ops(ops).to_tree(alloc).ok()?.text(alloc).ok()?;
    /// assert!(rt; text.as_str() == r#"[{"op":"remove","path":"/a"}]"#);
    /// ```
    pub fn from_ops(list: Vec<Op>) -> Patch
        ensures { result ≡ list.items }
    {
        Patch { ops: list }
    }

    /// Returns the operations, in order.
    ///
    /// ```
    /// let patch = Patch::from_owned(alloc, read(alloc, "[]").ok()?, PatchLimits::REQUEST).ok()?;
    /// assert!(rt; patch.ops().is_empty());
    /// ```
    pub fn ops(&self) -> &[Op]
        ensures { result.now ≡ self.now }
    {
        self.ops.as_slice()
    }
}
