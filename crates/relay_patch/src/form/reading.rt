//! A reader of patches from trees (RFC 6902, sections 3 and 4).
ghost use Rattle.std.specs.Prelude.{◌≡◌, ◌≢◌, ◌≤◌, Ok, Err, IfOk, IfErr, IsSomeAnd};
ghost use Rattle.std.specs.Option.{option_map};
ghost use Rattle.relay_tree.specs.Document.{items_of};
ghost use Rattle.relay_tree.specs.Each.{each_from};
ghost use Rattle.relay_tree.specs.Part.{list_len};
ghost use Rattle.relay_patch.specs.Form.{patch_of, op_at, op_of_kind, valued, sourced, path_in};
ghost use Rattle.relay_patch.specs.declared.limits.PatchFault.TheVariants.{NoMemory};
ghost use Rattle.relay_patch.specs.declared.op.Op.TheVariants as op;

use super::kind::Kind;
use crate::limits::{PatchFault, PatchLimits};
use crate::op::Op;
use crate::patch::Patch;
use relay_pointer::{Pointer, PointerFault};
use relay_tree::{Element, Node, Tree};
use std::alloc::Global;

impl Patch {
    /// Reads a tree as a patch. Members that an operation does not need are ignored. The first
    /// fault is returned: of the list, then of its elements in order. Each element is checked in
    /// this order: a string `op`, a known operation, a string `path`, the `value` or `from` that it
    /// needs, then the pointers `path` and `from`. Costs a copy of the tree. Allocates nothing if
    /// the tree is not a list or is too long.
    ///
    /// ```
    /// let ops = read(alloc, r#"[{"op": "remove", "path": "/a"}, {"op": "remove"}]"#).ok()?;
    /// let patch = Patch::from_tree(alloc, &ops, PatchLimits::REQUEST);
    /// assert!(rt; matches!(patch, Err(PatchFault::Shape { at: Some(1) })));
    /// let one = PatchLimits { ops: 1, ..PatchLimits::REQUEST };
    /// assert!(rt; matches!(Patch::from_tree(alloc, &ops, one), Err(PatchFault::TooManyOps)));
    /// ```
    pub fn from_tree(alloc: Global, tree: &Tree, limits: PatchLimits) -> Result<Patch, PatchFault>
        ensures ok { IfOk result (λ patch. patch_of limits.ops limits.tokens tree.now ≡ Ok patch) }
        ensures err { IfErr result
            (λ fault. fault ≢ NoMemory → patch_of limits.ops limits.tokens tree.now ≡ Err fault) }
        ensures memory { IfErr result
            (λ fault. fault ≡ NoMemory → IsSomeAnd (list_len tree.now) (λ n. n ≤ limits.ops)) }
    {
        match tree.node.list_len() {
            None => Err(PatchFault::Shape { at: None }),
            Some(length) if length as u64 > limits.ops => Err(PatchFault::TooManyOps),
            Some(_) => match tree.copy(alloc) {
                Ok(tree) => Patch::from_owned(alloc, tree, limits),
                Err(_) => Err(PatchFault::NoMemory),
            },
        }
    }

    /// Reads a tree as [`Patch::from_tree`] does, but consumes it: its values move into the
    /// operations without a copy.
    ///
    /// ```
    /// let ops = read(alloc, r#"[{"op": "add", "path": "/a", "value": [1]}]"#).ok()?;
    /// let patch = Patch::from_owned(alloc, ops, PatchLimits::REQUEST).ok()?;
    /// assert!(rt; matches!(&patch.ops()[0], Op::Add { value, .. } if value.depth() == 2));
    /// ```
    pub fn from_owned(alloc: Global, tree: Tree, limits: PatchLimits) -> Result<Patch, PatchFault>
        ensures ok { IfOk result (λ patch. patch_of limits.ops limits.tokens tree ≡ Ok patch) }
        ensures err { IfErr result
            (λ fault. fault ≢ NoMemory → patch_of limits.ops limits.tokens tree ≡ Err fault) }
        ensures memory { IfErr result
            (λ fault. fault ≡ NoMemory → IsSomeAnd (list_len tree) (λ n. n ≤ limits.ops)) }
    {
        let Node::List(items) = tree.node else {
            return Err(PatchFault::Shape { at: None });
        };
        if items.len() as u64 > limits.ops {
            return Err(PatchFault::TooManyOps);
        }
        match ops_of(alloc, items, limits.tokens) {
            Ok(ops) => Ok(Patch::from_ops(ops)),
            Err(fault) => Err(fault),
        }
    }
}

fn ops_of(alloc: Global, items: Vec<Element>, tokens: u64) -> Result<Vec<Op>, PatchFault>
    ensures ok { IfOk result
        (λ ops. each_from (op_at tokens) 0 (items_of items.items) ≡ Ok ops.items) }
    ensures err { IfErr result
        (λ fault. fault ≢ NoMemory
        → each_from (op_at tokens) 0 (items_of items.items) ≡ Err fault) }
{
    let Ok(mut ops) = Vec::with_capacity(alloc, items.len()) else {
        return Err(PatchFault::NoMemory);
    };
    for item in items {
        match op_at(alloc, ops.len() as u64, item.into_tree(), tokens) {
            Ok(op) => ops.push_reserved(op),
            Err(fault) => return Err(fault),
        }
    }
    Ok(ops)
}

/// Reads the element at place `at` as an operation.
fn op_at(alloc: Global, at: u64, tree: Tree, tokens: u64) -> Result<Op, PatchFault>
    ensures ok { IfOk result (λ op. op_at tokens at tree ≡ Ok op) }
    ensures err { IfErr result (λ fault. fault ≢ NoMemory → op_at tokens at tree ≡ Err fault) }
{
    let mut tree = tree;
    let value = tree.take_member("value");
    let shape = PatchFault::Shape { at: Some(at) };
    let Some(name) = tree.text_at("op") else {
        return Err(shape);
    };
    let Some(kind) = Kind::of(name) else {
        return Err(PatchFault::UnknownOp { at });
    };
    let Some(path) = tree.text_at("path") else {
        return Err(shape);
    };
    let from = tree.text_at("from");
    op_of_kind(alloc, kind, at, value, from, path, tokens)
}

fn op_of_kind(
    alloc: Global,
    kind: Kind,
    at: u64,
    value: Option<Tree>,
    from: Option<&str>,
    path: &str,
    tokens: u64,
) -> Result<Op, PatchFault>
    ensures ok { IfOk result
        (λ op. op_of_kind kind tokens at value (option_map (λ s. s.now) from.entry) path.now
        ≡ Ok op) }
    ensures err { IfErr result
        (λ fault. fault ≢ NoMemory
        → op_of_kind kind tokens at value (option_map (λ s. s.now) from.entry) path.now
        ≡ Err fault) }
{
    match kind {
        Kind::Add => {
            let (path, value) = valued(alloc, at, value, path, tokens)?;
            Ok(Op::Add { path, value })
        }
        Kind::Remove => {
            let path = pointer_of(alloc, at, path, tokens)?;
            Ok(Op::Remove { path })
        }
        Kind::Replace => {
            let (path, value) = valued(alloc, at, value, path, tokens)?;
            Ok(Op::Replace { path, value })
        }
        Kind::Move => {
            let (from, path) = sourced(alloc, at, from, path, tokens)?;
            Ok(Op::Move { from, path })
        }
        Kind::Copy => {
            let (from, path) = sourced(alloc, at, from, path, tokens)?;
            Ok(Op::Copy { from, path })
        }
        Kind::Test => {
            let (path, value) = valued(alloc, at, value, path, tokens)?;
            Ok(Op::Test { path, value })
        }
    }
}

/// Returns the path and the value of an operation that needs both.
fn valued(
    alloc: Global,
    at: u64,
    value: Option<Tree>,
    path: &str,
    tokens: u64,
) -> Result<(Pointer, Tree), PatchFault>
    ensures ok { IfOk result
        (λ parts. valued tokens at value path.now op.Add ≡ Ok (op.Add parts.0 parts.1)) }
    ensures err { IfErr result
        (λ fault. fault ≢ NoMemory → valued tokens at value path.now op.Add ≡ Err fault) }
{
    let Some(value) = value else {
        return Err(PatchFault::Shape { at: Some(at) });
    };
    let path = pointer_of(alloc, at, path, tokens)?;
    Ok((path, value))
}

/// Returns the two paths of an operation that has a source: `from` and `path`.
fn sourced(
    alloc: Global,
    at: u64,
    from: Option<&str>,
    path: &str,
    tokens: u64,
) -> Result<(Pointer, Pointer), PatchFault>
    ensures ok { IfOk result
        (λ paths. sourced tokens at (option_map (λ s. s.now) from.entry) path.now op.Move
        ≡ Ok (op.Move paths.0 paths.1)) }
    ensures err { IfErr result
        (λ fault. fault ≢ NoMemory
        → sourced tokens at (option_map (λ s. s.now) from.entry) path.now op.Move ≡ Err fault) }
{
    let Some(from) = from else {
        return Err(PatchFault::Shape { at: Some(at) });
    };
    let path = pointer_of(alloc, at, path, tokens)?;
    let from = pointer_of(alloc, at, from, tokens)?;
    Ok((from, path))
}

fn pointer_of(alloc: Global, at: u64, text: &str, tokens: u64) -> Result<Pointer, PatchFault>
    ensures ok { IfOk result (λ path. path_in tokens at text.now ≡ Ok path) }
    ensures err { IfErr result
        (λ fault. fault ≢ NoMemory → path_in tokens at text.now ≡ Err fault) }
{
    match Pointer::read(alloc, text, tokens) {
        Ok(pointer) => Ok(pointer),
        Err(PointerFault::BadPointer | PointerFault::TooManyTokens) => Err(PatchFault::Pointer {
            at,
        }),
        Err(PointerFault::NoMemory) => Err(PatchFault::NoMemory),
    }
}
