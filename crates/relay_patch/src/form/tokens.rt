//! A writer of patches as JSON, one token at a time (RFC 6902, sections 3 and 4): exactly the
//! members that each operation defines.
ghost use Rattle.std.specs.Prelude.{◌≡◌, [], ◌∷◌, ◌++◌, OnOk, codes};
ghost use Rattle.json.specs.Token.{key, string};
ghost use Rattle.relay_tree.specs.Document.{object, no_members};
ghost use Rattle.relay_tree.specs.Text.{tokens_of, ReadsBack};
ghost use Rattle.relay_pointer.specs.Spelling.{spelling};
ghost use Rattle.relay_patch.specs.Form.{patch_document, op_members, op_member, path_member};
ghost use Rattle.relay_patch.specs.Form.{from_member, value_member};

use crate::op::Op;
use crate::patch::Patch;
use json::Writer;
use relay_pointer::Pointer;
use relay_tree::Tree;
use std::alloc::{AllocError, Global};

impl Patch {
    /// Appends the patch to what `out` has written. Costs the length of its text: each pointer's
    /// text is copied briefly, and no value is copied. If memory runs out, some of its first tokens
    /// may already be written.
    ///
    /// ```
    /// let ops = read(alloc, r#"[{"path": "/a~1b", "op": "remove"}]"#).ok()?;
    /// let patch = Patch::from_owned(alloc, ops, PatchLimits::REQUEST).ok()?;
    /// let mut out = begin_text(alloc).ok()?;
    /// patch.write(alloc, &mut out).ok()?;
    /// assert!(rt; end_text(out).as_str() == r#"[{"op":"remove","path":"/a~1b"}]"#);
    /// ```
    pub fn write(&self, alloc: Global, out: &mut Writer) -> Result<(), AllocError>
        ensures tokens { OnOk result
            (out.new.tokens ≡ out.old.tokens ++ tokens_of (patch_document self.now)) }
        ensures before { out.new.before ≡ out.old.before }
        ensures reads_back { OnOk result (ReadsBack (patch_document self.now)) }
    {
        out.begin_array()?;
        for op in self.ops() {
            write_op(alloc, op, out)?;
        }
        out.end_array()
    }
}

fn write_op(alloc: Global, op: &Op, out: &mut Writer) -> Result<(), AllocError>
    ensures tokens { OnOk result
        (out.new.tokens ≡ out.old.tokens ++ tokens_of (object (op_members op.now))) }
    ensures before { out.new.before ≡ out.old.before }
    ensures reads_back { OnOk result (ReadsBack (object (op_members op.now))) }
{
    match op {
        Op::Add { path, value } => write_valued(alloc, "add", path, value, out),
        Op::Remove { path } => write_removal(alloc, path, out),
        Op::Replace { path, value } => write_valued(alloc, "replace", path, value, out),
        Op::Move { from, path } => write_sourced(alloc, "move", from, path, out),
        Op::Copy { from, path } => write_sourced(alloc, "copy", from, path, out),
        Op::Test { path, value } => write_valued(alloc, "test", path, value, out),
    }
}

/// Writes an operation with a value.
fn write_valued(
    alloc: Global,
    name: &str,
    path: &Pointer,
    value: &Tree,
    out: &mut Writer,
) -> Result<(), AllocError>
    ensures tokens { OnOk result
        (out.new.tokens ≡ out.old.tokens
        ++ tokens_of
        (object (op_member name.now (path_member path.now (value_member value.now))))) }
    ensures before { out.new.before ≡ out.old.before }
    ensures reads_back { OnOk result
        (ReadsBack (object (op_member name.now (path_member path.now (value_member value.now))))) }
{
    out.begin_object()?;
    write_named(alloc, name, path, out)?;
    out.key("value")?;
    value.write(out)?;
    out.end_object()
}

/// Writes an operation with a source.
fn write_sourced(
    alloc: Global,
    name: &str,
    from: &Pointer,
    path: &Pointer,
    out: &mut Writer,
) -> Result<(), AllocError>
    ensures tokens { OnOk result
        (out.new.tokens ≡ out.old.tokens
        ++ tokens_of
        (object (from_member from.now (op_member name.now (path_member path.now no_members))))) }
    ensures before { out.new.before ≡ out.old.before }
{
    out.begin_object()?;
    write_pointer(alloc, "from", from, out)?;
    write_named(alloc, name, path, out)?;
    out.end_object()
}

fn write_removal(alloc: Global, path: &Pointer, out: &mut Writer) -> Result<(), AllocError>
    ensures tokens { OnOk result
        (out.new.tokens ≡ out.old.tokens
        ++ tokens_of (object (op_member (codes "remove") (path_member path.now no_members)))) }
    ensures before { out.new.before ≡ out.old.before }
{
    out.begin_object()?;
    write_named(alloc, "remove", path, out)?;
    out.end_object()
}

/// Writes the members that every operation has.
fn write_named(
    alloc: Global,
    name: &str,
    path: &Pointer,
    out: &mut Writer,
) -> Result<(), AllocError>
    ensures tokens { OnOk result
        (out.new.tokens ≡ out.old.tokens ++ key (codes "op") ∷ string name.now ∷ key (codes "path")
        ∷ string (spelling path.now) ∷ []) }
    ensures before { out.new.before ≡ out.old.before }
{
    out.key("op")?;
    out.string(name)?;
    write_pointer(alloc, "path", path, out)
}

/// Writes the member `name`, whose value is a pointer's text.
fn write_pointer(
    alloc: Global,
    name: &str,
    pointer: &Pointer,
    out: &mut Writer,
) -> Result<(), AllocError>
    ensures tokens { OnOk result
        (out.new.tokens ≡ out.old.tokens ++ key name.now ∷ string (spelling pointer.now) ∷ []) }
    ensures before { out.new.before ≡ out.old.before }
{
    let text = pointer.text(alloc)?;
    out.key(name)?;
    out.string(text.as_str())
}
