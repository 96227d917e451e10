//! A writer of patches as trees (RFC 6902, sections 3 and 4): exactly the members that each
//! operation defines.
ghost use Rattle.std.specs.Prelude.{◌≡◌, ◌≤◌, ℕ, Ok, IfOk, OnOk, codes, length};
ghost use Rattle.std.specs.List.{AllByRecursion};
ghost use Rattle.relay_tree.specs.Document.{object, text};
ghost use Rattle.relay_tree.specs.Part.{put_member};
ghost use Rattle.relay_tree.specs.Seen.{members_of};
ghost use Rattle.relay_pointer.specs.Spelling.{spelling};
ghost use Rattle.relay_patch.specs.Form.{patch_of, patch_document, op_members};
ghost use Rattle.relay_patch.specs.Sizes.{OpFits};

use crate::op::Op;
use crate::patch::Patch;
use relay_pointer::Pointer;
use relay_tree::{Element, Members, Node, Tree, insert_member};
use std::alloc::{AllocError, Global};

impl Patch {
    /// Returns the patch as a tree, which reads back as the patch under any limits that it is
    /// within. Costs a copy of its values.
    ///
    /// ```
    /// let ops = read(alloc, r#"[{"op": "remove", "path": "/a", "why": "it is old"}]"#).ok()?;
    /// let patch = Patch::from_tree(alloc, &ops, PatchLimits::REQUEST).ok()?;
    /// let text = patch.to_tree(alloc).ok()?.text(alloc).ok()?;
    /// assert!(rt; text.as_str() == r#"[{"op":"remove","path":"/a"}]"#);
    /// ```
    pub fn to_tree(&self, alloc: Global) -> Result<Tree, AllocError>
        ensures form { IfOk result (λ tree. tree ≡ patch_document self.now) }
        ensures reads_back { IfOk result
            (λ tree. (ops tokens deepest : ℕ) → length self.now ≤ ops
            → AllByRecursion (OpFits tokens deepest) self.now
            → patch_of ops tokens tree ≡ Ok self.now) }
    {
        let mut items = Vec::with_capacity(alloc, self.ops().len())?;
        for op in self.ops() {
            items.push(Element::new(alloc, op_tree(alloc, op)?)?)?;
        }
        Ok(Tree::from(Node::List(items)))
    }
}

fn op_tree(alloc: Global, op: &Op) -> Result<Tree, AllocError>
    ensures { IfOk result (λ tree. tree ≡ object (op_members op.now)) }
{
    let mut members = Members::new(alloc);
    match op {
        Op::Add { path, value } => {
            put_named(alloc, &mut members, "add", path)?;
            insert_member(alloc, &mut members, "value", value.copy(alloc)?)?;
        }
        Op::Remove { path } => put_named(alloc, &mut members, "remove", path)?,
        Op::Replace { path, value } => {
            put_named(alloc, &mut members, "replace", path)?;
            insert_member(alloc, &mut members, "value", value.copy(alloc)?)?;
        }
        Op::Move { from, path } => {
            put_named(alloc, &mut members, "move", path)?;
            insert_member(alloc, &mut members, "from", pointer_tree(alloc, from)?)?;
        }
        Op::Copy { from, path } => {
            put_named(alloc, &mut members, "copy", path)?;
            insert_member(alloc, &mut members, "from", pointer_tree(alloc, from)?)?;
        }
        Op::Test { path, value } => {
            put_named(alloc, &mut members, "test", path)?;
            insert_member(alloc, &mut members, "value", value.copy(alloc)?)?;
        }
    }
    Ok(Tree::from(Node::Members(members)))
}

/// Inserts the members that every operation has.
fn put_named(
    alloc: Global,
    members: &mut Members,
    name: &str,
    path: &Pointer,
) -> Result<(), AllocError>
    ensures { OnOk result
        (members_of members.new.entries
        ≡ put_member (put_member (members_of members.old.entries) (codes "op") (text name.now))
        (codes "path") (text (spelling path.now))) }
{
    let name = Tree::from(Node::Text(String::from_str(alloc, name)?));
    insert_member(alloc, members, "op", name)?;
    Ok(insert_member(alloc, members, "path", pointer_tree(alloc, path)?)?)
}

fn pointer_tree(alloc: Global, pointer: &Pointer) -> Result<Tree, AllocError>
    ensures { IfOk result (λ tree. tree ≡ text (spelling pointer.now)) }
{
    Ok(Tree::from(Node::Text(pointer.text(alloc)?)))
}
