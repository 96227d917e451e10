//! Deep copies of trees.
ghost use Rattle.std.specs.Prelude.{◌≡◌, IfOk};
ghost use Rattle.relay_tree.specs.Seen.{members_of};

use crate::element::{Element, iter_items};
use crate::members::Members;
use crate::tree::{Node, Tree};
use std::alloc::{AllocError, Global};

impl Tree {
    /// Returns an equal tree. Costs the tree's weight in time and memory. If memory runs out,
    /// nothing stays allocated.
    ///
    /// ```
    /// let board = read(alloc, r#"{"cards": ["a", "b"]}"#).ok()?;
    /// let mut copy = board.copy(alloc).ok()?;
    /// assert!(rt; copy.same(&board));
    /// copy.take_member("cards")?;
    /// assert!(rt; !copy.same(&board));
    /// ```
    pub fn copy(&self, alloc: Global) -> Result<Tree, AllocError>
        ensures { IfOk result (λ copy. copy ≡ self.now) }
    {
        copy_tree(alloc, self)
    }
}

#[cycle(copy)]
fn copy_tree(alloc: Global, tree: &Tree) -> Result<Tree, AllocError>
    ensures { IfOk result (λ copy. copy ≡ tree.now) }
{
    let node = match &tree.node {
        Node::Null => Node::Null,
        Node::Truth(truth) => Node::Truth(*truth),
        Node::Whole(number) => Node::Whole(*number),
        Node::Text(text) => Node::Text(text.clone()?),
        Node::List(items) => Node::List(copy_items(alloc, items)?),
        Node::Members(members) => Node::Members(copy_members(alloc, members)?),
    };
    Ok(Tree { node })
}

#[cycle(copy)]
fn copy_items(alloc: Global, items: &Vec<Element>) -> Result<Vec<Element>, AllocError>
    ensures { IfOk result (λ copies. copies.items ≡ items.now.items) }
{
    let mut copies = Vec::with_capacity(alloc, items.len())?;
    for item in iter_items(items) {
        copies.push(Element::new(alloc, copy_tree(alloc, item.tree())?)?)?;
    }
    Ok(copies)
}

#[cycle(copy)]
fn copy_members(alloc: Global, members: &Members) -> Result<Members, AllocError>
    ensures { IfOk result (λ copies. members_of copies.entries ≡ members_of members.now.entries) }
{
    let mut copies = Members::with_capacity(alloc, members.len())?;
    for (name, member) in members.iter() {
        let name = name.clone()?;
        drop(copies.insert(name, copy_tree(alloc, member)?)?);
    }
    Ok(copies)
}
