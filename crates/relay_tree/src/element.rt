//! The element of a list.
ghost use Rattle.std.specs.Prelude.{◌≡◌, IfOk, IfErr};
ghost use Rattle.std.specs.Borrow.{Lends, sem};
ghost use Rattle.relay_tree.specs.contracts.element.Element as element;
ghost use Rattle.relay_tree.specs.contracts.tree.Tree as tree;

use crate::tree::Tree;
use std::alloc::{AllocFailed, Global};
use std::marker::Model;
use std::slice;

/// A tree behind a pointer. An insertion into a list, or a removal, moves the elements behind its
/// place as one block of pointers, not of trees.
///
/// ```
/// let mut items = Vec::new(alloc);
/// items.push(Element::new(alloc, Tree::of_count(7)).ok()?).ok()?;
/// let list = Tree::from(Node::List(items));
/// assert!(rt; list.text(alloc).ok()?.as_str() == "[7]");
/// ```
#[cycle(tree)]
#[derive(Drop)]
pub struct Element {
    tree: Box<Tree>,
}

impl Model for Element {
    ghost use Rattle.std.specs.Prelude.{◌+◌};
    ghost use Rattle.relay_tree.specs.Document.{Document, weight};
    ghost use Rattle.relay_tree.specs.Code.{document_code};

    ghost Value = { Document };

    ghost coded = { document_code };

    ghost view = { λ e. e.tree.value };

    ghost size = { λ d. weight d + 1 };

    ghost use Rattle.std.proofs.Common.{arith};

    ghost size_decreases = { λ e h. omega arith };
}

impl Element {
    /// Moves a tree into an allocation of its own. If memory runs out, the tree comes back.
    ///
    /// ```
    /// let element = Element::new(alloc, Tree::of_count(7)).ok()?;
    /// assert!(rt; element.tree().count() == Some(7));
    /// ```
    pub fn new(alloc: Global, tree: Tree) -> Result<Element, AllocFailed<Tree>>
        ensures ok { IfOk result (λ element. element ≡ tree) }
        ensures given_back { IfErr result (λ back. back.value ≡ tree) }
    {
        Ok(Element {
            tree: Box::new(alloc, tree)?,
        })
    }

    pub fn tree(&self) -> &Tree
        ensures { result.now ≡ self.now }
    {
        &self.tree
    }

    /// Borrows the tree for writing. Only what is written there changes.
    ///
    /// ```
    /// let mut element = Element::new(alloc, Tree::of_count(7)).ok()?;
    /// element.tree_mut().node = Node::Truth(true);
    /// assert!(rt; element.tree().text(alloc).ok()?.as_str() == "true");
    /// ```
    pub fn tree_mut(&mut self) -> &mut Tree
        ensures* writes_back { sem 𝓛
            (Lends element.the_row tree.the_row self.entry result (λ d. d)) }
        ensures value { result.now ≡ self.old }
    {
        &mut self.tree
    }

    /// Replaces the element's tree, which is dropped. Keeps the allocation and allocates nothing.
    ///
    /// ```
    /// let element = Element::new(alloc, Tree::of_count(7)).ok()?.with_tree(Tree::of_count(8));
    /// assert!(rt; element.tree().count() == Some(8));
    /// ```
    pub fn with_tree(self, tree: Tree) -> Element
        ensures { result ≡ tree }
    {
        let mut place = self.tree;
        *place = tree;
        Element { tree: place }
    }

    /// Returns the tree and frees the element's allocation.
    ///
    /// ```
    /// let element = Element::new(alloc, Tree::of_count(7)).ok()?;
    /// assert!(rt; element.into_tree().count() == Some(7));
    /// ```
    pub fn into_tree(self) -> Tree
        ensures { result ≡ self }
    {
        Box::into_inner(self.tree)
    }
}

/// Returns the elements of a list, in order.
///
/// ```
/// let board = read(alloc, "[1, 2, 3]").ok()?;
/// let Node::List(items) = &board.node else {
///     return None;
/// };
/// assert!(rt; iter_items(items).filter(|item| item.tree().count() >= Some(2)).count() == 2);
/// ```
pub fn iter_items(items: &Vec<Element>) -> slice::Iter<'_, Element>
    ensures { result.rest.now ≡ items.now.items }
{
    items.iter()
}
