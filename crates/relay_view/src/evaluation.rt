//! The slots that a view shows of a document, as a tree.
ghost use Rattle.std.specs.Prelude.{◌≡◌, IfOk};
ghost use Rattle.relay_view.specs.View.{view};

use crate::view::View;
use relay_tree::{Element, Node, Tree};
use std::alloc::{AllocError, Global};

impl View {
    /// Returns the list of slots. Copies each value that a slot shows; a size needs no copy.
    ///
    /// ```
    /// let asked = read(alloc, r#"["/title", {"size": "/cards"}, "/owner"]"#).ok()?;
    /// let view = View::read(alloc, &asked).ok()?;
    /// let board = read(alloc, r#"{"cards": ["a", "b"], "title": null}"#).ok()?;
    /// // A slot with null is not an empty one: no value is at "/owner".
    /// assert!(rt; view.of(alloc, &board).ok()?.text(alloc).ok()?.as_str() == "[[null],[2],[]]");
    /// ```
    pub fn of(&self, alloc: Global, document: &Tree) -> Result<Tree, AllocError>
        ensures { IfOk result (λ seen. seen ≡ view self.now document.now) }
    {
        let mut slots = Vec::with_capacity(alloc, self.slots().len())?;
        for slot in self.slots() {
            slots.push(Element::new(alloc, slot.of(alloc, document)?)?)?;
        }
        Ok(Tree::from(Node::List(slots)))
    }
}
