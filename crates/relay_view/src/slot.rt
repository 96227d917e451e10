//! A slot of a view: a pointer, and what is shown of the value at it.
ghost use Rattle.std.specs.Prelude.{◌≡◌, ◌-◌, ◌^◌, ◌++◌, min, pos, option_map, option_and_then};
ghost use Rattle.std.specs.Prelude.{IfOk, OnOk};
ghost use Rattle.relay_tree.specs.Budget.{paid};
ghost use Rattle.relay_tree.specs.Document.{weight};
ghost use Rattle.relay_tree.specs.Text.{tokens_of, ReadsBack};
ghost use Rattle.relay_pointer.specs.Path.{at};
ghost use Rattle.relay_view.specs.View.{counted, shown, size, slot};
ghost use Rattle.relay_view.specs.Written.{shown_tokens};

use json::Writer;
use relay_pointer::{Pointer, resolve};
use relay_tree::{Budget, Element, Node, Tree};
use std::alloc::{AllocError, Global};

/// The weight of the list around a slot's value.
const LIST_WEIGHT: u64 = 8;

/// The contents that a slot shows: a value, or its size.
///
/// ```
/// let view = View::read(alloc, &read(alloc, r#"["", {"size": ""}]"#).ok()?).ok()?;
/// assert!(rt; view.kind(0) == Some(SlotKind::Value) && view.kind(1) == Some(SlotKind::Size));
/// let cards = read(alloc, r#"["a", "b"]"#).ok()?;
/// assert!(rt; view.of(alloc, &cards).ok()?.text(alloc).ok()?.as_str() == r#"[[["a","b"]],[2]]"#);
/// ```
#[derive(Clone, Copy, Debug, PartialEq, Eq)]
pub enum SlotKind {
    /// The value at the pointer.
    Value,
    /// The number of elements or members of that value.
    Size,
}

/// A slot: its pointer, and what it shows of the value there.
///
/// ```
/// let slot = Slot { pointer: Pointer::read(alloc, "/cards", 64).ok()?, kind: SlotKind::Size };
/// let board = read(alloc, r#"{"cards": ["a", "b"]}"#).ok()?;
/// assert!(rt; slot.of(alloc, &board).ok()?.text(alloc).ok()?.as_str() == "[2]");
/// ```
#[derive(Drop)]
pub struct Slot {
    pub pointer: Pointer,
    pub kind: SlotKind,
}

impl Slot {
    /// Returns what the slot shows of a document: `[v]` if there is something to show, else `[]`.
    /// Copies the value; a size needs no copy.
    ///
    /// ```
    /// let slot = Slot { pointer: Pointer::read(alloc, "/a", 64).ok()?, kind: SlotKind::Value };
    /// let some = slot.of(alloc, &read(alloc, r#"{"a": null}"#).ok()?).ok()?;
    /// let none = slot.of(alloc, &read(alloc, "{}").ok()?).ok()?;
    /// assert!(rt; some.text(alloc).ok()?.as_str() == "[null]");
    /// assert!(rt; none.text(alloc).ok()?.as_str() == "[]");
    /// ```
    pub fn of(&self, alloc: Global, document: &Tree) -> Result<Tree, AllocError>
        ensures { IfOk result (λ seen. seen ≡ slot self.now document.now) }
    {
        let mut slot = Vec::new(alloc);
        if let Some(value) = self.value(alloc, document)? {
            slot.push(Element::new(alloc, value)?)?;
        }
        Ok(Tree::from(Node::List(slot)))
    }

    /// Pays the weight of what the slot shows of a document. Returns what is left of the budget, or
    /// `None` if the weight exceeds it. Walks no more of the value than the budget pays for.
    /// Allocates nothing.
    ///
    /// ```
    /// let slot = Slot { pointer: Pointer::read(alloc, "/a", 64).ok()?, kind: SlotKind::Value };
    /// let board = read(alloc, r#"{"a": 7}"#).ok()?;
    /// // What it shows is [7]: a list and a number.
    /// assert!(rt; slot.pay(&board, Budget::Left(16)) == Some(Budget::Left(0)));
    /// assert!(rt; slot.pay(&board, Budget::Left(15)) == None);
    /// ```
    #[tactic(auto, using(relay_tree::proofs::Budgets::paid_on, relay_tree::proofs::Budgets::paid_out))]
    pub fn pay(&self, document: &Tree, budget: Budget) -> Option<Budget>
        ensures { result ≡ paid (weight (slot self.now document.now)) budget }
    {
        let left = budget.pay(LIST_WEIGHT)?;
        let Some(part) = resolve(document, &self.pointer) else {
            return Some(left);
        };
        match self.kind {
            SlotKind::Value => part.pay(left),
            SlotKind::Size => match size_tree(part) {
                Some(size) => size.pay(left),
                None => Some(left),
            },
        }
    }

    fn value(&self, alloc: Global, document: &Tree) -> Result<Option<Tree>, AllocError>
        ensures { IfOk result
            (λ value. value
            ≡ option_and_then (shown self.now.kind) (at document.now self.now.pointer)) }
    {
        let Some(part) = resolve(document, &self.pointer) else {
            return Ok(None);
        };
        match self.kind {
            SlotKind::Value => Ok(Some(part.copy(alloc)?)),
            SlotKind::Size => Ok(size_tree(part)),
        }
    }

    /// Appends what the slot shows of a document to the output, without copying it.
    pub(crate) fn write(&self, document: &Tree, out: &mut Writer) -> Result<(), AllocError>
        ensures tokens { OnOk result
            (out.new.tokens ≡ out.old.tokens ++ tokens_of (slot self.now document.now)) }
        ensures before { out.new.before ≡ out.old.before }
        ensures reads_back { OnOk result (ReadsBack (slot self.now document.now)) }
    {
        out.begin_array()?;
        self.write_value(document, out)?;
        out.end_array()
    }

    fn write_value(&self, document: &Tree, out: &mut Writer) -> Result<(), AllocError>
        ensures tokens { OnOk result
            (out.new.tokens ≡ out.old.tokens
            ++ shown_tokens
            (option_and_then (shown self.now.kind) (at document.now self.now.pointer))) }
        ensures before { out.new.before ≡ out.old.before }
        ensures reads_back { OnOk result (ReadsBack (slot self.now document.now)) }
    {
        let Some(part) = resolve(document, &self.pointer) else {
            return Ok(());
        };
        match self.kind {
            SlotKind::Value => part.write(out),
            SlotKind::Size => match size_tree(part) {
                Some(size) => size.write(out),
                None => Ok(()),
            },
        }
    }
}

/// Returns the size of a value as a tree, or `None` if it is neither a list nor an object.
fn size_tree(part: &Tree) -> Option<Tree>
    ensures { result ≡ option_map counted (size part.now) }
{
    let size = size_of(part)?;
    Some(Tree::from(Node::Whole(bounded(size))))
}

/// Returns the number of elements of a list or of members of an object.
fn size_of(part: &Tree) -> Option<usize>
    ensures { result ≡ size part.now }
{
    match &part.node {
        Node::List(items) => Some(items.len()),
        Node::Members(members) => Some(members.len()),
        _ => None,
    }
}

/// Returns the number, or `i64::MAX` if it is larger.
fn bounded(number: usize) -> i64
    ensures { result ≡ pos (min number (2 ^ 63 - 1)) }
{
    i64::try_from(number).unwrap_or(i64::MAX)
}
