//! The reader of views from trees, as requests contain them.
ghost use Rattle.std.specs.Prelude.{◌≡◌, ◌≢◌, true, Ok, Err, IfOk, IfErr, IsErrOf};
ghost use Rattle.relay_tree.specs.Document.{items_of};
ghost use Rattle.relay_tree.specs.Each.{each_from};
ghost use Rattle.relay_view.specs.Form.{view_of, slot_at, slot_spelled, is_short_list};
ghost use Rattle.relay_view.specs.declared.fault.ViewFault.TheVariants.{NoMemory};

use crate::fault::ViewFault;
use crate::slot::{Slot, SlotKind};
use crate::view::{MAX_SLOTS, View};
use relay_pointer::{MAX_TOKENS, Pointer, PointerFault};
use relay_tree::{Element, Node, Tree, iter_items};
use std::alloc::Global;

impl View {
    /// Reads a view from a tree: a list of at most [`MAX_SLOTS`] elements, each a pointer text of
    /// at most [`MAX_TOKENS`] tokens, or an object whose member `size` is such a text; other
    /// members are ignored. `NoMemory` comes only if the tree is a list of at most [`MAX_SLOTS`]
    /// elements. See `docs/PROTOCOL.md`, "Views".
    ///
    /// ```
    /// let asked = read(alloc, r#"["/title", {"size": "/cards"}]"#).ok()?;
    /// let view = View::read(alloc, &asked).ok()?;
    /// assert!(rt; view.kind(0) == Some(SlotKind::Value) && view.kind(1) == Some(SlotKind::Size));
    /// let wrong = read(alloc, r#"["/title", "cards"]"#).ok()?;
    /// assert!(rt; matches!(View::read(alloc, &wrong), Err(ViewFault::Pointer { at: 1 })));
    /// ```
    pub fn read(alloc: Global, tree: &Tree) -> Result<View, ViewFault>
        ensures ok { IfOk result (λ view. view_of tree.now ≡ Ok view) }
        ensures err { IfErr result (λ fault. fault ≢ NoMemory → view_of tree.now ≡ Err fault) }
        ensures no_memory { IsErrOf result NoMemory → is_short_list tree.now ≡ true }
    {
        let Node::List(items) = &tree.node else {
            return Err(ViewFault::Shape { at: None });
        };
        if items.len() as u64 > MAX_SLOTS {
            return Err(ViewFault::TooMany);
        }
        match slots_of(alloc, items) {
            Ok(slots) => Ok(View::of_slots(slots)),
            Err(fault) => Err(fault),
        }
    }
}

fn slots_of(alloc: Global, items: &Vec<Element>) -> Result<Vec<Slot>, ViewFault>
    ensures ok { IfOk result
        (λ slots. each_from slot_at 0 (items_of items.now.items) ≡ Ok slots.items) }
    ensures err { IfErr result
        (λ fault. fault ≢ NoMemory → each_from slot_at 0 (items_of items.now.items) ≡ Err fault) }
{
    let Ok(mut slots) = Vec::with_capacity(alloc, items.len()) else {
        return Err(ViewFault::NoMemory);
    };
    for item in iter_items(items) {
        match slot_at(alloc, slots.len() as u64, item.tree()) {
            Ok(slot) => slots.push_reserved(slot),
            Err(fault) => return Err(fault),
        }
    }
    Ok(slots)
}

/// Reads the slot from the element at place `k`.
fn slot_at(alloc: Global, k: u64, item: &Tree) -> Result<Slot, ViewFault>
    ensures ok { IfOk result (λ slot. slot_at k item.now ≡ Ok slot) }
    ensures err { IfErr result (λ fault. fault ≢ NoMemory → slot_at k item.now ≡ Err fault) }
{
    let (kind, spelled) = match &item.node {
        Node::Members(_) => (SlotKind::Size, item.member("size")),
        _ => (SlotKind::Value, Some(item)),
    };
    let Some(spelled) = spelled else {
        return Err(ViewFault::Shape { at: Some(k) });
    };
    match &spelled.node {
        Node::Text(text) => slot_spelled(alloc, k, kind, text.as_str()),
        _ => Err(ViewFault::Shape { at: Some(k) }),
    }
}

/// Reads the slot at place `k` from the text of its pointer.
fn slot_spelled(alloc: Global, k: u64, kind: SlotKind, text: &str) -> Result<Slot, ViewFault>
    ensures ok { IfOk result (λ slot. slot_spelled k kind text.now ≡ Ok slot) }
    ensures err { IfErr result
        (λ fault. fault ≢ NoMemory → slot_spelled k kind text.now ≡ Err fault) }
{
    match Pointer::read(alloc, text, MAX_TOKENS) {
        Ok(pointer) => Ok(Slot { pointer, kind }),
        Err(PointerFault::BadPointer | PointerFault::TooManyTokens) => {
            Err(ViewFault::Pointer { at: k })
        }
        Err(PointerFault::NoMemory) => Err(ViewFault::NoMemory),
    }
}
