//! The touch of a change on a slot, decided by paths alone: no document is read.
ghost use Rattle.std.specs.Prelude.{◌≡◌};
ghost use Rattle.relay_pointer.specs.Path.{path_of};
ghost use Rattle.relay_translate.specs.Touch.{exchange_touch, size_touch, touch, touch_either};
ghost use Rattle.relay_translate.specs.Touch.{touch_last, touch_path, touch_place, touch_size};
ghost use Rattle.relay_translate.specs.Touch.{touch_value};
ghost use Rattle.relay_translate.specs.Table.{touch_by_table};

use crate::kind::Touch;
use relay_patch::{Change, Place};
use relay_pointer::{Pointer, index_of};
use relay_view::SlotKind;

/// Returns how a change touches what a slot with this pointer and kind shows. A move is judged as a
/// removal and an insertion, a copy at its target. For a size, a change within the value is a
/// `Reset` if the value gains or loses a part, and else `Apart`; none is `Inside`. Costs a
/// comparison of the paths. Allocates nothing. See `docs/PROTOCOL.md`, "What a change means to a
/// slot".
///
/// ```
/// let change = Change::DropItem { path: Pointer::read(alloc, "/items/3", 64).ok()? };
/// let items = Pointer::read(alloc, "/items", 64).ok()?;
/// assert!(rt; touch(&change, &items, SlotKind::Value) == Touch::Inside);
/// assert!(rt; touch(&change, &items, SlotKind::Size) == Touch::Reset);
/// let first = Pointer::read(alloc, "/items/0", 64).ok()?;
/// assert!(rt; touch(&change, &first, SlotKind::Value) == Touch::Apart);
/// ```
pub fn touch(change: &Change, pointer: &Pointer, kind: SlotKind) -> Touch
    ensures exact { result ≡ touch change.now pointer.now kind }
    ensures table { result ≡ touch_by_table change.now pointer.now kind }
{
    touch_tokens(change, pointer.tokens(), kind)
}

/// [`touch`], by the pointer's tokens.
pub(crate) fn touch_tokens(change: &Change, pointer: &[String], kind: SlotKind) -> Touch
    ensures { result ≡ touch change.now (path_of pointer.now) kind }
{
    match kind {
        SlotKind::Value => touch_value(change, pointer),
        SlotKind::Size => touch_size(change, pointer),
    }
}

fn touch_value(change: &Change, pointer: &[String]) -> Touch
    ensures { result ≡ touch_value change.now (path_of pointer.now) }
{
    match change {
        Change::Set { path, .. } | Change::AddMember { path, .. } | Change::DropMember { path } => {
            touch_path(false, path.tokens(), pointer)
        }
        Change::AddItem { path, .. } | Change::DropItem { path } => {
            touch_path(true, path.tokens(), pointer)
        }
        Change::Move { from, to, .. } => {
            touch_either(touch_place(from, pointer), touch_place(to, pointer))
        }
        Change::Copy { to, .. } => touch_place(to, pointer),
    }
}

fn touch_size(change: &Change, pointer: &[String]) -> Touch
    ensures { result ≡ touch_size change.now (path_of pointer.now) }
{
    match change {
        Change::Set { path, .. } => exchange_touch(touch_path(false, path.tokens(), pointer)),
        Change::AddMember { path, .. } | Change::DropMember { path } => {
            touch_part(false, path, pointer)
        }
        Change::AddItem { path, .. } | Change::DropItem { path } => touch_part(true, path, pointer),
        Change::Move { from, to, .. } => touch_either(
            touch_part(from.item, &from.path, pointer),
            touch_part(to.item, &to.path, pointer),
        ),
        Change::Copy { to, .. } => touch_part(to.item, &to.path, pointer),
    }
}

/// Returns how an insertion or a removal at a path touches the size of the value at the pointer.
fn touch_part(is_item: bool, path: &Pointer, pointer: &[String]) -> Touch
    ensures { result
        ≡ size_touch path.now (path_of pointer.now)
        (touch_path is_item path.now (path_of pointer.now)) }
{
    match touch_path(is_item, path.tokens(), pointer) {
        Touch::Inside if path.tokens().len() != pointer.len() + 1 => Touch::Apart,
        Touch::Inside | Touch::Reset => Touch::Reset,
        Touch::Apart => Touch::Apart,
    }
}

/// Replacing a value within another leaves the size of the outer one.
fn exchange_touch(touch: Touch) -> Touch
    ensures { result ≡ exchange_touch touch }
{
    match touch {
        Touch::Apart | Touch::Inside => Touch::Apart,
        Touch::Reset => Touch::Reset,
    }
}

/// Returns how a change at a place touches the value at the pointer.
pub(crate) fn touch_place(place: &Place, pointer: &[String]) -> Touch
    ensures { result ≡ touch_place place.now (path_of pointer.now) }
{
    touch_path(place.item, place.path.tokens(), pointer)
}

/// Returns `Reset` if either is, else `Inside` if either is, else `Apart`.
fn touch_either(first: Touch, second: Touch) -> Touch
    ensures { result ≡ touch_either first second }
{
    match (first, second) {
        (Touch::Reset, _) | (_, Touch::Reset) => Touch::Reset,
        (Touch::Inside, _) | (_, Touch::Inside) => Touch::Inside,
        (Touch::Apart, Touch::Apart) => Touch::Apart,
    }
}

fn touch_path(is_item: bool, path: &[String], pointer: &[String]) -> Touch
    ensures { result ≡ touch_path is_item (path_of path.now) (path_of pointer.now) }
{
    let [token, rest @ ..] = path else {
        return Touch::Reset;
    };
    let [other, further @ ..] = pointer else {
        return Touch::Inside;
    };
    if rest.is_empty() {
        return touch_last(is_item, token, other);
    }
    if token == other {
        touch_path(is_item, rest, further)
    } else {
        Touch::Apart
    }
}

/// Compares the last token of a path with the pointer's token at the same depth.
fn touch_last(is_item: bool, token: &str, other: &str) -> Touch
    ensures { result ≡ touch_last is_item token.now other.now }
{
    if is_item {
        match (index_of(token), index_of(other)) {
            (Some(index), Some(pointed)) if index <= pointed => Touch::Reset,
            _ => Touch::Apart,
        }
    } else if token == other {
        Touch::Reset
    } else {
        Touch::Apart
    }
}
