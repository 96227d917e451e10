//! The change that an accepted operation made, and its place.
use relay_pointer::Pointer;
use relay_tree::Tree;

/// The place at which a value is removed or inserted. The path is canonical: `-` is replaced by the
/// index that it names.
///
/// ```
/// let mut cards = read(alloc, r#"["a", "b"]"#).ok()?;
/// let ops = read(alloc, r#"[{"op": "move", "from": "/0", "path": "/-"}]"#).ok()?;
/// let patch = Patch::from_owned(alloc, ops, PatchLimits::REQUEST).ok()?;
/// let changes = apply(alloc, &mut cards, &patch, Bounds::DOCUMENT).ok()?;
/// let Change::Move { to, .. } = &changes[0] else {
///     return None;
/// };
/// assert!(rt; to.item && to.path.text(alloc).ok()?.as_str() == "/1");
/// ```
#[derive(Drop)]
pub struct Place {
    pub path: Pointer,
    /// True if the last token is a position in a list, at which an element is removed or inserted.
    pub item: bool,
}

/// The change that an accepted operation made. A `test` changes nothing, and neither does a `move`
/// to its own place.
///
/// ```
/// let mut board = read(alloc, r#"{"a": 1}"#).ok()?;
/// let ops = r#"[{"op":"add","path":"/a","value":2},{"op":"add","path":"/b","value":3}]"#;
/// let ops = read(alloc, ops).ok()?;
/// let patch = Patch::from_owned(alloc, ops, PatchLimits::REQUEST).ok()?;
/// let changes = apply(alloc, &mut board, &patch, Bounds::DOCUMENT).ok()?;
/// assert!(rt; matches!(&changes[0], Change::Set { .. }));
/// assert!(rt; matches!(&changes[1], Change::AddMember { .. }));
/// ```
#[derive(Drop)]
pub enum Change {
    /// The root, or an existing member or element, was set to the value.
    Set {
        path: Pointer,
        value: Tree,
    },
    /// A new member was added to an object.
    AddMember {
        path: Pointer,
        value: Tree,
    },
    /// An element was inserted into a list; those behind it moved up.
    AddItem {
        path: Pointer,
        value: Tree,
    },
    /// A member was removed.
    DropMember {
        path: Pointer,
    },
    /// An element was removed; those behind it moved down.
    DropItem {
        path: Pointer,
    },
    /// The value was moved from one place to another. `to` counts positions after the removal.
    Move {
        from: Place,
        to: Place,
        value: Tree,
    },
    /// The value at `from` was copied to `to`.
    Copy {
        from: Pointer,
        to: Place,
        value: Tree,
    },
}
