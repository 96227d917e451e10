//! The three ways a change can touch what a slot shows.
ghost use Rattle.std.specs.Prelude.{◌≡◌};
ghost use Rattle.relay_translate.specs.Translate.{is_reset};

/// The touch of a change on the contents of a slot.
///
/// ```
/// // An element was inserted before the one that a slot shows.
/// let change = Change::AddItem {
///     path: Pointer::read(alloc, "/items/0", 64).ok()?,
///     value: Tree::of_count(7),
/// };
/// let second = Pointer::read(alloc, "/items/1", 64).ok()?;
/// assert!(rt; touch(&change, &second, SlotKind::Value) == Touch::Reset);
/// ```
#[derive(Clone, Copy, Debug, PartialEq, Eq)]
pub enum Touch {
    /// The slot shows what it showed before.
    Apart,
    /// Something within the value that the slot shows changed. Never for a size.
    Inside,
    /// The slot may show another value or another size now, or nothing.
    Reset,
}

impl Touch {
    pub(crate) fn is_reset(self) -> bool
        ensures { result ≡ is_reset self }
    {
        match self {
            Touch::Apart | Touch::Inside => false,
            Touch::Reset => true,
        }
    }
}
