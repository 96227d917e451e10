//! Reading of texts, and telling of values. Each gives nothing if memory runs out or a text cannot
//! be read, which fails the row.
use relay_patch::{Patch, PatchLimits};
use relay_tree::{Tree, read};
use relay_view::View;
use std::alloc::Global;
use std::fmt::Debug;

pub(crate) fn view_of(alloc: Global, text: &str) -> Option<View> {
    View::read(alloc, &read(alloc, text).ok()?).ok()
}

pub(crate) fn patch_of(alloc: Global, text: &str) -> Option<Patch> {
    Patch::from_owned(alloc, read(alloc, text).ok()?, PatchLimits::REQUEST).ok()
}

/// The text of a part of a document, or `nothing` if there is no such part.
pub(crate) fn part_text(alloc: Global, part: Option<&Tree>) -> Option<String> {
    match part {
        Some(part) => part.text(alloc).ok(),
        None => String::from_str(alloc, "nothing").ok(),
    }
}

/// The text of a part that was taken out of a document, or of a tree that was made.
pub(crate) fn taken_text(alloc: Global, part: Option<Tree>) -> Option<String> {
    part_text(alloc, part.as_ref())
}

/// The `Debug` text of a value.
pub(crate) fn shown<T: Debug + Drop>(alloc: Global, value: T) -> Option<String> {
    format!(in alloc; "{value:?}").ok()
}

/// The outcome of an act of which nothing is told.
pub(crate) fn nothing(alloc: Global) -> Option<String> {
    Some(String::new(alloc))
}
