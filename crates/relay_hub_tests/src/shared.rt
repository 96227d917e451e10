//! Reading and telling of texts. Each gives nothing if memory runs out or a text cannot be read,
//! which fails the row.
use relay_patch::{Patch, PatchLimits};
use relay_tree::{Tree, read};
use relay_view::View;
use std::alloc::Global;
use std::fmt::Debug;

/// The outcome of an act, if that can be told.
pub(crate) type Came = Option<String>;

/// The `Debug` text of a value.
pub(crate) fn words<T: Debug + Drop>(alloc: Global, value: T) -> Came {
    format!(in alloc; "{value:?}").ok()
}

pub(crate) fn owned(alloc: Global, text: &str) -> Came {
    String::from_str(alloc, text).ok()
}

pub(crate) fn repeated(alloc: Global, text: &str, count: u64) -> Came {
    text.repeat(alloc, usize::try_from(count).ok()?).ok()
}

/// The number that a word spells.
pub(crate) fn number(word: &str) -> Option<u64> {
    word.parse::<u64>().ok()
}

pub(crate) fn tree_of(alloc: Global, text: &str) -> Option<Tree> {
    read(alloc, text).ok()
}

pub(crate) fn view_of(alloc: Global, text: &str) -> Option<View> {
    View::read(alloc, &tree_of(alloc, text)?).ok()
}

pub(crate) fn patch_of(alloc: Global, text: &str) -> Option<Patch> {
    Patch::from_owned(alloc, tree_of(alloc, text)?, PatchLimits::REQUEST).ok()
}

/// A revision and a view, as text.
pub(crate) fn at_revision(alloc: Global, rev: u64, view: &Tree) -> Came {
    let view = view.text(alloc).ok()?;
    format!(in alloc; "{rev} {view}").ok()
}
