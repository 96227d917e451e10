//! Translation of document changes into view patches: which slots the changes touch, and the
//! operations that bring a watcher's view from the document before the changes to the document
//! after them.
//!
//! The promise: for every document from which the changes lead to the new one, its view, patched
//! with the result of [`translate`], is the view of the new document. A slot that no change touches
//! has no operation. One that a change reset is replaced by one operation: its pointer may now lead
//! to another value, or its size may have changed. In any other slot, each change inside its value
//! is one operation. A [`WatchIndex`] finds the sessions whose views the changes touch without
//! checking every view.
#![tactic(auto)]

mod kind;
mod nearby;
mod operation;
mod site;
mod slot_index;
mod touching;
mod translating;
mod view_copy;
mod watch_index;
mod watchers;

pub use kind::Touch;
pub use touching::touch;
pub use translating::{translate, translate_within};
pub use watch_index::WatchIndex;
