//! JSON documents as trees: read from texts, written, copied, compared and weighed.
//!
//! The promise: a text and its tree agree. [`read`] returns the tree of a JSON text (RFC 8259) if
//! all its numbers are whole and fit in 64 bits with a sign. [`Tree::text`] writes the one compact
//! text of a tree, which reads back as that tree if it nests at most 127 containers. Contracts see
//! a tree as a `Document` of `specs/`, so `≡` compares documents and not memory.
#![tactic(auto)]

mod budget;
mod copy;
mod count;
mod element;
mod measure;
mod member;
mod members;
mod number;
mod open_object;
mod part;
mod reading;
mod same;
mod text;
mod tree;
mod write;

pub use budget::Budget;
pub use element::{Element, iter_items};
pub use json::Scratch;
pub use member::insert_member;
pub use members::Members;
pub use reading::{TreeFault, read, read_with};
pub use text::{begin_text, end_text};
pub use tree::{Node, Tree};
