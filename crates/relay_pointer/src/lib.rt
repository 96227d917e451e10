//! JSON Pointer (RFC 6901): paths into a document, and the part that a path names.
//!
//! The promise: a text and its pointer agree, [`resolve`] returns the value at the path, and a
//! write through [`resolve_mut`] changes nothing else in the document. Contracts see a [`Pointer`]
//! as the list of its tokens, each a list of bytes with nothing escaped.
#![tactic(auto)]

mod index;
mod lent;
mod pointer;
mod put;
mod reading;
mod text;
mod walk;
mod weight;

pub use index::index_of;
pub use lent::resolve_mut;
pub use pointer::{Pointer, copy_tokens, same_path};
pub use put::{exchange, set, take};
pub use reading::{MAX_TOKENS, PointerFault};
pub use walk::{child, child_mut, resolve};
