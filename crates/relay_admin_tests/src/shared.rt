//! Telling of values.
use std::alloc::Global;
use std::fmt::Debug;

/// The `Debug` text of a value, or nothing if memory runs out.
pub(crate) fn shown<T: Debug + Drop>(alloc: Global, value: T) -> Option<String> {
    format!(in alloc; "{value:?}").ok()
}
