//! Tests of what documents are made of and changed by: trees, pointers, patches, views, their
//! translation, and the audiences of views.
//!
//! They call what stands alone with success, and show what no script can: limits that a caller
//! chooses, and calls that only other crates make. What is done within a budget (`apply_within`,
//! `translate_within`) is shown by the tests of the hub. How edits change documents, and what views
//! show of it, is data in `tests/scripts`. Each subject is one text of rows, since a row costs a
//! proof next to nothing, and a function that asserts it much.
#![tactic(auto)]

#[cfg(test)]
mod audience;
#[cfg(test)]
mod change;
#[cfg(test)]
mod patch;
#[cfg(test)]
mod pointer;
#[cfg(test)]
mod shared;
#[cfg(test)]
mod stage;
#[cfg(test)]
mod translate;
#[cfg(test)]
mod tree;
#[cfg(test)]
mod view;
