//! An in-memory stream for tests, and the rows that tests are written in.
//!
//! The promise: a test holds both ends of a stream. On its own side it feeds a [`Wire`], inspects
//! the output, and injects faults, at every call or at one. The code under test reads and writes
//! the [`End`], which never blocks. The tests of links and servers use it.
//!
//! A [`Row`] is a line of text: what is done, and what has to come of it. [`play`] plays rows to a
//! [`Subject`], and names each that is wrong. [`Wire::perform`] does what a client and its
//! stream do, and [`in_words`] and [`push_summary`] tell what was written.
#![tactic(auto)]

mod act;
mod end;
mod injected_fault;
mod row;
mod subject;
mod summary;
mod wire;
mod written;
mod wrong_rows;

pub use end::End;
pub use injected_fault::InjectedFault;
pub use row::{Row, cut};
pub use subject::{Subject, play};
pub use summary::push_summary;
pub use wire::Wire;
pub use written::in_words;
pub use wrong_rows::{WrongRow, WrongRows};
