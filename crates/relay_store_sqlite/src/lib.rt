//! A store of the relay in a SQLite database, which is a file or memory.
//!
//! The promise: [`SqliteStore`] meets the contract of [`Keeps`](relay_store::Keeps) over any store
//! of trees that the kit's SQLite works on, and [`adopt`] and [`open`] give changes that make what
//! the last commit left. Each change is a row of the table `change`. A commit adds its rows and
//! removes those that they replace, in one transaction. SQL makes the tables and checks them; the
//! rows go to the trees below SQL, whose contracts say what a table holds. Nothing here knows the
//! hub.
#![tactic(auto)]

mod checkpoint;
mod fault;
mod file;
mod header;
mod live;
mod log_beside;
mod opening;
mod read;
mod remove;
mod row;
mod store;
mod write;

pub use checkpoint::Checkpoint;
pub use file::{close_read, open};
pub use log_beside::LogBefore;
pub use opening::{Opened, adopt};
pub use store::SqliteStore;
