//! The command line of the program `relay`, parsed by `clap` into a job whose numbers are each
//! proved to be in range. It is a crate of its own so that the other crates can be checked without
//! `clap`.
#![tactic(auto)]

mod commands;
mod hub_options;
mod job;
mod origin;
mod reading;
mod server_options;
mod settings;
mod store_job;
mod store_options;
mod values;

pub use job::{Job, Stop};
pub use reading::job_of;
pub use settings::{MAX_PORT, MAX_ROUNDS, Settings};
pub use store_job::{StoreJob, StoreTool};
