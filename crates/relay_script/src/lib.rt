//! Scripts and followers as line filters (`docs/PROTOCOL.md`): they read lines from any reader and
//! write answers to any writer. A script runs over any transport to a hub.
#![tactic(auto)]

mod complete_run;
mod fault;
mod follow;
mod input;
mod line;
mod outcome;
mod output;
mod over_hub;
mod respond;
mod retrying_follower;
mod run;
mod script;
mod script_client;
mod transport;
mod words;

pub use complete_run::{run_follow, run_script};
pub use fault::ScriptFault;
pub use input::MAX_LINE;
pub use outcome::Outcome;
pub use output::write_whole;
pub use respond::Respond;
pub use run::{MAX_LINES, run_lines};
pub use script::{FIRST_SESSION, Script};
pub use transport::Transport;
