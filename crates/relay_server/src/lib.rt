//! The program `relay` as a library over any reader and writer (`docs/PROTOCOL.md`): its jobs, from
//! command-line arguments to an exit status. Scripts and followers are in `relay_script`, loopback
//! sockets in `relay_loopback`, and the rounds of a server in `relay_event_loop`.
#![tactic(auto)]

mod beginning;
mod bound_listener;
mod config;
mod export;
mod importing;
mod jobs;
mod log_level;
mod log_lines;
mod polled_output;
mod rfc3339;
mod serve;
mod status;
mod store_keeper;
mod store_opener;
mod store_tools;
mod tool_fault;
mod tool_lines;

pub use jobs::{carry_out, refuse_words, start};
pub use log_lines::LogLines;
pub use polled_output::PolledOutput;
pub use relay_event_loop::{
    ConnectionId, ConnectionLog, HandshakeRefusal, LogEntry, NoLog, RoomSession, Server,
    connection_limit,
};
pub use relay_link::EndCause;
pub use relay_loopback::{Client, ClientHandshake, ServeFault};
pub use relay_operator::AdminPort;
pub use relay_readiness::{AdminReadiness, Polling, Readiness, ReadyEvent, StreamReady};
pub use relay_script::{
    MAX_LINE, MAX_LINES, Respond, Script, ScriptFault, Transport, run_follow, run_script,
};
pub use relay_store_sqlite::LogBefore;
pub use status::{Status, report};
pub use store_opener::{OpenStore, StoreOpener};
