//! Tests of the command line and of the program: its statuses and texts, the limits on lines,
//! failing streams, a faulty network, `serve`, and its log.
//!
//! They test what no script can. The answers to lines are data in `tests/scripts`. Each module has
//! rows of text, and a subject that does their acts.
#![tactic(auto)]

#[cfg(test)]
mod lines;
#[cfg(test)]
mod log_lines;
#[cfg(test)]
mod nets;
#[cfg(test)]
mod options;
#[cfg(test)]
mod polled_output;
#[cfg(test)]
mod program;
#[cfg(test)]
mod sockets;
#[cfg(test)]
mod story;
#[cfg(test)]
mod streams;
#[cfg(test)]
mod tools;
