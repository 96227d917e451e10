//! Tests of the requests of an operator: what no contract states, that the definitions mean HTTP,
//! and that the calls succeed. Most are rows of text, since a row costs a proof next to nothing.
#![tactic(auto)]

#[cfg(test)]
mod asking;
#[cfg(test)]
mod metrics;
#[cfg(test)]
mod replying;
#[cfg(test)]
mod saying;
#[cfg(test)]
mod shared;
