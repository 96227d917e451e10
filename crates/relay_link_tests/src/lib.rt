//! Tests of links: the cause of each turn, the bytes written, and that links keep working beside
//! one that fails; and what a client makes of what a link wrote.
//!
//! Most tests are rows of text, which are played to a link over a scripted wire: what happens, and
//! what the turn comes to.
#![tactic(auto)]

#[cfg(test)]
mod calls;
#[cfg(test)]
mod deliveries;
#[cfg(test)]
mod ends;
#[cfg(test)]
mod frames;
#[cfg(test)]
mod handshake;
#[cfg(test)]
mod large;
#[cfg(test)]
mod link_fixture;
#[cfg(test)]
mod links;
#[cfg(test)]
mod others;
#[cfg(test)]
mod streams;
#[cfg(test)]
mod visits;
#[cfg(test)]
mod write_turns;
