//! Tests of rooms and wills that are kept in a store and taken up again.
#![tactic(auto)]

#[cfg(test)]
mod kept;
#[cfg(test)]
mod rooms;
#[cfg(test)]
mod wills;
