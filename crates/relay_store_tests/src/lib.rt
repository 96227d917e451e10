//! Tests of stores: what is kept and read back, in memory and in a database in memory.
#![tactic(auto)]

#[cfg(test)]
mod changes;
