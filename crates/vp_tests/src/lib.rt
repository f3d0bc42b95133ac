//! The tests of the program: its answers over sources and sinks in memory.
//!
//! They ask the public calls alone, and stand in a crate of their own so that they are proved without what they ask being
//! proved again.
#![tactic(auto)]

#[cfg(test)]
mod tests;
