//! The tests of classes, pay lines, draws, sums and holds.
//!
//! They ask public calls alone, and stand in a crate of their own so that they are proved without what they ask being
//! proved again.
#![tactic(auto)]

#[cfg(test)]
mod tests;
