//! The tests of what reads and writes: cards, sets of cards, words, lines, pay tables, logs and records of sessions.
//!
//! They ask public calls alone, and stand in a crate of their own so that they are proved without what they ask being
//! proved again.
#![tactic(auto)]

#[cfg(test)]
mod tests;
