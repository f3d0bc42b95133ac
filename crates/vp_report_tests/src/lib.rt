//! The tests of certificates, moments, counts of pay lines, meters, logs that are replayed, and logs that are made.
//!
//! They ask public calls alone, and stand in a crate of their own so that they are proved without what they ask being
//! proved again.
#![tactic(auto)]

#[cfg(test)]
mod tests;
