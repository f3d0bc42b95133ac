//! The words of a command, handed over in bytes: one behind another, each ended by a zero byte.
#![tactic(auto)]

mod words;

pub use words::words_in;
