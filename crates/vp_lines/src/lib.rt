//! The lines that the program writes, each as its words.
#![tactic(auto)]

mod lines;
mod words;

pub use lines::{add_cards, put_lines, put_words};
pub use words::Word;
