//! What the cards of a hand have together: counts of ranks, suits and wild cards, and windows of five ranks.
#![tactic(auto)]

mod shape;

pub use shape::{Shape, is_wild, is_wild_card};
