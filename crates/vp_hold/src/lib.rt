//! The value of each hold of a hand, and the best hold, out of one table of sums for a bet.
#![tactic(auto)]

mod game;
mod line_numbers;
mod means;
mod payments;
mod scales;
mod squares;

pub use game::Game;
pub use line_numbers::{number_means, place_of, write_numbers};
pub use means::HoldMeans;
pub use payments::payments_of;
pub use squares::Squares;
pub use vp_draws::Best;
