//! One module for each crate that is asked.

mod audit;
mod compile;
mod rule;
