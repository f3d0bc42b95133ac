//! One module for each crate that is asked.

mod count;
mod draws;
mod hold;
mod suit;
mod wild;
