//! One module for each crate that is asked.

mod card;
mod csv;
mod io;
mod lines;
mod loggram;
mod pay;
mod rank;
mod region;
mod sets;
mod text;
