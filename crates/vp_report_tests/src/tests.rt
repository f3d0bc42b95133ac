//! One module for each crate that is asked.

mod cert;
mod check;
mod hits;
mod making;
mod meter;
mod multi;
mod replay;
