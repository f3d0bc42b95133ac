//! The program over sources and sinks in memory.

mod audit;
mod certify;
mod check;
mod compile;
mod cross;
mod deal;
mod faults;
mod hits;
mod meter;
mod multi;
mod play;
mod replay;
mod sessions;
mod tables;
mod words;
