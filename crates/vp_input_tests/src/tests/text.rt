//! What no contract says: texts from outside, the edges of numbers, a line that is written, the laws at a type.

mod laws;
mod reading;
mod writing;
