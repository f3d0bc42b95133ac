//! Lists and pools that are read and refused, rules that are written as they were read, and rules asked of holds.

mod defined;
mod matching;
mod reading;
mod writing;
