//! The answer of a reader that refuses a line.

/// A line was refused. Lines are counted from 1; where the input ends too soon, the line is one more
/// than the number of lines of the input.
#[derive(Clone, Copy, Debug, PartialEq, Eq)]
pub struct Refused {
    pub line: u32,
}
