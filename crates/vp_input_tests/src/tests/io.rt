//! Whole texts through each source and each sink, and what a failing call leaves.

mod blocks;
mod memory;
mod real;

/// Ten bytes.
const TEXT: &[u8; 10] = b"0123456789";
