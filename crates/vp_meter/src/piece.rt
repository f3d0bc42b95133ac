//! A piece.

/// From `from` on the sums over all deals are `base + slope * x`.
#[derive(Clone, Copy, Debug, PartialEq, Eq)]
pub(crate) struct Piece {
    pub from: u32,
    pub classes: u64,
    pub deals: u64,
    pub base: u64,
    pub slope: u128,
}
