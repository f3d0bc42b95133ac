//! A class line of a certificate.

use vp_card::Hand;

/// What a certificate says of one class of deals.
#[derive(Clone, Copy, Debug, PartialEq, Eq)]
pub struct ClassLine {
    /// The representative of the class.
    pub hand: Hand,
    /// How many deals the class has.
    pub weight: u8,
    /// A hold of the representative: bit `i` holds the card at place `i`.
    pub mask: u8,
    /// The greatest value of the 32 holds: the expected payment times the common denominator of the deck.
    pub value: u64,
}
