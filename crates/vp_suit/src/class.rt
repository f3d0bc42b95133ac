//! A class of deals.

use vp_card::Hand;

/// A class of deals: its representative, and how many deals it has.
#[derive(Clone, Copy, Debug, PartialEq, Eq)]
pub struct Class {
    pub hand: Hand,
    pub weight: u8,
}
