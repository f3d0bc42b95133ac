//! What a list loses.

use arrayvec::ArrayVec;

/// The deals that are decided in one way, and what the list loses on them.
#[derive(Clone, Copy, Debug, Default, PartialEq, Eq)]
pub struct Tally {
    /// How many deals.
    pub deals: u32,
    /// The sum over these deals of the best value less the least.
    pub loss: u128,
}

/// What a list loses against the best holds. All numbers are over all deals from the deck; the sums of values stand
/// over the number of deals times the common denominator of the deck, times the bet where they are returns.
#[derive(Debug, PartialEq, Eq, Drop)]
pub struct Audited {
    /// The sum of the best values.
    pub optimum: u128,
    /// The sum of the least values among the holds that the list allows.
    pub least: u128,
    /// The sum of the greatest values among these holds.
    pub greatest: u128,
    /// The optimum less the least.
    pub loss: u128,
    /// How many deals have holds of different values that the list allows.
    pub ambiguous: u32,
    /// The deals that the exceptions decide.
    pub except: Tally,
    /// The deals that each rule decides, in the order of the rules.
    pub rules: ArrayVec<Tally, 128>,
    /// The deals that nothing decides.
    pub none: Tally,
}
