//! The words of a line.

use vp_card::{Card, Hand, RankSet};

/// A word of a line that is written, or words that stand together in it.
#[derive(Clone, Copy, Debug, Default, PartialEq, Eq)]
pub enum Word<'a> {
    /// No word. It stands where a line may have one.
    #[default]
    Nothing,
    /// A word as it is.
    Text(&'a [u8]),
    /// A number in its decimal digits.
    Number(u128),
    /// Numbers, each as a word.
    Numbers(&'a [u32]),
    /// A fraction, which is never reduced: the number above, `/` and the number below, as three words.
    Fraction(u128, u128),
    /// A set of ranks: `any`, or its letters.
    Ranks(&'a RankSet),
    /// Cards, each as a word.
    Cards(&'a [Card]),
    /// The five cards of a hand, rising, each as a word.
    Hand(&'a Hand),
}
