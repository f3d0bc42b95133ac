//! What a pay line asks of a hand.

use vp_card::RankSet;

/// A pattern of five faces; each wild card has any face that the player likes.
#[derive(Clone, Copy, Debug, Default, PartialEq, Eq)]
pub enum Pattern {
    /// One suit, and the ranks T J Q K A.
    #[default]
    Royal,
    /// One suit, and five ranks in a row, the ace also below the two.
    StraightFlush,
    /// One rank of the set, five times.
    FiveKind(RankSet),
    /// Exactly so many wild cards; with a set, the other card of exactly four wild cards has a rank of it.
    Wilds(u8, Option<RankSet>),
    /// One rank of the set at least four times; with a second set exactly four times, and the fifth rank is in it.
    Quads(RankSet, Option<RankSet>),
    /// One rank three times and another one twice.
    FullHouse,
    /// One suit.
    Flush,
    /// Five ranks in a row, the ace also below the two.
    Straight,
    /// Some rank at least three times.
    Trips,
    /// Two different ranks at least twice each.
    TwoPair,
    /// Some rank of the set at least twice.
    Pair(RankSet),
}

/// Whether a pay line wants hands with wild cards, without them, or either.
#[derive(Clone, Copy, Debug, Default, PartialEq, Eq)]
pub enum Qualifier {
    #[default]
    Either,
    /// The hand has no wild card.
    Natural,
    /// The hand has at least one wild card.
    Wild,
}
