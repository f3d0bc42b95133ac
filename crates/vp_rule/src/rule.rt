//! Rules of a strategy list, and what they ask of a hold.

use arrayvec::ArrayVec;
use vp_card::RankSet;

/// What a rule asks of a hold. Held naturals are the held cards that are not wild, left naturals the discarded
/// cards that are not wild. Numbers of cards are 0 to 5.
#[derive(Clone, Copy, Debug, Default, PartialEq, Eq)]
pub enum Test {
    /// Exactly so many cards are held.
    Hold(u8),
    /// Exactly so many held cards are wild.
    Wilds(u8),
    /// The held naturals have at most one suit.
    #[default]
    Suited,
    /// The held naturals have at least two suits.
    Mixed,
    /// The held naturals have at most one suit, no two of them one rank, and each is T, J, Q, K or A.
    Royal,
    /// So many windows of five ranks in a row have all ranks of the held naturals, from the first number to the
    /// second, at most 10; none has where a rank repeats.
    Windows(u8, u8),
    /// So many held naturals have a rank of the set, from the first number to the second.
    Count(RankSet, u8, u8),
    /// The greatest number of held naturals of one rank.
    Equal(u8),
    /// The held naturals have exactly so many ranks.
    Ranks(u8),
    /// All five cards are held, and are paid by the pay line at this place of the table, from 0.
    Made(u8),
    /// Exactly so many left naturals have a rank of the set. Of version 2.
    Left(RankSet, u8),
    /// Exactly so many left naturals have a suit that some held natural has. Of version 2.
    LeftSuit(u8),
}

/// A rule matches a hold where all its tests hold; it has 1 to 8.
#[derive(Debug, Default, PartialEq, Eq, Drop)]
pub struct Rule {
    pub tests: ArrayVec<Test, 8>,
}
