//! A game of a log.

use arrayvec::ArrayVec;
use vp_card::Card;

/// What a log says of one game. The cards stand in the order of the log; whether they repeat, whether there are as many
/// as a game has, and whether the numbers are right, is no matter of the grammar.
#[derive(Debug, PartialEq, Eq, Drop)]
pub struct Event {
    /// The coins that were bet.
    pub bet: u64,
    /// The cards that were dealt.
    pub deal: [Card; 5],
    /// The cards that were held.
    pub hold: ArrayVec<Card, 5>,
    /// The cards that were drawn.
    pub draw: ArrayVec<Card, 5>,
    /// The coins that were paid.
    pub pay: u64,
    /// The credits behind the game.
    pub credits: u64,
}
