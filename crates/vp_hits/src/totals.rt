//! How often a line comes, summed over all deals class by class.

ghost use Rattle.std.specs.Prelude.{◌≡◌};
ghost use Rattle.vp_hits.specs.Hits.{often};

use crate::Hits;
use vp_hold::Game;
use vp_suit::Classes;

/// How often the line comes under the printed holds of the game: over all deals the sum of its chances under a printed hold
/// of the deal, each times the common denominator of the deck.
pub fn total_hits(game: &Game, hits: &Hits) -> u128
    requires same { hits.now.table ≡ game.now.table }
    ensures { result ≡ often game.now.table game.now.coin hits.now.line }
{
    let mut classes = Classes::new(game.table().deck);
    let mut total = 0;
    while let Some(class) = classes.next() {
        let best = game.best(&class.hand);
        let weight = hits.weight(&class.hand, best.mask);
        total += u128::from(class.weight) * u128::from(weight);
    }
    total
}
