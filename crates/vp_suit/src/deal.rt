//! A deal with the heaps of its suits, which tell whether it is a representative, and what it weighs.

ghost use Rattle.std.specs.Prelude.{◌≡◌, true};
ghost use Rattle.vp_suit.specs.Classes.{IsDeal, is_representative, weight};
ghost use Rattle.vp_suit.specs.Heaps.{suit_heaps};

use crate::heaps::{fall, heaps_above, heaps_with};

/// A deal, and the heaps of clubs, diamonds, hearts and spades.
#[derive(Clone, Copy)]
pub(crate) struct Deal {
    pub(crate) cards: [u8; 5],
    pub(crate) heaps: [u64; 4],
    ghost deal: { IsDeal 54 cards },
    ghost heaped: { heaps ≡ suit_heaps cards },
}

impl Deal {
    /// The deal of these cards.
    pub(crate) fn of(cards: &[u8; 5]) -> Deal
        requires { IsDeal 54 cards.now }
        ensures { result.cards ≡ cards.now }
    {
        Deal {
            cards: *cards,
            heaps: heaps_with(&heaps_above(cards), cards),
        }
    }

    /// Whether it is the representative of its class: the heaps fall.
    pub(crate) fn stands(&self) -> bool
        ensures { result ≡ is_representative self.now.cards }
    {
        fall(&self.heaps)
    }

    /// The weight of the class of a representative: the heaps fall, and equal ones give equal images.
    pub(crate) fn weight(&self) -> u8
        requires { is_representative self.now.cards ≡ true }
        ensures { result ≡ weight self.now.cards }
    {
        let [clubs, diamonds, hearts, spades] = self.heaps;
        match (clubs == diamonds, diamonds == hearts, hearts == spades) {
            (true, true, true) => 1,
            (true, true, false) => 4,
            (false, true, true) => 4,
            (true, false, true) => 6,
            (true, false, false) => 12,
            (false, true, false) => 12,
            (false, false, true) => 12,
            (false, false, false) => 24,
        }
    }
}
