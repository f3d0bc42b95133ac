//! A walk over the deals from a deck, by rising index, that leaves out runs of deals without a representative.

ghost use Rattle.std.specs.Prelude.{◌≡◌, ◌+◌, ◌++◌, ◌<◌, ◌≤◌, ◌↔◌, [], IfSome, IfNone, IsTrue, drop, false, length, option_map, option_to_list, true};
ghost use Rattle.vp_card.specs.Cards.{IsDeck};
ghost use Rattle.vp_sets.specs.Index.{HasIndex, set_index};
ghost use Rattle.vp_sets.specs.Sets.{choose};
ghost use Rattle.vp_suit.specs.Classes.{IsDeal, representatives_in};
ghost use Rattle.vp_suit.specs.Heaps.{suit_heaps};

use crate::deal::Deal;
use crate::heaps::{heaps_above, heaps_with, none_stands};
use std::marker::Model;
use vp_sets::next_set;

/// The deals from a deck of `n` cards that were not given yet; `cards` is the next of them, and `above` are the heaps of
/// its cards but the lowest.
#[derive(Drop)]
pub(crate) struct Deals {
    n: u8,
    cards: [u8; 5],
    above: [u64; 4],
    left: bool,
}

impl Model for Deals {
    ghost use Rattle.std.specs.Prelude.{◌≡◌, List, ℕ, [], if◌then◌else◌, drop};
    ghost use Rattle.vp_card.specs.Cards.{IsDeck};
    ghost use Rattle.vp_sets.specs.Index.{set_index, colex};
    ghost use Rattle.vp_suit.specs.Classes.{IsDeal};
    ghost use Rattle.vp_suit.specs.Heaps.{suit_heaps};

    ghost Value = { List (List ℕ) };

    ghost view = { λ d. if d.left then drop (set_index d.cards) (colex 5 d.n) else [] };

    ghost invariant = { λ d. IsDeck d.n × IsDeal d.n d.cards × (d.above ≡ suit_heaps (drop 1 d.cards)) };
}

impl Deals {
    ghost use Rattle.vp_sets.specs.Index.{colex};

    /// All deals from the deck.
    pub(crate) fn new(n: u8) -> Deals
        requires { IsDeck n }
        ensures { result ≡ colex 5 n }
    {
        let cards = [0, 1, 2, 3, 4];
        Deals {
            n,
            cards,
            above: heaps_above(&cards),
            left: true,
        }
    }

    /// The next deal that may be a representative; None after the last. The deals that are left out are none.
    pub(crate) fn next(&mut self) -> Option<Deal>
        ensures given { representatives_in self.old
            ≡ representatives_in (option_to_list (option_map (λ deal. deal.cards) result) ++ self.new) }
        ensures end { IfNone result (representatives_in self.old ≡ []) }
        ensures fewer { IfSome result (λ deal. length self.new < length self.old) }
    {
        self.skip();
        if !self.left {
            return None;
        }
        let deal = Deal {
            cards: self.cards,
            heaps: heaps_with(&self.above, &self.cards),
        };
        self.left = go_on(self.n, &mut self.cards, &mut self.above);
        Some(deal)
    }

    /// Goes to the last deal with the same cards but the lowest, where none of these deals is a representative.
    fn skip(&mut self)
        ensures kept { representatives_in self.new ≡ representatives_in self.old }
        ensures no_more { length self.new ≤ length self.old }
    {
        if none_stands(&self.above, &self.cards) {
            self.cards[0] = self.cards[1] - 1;
        }
    }
}

/// Goes to the deal with the next index, and to its heaps; false exactly at the last deal, which then stays.
fn go_on(n: u8, cards: &mut [u8; 5], above: &mut [u64; 4]) -> bool
    requires deck { IsDeck n }
    requires deal { IsDeal n cards.old }
    requires above { above.old ≡ suit_heaps (drop 1 cards.old) }
    ensures more { IsTrue result ↔ (set_index cards.old + 1 < choose n 5) }
    ensures next { result ≡ true → HasIndex n 5 (set_index cards.old + 1) cards.new }
    ensures last { result ≡ false → cards.new ≡ cards.old }
    ensures heaps { above.new ≡ suit_heaps (drop 1 cards.new) }
{
    if cards[0] + 1 < cards[1] {
        cards[0] += 1;
        return true;
    }
    let more = next_set(n, cards);
    *above = heaps_above(cards);
    more
}
