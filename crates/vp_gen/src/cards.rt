//! Cards that are drawn out of a deck.

ghost use Rattle.std.specs.Prelude.{◌≡◌, ◌≤◌, length};
ghost use Rattle.vp_card.specs.Cards.{IsDeck};
ghost use Rattle.vp_sets.specs.Sets.{deck};
ghost use Rattle.vp_gen.specs.Generator.{drawn};

use crate::numbers::pick;
use arrayvec::ArrayVec;
use vp_card::Card;

/// The cards of a deck of so many, rising.
#[tactic(auto, using(crate::proofs::Drawing::no_card, crate::proofs::Drawing::next_card))]
pub(crate) fn whole_deck(size: u8) -> ArrayVec<Card, 54>
    requires { IsDeck size }
    ensures { result.items ≡ deck size }
{
    let mut cards = ArrayVec::new();
    for number in 0..size {
        cards.push(Card::new(number).unwrap());
    }
    cards
}

/// The same cards, to be drawn from.
pub(crate) fn copied(cards: &[Card]) -> ArrayVec<Card, 54>
    requires { length cards.now ≤ 54 }
    ensures { result.items ≡ cards.now }
{
    let mut copy = ArrayVec::new();
    copy.try_extend_from_slice(cards).unwrap();
    copy
}

/// Draws so many cards out of those that remain.
#[tactic(auto, using(crate::proofs::Drawing::draws_more, crate::proofs::Drawing::draws_end))]
pub(crate) fn draw(
    rest: &mut ArrayVec<Card, 54>,
    state: &mut u64,
    count: usize,
) -> ArrayVec<Card, 5>
    requires few { count ≤ 5 }
    requires room { count ≤ length rest.old.items }
    ensures drawn { drawn count state.old rest.old.items
        ≡ record { cards = result.items; rest = rest.new.items; state = state.new } }
    ensures count { length result.items ≡ count }
{
    let mut cards = ArrayVec::new();
    let mut left = count;
    'cards: while left > 0 {
        let place = pick(state, rest.len() as u64);
        cards.push(rest.remove(place as usize));
        left -= 1;
    }
    cards
}

/// Deals five cards out of those that remain.
pub(crate) fn deal(rest: &mut ArrayVec<Card, 54>, state: &mut u64) -> [Card; 5]
    requires { 5 ≤ length rest.old.items }
    ensures { drawn 5 state.old rest.old.items ≡ record { cards = result; rest = rest.new.items; state = state.new } }
{
    draw(rest, state, 5).into_inner().unwrap()
}
