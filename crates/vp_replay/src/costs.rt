//! What the hold of a lawful game costs.

ghost use Rattle.std.specs.Prelude.{◌≡◌, ◌<◌, true, if◌then◌else◌};
ghost use Rattle.vp_card.specs.Cards.{in_deck};
ghost use Rattle.vp_loggram.specs.Logs.{is_of_deck};
ghost use Rattle.vp_draws.specs.Draws.{value};
ghost use Rattle.vp_sets.specs.Draws.{mask_of};
ghost use Rattle.vp_sets.specs.Sets.{has};
ghost use Rattle.vp_replay.specs.Costs.{IsCost, cost_of};
ghost use Rattle.vp_replay.specs.LawfulGames.{IsLawfulEvent};

use crate::Games;
use vp_card::{Card, Hand};
use vp_hold::{Best, Game};
use vp_loggram::Event;

/// Whether the card of this number is held.
#[tactic(auto, unfolding(vp_sets::specs::Sets::has))]
fn is_held(number: u8, hold: &[Card]) -> bool
    ensures { result ≡ has hold.now number }
{
    hold.iter().any(|card| card.number() == number)
}

/// 1 where the card of this number is held, else 0.
fn bit(number: u8, hold: &[Card]) -> u8
    ensures value { result ≡ (if has hold.now number then 1 else 0) }
    ensures below { result < 2 }
{
    u8::from(is_held(number, hold))
}

/// The mask of the held cards in the hand.
#[tactic(auto, unfolding(vp_sets::specs::Draws::mask_of))]
fn mask_of(hand: &Hand, hold: &[Card]) -> u8
    ensures value { result ≡ mask_of hold.now hand.now }
    ensures below { result < 32 }
{
    let [a, b, c, d, e] = hand.numbers();
    let last = bit(d, hold) + 2 * bit(e, hold);
    bit(a, hold) + 2 * (bit(b, hold) + 2 * (bit(c, hold) + 2 * last))
}

/// What the hold of a lawful game costs at its bet: the best value of its deal, less the value of its hold. It is a mean
/// payment over the common denominator of the deck.
pub fn cost(games: &Games, event: &Event) -> u64
    requires lawful { IsLawfulEvent games.now event.now }
    requires deck { is_of_deck games.now.deck event.now ≡ true }
    ensures value { result ≡ cost_of games.now event.now }
    // No hold of the deal is worth more than the held cards and the cost together, and values are mean payments.
    ensures cost { IsCost games.now event.now result }
{
    cost_at(games.game(event.bet), event)
}

/// The value of a hold, beside the best one of the same hand: where it is that one it needs no sum.
fn value_beside(game: &Game, hand: &Hand, best: &Best, mask: u8) -> u64
    requires cards { in_deck game.now.table.deck hand.now ≡ true }
    requires mask { mask < 32 }
    requires best { best.now.value ≡ value game.now.table game.now.coin hand.now best.now.mask }
    ensures { result ≡ value game.now.table game.now.coin hand.now mask }
{
    if best.mask == mask {
        best.value
    } else {
        game.value(hand, mask)
    }
}

/// The same, over the sums of its bet alone.
#[tactic(auto, using(crate::proofs::LawfulCards::lawful_deal, crate::proofs::LawfulCards::deal_of_deck, crate::proofs::LawfulCards::lawful_holds))]
pub fn cost_at(game: &Game, event: &Event) -> u64
    requires bet { event.now.bet ≡ game.now.coin }
    requires lawful { IsLawfulEvent game.now.table event.now }
    requires deck { is_of_deck game.now.table.deck event.now ≡ true }
    ensures value { result ≡ cost_of game.now.table event.now }
    ensures cost { IsCost game.now.table event.now result }
{
    // What `table` ensures is wanted: it is one.
    let _table = game.table();
    let hand = Hand::of(event.deal).unwrap();
    let mask = mask_of(&hand, &event.hold);
    let best = game.best(&hand);
    best.value - value_beside(game, &hand, &best, mask)
}
