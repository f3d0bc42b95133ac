//! Games that are made.

ghost use Rattle.std.specs.Prelude.{◌≡◌, ◌+◌, ◌≤◌, ◌<◌, ◌^◌, true};
ghost use Rattle.vp_card.specs.Cards.{in_deck};
ghost use Rattle.vp_sets.specs.Sets.{deck};
ghost use Rattle.vp_wild.specs.Payment.{pay};
ghost use Rattle.vp_gen.specs.Generator.{made, masked};

use crate::cards::{copied, deal, draw};
use crate::numbers::pick;
use std::sync::ledger::Ledger;
use vp_card::{Card, Hand, final_hand};
use vp_hold::Game;
use vp_loggram::Event;
use vp_wild::{KeptPayments, Steps};

/// The mask of the cards to hold: once in four any, else the least best.
#[tactic(auto, unfolding(crate::specs::Generator::masked))]
fn mask_of(game: &Game, hand: &Hand, state: &mut u64) -> u8
    requires { in_deck game.now.table.deck hand.now ≡ true }
    ensures { masked game.now.table game.now.coin hand.now state.old ≡ record { mask = result; state = state.new } }
{
    if pick(state, 4) == 0 {
        pick(state, 32) as u8
    } else {
        game.best(hand).mask
    }
}

/// The payment of a hand.
#[tactic(auto, using(vp_sets::proofs::Colex::hand_is_set))]
fn payment<L: Ledger>(payments: &mut KeptPayments, hand: &Hand, steps: &mut Steps<L>) -> u32
    ensures payment { result ≡ pay payments.old.table payments.old.coin hand.now }
    ensures same { payments.new ≡ payments.old }
{
    payments.pay(&hand.numbers(), steps)
}

/// A game at these credits; the state goes on.
pub(crate) fn make_event<L: Ledger>(
    game: &Game,
    pack: &[Card],
    credits: u64,
    state: &mut u64,
    payments: &mut KeptPayments,
    steps: &mut Steps<L>,
) -> Event
    requires payments { payments.old ≡ game.now }
    requires pack { pack.now ≡ deck game.now.table.deck }
    requires funds { game.now.coin ≤ credits }
    requires small { credits < 2 ^ 63 }
    ensures made { made game.now.table game.now.coin credits state.old
        ≡ record { event = result; state = state.new } }
    // A payment is at most 500000.
    ensures most { result.credits ≤ credits + 500000 }
    // Not more than the bet is lost.
    ensures least { credits ≤ result.credits + game.now.coin }
    ensures same { payments.new ≡ payments.old }
{
    // What `table` ensures is wanted: the deck has 52 cards or more.
    let _table = game.table();
    let mut rest = copied(pack);
    let deal = deal(&mut rest, state);
    let hand = Hand::of(deal).unwrap();
    let hold = hand.held(mask_of(game, &hand, state));
    let draw = draw(&mut rest, state, 5 - hold.len());
    let coin = game.coin();
    let pay = payment(payments, &final_hand(&hold, &draw), steps);
    let bet = u64::from(coin);
    let pay = u64::from(pay);
    Event {
        bet,
        deal,
        hold,
        draw,
        pay,
        credits: credits - bet + pay,
    }
}
