//! The first pay line that a hand hits, and its payment.

ghost use Rattle.std.specs.Prelude.{◌≡◌, ◌+◌, ◌<◌, ◌≤◌, IfSome, length, position};
ghost use Rattle.vp_card.specs.Cards.{IsHand};
ghost use Rattle.vp_rank.specs.Shapes.{IsShape};
ghost use Rattle.vp_wild.specs.ByCounts.{shape_hits};
ghost use Rattle.vp_wild.specs.Payment.{line, pay};

use crate::Steps;
use crate::patterns::hits_shape;
use std::sync::ledger::Ledger;
use vp_card::Hand;
use vp_pay::PayTable;
use vp_rank::Shape;

/// The position of the first pay line, in the order written, that the hand hits; one step.
pub fn line_of<L: Ledger>(table: &PayTable, hand: &Hand, steps: &mut Steps<L>) -> Option<u8>
    ensures first { result ≡ line table.now hand.now }
    ensures step { steps.new ≡ steps.old + 1 }
{
    steps.tick();
    match first_hit(table, hand) {
        Some(position) => Some(position as u8),
        None => None,
    }
}

/// The payment of the hand for a bet of `coin`, 1 to 5: 0 where it hits no pay line; one step.
pub fn pay<L: Ledger>(table: &PayTable, coin: u8, hand: &Hand, steps: &mut Steps<L>) -> u32
    requires some { 1 ≤ coin }
    requires most { coin ≤ 5 }
    ensures payment { result ≡ pay table.now coin hand.now }
    ensures step { steps.new ≡ steps.old + 1 }
{
    steps.tick();
    match first_hit(table, hand) {
        Some(position) => table.lines[position].pays[usize::from(coin - 1)],
        None => 0,
    }
}

fn first_hit(table: &PayTable, hand: &Hand) -> Option<usize>
    ensures first { result ≡ line table.now hand.now }
    ensures inside { IfSome result (λ i. i < length table.now.lines.items) }
    ensures few { length table.now.lines.items ≤ 32 }
{
    first_by_shape(table, &shape_of(hand, table.wild))
}

fn first_by_shape(table: &PayTable, shape: &Shape) -> Option<usize>
    ensures first { result ≡ position (λ l. shape_hits l shape.now) table.now.lines.items }
    ensures inside { IfSome result (λ i. i < length table.now.lines.items) }
    ensures few { length table.now.lines.items ≤ 32 }
{
    let lines = table.lines.as_slice();
    lines.iter().position(|line| hits_shape(line, shape))
}

fn shape_of(hand: &Hand, wild: Option<u8>) -> Shape
    ensures shape { IsShape wild hand.now result }
    ensures five { IsHand hand.now }
{
    let _numbers = hand.numbers();
    Shape::of(hand.held(31).as_slice(), wild)
}
