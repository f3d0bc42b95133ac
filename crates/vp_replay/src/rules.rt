//! The laws of a game, tested one after another.

ghost use Rattle.std.specs.Prelude.{◌≡◌, ◌≤◌, ◌<◌, ◌+◌, ◌^◌, [], true, option_map, length, None, IfSome, IfNone};
ghost use Rattle.std.specs.Option.{option_map_or};
ghost use Rattle.vp_pay.specs.Bets.{IsBet};
ghost use Rattle.vp_pay.specs.Table.{IsTable};
ghost use Rattle.vp_sets.specs.Sets.{has};
ghost use Rattle.vp_replay.specs.LawfulGames.{AreLawfulCards};
ghost use Rattle.vp_replay.specs.Rules.{asks_pay, bet_breach, break_of, broken_if, cards_breach, count_breach, credits_breach, deal_breach, draw_breach, first_wrong, funds_breach, hold_breach, paid, pay_breach, wrong_deal, wrong_draw, wrong_hold};

use crate::LogRule;
use crate::rule::Breach;
use std::sync::ledger::Ledger;
use vp_card::{Card, final_hand};
use vp_loggram::Event;
use vp_pay::PayTable;
use vp_wild::{KeptLines, Steps};

/// A card that stands where it may not: its place, counted from 1, and its number.
#[derive(Clone, Copy, Debug, PartialEq, Eq)]
struct Misplaced {
    place: u64,
    card: u64,
}

fn broken_if(broken: bool, rule: LogRule, said: u64, due: u64) -> Option<Breach>
    ensures value { result ≡ broken_if broken rule said due }
    ensures rule { IfSome result (λ breach. breach.rule ≡ rule) }
{
    if broken {
        Some(Breach { rule, said, due })
    } else {
        None
    }
}

#[tactic(auto, unfolding(vp_sets::specs::Sets::has))]
fn among(card: Card, cards: &[Card]) -> bool
    ensures { result ≡ has cards.now card }
{
    cards.iter().any(|other| *other == card)
}

/// The card at this place, counted from 0.
fn at_place(place: usize, card: Card) -> Misplaced
    requires { place + 1 < 2 ^ 64 }
    ensures place { result.place ≡ place + 1 }
    ensures card { result.card ≡ card }
{
    Misplaced {
        place: place as u64 + 1,
        card: card.number() as u64,
    }
}

/// The breach that a misplaced card is.
fn of_card(rule: LogRule, wrong: Misplaced) -> Breach
    ensures value { result ≡ record { rule = rule; said = wrong.place; due = wrong.card } }
    ensures rule { result.rule ≡ rule }
{
    Breach {
        rule,
        said: wrong.place,
        due: wrong.card,
    }
}

#[tactic(auto, using(crate::proofs::Places::goes_on, crate::proofs::Places::stops, crate::proofs::Places::ends))]
fn wrong_deal(cards: &[Card]) -> Option<Misplaced>
    ensures { option_map (λ m. (m.place, m.card)) result ≡ first_wrong wrong_deal [] cards.now }
{
    for place in 0..cards.len() {
        let card = cards[place];
        if among(card, cards.split_at(place).0) {
            return Some(at_place(place, card));
        }
    }
    None
}

#[tactic(auto, using(crate::proofs::Places::goes_on, crate::proofs::Places::stops, crate::proofs::Places::ends))]
fn wrong_hold(deal: &[Card], cards: &[Card]) -> Option<Misplaced>
    ensures { option_map (λ m. (m.place, m.card)) result ≡ first_wrong (wrong_hold deal.now) [] cards.now }
{
    for place in 0..cards.len() {
        let card = cards[place];
        if !among(card, deal) || among(card, cards.split_at(place).0) {
            return Some(at_place(place, card));
        }
    }
    None
}

#[tactic(auto, using(crate::proofs::Places::goes_on, crate::proofs::Places::stops, crate::proofs::Places::ends))]
fn wrong_draw(deal: &[Card], cards: &[Card]) -> Option<Misplaced>
    ensures { option_map (λ m. (m.place, m.card)) result ≡ first_wrong (wrong_draw deal.now) [] cards.now }
{
    for place in 0..cards.len() {
        let card = cards[place];
        if among(card, deal) || among(card, cards.split_at(place).0) {
            return Some(at_place(place, card));
        }
    }
    None
}

#[tactic(auto, unfolding(crate::specs::Rules::bet_breach))]
fn bet_breach(table: &PayTable, event: &Event) -> Option<Breach>
    ensures { result ≡ bet_breach table.now event.now }
{
    let coins = u64::from(table.coins);
    broken_if(
        event.bet < 1 || event.bet > coins,
        LogRule::Bet,
        event.bet,
        coins,
    )
}

#[tactic(auto, unfolding(crate::specs::Rules::funds_breach))]
fn funds_breach(credits: u64, event: &Event) -> Option<Breach>
    ensures { result ≡ funds_breach credits event.now }
{
    broken_if(event.bet > credits, LogRule::Funds, event.bet, credits)
}

#[tactic(auto, unfolding(crate::specs::Rules::deal_breach))]
fn deal_breach(event: &Event) -> Option<Breach>
    ensures first { result ≡ deal_breach event.now }
    ensures early { IfSome result (λ breach. asks_pay breach.rule ≡ 0) }
{
    let wrong = wrong_deal(&event.deal)?;
    Some(of_card(LogRule::Deal, wrong))
}

#[tactic(auto, unfolding(crate::specs::Rules::hold_breach))]
fn hold_breach(event: &Event) -> Option<Breach>
    ensures first { result ≡ hold_breach event.now }
    ensures early { IfSome result (λ breach. asks_pay breach.rule ≡ 0) }
{
    let wrong = wrong_hold(&event.deal, &event.hold)?;
    Some(of_card(LogRule::Hold, wrong))
}

#[tactic(auto, unfolding(crate::specs::Rules::count_breach))]
fn count_breach(event: &Event) -> Option<Breach>
    ensures first { result ≡ count_breach event.now }
    ensures early { IfSome result (λ breach. asks_pay breach.rule ≡ 0) }
{
    let held = event.hold.len();
    let drawn = event.draw.len();
    broken_if(
        held + drawn != 5,
        LogRule::Count,
        drawn as u64,
        5 - held as u64,
    )
}

#[tactic(auto, unfolding(crate::specs::Rules::draw_breach))]
fn draw_breach(event: &Event) -> Option<Breach>
    ensures first { result ≡ draw_breach event.now }
    ensures early { IfSome result (λ breach. asks_pay breach.rule ≡ 0) }
{
    let wrong = wrong_draw(&event.deal, &event.draw)?;
    Some(of_card(LogRule::Draw, wrong))
}

/// The first broken law of the cards of a game.
#[tactic(auto, unfolding(crate::specs::Rules::cards_breach))]
fn cards_breach(event: &Event) -> Option<Breach>
    ensures first { result ≡ cards_breach event.now }
    ensures early { IfSome result (λ breach. asks_pay breach.rule ≡ 0) }
{
    if let Some(breach) = deal_breach(event) {
        return Some(breach);
    }
    if let Some(breach) = hold_breach(event) {
        return Some(breach);
    }
    if let Some(breach) = count_breach(event) {
        return Some(breach);
    }
    draw_breach(event)
}

/// What the table pays to the held and drawn cards; one step.
#[tactic(auto, using(vp_draws::proofs::Payments::pay_le, vp_sets::proofs::Colex::hand_is_set, crate::proofs::LawfulCards::final_five, crate::proofs::LawfulCards::final_differ))]
fn paid<L: Ledger>(kept: &mut KeptLines, event: &Event, steps: &mut Steps<L>) -> u64
    requires bet { IsBet kept.old event.now.bet }
    requires cards { AreLawfulCards event.now }
    ensures value { result ≡ paid kept.old event.now }
    ensures most { result ≤ 500000 }
    ensures same { kept.new ≡ kept.old }
    ensures step { steps.new ≡ steps.old + 1 }
{
    let hand = final_hand(&event.hold, &event.draw);
    let place = kept.line(&hand.numbers(), steps);
    u64::from(vp_wild::paid(kept.table(), event.bet as u8, place))
}

/// The first broken law of a game that these credits stand before.
#[tactic(auto, unfolding(crate::specs::Rules::break_of, crate::specs::Rules::bet_breach, crate::specs::Rules::funds_breach, crate::specs::Rules::pay_breach, crate::specs::Rules::credits_breach))]
pub(crate) fn break_of<L: Ledger>(
    kept: &mut KeptLines,
    credits: u64,
    event: &Event,
    steps: &mut Steps<L>,
) -> Option<Breach>
    requires table { IsTable kept.old }
    requires credits { credits < 2 ^ 63 }
    ensures breach { result ≡ break_of kept.old credits event.now }
    ensures same { kept.new ≡ kept.old }
    ensures kept { IfNone result (event.now.credits ≤ credits + 500000) }
    ensures steps { steps.new ≡ steps.old + option_map_or (λ breach. asks_pay breach.rule) result 1 }
{
    if let Some(breach) = bet_breach(kept.table(), event) {
        return Some(breach);
    }
    if let Some(breach) = funds_breach(credits, event) {
        return Some(breach);
    }
    if let Some(breach) = cards_breach(event) {
        return Some(breach);
    }
    let pay = paid(kept, event, steps);
    if event.pay != pay {
        return broken_if(true, LogRule::Pay, event.pay, pay);
    }
    let due = credits - event.bet + pay;
    broken_if(event.credits != due, LogRule::Credits, event.credits, due)
}
