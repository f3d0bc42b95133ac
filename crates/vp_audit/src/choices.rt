//! The 32 holds of a hand with their values, and what rules and exceptions make of them.

ghost use Rattle.std.specs.Prelude.{◌≡◌, ◌+◌, ◌<◌, ◌≤◌, IfSome, None, length, map, max, position};
ghost use Rattle.vp_suit.specs.Classes.{IsDeal};
ghost use Rattle.vp_draws.specs.Draws.{best, value};
ghost use Rattle.vp_rule.specs.Holds.{matches};
ghost use Rattle.vp_audit.specs.Choices.{greatest_matched, least_matched, matches_some, widened};
ghost use Rattle.vp_audit.specs.Compiled.{rule_cell};
ghost use Rattle.vp_audit.specs.Sums.{priced};
ghost use Rattle.vp_audit.specs.Values.{deciding};

use crate::priced::{Decided, Priced};
use std::marker::Model;
use std::sync::ledger::Ledger;
use vp_card::Hand;
use vp_hold::Game;
use vp_rule::{Holds, Rule};
use vp_wild::Steps;

/// The holds of a hand, with the values that they have for a bet; the place of each value is the mask.
#[derive(Drop)]
pub(crate) struct Choices<'a> {
    coin: u8,
    values: [u64; 32],
    holds: Holds<'a>,
}

impl<'a> Model for Choices<'a> {
    ghost use Rattle.vp_audit.specs.Choices.{AreChoices, BetHand};

    ghost Value = { BetHand };

    ghost view = { λ c. record { table = c.holds.table; coin = c.coin; hand = c.holds.hand } };

    ghost invariant = { λ c. AreChoices c.holds.table c.coin c.holds.hand c.values };
}

impl<'a> Choices<'a> {
    /// The holds of a hand, which is ranked once: one step.
    pub(crate) fn of<L: Ledger>(
        game: &'a Game<'a>,
        hand: &Hand,
        steps: &mut Steps<L>,
    ) -> Choices<'a>
        requires deal { IsDeal game.now.table.deck hand.now }
        ensures table { result.table ≡ game.now.table }
        ensures coin { result.coin ≡ game.now.coin }
        ensures hand { result.hand ≡ hand.now }
        ensures step { steps.new ≡ steps.old + 1 }
    {
        Choices {
            coin: game.coin(),
            values: game.values(hand),
            holds: Holds::of(game.table(), hand, steps),
        }
    }

    /// What the exception's mask, where there is one, and else the rules make of the hand.
    pub(crate) fn priced(&self, mask: Option<u8>, rules: &[Rule]) -> Priced
        requires mask { IfSome mask (λ m. m < 32) }
        requires few { length rules.now ≤ 128 }
        ensures { result ≡ priced self.now.table self.now.coin rules.now mask self.now.hand }
    {
        match mask {
            Some(mask) => self.all_of(Decided::Except, mask),
            None => self.by_rules(rules),
        }
    }

    /// The hold `mask` alone is allowed.
    fn all_of(&self, by: Decided, mask: u8) -> Priced
        requires { mask < 32 }
        ensures by { result.by ≡ by }
        ensures best { result.best ≡ best self.now.table self.now.coin self.now.hand }
        ensures least { result.least ≡ value self.now.table self.now.coin self.now.hand mask }
        ensures greatest { result.greatest ≡ value self.now.table self.now.coin self.now.hand mask }
    {
        let value = self.value(mask);
        Priced {
            by,
            best: self.best(),
            least: value,
            greatest: value,
        }
    }

    /// What the rules make of the hand.
    fn by_rules(&self, rules: &[Rule]) -> Priced
        requires { length rules.now ≤ 128 }
        ensures { result ≡ priced self.now.table self.now.coin rules.now None self.now.hand }
    {
        match self.deciding(rules) {
            Some(place) => {
                let (least, greatest) = self.extremes(&rules[place]);
                Priced {
                    by: Decided::ByRule(place as u8),
                    best: self.best(),
                    least,
                    greatest,
                }
            }
            None => self.all_of(Decided::Nothing, 0),
        }
    }

    /// The place of the first rule that matches some of the holds.
    fn deciding(&self, rules: &[Rule]) -> Option<usize>
        ensures place { result ≡ deciding self.now.table rules.now self.now.hand }
        ensures inside { IfSome result (λ i. i < length rules.now) }
    {
        first_matching(&self.holds, rules)
    }

    /// The least and the greatest value of the holds that the rule matches; the greatest number and 0 where it matches none.
    fn extremes(&self, rule: &Rule) -> (u64, u64)
        ensures least { result.0 ≡ least_matched self.now rule.now }
        ensures greatest { result.1 ≡ greatest_matched self.now rule.now }
    {
        let mut extremes = (u64::MAX, 0);
        for mask in self.holds.asked(rule) {
            let counts = self.is_matched(rule, *mask);
            extremes = widened(extremes, counts, self.value(*mask));
        }
        extremes
    }

    /// Whether the rule matches the hold `mask`.
    fn is_matched(&self, rule: &Rule, mask: u8) -> bool
        requires { mask < 32 }
        ensures { result ≡ matches self.now.table rule.now self.now.hand mask }
    {
        self.holds.is_matched(rule, mask)
    }

    /// Writes what each rule gives the hand.
    pub(crate) fn fill_cells(&self, rules: &[Rule], cells: &mut [u64])
        requires { length cells.old ≡ length rules.now }
        ensures { cells.new ≡ map (rule_cell self.now.table self.now.coin self.now.hand) rules.now }
    {
        for (place, rule) in rules.iter().enumerate() {
            cells[place] = self.cell(rule);
        }
    }

    /// What the rule gives the hand: the least value of the holds that it matches; the greatest number where it matches none.
    fn cell(&self, rule: &Rule) -> u64
        ensures { result ≡ rule_cell self.now.table self.now.coin self.now.hand rule.now }
    {
        self.extremes(rule).0
    }

    /// The greatest of the values.
    pub(crate) fn best(&self) -> u64
        ensures { result ≡ best self.now.table self.now.coin self.now.hand }
    {
        let mut best = 0;
        for mask in 0..32u8 {
            best = larger(best, self.value(mask));
        }
        best
    }

    /// The value of the hold `mask`.
    pub(crate) fn value(&self, mask: u8) -> u64
        requires { mask < 32 }
        ensures { result ≡ value self.now.table self.now.coin self.now.hand mask }
    {
        self.values[mask as usize]
    }
}

/// The place of the first rule that matches some of the holds.
fn first_matching(holds: &Holds, rules: &[Rule]) -> Option<usize>
    ensures place { result ≡ position (matches_some holds.now.table holds.now.hand) rules.now }
    ensures inside { IfSome result (λ i. i < length rules.now) }
{
    rules.iter().position(|rule| holds.some_is_matched(rule))
}

/// The least and the greatest of some values, with one value more where it counts.
fn widened(extremes: (u64, u64), counts: bool, value: u64) -> (u64, u64)
    ensures { result ≡ widened extremes counts value }
{
    if counts {
        (extremes.0.min(value), extremes.1.max(value))
    } else {
        extremes
    }
}

fn larger(one: u64, other: u64) -> u64
    ensures { result ≡ max one other }
{
    one.max(other)
}
