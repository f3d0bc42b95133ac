//! Whether a rule matches a hold.

ghost use Rattle.std.specs.Prelude.{◌≡◌, ◌+◌, ◌<◌, List, ℕ, length};
ghost use Rattle.std.specs.List.{All, range_with_len};
ghost use Rattle.vp_card.specs.Cards.{IsHand};
ghost use Rattle.vp_rank.specs.Bounded.{some_below};
ghost use Rattle.vp_rule.specs.ByCounts.{AreHeld, IsDealt};
ghost use Rattle.vp_rule.specs.Holds.{matches};
ghost use Rattle.vp_rule.specs.Matching.{masks_asked, masks_matched, masks_of_size};

use crate::held::{Dealt, Held, all_hold};
use crate::{Rule, Test};
use std::marker::Model;
use std::sync::ledger::Ledger;
use vp_card::Hand;
use vp_pay::PayTable;
use vp_wild::{Steps, line_of};

/// Whether the rule matches the hold `mask` of the hand: all its tests hold. Bit `i` of the mask holds the card at
/// place `i` of the hand. One step of the counter.
pub fn matches<L: Ledger>(
    rule: &Rule,
    table: &PayTable,
    hand: &Hand,
    mask: u8,
    steps: &mut Steps<L>,
) -> bool
    ensures matches { result ≡ matches table.now rule.now hand.now mask }
    ensures step { steps.new ≡ steps.old + 1 }
{
    let dealt = dealt(table, hand, steps);
    let held = Held::of(hand, mask, table.wild);
    all_hold(&dealt, &held, rule)
}

/// The hand with its pay line; one step.
fn dealt<L: Ledger>(table: &PayTable, hand: &Hand, steps: &mut Steps<L>) -> Dealt
    ensures dealt { IsDealt table.now hand.now result }
    ensures step { steps.new ≡ steps.old + 1 }
{
    Dealt {
        hand: *hand,
        wild: table.wild,
        place: line_of(table, hand, steps),
    }
}

/// The 32 holds of a hand, which rules may match.
#[derive(Drop)]
pub struct Holds<'a> {
    table: &'a PayTable,
    dealt: Dealt,
    held: [Held; 32],
}

impl<'a> Model for Holds<'a> {
    ghost use Rattle.vp_rule.specs.Matching.{HandAtTable};
    ghost use Rattle.vp_rule.specs.ByCounts.{AreHolds};

    ghost Value = { HandAtTable };

    ghost view = { λ h. record { table = h.table.now; hand = h.dealt.hand } };

    ghost invariant = { λ h. AreHolds h.table.now h.dealt.hand h.dealt h.held };
}

impl<'a> Holds<'a> {
    /// The holds of a hand, which is ranked once for all of them: one step of the counter.
    pub fn of<L: Ledger>(table: &'a PayTable, hand: &Hand, steps: &mut Steps<L>) -> Holds<'a>
        ensures table { result.table ≡ table.now }
        ensures hand { result.hand ≡ hand.now }
        ensures step { steps.new ≡ steps.old + 1 }
    {
        Holds {
            table,
            dealt: dealt(table, hand, steps),
            held: all_held(hand, table.wild),
        }
    }

    /// Whether the rule matches the hold `mask`.
    pub fn is_matched(&self, rule: &Rule, mask: u8) -> bool
        requires { mask < 32 }
        ensures { result ≡ matches self.now.table rule.now self.now.hand mask }
    {
        all_hold(&self.dealt, &self.held[mask as usize], rule)
    }

    /// Masks of holds, rising, among them that of each hold which the rule matches: where the first test asks for a number
    /// of held cards, the masks of so many cards, else all.
    pub fn asked(&self, rule: &Rule) -> &'static [u8]
        ensures below { All (λ mask. mask < 32) result.now }
        ensures matched { masks_matched self.now rule.now result.now ≡ masks_matched self.now rule.now (range_with_len 0 32) }
    {
        let _ = &self.dealt;
        asked_masks(rule)
    }

    /// Whether the rule matches some of the 32 holds.
    pub fn some_is_matched(&self, rule: &Rule) -> bool
        ensures { result ≡ some_below 32 (λ mask. matches self.now.table rule.now self.now.hand mask) }
    {
        for mask in self.asked(rule) {
            if self.is_matched(rule, *mask) {
                return true;
            }
        }
        false
    }
}

/// The masks of as many cards as the first test asks for, rising; all where it asks for no number.
fn asked_masks(rule: &Rule) -> &'static [u8]
    ensures below { All (λ mask. mask < 32) result.now }
    ensures masks { (hand : List ℕ) → length hand ≡ 5 → result.now ≡ masks_asked rule.now.tests.items hand }
{
    match rule.tests.as_slice() {
        [Test::Hold(size), ..] => masks_of(*size),
        _ => &ALL,
    }
}

/// The masks of so many cards, rising.
fn masks_of(size: u8) -> &'static [u8]
    ensures below { All (λ mask. mask < 32) result.now }
    ensures masks { (hand : List ℕ) → length hand ≡ 5 → result.now ≡ masks_of_size size hand }
{
    match size {
        0 => &ALL[..1],
        1 => &ONE,
        2 => &TWO,
        3 => &THREE,
        4 => &FOUR,
        5 => &ALL[31..],
        _ => &[],
    }
}

static ALL: [u8; 32] = [
    0, 1, 2, 3, 4, 5, 6, 7, 8, 9, 10, 11, 12, 13, 14, 15, 16, 17, 18, 19, 20, 21, 22, 23, 24, 25,
    26, 27, 28, 29, 30, 31,
];

static ONE: [u8; 5] = [1, 2, 4, 8, 16];

static TWO: [u8; 10] = [3, 5, 6, 9, 10, 12, 17, 18, 20, 24];

static THREE: [u8; 10] = [7, 11, 13, 14, 19, 21, 22, 25, 26, 28];

static FOUR: [u8; 5] = [15, 23, 27, 29, 30];

/// What is kept of each of the 32 holds; the place of each is its mask.
fn all_held(hand: &Hand, wild: Option<u8>) -> [Held; 32]
    ensures held { AreHeld wild hand.now 32 result }
    ensures hand { IsHand hand.now }
{
    let mut all = [Held::of(hand, 0, wild); 32];
    for mask in 1..32u8 {
        all[mask as usize] = Held::of(hand, mask, wild);
    }
    all
}
