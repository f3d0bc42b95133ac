//! The rules of a certificate's lines, and what is due where one is broken.

ghost use Rattle.std.specs.Prelude.{◌≡◌, ◌≤◌, ◌<◌, ℕ, List};
ghost use Rattle.vp_card.specs.Cards.{IsDeck};
ghost use Rattle.vp_pay.specs.declared.table.PayTable.{PayTable};
ghost use Rattle.vp_draws.specs.Many.{AreValues};
ghost use Rattle.vp_sets.specs.Index.{set_index};
ghost use Rattle.vp_check.specs.Listing.{counted_breach};
ghost use Rattle.vp_check.specs.Rules.{broken_if, image_breach, rising_breach, weight_breach, value_breach, mask_breach, listed_breach, walked_breach, cover_breach, sum_breach, denominator_breach};

use crate::reading::Counted;
use crate::{CertRule, ClassLine};
use vp_card::Hand;
use vp_draws::{best_of_values, return_denominator};
use vp_sets::{choose, index_of};
use vp_suit::{is_representative, least_image, weight};

/// A broken rule: the number that stands there, and the number due.
#[derive(Clone, Copy, Debug, PartialEq, Eq)]
pub(crate) struct Breach {
    pub rule: CertRule,
    pub said: u128,
    pub due: u128,
}

fn broken_if(broken: bool, rule: CertRule, said: u128, due: u128) -> Option<Breach>
    ensures { result ≡ broken_if broken rule said due }
{
    if broken {
        Some(Breach { rule, said, due })
    } else {
        None
    }
}

/// The index of a hand among all sets of five cards.
pub(crate) fn index_of_hand(hand: &Hand) -> u32
    ensures { result ≡ set_index hand.now }
{
    index_of(&hand.numbers())
}

/// The cards, of this index, are their least image.
#[tactic(auto, unfolding(crate::specs::Rules::image_breach))]
fn image_breach(index: u32, hand: &Hand) -> Option<Breach>
    requires { index ≡ set_index hand.now }
    ensures { result ≡ image_breach hand.now }
{
    if is_representative(hand) {
        return None;
    }
    let (least, _) = least_image(hand);
    Some(Breach {
        rule: CertRule::Order,
        said: u128::from(index),
        due: u128::from(index_of_hand(&least)),
    })
}

/// The index is above that of the class line before.
fn rising_breach(before: Option<u32>, index: u32) -> Option<Breach>
    ensures { (hand : List ℕ) → index ≡ set_index hand → result ≡ rising_breach before hand }
{
    let Some(before) = before else {
        return None;
    };
    broken_if(
        index <= before,
        CertRule::Order,
        u128::from(index),
        u128::from(before),
    )
}

/// The weight is the number of images.
#[tactic(auto, unfolding(crate::specs::Rules::weight_breach))]
fn weight_breach(line: &ClassLine) -> Option<Breach>
    ensures { result ≡ weight_breach line.now }
{
    let images = weight(&line.hand);
    broken_if(
        line.weight != images,
        CertRule::Weight,
        u128::from(line.weight),
        u128::from(images),
    )
}

/// The first broken rule of a class line's cards and weight: its cards have this index, and stand behind a class line with
/// the index `before`.
#[tactic(auto, unfolding(crate::specs::Rules::listed_breach))]
pub(crate) fn listed_breach(before: Option<u32>, index: u32, line: &ClassLine) -> Option<Breach>
    requires { index ≡ set_index line.now.hand }
    ensures { result ≡ listed_breach before line.now }
{
    if let Some(breach) = image_breach(index, &line.hand) {
        return Some(breach);
    }
    if let Some(breach) = rising_breach(before, index) {
        return Some(breach);
    }
    weight_breach(line)
}

/// The first broken rule of a class line's value and mask, by the values of its 32 holds: the value is the greatest of them, and
/// the mask has it.
pub(crate) fn walked_breach(line: &ClassLine, values: &[u64; 32]) -> Option<Breach>
    requires { line.now.mask < 32 }
    ensures { (table : PayTable) (coin : ℕ) → AreValues table coin line.now.hand values.now → result
        ≡ walked_breach table coin line.now }
{
    let best = best_of_values(values);
    let due = u128::from(best.value);
    if line.value != best.value {
        return broken_if(true, CertRule::Value, u128::from(line.value), due);
    }
    let worth = values[line.mask as usize];
    broken_if(worth < best.value, CertRule::Mask, u128::from(worth), due)
}

/// The weights sum to the number of deals of a deck of `n`.
#[tactic(auto, unfolding(crate::specs::Rules::cover_breach))]
fn cover_breach(n: u8, covered: u64) -> Option<Breach>
    requires { n ≤ 54 }
    ensures { result ≡ cover_breach n covered }
{
    let deals = choose(n, 5);
    broken_if(
        covered != deals,
        CertRule::Cover,
        u128::from(covered),
        u128::from(deals),
    )
}

/// The sum is that of weight times value.
#[tactic(auto, unfolding(crate::specs::Rules::sum_breach))]
fn sum_breach(sum: u64, due: u128) -> Option<Breach>
    ensures { result ≡ sum_breach sum due }
{
    let said = u128::from(sum);
    broken_if(said != due, CertRule::Sum, said, due)
}

/// The denominator is that of the deck and the bet.
#[tactic(auto, unfolding(crate::specs::Rules::denominator_breach))]
fn denominator_breach(n: u8, coin: u8, denominator: u64) -> Option<Breach>
    requires deck { IsDeck n }
    ensures { result ≡ denominator_breach n coin denominator }
{
    let due = return_denominator(n, coin);
    broken_if(
        denominator != due,
        CertRule::Denominator,
        u128::from(denominator),
        u128::from(due),
    )
}

/// The first broken rule of the return, from what the class lines come to.
pub(crate) fn return_breach(n: u8, coin: u8, counted: &Counted) -> Option<Breach>
    requires deck { IsDeck n }
    ensures { result ≡ counted_breach n coin counted.now }
{
    if let Some(breach) = cover_breach(n, counted.listed.weights) {
        return Some(breach);
    }
    if let Some(breach) = sum_breach(counted.sum, counted.listed.values) {
        return Some(breach);
    }
    denominator_breach(n, coin, counted.denominator)
}
