//! The moments of several hands, summed over all deals class by class.

ghost use Rattle.std.specs.Prelude.{◌≡◌, ◌+◌, ◌-◌, ◌*◌, ◌≤◌};
ghost use Rattle.vp_sets.specs.Sets.{choose};
ghost use Rattle.vp_multi.specs.Room.{HasRoom};
ghost use Rattle.vp_multi.specs.Sums.{ArePowerSums, mean_sum, second_sum, within_sum, between_sum};

use vp_hold::{Game, Squares};
use vp_sets::{choose, common};
use vp_suit::Classes;

/// The numerators of the moments of the total payment of `k` hands that are drawn from one deal and one printed hold. With
/// `N` deals from the deck and the common denominator `L`, all are below 2^128.
#[derive(Clone, Copy, Debug, PartialEq, Eq)]
pub struct MomentSums {
    /// The mean, over `N * L`.
    pub mean: u128,
    /// The mean of the square, over `N * L * L`.
    pub second: u128,
    /// The variance of one hand within the draws of a deal, over `N * L * L`.
    pub within: u128,
    /// The variance of the expected payment of one hand between the deals, over `N * N * L * L`.
    pub between: u128,
}

/// Sums over all deals: of the values, the mean squares and the squared values of their printed holds.
#[derive(Clone, Copy)]
struct PowerSums {
    values: u128,
    squares: u128,
    squared_values: u128,
}

/// The moments of 1 to 100 hands from one deal, each drawn apart from the others for one printed hold of the deal. The
/// variance of the total of `k` hands is `k` times `within` and `k * k` times `between`, over one denominator.
pub fn moments(game: &Game, squares: &Squares, hands: u8) -> MomentSums
    requires same { squares.now ≡ game.now }
    requires hands_from { 1 ≤ hands }
    requires hands_to { hands ≤ 100 }
    ensures mean { result.mean ≡ mean_sum game.now.table game.now.coin hands }
    ensures second { result.second ≡ second_sum game.now.table game.now.coin hands }
    ensures within { result.within ≡ within_sum game.now.table game.now.coin }
    ensures between { result.between ≡ between_sum game.now.table game.now.coin }
{
    let deck = game.table().deck;
    let sums = power_sums(game, squares);
    let deals = u128::from(choose(deck, 5));
    numerators(sums, u128::from(common(deck)), deals, u128::from(hands))
}

/// The numerators out of the sums over all deals; `common` is the common denominator of the deck.
fn numerators(sums: PowerSums, common: u128, deals: u128, hands: u128) -> MomentSums
    requires some { 1 ≤ hands }
    requires room { HasRoom sums.values sums.squares sums.squared_values common deals hands }
    ensures mean { result.mean ≡ hands * sums.values }
    ensures second { result.second
        ≡ hands * (sums.squares * common) + hands * (hands - 1) * sums.squared_values }
    ensures within { result.within ≡ sums.squares * common - sums.squared_values }
    ensures between { result.between ≡ deals * sums.squared_values - sums.values * sums.values }
{
    let paid = sums.squares * common;
    MomentSums {
        mean: hands * sums.values,
        second: hands * paid + hands * (hands - 1) * sums.squared_values,
        within: paid - sums.squared_values,
        between: deals * sums.squared_values - sums.values * sums.values,
    }
}

/// The sums over all deals, each class taken as often as it weighs.
fn power_sums(game: &Game, squares: &Squares) -> PowerSums
    requires same { squares.now ≡ game.now }
    ensures { ArePowerSums game.now.table game.now.coin result.values result.squares result.squared_values }
{
    let mut classes = Classes::new(game.table().deck);
    let mut sums = PowerSums {
        values: 0,
        squares: 0,
        squared_values: 0,
    };
    while let Some(class) = classes.next() {
        let best = game.best(&class.hand);
        let square = squares.value(&class.hand, best.mask);
        let weight = u128::from(class.weight);
        let value = u128::from(best.value);
        sums.values += weight * value;
        sums.squares += weight * u128::from(square);
        sums.squared_values += weight * (value * value);
    }
    sums
}
