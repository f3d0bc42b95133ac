//! Over what a return stands.

ghost use Rattle.std.specs.Prelude.{◌≡◌};
ghost use Rattle.vp_card.specs.Cards.{IsDeck};
ghost use Rattle.vp_draws.specs.Draws.{return_denominator};

use vp_sets::{choose, common};

/// The denominator of a return: the number of deals from a deck of `n` cards, times the common denominator of all expected
/// payments, times the bet. The sum of the best values of all deals over it is the mean payment for each coin bet.
#[tactic(auto, using(crate::proofs::Bounds::denominator_fits), unfolding(crate::specs::Draws::return_denominator))]
pub fn return_denominator(n: u8, coin: u8) -> u64
    requires { IsDeck n }
    ensures { result ≡ return_denominator n coin }
{
    choose(n, 5) * common(n) * u64::from(coin)
}
