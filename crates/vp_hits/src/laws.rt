//! Laws of the chances of pay lines, each the contract of a function that does nothing.

ghost use Rattle.vp_hits.specs.HitsJob.{HitsInputsAreRead};
ghost use Rattle.vp_hits.specs.HitsTells.{HitsPrintChances};
ghost use Rattle.vp_hits.specs.Laws.{LinesMakeTheReturn, LinesShareOutDraws, PrintedHoldsHitAlike};

/// A law, for proofs: under all printed holds of a deal a line has the same chance.
pub fn printed_holds_hit_alike()
    ensures { PrintedHoldsHitAlike }
{}

/// A law, for proofs: each draw ends with one of the lines, or with none. So the numbers of all lines and of none sum to the
/// number of deals times the common denominator.
pub fn lines_share_out_draws()
    ensures { LinesShareOutDraws }
{}

/// A law, for proofs: the numbers of the lines, each times what its line pays, sum to the numerator of the return.
pub fn lines_make_the_return()
    ensures { LinesMakeTheReturn }
{}

/// What `hits` takes for its input is what the lines of the input spell: a valid pay table that has the bet, and nothing
/// else. Every other input is refused, exactly at its refused line.
#[tactic(auto, using(crate::proofs::HitsInputs::inputs_read))]
pub fn hits_inputs_are_read()
    ensures { HitsInputsAreRead }
{}

/// The text of `hits` to each pay table that it takes prints the chances of the pay lines under the printed holds: each
/// deal has a printed hold, and all that it has are best and end with each line as often, their chances being exactly the
/// shares of their draws that do; the printed numbers are the sums of these chances over all deals. Together with that of
/// no line they make all draws, and what the lines pay is the return.
#[tactic(auto, using(crate::proofs::HitsTells::hits_print))]
pub fn hits_print_chances()
    ensures { HitsPrintChances }
{}
