// Laws of `deal`.
ghost use Rattle.vp_deal.specs.Deal.{DealInputsAreRead};
ghost use Rattle.vp_deal.specs.DealTells.{DealsPrintBestHolds};

/// What `deal` takes for its input is what the lines of the input spell: a valid pay table that has the bet, and then a
/// deal from its deck, and nothing else. Every other input is refused, exactly at its refused line.
#[tactic(auto, using(crate::proofs::DealInputs::inputs_read))]
pub fn deal_inputs_are_read()
    ensures { DealInputsAreRead }
{}

/// The text of `deal` to each pay table and deal that it takes are four lines that print a best hold: its mask is one of
/// the 32, its value over the common denominator is its mean payment over all draws, as it is for each of the 32 holds;
/// none of them is worth more, and each of a smaller mask is worth less.
#[tactic(auto, using(crate::proofs::DealTells::deals_print))]
pub fn deals_print_best_holds()
    ensures { DealsPrintBestHolds }
{}
