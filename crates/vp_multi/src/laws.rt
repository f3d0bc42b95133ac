//! Laws of several hands from one deal, and of `multi`, each the contract of a function that does nothing.

ghost use Rattle.vp_draws.specs.Laws.{HasPrintedHold};
ghost use Rattle.vp_multi.specs.Laws.{MomentsAreUnique, MomentsExist, PrintedAlike, VarianceHasTwoParts};
ghost use Rattle.vp_multi.specs.Multi.{MultiInputsAreRead};
ghost use Rattle.vp_multi.specs.MultiTells.{MultisPrintMoments};

/// A law, for proofs: each deal has a printed hold, and all that it has are alike.
pub fn hands_are_drawn_to_printed_holds()
    ensures some { HasPrintedHold }
    ensures alike { PrintedAlike }
{}

/// A law, for proofs: the moments of the total payment of several hands from one deal, over all lists of draws.
pub fn moments_of_a_deal()
    ensures exist { MomentsExist }
    ensures unique { MomentsAreUnique }
{}

/// A law, for proofs: what the variance of several hands is made of.
pub fn variance_has_two_parts()
    ensures { VarianceHasTwoParts }
{}

/// What `multi` takes for its input is what the lines of the input spell: a valid pay table that has the bet, and nothing
/// else. Every other input is refused, exactly at its refused line.
#[tactic(auto, using(crate::proofs::MultiInputs::inputs_read))]
pub fn multi_inputs_are_read()
    ensures { MultiInputsAreRead }
{}

/// The text of `multi` to each pay table that it takes are four lines, whose numbers are the moments of the total payment
/// of several hands from one deal: each deal has a printed hold, to which its hands are drawn; the moments of the deal over
/// all lists of draws, each as likely as the others, are these and no others; the mean and the second moment are summed
/// over all deals; and the variance of k hands is k times that within the draws of a deal and k * k times that between the
/// deals.
#[tactic(auto, using(crate::proofs::MultiTells::multis_print))]
pub fn multis_print_moments()
    ensures { MultisPrintMoments }
{}
