// Laws of `holds`.
ghost use Rattle.vp_deal.specs.Deal.{DealInputsAreRead};
ghost use Rattle.vp_holds.specs.HoldsTell.{HoldsTellEveryHold};

/// What `holds` takes for its input is what `deal` takes: a valid pay table that has the bet, and then a deal from its deck, and
/// nothing else. Every other input is refused, exactly at its refused line.
#[tactic(auto, using(vp_deal::proofs::DealInputs::inputs_read))]
pub fn holds_inputs_are_read()
    ensures { DealInputsAreRead }
{}

/// The text of `holds` to each pay table and deal that it takes is the deal line and a line for each of the 32 holds. Each value
/// over the common denominator is the mean payment of the hold over all its draws; each number behind `draws` is the number of
/// its draws whose final hand has that pay line, and the last that of the draws without one; together they are all its draws, and
/// times the payments of their lines they make the sum of its payments. The first hold is the one that `deal` prints, a best one.
/// Each mask stands once; values fall, and equal ones stand by rising mask.
#[tactic(auto, using(crate::proofs::HoldsTell::holds_tell))]
pub fn holds_tell_every_hold()
    ensures { HoldsTellEveryHold }
{}
