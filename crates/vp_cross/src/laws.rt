//! Laws of one table's play on another, and of `cross`, each the contract of a function that does nothing.

ghost use Rattle.vp_draws.specs.Laws.{HasPrintedHold};
ghost use Rattle.vp_cross.specs.Cross.{CrossInputsAreRead};
ghost use Rattle.vp_cross.specs.CrossTells.{CrossesPricePlay};
ghost use Rattle.vp_cross.specs.Laws.{CostsAddUp, CostsMakeUp, CrossedNeverExceeds, EqualWhereBest, NoneWhereEqual, OwnPlayCostsNothing, PrintedHoldsAreCrossed, WorstIsWorst};

/// A law, for proofs: each deal has a hold that the first table prints, and what that is worth on the second is the best
/// value less the cost.
pub fn costs_are_of_printed_holds()
    ensures some { HasPrintedHold }
    ensures worth { PrintedHoldsAreCrossed }
    ensures cost { CostsMakeUp }
{}

/// A law, for proofs: the crossed value never exceeds the optimum, and equals it exactly where each printed hold of each
/// deal is best on the second table.
pub fn crossed_values_never_exceed()
    ensures most { CrossedNeverExceeds }
    ensures loss { CostsAddUp }
    ensures equal { EqualWhereBest }
{}

/// A law, for proofs: the worst class.
pub fn worst_classes_cost_most()
    ensures some { WorstIsWorst }
    ensures none { NoneWhereEqual }
{}

/// A law, for proofs: a table crossed with itself differs nowhere.
pub fn own_play_costs_nothing()
    ensures { OwnPlayCostsNothing }
{}

/// What `cross` takes for its input is what the lines of the input spell: a valid pay table that has the bet, then a second
/// one that has it, too, and the same deck, and nothing else. Every other input is refused, exactly at its refused line.
#[tactic(auto, using(crate::proofs::CrossInputs::crosses_read))]
pub fn cross_inputs_are_read()
    ensures { CrossInputsAreRead }
{}

/// The text of `cross` to each two pay tables that it takes prints what the best play of the first is worth on the second:
/// each deal has a hold that the first table prints, one that some turn of the suits carries to the least best mask of its
/// class, and all such holds have one value on the second table, the mean of its payments there; the printed sums are
/// those of the best values, of these values and of their differences, over all deals, and the printed numbers of classes
/// and of deals are those with a difference. The printed class costs most, and there is none exactly where nothing is lost.
#[tactic(auto, using(crate::proofs::CrossTells::crosses_price))]
pub fn crosses_price_play()
    ensures { CrossesPricePlay }
{}
