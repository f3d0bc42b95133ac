// Laws of inputs of a pay table, alone or with a deal behind it.
ghost use Rattle.vp_pay.specs.Inputs.{HandsAreRead, TablesAreRead};

/// An input of a pay table that fits, and nothing else, is taken exactly where it is spelled, and is refused exactly at
/// its refused line.
#[tactic(auto, using(crate::proofs::Inputs::tables_read))]
pub fn tables_are_read()
    ensures { TablesAreRead }
{}

/// The same of a pay table that fits, and a deal of its deck.
#[tactic(auto, using(crate::proofs::Inputs::hands_read))]
pub fn hands_are_read()
    ensures { HandsAreRead }
{}
