// Laws of `meter`.
ghost use Rattle.vp_meter.specs.Meter.{MeterInputsAreRead};
ghost use Rattle.vp_meter.specs.MeterTells.{MetersAreTold};

/// What `meter` takes for its input is what the lines of the input spell: a valid pay table that has the bet and a line of
/// the name, and nothing else. Every other input is refused, exactly at its refused line.
#[tactic(auto, using(crate::proofs::MeterTells::inputs_read))]
pub fn meter_inputs_are_read()
    ensures { MeterInputsAreRead }
{}

/// The text of `meter` to each pay table that it takes tells every deal at every whole payment of its range: each deal
/// has a hold that is played, one that some turn of the suits carries to the mask in force of its class, and no other of
/// the 32 holds is worth more; and the last piece at or below the payment tells the sum of the greatest values over all
/// deals, so the return is exact at every whole payment between printed breakpoints. The numbers of each piece are how
/// many classes and how many deals turn to another hold where it begins, and the sums over all deals of the bases and of
/// the slopes that are in force there.
pub fn meters_are_told()
    ensures { MetersAreTold }
{}
