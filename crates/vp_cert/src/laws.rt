// Laws of `certify`.
ghost use Rattle.vp_cert.specs.Certify.{CertifyInputsAreRead};
ghost use Rattle.vp_cert.specs.CertifyTells.{CertificatesAreChecked, CertificatesTellEveryDeal};

/// What `certify` takes for its input is what the lines of the input spell: a valid pay table that has the bet, and
/// nothing else. Every other input is refused, exactly at its refused line.
#[tactic(auto, using(crate::proofs::CertifyTells::inputs_read))]
pub fn certify_inputs_are_read()
    ensures { CertifyInputsAreRead }
{}

/// The text of `certify` to each pay table that it takes is a certificate that tells every deal: each deal of the deck
/// has a printed hold, one that some turn of the suits carries to the mask of the deal's class; each printed hold is
/// worth what its line says, and no other of the 32 holds is worth more. The printed sum is the sum of the greatest
/// values over all deals, over the number of deals, the common denominator of the deck and the bet: the return is exactly
/// the mean payment of best play divided by the bet.
pub fn certificates_tell_every_deal()
    ensures { CertificatesTellEveryDeal }
{}

/// What `certify` prints is an input of `check`, short enough to be read, with which it finds no fault, whatever class
/// lines are walked.
pub fn certificates_are_checked()
    ensures { CertificatesAreChecked }
{}
