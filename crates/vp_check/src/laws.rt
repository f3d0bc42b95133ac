//! Laws of certificates, each the contract of a function that does nothing.

ghost use Rattle.std.specs.Prelude.{◌≡◌, ℕ, ◌+◌, ◌<◌, ◌≤◌, ◌↔◌, length};
ghost use Rattle.vp_pay.specs.Bets.{IsBet};
ghost use Rattle.vp_pay.specs.Table.{IsTable};
ghost use Rattle.vp_pay.specs.declared.table.PayTable.{PayTable};
ghost use Rattle.vp_check.specs.Certificates.{Certificate, IsCertificate};
ghost use Rattle.vp_check.specs.CheckJob.{CertificatesAreJudged, CheckInputsAreEither, CheckInputsAreRefused};
ghost use Rattle.vp_check.specs.CheckTells.{ChecksTellEveryDeal, ChecksTellWalkedDeals};
ghost use Rattle.vp_check.specs.CheckedInParts.{PartsTellEveryDeal, PartsTellWalkedDeals};
ghost use Rattle.vp_check.specs.EveryDeal.{TellsEveryDeal, TellsWalkedDeals};
ghost use Rattle.vp_check.specs.Truth.{HasAllClasses, HasLeastBestMasks, IsTrueCertificate, IsTrueOver, KeepsRules, OfEachWalk, due_certificate};
ghost use Rattle.vp_check.specs.Parts.{WalksJoin, WalksTellEveryDeal};

/// What it says that no line of a certificate breaks a rule, where the class lines of a range are walked: its cards are all
/// least images, rising by index, with their weights; walked lines have the best value and a best hold; and the return is that
/// of the class lines.
pub fn certificates_keep_rules()
    ensures rules { OfEachWalk (λ from count c. (IsTrueOver from count c ↔ KeepsRules from count c)) }
    // Whichever lines are walked, the class lines are all classes.
    ensures classes { OfEachWalk (λ from count c. IsTrueOver from count c → HasAllClasses c) }
    // Where all class lines are walked, the certificate is true.
    ensures all { OfEachWalk (λ from count c. from ≤ 1 → length c.classes < from + count
        → IsTrueOver from count c → IsTrueCertificate c) }
    // A true certificate is true over whatever lines are walked.
    ensures any { OfEachWalk (λ from count c. IsTrueCertificate c → IsTrueOver from count c) }
{}

/// A certificate that is true over all its lines tells every deal: each deal of the deck has a printed hold, one that some
/// turn of the suits carries to the mask of the deal's class; each printed hold is worth what its line says, and no other of
/// the 32 holds is worth more; and the sum is that of the best values of all deals.
pub fn true_certificates()
    ensures { (c : Certificate) → IsCertificate c → IsTrueCertificate c → TellsEveryDeal c }
{}

/// A certificate that is true over the walked lines tells the deals of their classes: whatever hold of such a deal some turn of
/// the suits carries to the mask of the walked line, it is worth what this line says, and no other of the 32 holds is worth more.
#[tactic(auto, using(crate::proofs::EveryDeals::walked_tell))]
pub fn walked_lines_tell_their_deals()
    ensures { (from count : ℕ) (c : Certificate) → IsCertificate c → IsTrueOver from count c → TellsWalkedDeals from count c }
{}

/// A certificate that is checked part by part, by one check or many: where none finds a broken rule, and each class line of
/// a range is walked by some of them, the certificate is true over that range; where each class line is, it tells every deal.
pub fn checks_join()
    ensures range { WalksJoin }
    ensures all { WalksTellEveryDeal }
{}

/// For each pay table and each bet that it has there is one true certificate with the least best masks.
pub fn due_certificate_is_true()
    ensures grammar { (table : PayTable) (coin : ℕ) → IsBet table coin → IsCertificate (due_certificate table coin) }
    ensures kept { (table : PayTable) (coin : ℕ) → IsTable table → IsTrueCertificate (due_certificate table coin) }
    // So it tells every deal.
    ensures tells { (table : PayTable) (coin : ℕ) → IsBet table coin → TellsEveryDeal (due_certificate table coin) }
    // There is no other.
    ensures only { (table : PayTable) (coin : ℕ) (c : Certificate) → IsCertificate c → IsTrueCertificate c
        → c.table ≡ table → c.coin ≡ coin → HasLeastBestMasks table coin c → c ≡ due_certificate table coin }
{}

/// What `check` takes for its input is what the lines of the input spell: a certificate in the grammar, and nothing else.
/// It is answered by its first broken rule, where there is one. Every other input is refused, exactly at its refused line.
pub fn check_inputs_are_read()
    ensures judged { CertificatesAreJudged }
    ensures refused { CheckInputsAreRefused }
    ensures either { CheckInputsAreEither }
{}

/// A certificate that `check` finds no fault with, all class lines being walked, tells every deal.
pub fn checks_tell_deals()
    ensures every { ChecksTellEveryDeal }
    // Where some class lines are walked, the holds that are printed on these lines are told so.
    ensures walked { ChecksTellWalkedDeals }
{}

/// Many calls of `check` on one certificate, each of which walks some of its class lines, tell what one call tells that
/// walks them all: where each is a yes, and each class line of a range is walked by some of them, they tell the deals of
/// these lines; where each class line is, they tell every deal.
pub fn checks_in_parts_tell_every_deal()
    ensures range { PartsTellWalkedDeals }
    ensures all { PartsTellEveryDeal }
{}
