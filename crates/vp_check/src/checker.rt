//! The check of a certificate that uses none of what wrote it.

ghost use Rattle.std.specs.Prelude.{◌≡◌, ◌≤◌, ◌<◌, ◌↔◌, ℕ, List, length, Ok, Err};
ghost use Rattle.vp_check.specs.Answers.{IsBad, IsChecked};
ghost use Rattle.vp_check.specs.Certificates.{IsCertificate};
ghost use Rattle.vp_check.specs.Checking.{check_result};
ghost use Rattle.vp_check.specs.Read.{IsRead, certificate_read};
ghost use Rattle.vp_check.specs.Spelling.{RefusesCertificate};
ghost use Rattle.vp_check.specs.declared.finding.CertRule.{CertRule};
ghost use Rattle.vp_check.specs.declared.finding.Checked.{Checked};
ghost use Rattle.vp_check.specs.declared.finding.Finding.TheVariants.{Bad, Refused};

use crate::reading::{ReadCertificate, read_certificate};
use crate::rules::return_breach;
use crate::walk::{bad, walk, walk_end};
use crate::{Checked, Finding};
use std::marker::Brand;
use std::sync::ledger::{Blank, Ledger};
use vp_wild::Steps;

/// Checks a certificate: every rule of all its lines, but for the value and the mask of a class line, which are asked of
/// the `count` class lines from the place `from` on. The first class line has the place 1. Of up to 256
/// of these lines at once, the payments of the draws are summed over all hands of the deck.
///
/// A text that is no certificate is refused before any rule is asked. Else the answer is the first line that breaks a rule,
/// with its first broken rule; and where there is none, what the certificate says of itself.
pub fn check(bytes: &[u8], from: u32, count: u32) -> Result<Checked, Finding>
    requires { length bytes.now ≤ 67108864 }
    // Checked is a text that spells a certificate that is true over the walked lines, and no other.
    ensures checked { (r : Checked) → result ≡ Ok r ↔ IsChecked bytes.now from count r }
    // Refused is the first line with which the lines so far begin no certificate, or the one past the end.
    ensures refused { (line : ℕ) → result ≡ Err (Refused line) ↔ RefusesCertificate bytes.now line }
    // Bad is the first broken rule of the first line that breaks one.
    ensures bad { (line : ℕ) (rule : CertRule) (said due : ℕ)
        → result ≡ Err (Bad line rule said due) ↔ IsBad bytes.now from count (Bad line rule said due) }
    ensures value { result ≡ check_result bytes.now from count }
{
    check_from::<Brand>(bytes, from, count, Blank::new(1))
}

/// The same; the blank is for a counter that nobody reads.
#[tactic(auto, using(crate::proofs::Verdicts::refused_is, crate::proofs::Verdicts::many_rows))]
fn check_from<L: Ledger>(
    bytes: &[u8],
    from: u32,
    count: u32,
    blank: Blank,
) -> Result<Checked, Finding>
    requires long { length bytes.now ≤ 67108864 }
    requires name { blank.name ≡ L.name }
    requires parts { blank.parts ≡ L.parts }
    requires share { 0 < blank.parts }
    ensures { result ≡ check_result bytes.now from count }
{
    match read_certificate(bytes) {
        Ok(certificate) => answer(certificate, from, count, &mut Steps::<L>::new(blank)),
        Err(refused) => Err(Finding::Refused { line: refused.line }),
    }
}

/// The answer to a certificate in the grammar.
#[tactic(auto, using(crate::proofs::Verdicts::found_is, crate::proofs::Verdicts::passed_is))]
fn answer<L: Ledger>(
    certificate: ReadCertificate<'_>,
    from: u32,
    count: u32,
    steps: &mut Steps<L>,
) -> Result<Checked, Finding>
    requires certificate { IsCertificate (certificate_read certificate) }
    requires many { length certificate.rows ≡ certificate.counted.listed.lines }
    ensures { (bytes : List ℕ) → IsRead bytes certificate.entry → result ≡ check_result bytes from count }
{
    let ReadCertificate {
        table,
        coin,
        rows,
        counted,
    } = certificate;
    let end = walk_end(from, count, counted.listed.broken);
    let walked = walk(&table, coin, rows, u64::from(from), end, steps)?;
    if let Some(broken) = counted.listed.broken {
        return Err(bad(broken.line, broken.breach));
    }
    if let Some(breach) = return_breach(table.deck, coin, &counted) {
        return Err(bad(counted.return_line, breach));
    }
    Ok(Checked {
        classes: counted.listed.lines,
        walked,
        sum: counted.sum,
        denominator: counted.denominator,
    })
}
