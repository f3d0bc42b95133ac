//! `check`: what is left to do once a certificate was checked.

ghost use Rattle.std.specs.Prelude.{◌≡◌, ◌≤◌, length};
ghost use Rattle.vp_io.specs.Puts.{Puts};
ghost use Rattle.vp_text.specs.Written.{written};
ghost use Rattle.vp_check.specs.CheckJob.{check_job, check_read, checked_lines, rule_of};

use crate::{CertRule, Checked, Finding, check};
use vp_answer::{Rule, Stop, Work};
use vp_io::{Sink, WriteFault};
use vp_lines::{Word, put_lines};

/// What a certificate leaves to do, of which `count` class lines from the place `from` on are walked: to say that it breaks
/// no rule.
pub fn check_job(from: u32, count: u32, bytes: &[u8]) -> Result<Checked, Stop>
    requires { length bytes.now ≤ 67108864 }
    ensures { result ≡ check_job from count bytes.now }
{
    check_read(check(bytes, from, count))
}

fn check_read(verdict: Result<Checked, Finding>) -> Result<Checked, Stop>
    ensures { result ≡ check_read verdict }
{
    match verdict {
        Ok(checked) => Ok(checked),
        Err(Finding::Refused { line }) => Err(Stop::Refused { line }),
        Err(
            Finding::Bad {
                line,
                rule,
                said,
                due,
            },
        ) => Err(Stop::Finding {
            at: line,
            rule: rule_of(rule),
            said,
            due,
        }),
    }
}

impl Work for Checked {
    ghost use Rattle.vp_check.specs.CheckJob.{checked_due, checked_some};

    ghost due = { checked_due };

    ghost some_text = { checked_some };

    /// None: the draws are walked in place.
    fn words(&self) -> usize {
        0
    }

    fn put<K: Sink>(&self, _: &mut [u64], sink: &mut K) -> Result<(), WriteFault> {
        put_checked(*self, sink)
    }
}

/// Puts the two lines of a certificate that breaks no rule.
#[tactic(auto, unfolding(crate::specs::CheckJob::checked_lines, crate::specs::Spelling::return_words))]
fn put_checked<K: Sink>(checked: Checked, sink: &mut K) -> Result<(), WriteFault>
    ensures { Puts (K.told sink.old) (K.told sink.new) result (written (checked_lines checked)) }
{
    let counts = [
        Word::Text(b"checked"),
        Word::Number(checked.classes as u128),
        Word::Number(checked.walked as u128),
    ];
    let sum = [
        Word::Text(b"return"),
        Word::Fraction(checked.sum as u128, checked.denominator as u128),
    ];
    put_lines(&[&counts, &sum], sink)
}

/// The rule of a certificate, among all rules.
fn rule_of(rule: CertRule) -> Rule
    ensures { result ≡ rule_of rule }
{
    match rule {
        CertRule::Order => Rule::Order,
        CertRule::Weight => Rule::Weight,
        CertRule::Value => Rule::Value,
        CertRule::Mask => Rule::Mask,
        CertRule::Cover => Rule::Cover,
        CertRule::Sum => Rule::Sum,
        CertRule::Denominator => Rule::Denominator,
    }
}
