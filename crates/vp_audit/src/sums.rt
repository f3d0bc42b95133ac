//! What is summed up over the classes of deals.

ghost use Rattle.std.specs.Prelude.{◌≡◌, ◌*◌, ◌<◌, ◌≤◌, ◌^◌, ◌==◌, ◌-◌, not, replicate};
ghost use Rattle.vp_audit.specs.Audits.{only};
ghost use Rattle.vp_audit.specs.Sums.{HasRoom, IsRoomy, added, more, no_sums, no_tally, tallied};

use crate::Tally;
use crate::priced::{Decided, Priced};
use arrayvec::ArrayVec;

/// Sums over the classes so far, each by its weight.
#[derive(Drop)]
pub(crate) struct Sums {
    pub optimum: u128,
    pub least: u128,
    pub greatest: u128,
    pub ambiguous: u32,
    pub except: Tally,
    pub rules: ArrayVec<Tally, 128>,
    pub none: Tally,
}

impl Sums {
    /// The sums over no class, for so many rules.
    pub(crate) fn new(rules: usize) -> Sums
        requires { rules ≤ 128 }
        ensures { result ≡ no_sums rules }
    {
        Sums {
            optimum: 0,
            least: 0,
            greatest: 0,
            ambiguous: 0,
            except: Tally::default(),
            rules: no_tallies(rules),
            none: Tally::default(),
        }
    }

    /// Adds a class of this weight.
    pub(crate) fn add(&mut self, weight: u8, priced: &Priced)
        requires optimum { self.old.optimum < 2 ^ 100 }
        requires least { self.old.least < 2 ^ 100 }
        requires greatest { self.old.greatest < 2 ^ 100 }
        requires ambiguous { self.old.ambiguous < 2 ^ 31 }
        requires below { priced.now.least ≤ priced.now.best }
        requires tally { HasRoom self.old priced.now.by }
        ensures { self.new ≡ added self.old weight priced.now }
    {
        self.optimum += weighed(weight, priced.best);
        self.least += weighed(weight, priced.least);
        self.greatest += weighed(weight, priced.greatest);
        self.ambiguous += ambiguous_deals(weight, priced);
        self.tally(priced.by, weight, priced.best - priced.least);
    }

    /// Adds to the tally of what decides the deals of a class.
    fn tally(&mut self, by: Decided, weight: u8, lost: u64)
        requires { HasRoom self.old by }
        ensures { self.new ≡ tallied self.old by weight lost }
    {
        match by {
            Decided::Except => self.except.add(weight, lost),
            Decided::ByRule(place) => {
                self.rules[usize::from(place)].add(weight, lost);
            }
            Decided::Nothing => self.none.add(weight, lost),
        }
    }
}

impl Tally {
    /// Adds so many deals, each with this loss.
    fn add(&mut self, weight: u8, lost: u64)
        requires { IsRoomy self.old }
        ensures { self.new ≡ more self.old weight lost }
    {
        self.deals += u32::from(weight);
        self.loss += weighed(weight, lost);
    }
}

fn weighed(weight: u8, value: u64) -> u128
    ensures value { result ≡ weight * value }
    ensures small { result < 2 ^ 72 }
{
    u128::from(weight) * u128::from(value)
}

/// All deals of a class, where it is allowed holds of different values.
fn ambiguous_deals(weight: u8, priced: &Priced) -> u32
    ensures { result ≡ weight * only (not (priced.now.least == priced.now.greatest)) 1 }
{
    if priced.least == priced.greatest {
        0
    } else {
        u32::from(weight)
    }
}

/// An empty tally for each rule.
fn no_tallies(rules: usize) -> ArrayVec<Tally, 128>
    requires { rules ≤ 128 }
    ensures { result.items ≡ replicate rules no_tally }
{
    let mut tallies = ArrayVec::new();
    for _ in 0..rules {
        tallies.push(Tally::default());
    }
    tallies
}
