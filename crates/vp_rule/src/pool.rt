//! A pool of rules.

ghost use Rattle.std.specs.Prelude.{◌≡◌};

use crate::Rule;
use arrayvec::ArrayVec;
use std::marker::Model;

/// A pool: the rules that a list is made of.
#[derive(Debug, Drop)]
pub struct Pool {
    version: u8,
    rules: ArrayVec<Rule, 64>,
}

impl Model for Pool {
    ghost use Rattle.vp_rule.specs.Lists.{RulePool};

    ghost Value = { RulePool };

    ghost view = { λ p. record { version = p.version; rules = p.rules.items } };
}

impl Pool {
    pub(crate) fn new(version: u8, rules: ArrayVec<Rule, 64>) -> Pool
        ensures { result ≡ record { version = version; rules = rules.items } }
    {
        Pool { version, rules }
    }

    /// 1 or 2; the tests on discards are of version 2.
    pub fn version(&self) -> u8
        ensures { result ≡ self.now.version }
    {
        self.version
    }

    /// The rules, in their order.
    pub fn rules(&self) -> &[Rule]
        ensures { result.now ≡ self.now.rules }
    {
        self.rules.as_slice()
    }
}
