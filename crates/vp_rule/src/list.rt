//! A strategy list.

ghost use Rattle.std.specs.Prelude.{◌≡◌};

use crate::{Exceptions, Rule};
use arrayvec::ArrayVec;
use std::marker::Model;

/// A strategy list over its text. The rules are kept; the exceptions are read again from the text, so that any
/// number of them takes no memory.
#[derive(Drop)]
pub struct List<'a> {
    version: u8,
    exceptions: Exceptions<'a>,
    rules: ArrayVec<Rule, 128>,
}

impl<'a> Model for List<'a> {
    ghost use Rattle.vp_rule.specs.Lists.{RuleList};

    ghost Value = { RuleList };

    ghost view = { λ l. record { version = l.version; exceptions = l.exceptions; rules = l.rules.items } };
}

impl<'a> List<'a> {
    pub(crate) fn new(
        version: u8,
        exceptions: Exceptions<'a>,
        rules: ArrayVec<Rule, 128>,
    ) -> List<'a>
        ensures { result ≡ record { version = version; exceptions = exceptions.entry; rules = rules.items } }
    {
        List {
            version,
            exceptions,
            rules,
        }
    }

    /// 1 or 2; the tests on discards are of version 2.
    pub fn version(&self) -> u8
        ensures { result ≡ self.now.version }
    {
        self.version
    }

    /// The rules, in their order.
    pub fn rules(&self) -> &[Rule]
        ensures { result.now ≡ self.now.rules }
    {
        self.rules.as_slice()
    }

    /// The exceptions, by rising index of their representatives.
    pub fn exceptions(&self) -> Exceptions<'a>
        ensures { result ≡ self.now.exceptions }
    {
        self.exceptions.again()
    }
}
