//! The exceptions of a list, read one by one.

ghost use Rattle.std.specs.Prelude.{◌≡◌, [], ◌∷◌, ◌++◌, IfNone, option_to_list};
ghost use Rattle.vp_text.specs.Streams.{front_items};
ghost use Rattle.vp_rule.specs.Reading.{exception_of};

use crate::except_words::exception_of;
use std::marker::Model;
use vp_card::Hand;
use vp_text::Lines;

/// The exceptions of a list that were not given yet, over the text of the list.
#[derive(Drop)]
pub struct Exceptions<'a> {
    lines: Lines<'a>,
    deck: u8,
}

impl<'a> Model for Exceptions<'a> {
    ghost use Rattle.std.specs.Prelude.{List};
    ghost use Rattle.vp_text.specs.Streams.{front_items};
    ghost use Rattle.vp_rule.specs.Lists.{Exception};
    ghost use Rattle.vp_rule.specs.Reading.{exception_of};

    ghost Value = { List Exception };

    ghost view = { λ e. front_items (exception_of e.deck) e.lines.lines };
}

impl<'a> Exceptions<'a> {
    /// The exceptions in front of these lines, with the cards of a deck of so many.
    pub(crate) fn new(lines: Lines<'a>, deck: u8) -> Exceptions<'a>
        ensures { result ≡ front_items (exception_of deck) lines.entry.lines }
    {
        Exceptions { lines, deck }
    }

    /// A reader of the same exceptions.
    pub(crate) fn again(&self) -> Exceptions<'a>
        ensures { result ≡ self.now }
    {
        Exceptions {
            lines: self.lines.again(),
            deck: self.deck,
        }
    }

    /// The next exception, the representative of a class and its mask, read again from the text; None behind the last.
    pub fn next(&mut self) -> Option<(Hand, u8)>
        ensures given { self.old ≡ option_to_list result ++ self.new }
        ensures end { IfNone result (self.old ≡ []) }
    {
        let mut ahead = self.lines.again();
        let mut words = ahead.next()?;
        let exception = exception_of(&mut words, self.deck)?;
        self.lines = ahead;
        Some(exception)
    }
}
