//! The class lines of a text, read one by one.

ghost use Rattle.std.specs.Prelude.{◌≡◌, [], ◌∷◌, ◌++◌, IfNone, option_to_list};
ghost use Rattle.vp_check.specs.Rows.{numbered_classes};

use crate::class_words::class_of;
use crate::numbered::Numbered;
use std::marker::Model;
use vp_text::Lines;

/// The class lines at the front of the lines that are left.
#[derive(Drop)]
pub(crate) struct ClassLines<'a> {
    lines: Lines<'a>,
    deck: u8,
}

impl<'a> Model for ClassLines<'a> {
    ghost use Rattle.std.specs.Prelude.{List};
    ghost use Rattle.vp_check.specs.Rows.{numbered_classes};
    ghost use Rattle.vp_check.specs.declared.numbered.Numbered.{Numbered};

    ghost Value = { List Numbered };

    ghost view = { λ c. numbered_classes c.deck c.lines.lines };
}

impl<'a> ClassLines<'a> {
    /// The class lines in front of these lines, with the cards of a deck of so many.
    pub(crate) fn new(lines: Lines<'a>, deck: u8) -> ClassLines<'a>
        ensures { result ≡ numbered_classes deck lines.entry.lines }
    {
        ClassLines { lines, deck }
    }

    /// The next class line; None behind the last.
    pub(crate) fn next(&mut self) -> Option<Numbered>
        ensures given { self.old ≡ option_to_list result ++ self.new }
        ensures end { IfNone result (self.old ≡ []) }
    {
        let mut ahead = self.lines.again();
        let mut words = ahead.next()?;
        let line = words.line();
        let class = class_of(&mut words, self.deck)?;
        self.lines = ahead;
        Some(Numbered { line, class })
    }
}
