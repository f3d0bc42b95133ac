//! The games of a log, read one by one.

ghost use Rattle.std.specs.Prelude.{◌≡◌, [], ◌∷◌, ◌++◌, IfNone, option_to_list};
ghost use Rattle.vp_loggram.specs.Sections.{events_in_front};

use crate::Event;
use crate::words::event_of;
use std::marker::Model;
use vp_text::Lines;

/// The games of a log that are left. They are read from its text, and none is kept.
#[derive(Drop)]
pub struct Events<'a> {
    lines: Lines<'a>,
    deck: u8,
}

impl<'a> Model for Events<'a> {
    ghost use Rattle.std.specs.Prelude.{List};
    ghost use Rattle.vp_loggram.specs.Sections.{events_in_front};
    ghost use Rattle.vp_loggram.specs.declared.event.Event.{Event};

    ghost Value = { List Event };

    ghost view = { λ c. events_in_front c.deck c.lines.lines };
}

impl<'a> Events<'a> {
    /// The games in front of these lines, with the cards of a deck of so many.
    pub(crate) fn new(lines: Lines<'a>, deck: u8) -> Events<'a>
        ensures { result ≡ events_in_front deck lines.entry.lines }
    {
        Events { lines, deck }
    }

    /// The next game. It is `None` exactly behind the last.
    #[tactic(auto, unfolding(crate::specs::Sections::events_in_front))]
    pub fn next(&mut self) -> Option<Event>
        ensures given { self.old ≡ option_to_list result ++ self.new }
        ensures end { IfNone result (self.old ≡ []) }
    {
        let mut ahead = self.lines.again();
        let mut words = ahead.next()?;
        let event = event_of(&mut words, self.deck)?;
        self.lines = ahead;
        Some(event)
    }
}
