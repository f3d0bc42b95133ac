//! An input of a pay table, and of one section behind it.

ghost use Rattle.std.specs.Prelude.{◌≡◌, ◌≤◌, IfOk, length, true};
ghost use Rattle.vp_pay.specs.Inputs.{section_input};
ghost use Rattle.vp_pay.specs.Reads.{Reads};
ghost use Rattle.vp_pay.specs.Table.{IsTable};

use crate::{PayTable, read_deal};
use vp_card::Hand;
use vp_text::{Lines, Refused};

/// A section that stands behind a pay table.
pub trait Section<'a>: Sized {
    ghost use Rattle.std.specs.Prelude.{◌≡◌, IfOk};
    ghost use Rattle.vp_pay.specs.Table.{IsTable};
    ghost use Rattle.vp_pay.specs.declared.table.PayTable.{PayTable};
    ghost use Rattle.vp_text.specs.ExactReaders.{Reader};
    ghost use Rattle.vp_text.specs.Reading.{Gives};

    /// How it is read from left to right.
    ghost reader: { PayTable → Reader Self };

    /// What holds of each that is read.
    ghost Is: { PayTable → Self → Type 0 };

    /// Reads it from the front of the lines, and leaves the lines behind it.
    fn read(lines: &mut Lines<'a>, table: &PayTable) -> Result<Self, Refused>
        requires { IsTable table.now }
        ensures exact { Gives (λ section. section) result lines.new (reader table.now lines.old) }
        ensures is { IfOk result (λ section. Is table.now section) };
}

/// What is asked of a pay table, beside the rules of every table.
pub trait Asked {
    ghost use Rattle.std.specs.Prelude.{◌≡◌, Bool};
    ghost use Rattle.vp_pay.specs.declared.table.PayTable.{PayTable};

    /// The table fits.
    ghost fits: { Self → PayTable → Bool };

    /// Whether the table fits.
    fn fits(&self, table: &PayTable) -> bool
        ensures { result ≡ fits self.now table.now };
}

/// A column for a bet of so many coins is asked for.
#[derive(Clone, Copy, Debug, PartialEq, Eq)]
pub struct HasBet {
    pub coin: u8,
}

impl Asked for HasBet {
    ghost use Rattle.vp_pay.specs.Inputs.{has_bet};

    ghost fits = { λ asked. has_bet asked.coin };

    fn fits(&self, table: &PayTable) -> bool {
        self.coin <= table.coins
    }
}

/// No section.
impl<'a> Section<'a> for () {
    ghost use Rattle.vp_text.specs.Reading.{nothing};

    ghost reader = { λ table. nothing };

    ghost Is = { λ table none. Unit {0} };

    fn read(_: &mut Lines<'a>, _: &PayTable) -> Result<(), Refused> {
        Ok(())
    }
}

/// A deal from the table's deck, seen in rising order.
impl<'a> Section<'a> for Hand {
    ghost use Rattle.std.specs.Prelude.{◌≡◌, true};
    ghost use Rattle.vp_card.specs.Cards.{IsHand, in_deck};
    ghost use Rattle.vp_pay.specs.Sections.{hand_at};

    ghost reader = { λ table. hand_at table.deck };

    ghost Is = { λ table hand. IsHand hand × (in_deck table.deck hand ≡ true) };

    fn read(lines: &mut Lines<'a>, table: &PayTable) -> Result<Hand, Refused> {
        read_deal(lines, table.deck)
    }
}

/// The pay table and the section behind it that the bytes say, and nothing else. A table that does not fit is refused at
/// its last line.
#[tactic(auto, unfolding(crate::specs::Inputs::section_input))]
pub fn read_input<'a, S: Section<'a> + Drop, F: Asked>(
    bytes: &'a [u8],
    asked: &F,
) -> Result<(PayTable, S), Refused>
    requires limit { length bytes.now ≤ 67108864 }
    ensures says { Reads (λ read. read) result (section_input (F.fits asked.now) S.reader bytes.now) }
    ensures table { IfOk result (λ read. IsTable read.0) }
    ensures fits { IfOk result (λ read. F.fits asked.now read.0 ≡ true) }
    ensures section { IfOk result (λ read. S.Is read.0 read.1) }
{
    let mut lines = Lines::new(bytes);
    let table = PayTable::read(&mut lines)?;
    if !asked.fits(&table) {
        return Err(Refused { line: lines.last() });
    }
    let section = S::read(&mut lines, &table)?;
    match lines.next() {
        None => Ok((table, section)),
        Some(words) => Err(Refused { line: words.line() }),
    }
}
