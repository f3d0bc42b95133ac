//! A record of seven fields, and what it says.

ghost use Rattle.std.specs.Prelude.{◌≡◌, ◌≤◌, None, Some, IfSome};
ghost use Rattle.csv.specs.Records.{fields_of, field_at};
ghost use Rattle.vp_csv.specs.Fields.{row_of, five_of};
ghost use Rattle.vp_csv.specs.Left.{given};
ghost use Rattle.vp_csv.specs.Rules.{is_head, is_header, start_in, game_in, tells_no_game};

use crate::cards::cards_of;
use csv::ByteRecord;
use std::marker::Model;
use vp_card::{Card, in_deck};
use vp_loggram::Event;
use vp_text::number;

/// The fields of a record of seven.
#[derive(Drop)]
pub(crate) struct Row<'a> {
    session: &'a [u8],
    bet: &'a [u8],
    deal: &'a [u8],
    hold: &'a [u8],
    draw: &'a [u8],
    pay: &'a [u8],
    credits: &'a [u8],
}

impl<'a> Model for Row<'a> {
    ghost use Rattle.vp_csv.specs.Fields.{Row};

    ghost Value = { Row };

    ghost view = { λ r. record {
      session = r.session.now;
      bet = r.bet.now;
      deal = r.deal.now;
      hold = r.hold.now;
      draw = r.draw.now;
      pay = r.pay.now;
      credits = r.credits.now;
    } };
}

/// The field at a place, empty where there is none.
fn field(row: &ByteRecord, place: usize) -> &[u8]
    ensures { result.now ≡ given (field_at (fields_of row.now) place) }
{
    match row.get(place) {
        Some(field) => field,
        None => &[],
    }
}

/// The fields of a record of seven.
#[tactic(auto, using(crate::proofs::Rows::seven_are, crate::proofs::Rows::not_seven))]
pub(crate) fn row_of(fields: &ByteRecord) -> Option<Row<'_>>
    ensures { result ≡ row_of (fields_of fields.now) }
{
    if fields.len() != 7 {
        return None;
    }
    Some(Row {
        session: field(fields, 0),
        bet: field(fields, 1),
        deal: field(fields, 2),
        hold: field(fields, 3),
        draw: field(fields, 4),
        pay: field(fields, 5),
        credits: field(fields, 6),
    })
}

/// The record has the names of the fields.
#[tactic(auto, unfolding(crate::specs::Rules::is_header))]
pub(crate) fn is_header(fields: &ByteRecord) -> bool
    ensures { result ≡ is_header (fields_of fields.now) }
{
    let Some(row) = row_of(fields) else {
        return false;
    };
    row.is_head()
}

/// Five cards.
fn five_of(cards: &[Card]) -> Option<[Card; 5]>
    ensures { result ≡ five_of cards.now }
{
    let [first, second, third, fourth, fifth] = cards else {
        return None;
    };
    Some([*first, *second, *third, *fourth, *fifth])
}

impl<'a> Row<'a> {
    fn is_head(&self) -> bool
        ensures { result ≡ is_head self.now }
    {
        self.session == b"session".as_slice()
            && self.bet == b"bet".as_slice()
            && self.deal == b"deal".as_slice()
            && self.hold == b"hold".as_slice()
            && self.draw == b"draw".as_slice()
            && self.pay == b"pay".as_slice()
            && self.credits == b"credits".as_slice()
    }

    /// The first field.
    pub(crate) fn session(&self) -> &'a [u8]
        ensures { result.now ≡ self.now.session }
    {
        self.session
    }

    fn tells_no_game(&self) -> bool
        ensures { result ≡ tells_no_game self.now }
    {
        self.bet.is_empty()
            && self.deal.is_empty()
            && self.hold.is_empty()
            && self.draw.is_empty()
            && self.pay.is_empty()
    }

    /// The credits at the start of a session, where the record opens one.
    #[tactic(auto, unfolding(crate::specs::Rules::start_in, vp_text::specs::Numbers::number_within))]
    pub(crate) fn start(&self) -> Option<u64>
        ensures value { result ≡ start_in self.now }
        ensures most { IfSome result (λ start. start ≤ 1000000000000) }
    {
        if !self.tells_no_game() {
            return None;
        }
        let start = number(self.credits)?;
        if start <= 1000000000000 {
            Some(start)
        } else {
            None
        }
    }

    /// The game that the record tells, with cards of a deck of so many.
    #[tactic(auto, unfolding(crate::specs::Rules::game_in))]
    pub(crate) fn game(&self, deck: u8) -> Option<Event>
        ensures { result ≡ game_in deck self.now }
    {
        let bet = number(self.bet)?;
        let dealt = cards_of(self.deal)?;
        let deal = five_of(&dealt)?;
        let hold = cards_of(self.hold)?;
        let draw = cards_of(self.draw)?;
        let pay = number(self.pay)?;
        let credits = number(self.credits)?;
        if !in_deck(&deal, deck) || !in_deck(&hold, deck) || !in_deck(&draw, deck) {
            return None;
        }
        Some(Event {
            bet,
            deal,
            hold,
            draw,
            pay,
            credits,
        })
    }
}
