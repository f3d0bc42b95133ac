//! `audit`: what a strategy list loses.

ghost use Rattle.std.specs.Prelude.{◌≡◌, ◌<◌, codes, length};
ghost use Rattle.vp_count.specs.Table.{first_word};
ghost use Rattle.vp_io.specs.Puts.{Puts};
ghost use Rattle.vp_rule.specs.Valid.{IsList};
ghost use Rattle.vp_text.specs.Written.{line_of, written};
ghost use Rattle.vp_audit.specs.Audit.{IsListed, audited_lines, rule_lines, rule_words, sum_lines, tally_words};
ghost use Rattle.vp_audit.specs.Audits.{audited};

use crate::{Audited, Tally, audit};
use std::marker::{Brand, Model};
use std::sync::ledger::{Blank, Ledger};
use vp_answer::{Stop, Work};
use vp_count::table_words;
use vp_draws::return_denominator;
use vp_hold::Game;
use vp_io::{Sink, WriteFault};
use vp_lines::{Word, put_lines, put_words};
use vp_pay::{HasBet, PayTable, read_input};
use vp_region::Carver;
use vp_rule::List;
use vp_wild::Steps;

/// A bet on a pay table, and a list for the table.
#[derive(Drop)]
pub struct AuditJob<'a> {
    table: PayTable,
    coin: u8,
    list: List<'a>,
}

impl<'a> Model for AuditJob<'a> {
    ghost use Rattle.vp_audit.specs.Audit.{IsListed, Listed};

    ghost Value = { Listed };

    ghost view = { λ j. record { table = j.table; coin = j.coin; list = j.list } };

    ghost invariant = { λ j. IsListed (record { table = j.table; coin = j.coin; list = j.list }) };
}

impl<'a> AuditJob<'a> {
    ghost use Rattle.std.specs.Prelude.{◌≡◌, ◌≤◌, length};
    ghost use Rattle.vp_audit.specs.Audit.{audit_job};

    /// What the bytes leave to do for a bet: a pay table that has it, and a list for the table.
    pub fn read(coin: u8, bytes: &'a [u8]) -> Result<AuditJob<'a>, Stop>
        requires some { 1 ≤ coin }
        requires limit { length bytes.now ≤ 67108864 }
        ensures { result ≡ audit_job coin bytes.now }
    {
        let (table, list) = read_input::<List, HasBet>(bytes, &HasBet { coin })?;
        Ok(AuditJob { table, coin, list })
    }
}

impl<'a> Work for AuditJob<'a> {
    ghost use Rattle.vp_audit.specs.Audit.{audit_due, audit_some};

    ghost due = { audit_due };

    ghost some_text = { audit_some };

    /// A table of sums.
    fn words(&self) -> usize {
        table_words(self.table.deck)
    }

    fn put<K: Sink>(&self, memory: &mut [u64], sink: &mut K) -> Result<(), WriteFault> {
        let mut carver = Carver::over(memory);
        let words = carver.take_as_it_is(table_words(self.table.deck)).unwrap();
        let audited = audited_of(&self.table, self.coin, &self.list, words);
        put_audited(
            &audited,
            return_denominator(self.table.deck, self.coin),
            sink,
        )
    }
}

/// What the list loses, out of the table of sums that is made in the words.
fn audited_of(table: &PayTable, coin: u8, list: &List, words: &mut [u64]) -> Audited
    requires listed { IsListed (record { table = table.now; coin = coin; list = list.now }) }
    requires long { length words.old ≡ first_word table.now.deck 6 }
    ensures { result ≡ audited table.now coin list.now }
{
    let game = Game::of(table, coin, words);
    audit_of::<Brand>(&game, list, Blank::new(1))
}

/// The same; the blank is for a counter that nobody reads.
fn audit_of<L: Ledger>(game: &Game, list: &List, blank: Blank) -> Audited
    requires list { IsList game.now.table list.now }
    requires name { blank.name ≡ L.name }
    requires parts { blank.parts ≡ L.parts }
    requires share { 0 < blank.parts }
    ensures { result ≡ audited game.now.table game.now.coin list.now }
{
    audit(game, list, &mut Steps::<L>::new(blank))
}

/// Puts what a list loses, its sums over this denominator.
fn put_audited<K: Sink>(audited: &Audited, under: u64, sink: &mut K) -> Result<(), WriteFault>
    ensures { Puts (K.told sink.old) (K.told sink.new) result (written (audited_lines audited.now under)) }
{
    put_sums(audited, under, sink)?;
    put_rules(audited.rules.as_slice(), sink)?;
    put_none(audited.none, sink)
}

/// Puts the lines in front of those of the rules.
fn put_sums<K: Sink>(audited: &Audited, under: u64, sink: &mut K) -> Result<(), WriteFault>
    ensures { Puts (K.told sink.old) (K.told sink.new) result (written (sum_lines audited.now under)) }
{
    let under = under as u128;
    let optimum = [
        Word::Text(b"optimum"),
        Word::Fraction(audited.optimum, under),
    ];
    let least = [Word::Text(b"least"), Word::Fraction(audited.least, under)];
    let greatest = [
        Word::Text(b"greatest"),
        Word::Fraction(audited.greatest, under),
    ];
    let loss = [Word::Text(b"loss"), Word::Fraction(audited.loss, under)];
    let ambiguous = [
        Word::Text(b"ambiguous"),
        Word::Number(audited.ambiguous as u128),
    ];
    let except = [
        Word::Text(b"except"),
        Word::Number(audited.except.deals as u128),
        Word::Number(audited.except.loss),
    ];
    put_lines(
        &[&optimum, &least, &greatest, &loss, &ambiguous, &except],
        sink,
    )
}

/// Puts a line for each rule, by its number from 1.
fn put_rules<K: Sink>(tallies: &[Tally], sink: &mut K) -> Result<(), WriteFault>
    ensures { Puts (K.told sink.old) (K.told sink.new) result (written (rule_lines 1 tallies.now)) }
{
    for place in 0..tallies.len() {
        put_rule(place as u64 + 1, tallies[place], sink)?;
    }
    Ok(())
}

/// Puts the line of the rule with this number.
fn put_rule<K: Sink>(number: u64, tally: Tally, sink: &mut K) -> Result<(), WriteFault>
    ensures { Puts (K.told sink.old) (K.told sink.new) result (line_of (rule_words number tally)) }
{
    let words = [
        Word::Text(b"rule"),
        Word::Number(number as u128),
        Word::Number(tally.deals as u128),
        Word::Number(tally.loss),
    ];
    put_words(&words, sink)
}

/// Puts the line of the deals that nothing decides.
fn put_none<K: Sink>(tally: Tally, sink: &mut K) -> Result<(), WriteFault>
    ensures { Puts (K.told sink.old) (K.told sink.new) result (line_of (tally_words (codes "none") tally)) }
{
    let words = [
        Word::Text(b"none"),
        Word::Number(tally.deals as u128),
        Word::Number(tally.loss),
    ];
    put_words(&words, sink)
}
