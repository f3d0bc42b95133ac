//! `deal`: the best hold of one hand.

ghost use Rattle.std.specs.Prelude.{◌≡◌, ◌≤◌, length};
ghost use Rattle.vp_card.specs.Cards.{held};
ghost use Rattle.vp_count.specs.Table.{first_word};
ghost use Rattle.vp_io.specs.Puts.{Puts};
ghost use Rattle.vp_text.specs.Written.{written};
ghost use Rattle.vp_deal.specs.Deal.{IsDealt, figure_lines, figures};

use std::marker::Model;
use vp_answer::{Stop, Work};
use vp_card::{Card, Hand};
use vp_count::table_words;
use vp_draws::Best;
use vp_hold::Game;
use vp_io::{Sink, WriteFault};
use vp_lines::{Word, put_lines};
use vp_pay::{HasBet, PayTable, read_input};
use vp_region::Carver;
use vp_sets::common;

/// A bet on a pay table, and a hand of its deck.
#[derive(Drop)]
pub struct DealJob {
    table: PayTable,
    coin: u8,
    hand: Hand,
}

impl Model for DealJob {
    ghost use Rattle.vp_deal.specs.Deal.{Dealt, IsDealt};

    ghost Value = { Dealt };

    ghost view = { λ j. record { table = j.table; coin = j.coin; hand = j.hand } };

    ghost invariant = { λ j. IsDealt (record { table = j.table; coin = j.coin; hand = j.hand }) };
}

impl DealJob {
    ghost use Rattle.std.specs.Prelude.{◌≡◌, ◌≤◌, length};
    ghost use Rattle.vp_deal.specs.Deal.{deal_job};

    /// What the bytes leave to do for a bet: a pay table that has it, and a deal from its deck.
    pub fn read(coin: u8, bytes: &[u8]) -> Result<DealJob, Stop>
        requires some { 1 ≤ coin }
        requires limit { length bytes.now ≤ 67108864 }
        ensures { result ≡ deal_job coin bytes.now }
    {
        let (table, hand) = read_input::<Hand, HasBet>(bytes, &HasBet { coin })?;
        Ok(DealJob { table, coin, hand })
    }
}

impl Work for DealJob {
    ghost use Rattle.vp_deal.specs.Deal.{deal_due, deal_some};

    ghost due = { deal_due };

    ghost some_text = { deal_some };

    /// A table of sums.
    fn words(&self) -> usize {
        table_words(self.table.deck)
    }

    fn put<K: Sink>(&self, memory: &mut [u64], sink: &mut K) -> Result<(), WriteFault> {
        let mut carver = Carver::over(memory);
        let words = carver.take_as_it_is(table_words(self.table.deck)).unwrap();
        let figures = figures_of(&self.table, self.coin, &self.hand, words);
        put_deal(&self.hand, figures, sink)
    }
}

/// The figures of a hand, out of the table of sums that is made in the words.
#[tactic(auto, unfolding(crate::specs::Deal::figures))]
fn figures_of(table: &PayTable, coin: u8, hand: &Hand, words: &mut [u64]) -> (Best, u64, u64)
    requires dealt { IsDealt (record { table = table.now; coin = coin; hand = hand.now }) }
    requires long { length words.old ≡ first_word table.now.deck 6 }
    ensures { result ≡ figures (record { table = table.now; coin = coin; hand = hand.now }) }
{
    let game = Game::of(table, coin, words);
    (game.best(hand), game.value(hand, 31), common(table.deck))
}

/// Puts the four lines of a hand.
fn put_deal<K: Sink>(hand: &Hand, figures: (Best, u64, u64), sink: &mut K) -> Result<(), WriteFault>
    ensures { Puts (K.told sink.old) (K.told sink.new) result (written (figure_lines hand.now figures)) }
{
    let (best, pat, under) = figures;
    put_figures(hand, &hand.held(best.mask), best, pat, under, sink)
}

/// The same, with the cards that are held.
fn put_figures<'a, K: Sink>(
    hand: &'a Hand,
    kept: &'a [Card],
    best: Best,
    pat: u64,
    under: u64,
    sink: &mut K,
) -> Result<(), WriteFault>
    requires held { kept.now ≡ held best.mask hand.now }
    requires five { length kept.now ≤ 5 }
    ensures { Puts (K.told sink.old) (K.told sink.new) result (written (figure_lines hand.now (best, pat, under))) }
{
    let deal = [Word::Text(b"deal"), Word::Hand(hand)];
    let hold = [
        Word::Text(b"best"),
        Word::Number(best.mask as u128),
        Word::Cards(kept),
        Word::Fraction(best.value as u128, under as u128),
    ];
    let all = [
        Word::Text(b"pat"),
        Word::Fraction(pat as u128, under as u128),
    ];
    let ties = [Word::Text(b"ties"), Word::Number(best.ties as u128)];
    put_lines(&[&deal, &hold, &all, &ties], sink)
}
