//! The numbers of a log, and their lines.

ghost use Rattle.vp_card.specs.Cards.{IsDeck};
ghost use Rattle.vp_io.specs.Puts.{Puts};
ghost use Rattle.vp_text.specs.Written.{written};
ghost use Rattle.vp_replay.specs.Summaries.{summary_lines};

use vp_io::{Sink, WriteFault};
use vp_lines::{Word, put_lines};
use vp_sets::common;

/// The numbers of a log.
#[derive(Clone, Copy, Debug, PartialEq, Eq)]
pub struct Summary {
    /// How many games it has.
    pub games: u32,
    /// What was bet in all.
    pub bet: u64,
    /// What was paid in all.
    pub paid: u64,
    /// The credits at its end.
    pub credits: u64,
    /// How many holds cost something.
    pub slips: u32,
    /// What the holds cost in all, over the common denominator of the deck.
    pub loss: u128,
}

/// Puts the six lines of a summary of a log with cards of a deck of so many, over whose common denominator the loss
/// stands.
pub fn put_summary<K: Sink>(summary: &Summary, deck: u8, sink: &mut K) -> Result<(), WriteFault>
    requires { IsDeck deck }
    // All six lines are put; or a proper beginning of them, and a fault is counted.
    ensures { Puts (K.told sink.old) (K.told sink.new) result (written (summary_lines deck summary.now)) }
{
    let games = [Word::Text(b"games"), Word::Number(summary.games as u128)];
    let bet = [Word::Text(b"bet"), Word::Number(summary.bet as u128)];
    let paid = [Word::Text(b"paid"), Word::Number(summary.paid as u128)];
    let credits = [
        Word::Text(b"credits"),
        Word::Number(summary.credits as u128),
    ];
    let slips = [Word::Text(b"slips"), Word::Number(summary.slips as u128)];
    let loss = [
        Word::Text(b"loss"),
        Word::Fraction(summary.loss, common(deck) as u128),
    ];
    put_lines(&[&games, &bet, &paid, &credits, &slips, &loss], sink)
}
