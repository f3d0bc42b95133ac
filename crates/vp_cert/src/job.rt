//! `certify`: the certificate of a pay table.

use crate::{Asked, certify};
use std::marker::Model;
use vp_answer::{Stop, Work};
use vp_count::table_words;
use vp_hold::Game;
use vp_io::{Sink, WriteFault};
use vp_pay::{HasBet, PayTable, read_input};
use vp_region::Carver;

/// A bet on a pay table.
#[derive(Drop)]
pub struct CertifyJob {
    table: PayTable,
    coin: u8,
}

impl Model for CertifyJob {
    ghost use Rattle.vp_pay.specs.Bets.{Bet, IsBet};

    ghost Value = { Bet };

    ghost view = { λ j. record { table = j.table; coin = j.coin } };

    ghost invariant = { λ j. IsBet j.table j.coin };
}

impl CertifyJob {
    ghost use Rattle.std.specs.Prelude.{◌≡◌, ◌≤◌, length};
    ghost use Rattle.vp_cert.specs.Certify.{certify_job};

    /// What the bytes leave to do for a bet: a pay table that has it.
    #[tactic(auto, unfolding(vp_pay::specs::Inputs::table_input, vp_pay::specs::Inputs::section_input))]
    pub fn read(coin: u8, bytes: &[u8]) -> Result<CertifyJob, Stop>
        requires some { 1 ≤ coin }
        requires limit { length bytes.now ≤ 67108864 }
        ensures { result ≡ certify_job coin bytes.now }
    {
        let (table, ()) = read_input::<(), HasBet>(bytes, &HasBet { coin })?;
        Ok(CertifyJob { table, coin })
    }
}

impl Work for CertifyJob {
    ghost use Rattle.vp_cert.specs.Certify.{certify_due, certify_some};

    ghost due = { certify_due };

    ghost some_text = { certify_some };

    /// A table of sums.
    fn words(&self) -> usize {
        table_words(self.table.deck)
    }

    fn put<K: Sink>(&self, memory: &mut [u64], sink: &mut K) -> Result<(), WriteFault> {
        let mut carver = Carver::over(memory);
        let words = carver.take_as_it_is(table_words(self.table.deck)).unwrap();
        let game = Game::of(&self.table, self.coin, words);
        match certify(&mut Asked::new(&game), sink) {
            Ok(_) => Ok(()),
            Err(WriteFault) => Err(WriteFault),
        }
    }
}
