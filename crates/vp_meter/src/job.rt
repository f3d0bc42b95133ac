//! `meter`: which holds are best from which payment of a line on.

use crate::{Metered, meter};
use std::marker::Model;
use vp_answer::{Stop, Work};
use vp_count::table_words;
use vp_io::{Sink, WriteFault};
use vp_pay::{Asked, Name, PayTable, read_input};
use vp_region::Carver;

/// A column for a bet of so many coins and a line of this name are asked for.
#[derive(Drop)]
struct HasLine<'a> {
    coin: u8,
    name: &'a Name,
}

impl<'a> Asked for HasLine<'a> {
    ghost use Rattle.vp_meter.specs.Meter.{has_line};

    ghost fits = { λ asked. has_line asked.coin asked.name.now };

    fn fits(&self, table: &PayTable) -> bool {
        self.coin <= table.coins && table.position(self.name.text()).is_some()
    }
}

/// A bet on a pay table, the line whose payment changes, and the least and the greatest payment.
#[derive(Drop)]
pub struct MeterJob {
    table: PayTable,
    coin: u8,
    line: u8,
    lo: u32,
    hi: u32,
}

impl Model for MeterJob {
    ghost use Rattle.vp_meter.specs.Meter.{IsRanged, Ranged};

    ghost Value = { Ranged };

    ghost view = { λ j. record {
      metering = record { table = j.table; coin = j.coin; place = j.line };
      lo = j.lo;
      hi = j.hi;
    } };

    ghost invariant = { λ j. IsRanged (record {
      metering = record { table = j.table; coin = j.coin; place = j.line };
      lo = j.lo;
      hi = j.hi;
    }) };
}

impl MeterJob {
    ghost use Rattle.std.specs.Prelude.{◌≡◌, ◌≤◌, length};
    ghost use Rattle.vp_meter.specs.Meter.{meter_job};

    /// What the bytes leave to do for a bet, a line's name and a range: a pay table that has the bet and the line.
    #[tactic(auto, unfolding(vp_pay::specs::Inputs::table_input, vp_pay::specs::Inputs::section_input))]
    pub fn read(coin: u8, name: &Name, lo: u32, hi: u32, bytes: &[u8]) -> Result<MeterJob, Stop>
        requires some { 1 ≤ coin }
        requires order { lo ≤ hi }
        requires most { hi ≤ 500000 }
        requires limit { length bytes.now ≤ 67108864 }
        ensures { result ≡ meter_job coin name.now lo hi bytes.now }
    {
        let (table, ()) = read_input::<(), HasLine>(bytes, &HasLine { coin, name })?;
        let line = table.position(name.text()).unwrap();
        Ok(MeterJob {
            table,
            coin,
            line,
            lo,
            hi,
        })
    }
}

impl Work for MeterJob {
    ghost use Rattle.vp_meter.specs.Meter.{meter_due, meter_some};

    ghost due = { meter_due };

    ghost some_text = { meter_some };

    /// Two tables of sums, and four words for each payment.
    fn words(&self) -> usize {
        2 * table_words(self.table.deck) + 4 * ((self.hi - self.lo) as usize + 1)
    }

    fn put<K: Sink>(&self, memory: &mut [u64], sink: &mut K) -> Result<(), WriteFault> {
        let size = table_words(self.table.deck);
        let mut carver = Carver::over(memory);
        let base = carver.take_as_it_is(size).unwrap();
        let hits = carver.take_as_it_is(size).unwrap();
        let payments = (self.hi - self.lo) as usize + 1;
        let counts = carver.take(4 * payments).unwrap();
        let metered = Metered::of(&self.table, self.coin, self.line, base, hits);
        meter(&metered, self.lo, self.hi, counts, sink)
    }
}
