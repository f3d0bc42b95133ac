//! `compile`: a strategy list out of a pool of rules.

ghost use Rattle.std.specs.Prelude.{◌≡◌, ◌*◌, ◌<◌, IfOk, length};

use crate::{fill_matrix, put_list};
use std::alloc::{AllocError, Global};
use std::marker::{Brand, Model};
use std::sync::ledger::{Blank, Ledger};
use vp_answer::{HeapWork, Status, Stop};
use vp_compile::{Compiled, compile};
use vp_count::table_words;
use vp_draws::return_denominator;
use vp_hold::Game;
use vp_io::{Sink, WriteFault};
use vp_lines::{Word, put_lines};
use vp_pay::{HasBet, PayTable, read_input};
use vp_region::Carver;
use vp_rule::Pool;
use vp_suit::class_count;
use vp_wild::Steps;

/// A bet on a pay table, a pool for it, and how much of the return's denominator the list that is made may lose.
#[derive(Drop)]
pub struct CompileJob {
    table: PayTable,
    coin: u8,
    millionths: u32,
    pool: Pool,
    /// How many classes of deals there are, counted once.
    classes: u32,
}

impl Model for CompileJob {
    ghost use Rattle.vp_audit.specs.Compile.{IsCounted, Pooled};

    ghost Value = { Pooled };

    ghost view = { λ j. record { table = j.table; coin = j.coin; millionths = j.millionths; pool = j.pool } };

    ghost invariant = { λ j. IsCounted (record { table = j.table; coin = j.coin; millionths = j.millionths; pool = j.pool }) j.classes };
}

impl CompileJob {
    ghost use Rattle.std.specs.Prelude.{◌≡◌, ◌*◌, ◌≤◌, IfOk, length};
    ghost use Rattle.vp_io.specs.Puts.{Puts};
    ghost use Rattle.vp_text.specs.Written.{written};
    ghost use Rattle.vp_audit.specs.Compile.{IsCompiled, class_number, compile_job, compile_lines, limit, said_lines};

    /// What the bytes leave to do for a bet and for what may be lost: a pay table that has the bet, and a pool for it.
    pub fn read(coin: u8, millionths: u32, bytes: &[u8]) -> Result<CompileJob, Stop>
        requires some { 1 ≤ coin }
        requires most { millionths ≤ 1000000 }
        requires limit { length bytes.now ≤ 67108864 }
        ensures { result ≡ compile_job coin millionths bytes.now }
    {
        let (table, pool) = read_input::<Pool, HasBet>(bytes, &HasBet { coin })?;
        let classes = class_count(table.deck);
        Ok(CompileJob {
            table,
            coin,
            millionths,
            pool,
            classes,
        })
    }

    /// What is made of the pool; the blank is for a counter that nobody reads.
    fn compiled<L: Ledger>(
        &self,
        alloc: Global,
        game: &Game,
        heads: &mut [u64],
        cells: &mut [u64],
        owner: &mut [u64],
        blank: Blank,
    ) -> Result<Compiled, AllocError>
        requires table { game.now.table ≡ self.now.table }
        requires coin { game.now.coin ≡ self.now.coin }
        requires heads { length heads.old ≡ 3 * class_number self.now }
        requires cells { length cells.old ≡ class_number self.now * length self.now.pool.rules }
        requires owner { length owner.old ≡ class_number self.now }
        requires name { blank.name ≡ L.name }
        requires parts { blank.parts ≡ L.parts }
        requires share { 0 < blank.parts }
        ensures { IfOk result (IsCompiled self.now) }
    {
        let matrix = fill_matrix(game, &self.pool, heads, cells, &mut Steps::<L>::new(blank));
        compile(alloc, &matrix, owner, self.limit())
    }

    /// The greatest loss that is let be.
    fn limit(&self) -> u128
        ensures { result ≡ limit self.now }
    {
        let under = return_denominator(self.table.deck, self.coin);
        u128::from(self.millionths) * u128::from(under) / 1_000_000
    }

    /// Puts what was made of the pool.
    fn put_compiled<K: Sink>(
        &self,
        game: &Game,
        compiled: &Compiled,
        sink: &mut K,
    ) -> Result<(), WriteFault>
        requires table { game.now.table ≡ self.now.table }
        requires coin { game.now.coin ≡ self.now.coin }
        requires compiled { IsCompiled self.now compiled.now }
        ensures { Puts (K.told sink.old) (K.told sink.new) result (written (compile_lines self.now)) }
    {
        self.put_said(compiled, sink)?;
        put_list(game, &self.pool, &compiled.order, &compiled.places, sink)
    }

    /// Puts the numbers that are said of the list, as comments.
    #[tactic(auto, unfolding(crate::specs::Compile::said_lines))]
    fn put_said<K: Sink>(&self, compiled: &Compiled, sink: &mut K) -> Result<(), WriteFault>
        requires { IsCompiled self.now compiled.now }
        ensures { Puts (K.told sink.old) (K.told sink.new) result (written (said_lines self.now)) }
    {
        let under = u128::from(return_denominator(self.table.deck, self.coin));
        let optimum = [
            Word::Text(b"#"),
            Word::Text(b"optimum"),
            Word::Fraction(compiled.optimum, under),
        ];
        let start = [
            Word::Text(b"#"),
            Word::Text(b"start"),
            Word::Fraction(compiled.start, under),
        ];
        let settled = [
            Word::Text(b"#"),
            Word::Text(b"settled"),
            Word::Fraction(compiled.settled, under),
        ];
        let loss = [
            Word::Text(b"#"),
            Word::Text(b"loss"),
            Word::Fraction(compiled.loss, under),
        ];
        put_lines(&[&optimum, &start, &settled, &loss], sink)
    }
}

impl HeapWork for CompileJob {
    ghost use Rattle.vp_audit.specs.Compile.{compile_due, compile_some};

    ghost due = { compile_due };

    ghost some_text = { compile_some };

    /// A table of sums, four words for each class of deals, and one for each class and rule.
    fn words(&self) -> usize {
        let classes = self.classes as usize;
        table_words(self.table.deck) + 4 * classes + classes * self.pool.rules().len()
    }

    /// The list is made before anything is put: where there is no memory for the places of its exceptions, nothing is.
    fn write<K: Sink>(&self, alloc: Global, memory: &mut [u64], sink: &mut K) -> Status {
        let classes = self.classes as usize;
        let mut carver = Carver::over(memory);
        let words = carver.take_as_it_is(table_words(self.table.deck)).unwrap();
        let heads = carver.take_as_it_is(3 * classes).unwrap();
        let owner = carver.take_as_it_is(classes).unwrap();
        let cells = carver
            .take_as_it_is(classes * self.pool.rules().len())
            .unwrap();
        let game = Game::of(&self.table, self.coin, words);
        let Ok(compiled) = self.compiled::<Brand>(alloc, &game, heads, cells, owner, Blank::new(1))
        else {
            return Status::NoMemory;
        };
        match self.put_compiled(&game, &compiled, sink) {
            Ok(()) => Status::Done,
            Err(WriteFault) => Status::WriteFault,
        }
    }
}
