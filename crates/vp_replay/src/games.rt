//! The games of all bets of a pay table.

ghost use Rattle.std.specs.Prelude.{◌≡◌, ◌+◌, ◌*◌, ◌<◌, ◌≤◌, length};
ghost use Rattle.vp_pay.specs.Table.{IsTable};
ghost use Rattle.vp_sets.specs.Sets.{choose};
ghost use Rattle.vp_count.specs.Table.{first_word};

use arrayvec::ArrayVec;
use std::marker::{Brand, Model};
use std::mem;
use std::sync::ledger::{Blank, Ledger};
use vp_count::table_words;
use vp_hold::Game;
use vp_pay::PayTable;
use vp_wild::Steps;

/// The game of each bet that a pay table has, with its sums. It is seen as the pay table.
#[derive(Drop)]
pub struct Games<'a> {
    table: &'a PayTable,
    games: ArrayVec<Option<Game<'a>>, 5>,
}

impl<'a> Model for Games<'a> {
    ghost use Rattle.vp_pay.specs.declared.table.PayTable.{PayTable};
    ghost use Rattle.vp_replay.specs.Columns.{AreGames};

    ghost Value = { PayTable };

    ghost view = { λ g. g.table.now };

    ghost invariant = { λ g. AreGames g.table.now g.games.items };
}

impl<'a> Games<'a> {
    /// Makes the sums of each bet in the words, which may hold any numbers: those of a table of sums for each bet, one
    /// behind the other. One step of the counter for each hand of the deck and each bet.
    #[tactic(auto, using(crate::proofs::ColumnLaws::column_fits, crate::proofs::ColumnLaws::one_more, crate::proofs::ColumnLaws::no_column, crate::proofs::ColumnLaws::next_column))]
    pub fn fill<L: Ledger>(
        table: &'a PayTable,
        words: &'a mut [u64],
        steps: &mut Steps<L>,
    ) -> Games<'a>
        requires table { IsTable table.now }
        requires long { length words.old ≡ table.now.coins * first_word table.now.deck 6 }
        ensures table { result ≡ table.now }
        ensures steps { steps.new ≡ steps.old + table.now.coins * choose table.now.deck 5 }
    {
        let size = table_words(table.deck);
        let mut games = ArrayVec::new();
        let mut rest = words;
        for column in 0..table.coins {
            let (front, back) = mem::take(&mut rest).split_at_mut(size);
            games.push(Some(Game::fill(table, column + 1, front, steps)));
            rest = back;
        }
        Games { table, games }
    }

    /// The games of all bets. The sums are made in the words, which may hold any numbers; the hands are not counted.
    pub fn of(table: &'a PayTable, words: &'a mut [u64]) -> Games<'a>
        requires table { IsTable table.now }
        requires long { length words.old ≡ table.now.coins * first_word table.now.deck 6 }
        ensures table { result ≡ table.now }
    {
        games_of::<Brand>(table, words, Blank::new(1))
    }

    /// The pay table.
    pub fn table(&self) -> &PayTable
        ensures table { result.now ≡ self.now }
        ensures rules { IsTable self.now }
    {
        self.table
    }

    /// The game of a bet that the table has.
    #[tactic(auto, using(crate::proofs::ColumnLaws::column_is, crate::proofs::ColumnLaws::column_inside))]
    pub fn game(&self, bet: u64) -> &Game<'a>
        requires from { 1 ≤ bet }
        requires to { bet ≤ self.now.coins }
        ensures table { result.now.table ≡ self.now }
        ensures coin { result.now.coin ≡ bet }
        ensures rules { IsTable self.now }
    {
        self.games[(bet - 1) as usize].as_ref().unwrap()
    }
}

/// The games of all bets; the blank is for a counter that nobody reads.
fn games_of<'a, L: Ledger>(table: &'a PayTable, words: &'a mut [u64], blank: Blank) -> Games<'a>
    requires table { IsTable table.now }
    requires long { length words.old ≡ table.now.coins * first_word table.now.deck 6 }
    requires name { blank.name ≡ L.name }
    requires parts { blank.parts ≡ L.parts }
    requires share { 0 < blank.parts }
    ensures table { result ≡ table.now }
{
    Games::fill(table, words, &mut Steps::<L>::new(blank))
}
