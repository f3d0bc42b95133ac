//! Laws of made logs.

ghost use Rattle.std.specs.Prelude.{ℕ, ◌≤◌};
ghost use Rattle.vp_pay.specs.Bets.{IsBet};
ghost use Rattle.vp_pay.specs.declared.table.PayTable.{PayTable};
ghost use Rattle.vp_gen.specs.Generator.{generated};
ghost use Rattle.vp_gen.specs.Play.{PlayInputsAreRead};
ghost use Rattle.vp_gen.specs.PlayTells.{PlaysAreReplayed};
ghost use Rattle.vp_gen.specs.Promises.{IsAccepted};

/// Every log of at most 100000 games that is made from a seed, for a bet on a pay table, is accepted.
pub fn made_logs_are_accepted()
    ensures { (table : PayTable) (coin seed games : ℕ) → IsBet table coin → games ≤ 100000
        → IsAccepted table coin games (generated table coin seed games) }
{}

/// What `play` takes for its input is what the lines of the input spell: a valid pay table that has the bet, and nothing
/// else. Every other input is refused, exactly at its refused line.
#[tactic(auto, using(crate::proofs::PlayTells::inputs_read))]
pub fn play_inputs_are_read()
    ensures { PlayInputsAreRead }
{}

/// The answer of `play` to each pay table that it takes prints the numbers of a log that is in the grammar of logs and
/// breaks no law: what is written of the pay table and that log is an input of `replay`, whose answer is the lines of the
/// costs, and behind them the same six lines.
pub fn plays_are_replayed()
    ensures { PlaysAreReplayed }
{}
