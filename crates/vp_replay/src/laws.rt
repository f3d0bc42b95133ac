//! Laws of logs, each the contract of a function that does nothing.

ghost use Rattle.std.specs.Prelude.{◌≡◌, ◌↔◌, None};
ghost use Rattle.vp_pay.specs.Table.{IsTable};
ghost use Rattle.vp_pay.specs.declared.table.PayTable.{PayTable};
ghost use Rattle.vp_loggram.specs.Logs.{IsEvent, LogValue};
ghost use Rattle.vp_loggram.specs.declared.event.Event.{Event};
ghost use Rattle.vp_replay.specs.Costs.{IsCost, cost_of};
ghost use Rattle.vp_replay.specs.LawfulGames.{AreLawfulGames, IsLawfulEvent};
ghost use Rattle.vp_replay.specs.Replay.{ReplayInputsAreRead};
ghost use Rattle.vp_replay.specs.ReplayTells.{ReplaysTellCosts};
ghost use Rattle.vp_replay.specs.Rules.{break_in};

/// What it says that no game of a log breaks a law: each bets 1 to the coins of the table, out of the credits before it;
/// its dealt cards differ, its held ones are some of these, and the drawn ones are as many others as it takes for five;
/// it is paid what the table pays; and the credits behind it are those before it, less the bet, plus the pay.
pub fn lawful_logs_keep_the_laws()
    ensures { (table : PayTable) (log : LogValue)
        → ((break_in table log ≡ None) ↔ AreLawfulGames table log.start log.events) }
{}

/// What a cost is: the best value of the deal is that of the held cards, and the cost; no hold of the deal is worth more;
/// and each value over the common denominator is the mean payment of its hold over all draws.
pub fn costs_are_of_the_held_cards()
    ensures { (table : PayTable) (e : Event) → IsTable table → IsEvent table.deck e → IsLawfulEvent table e
        → IsCost table e (cost_of table e) }
{}

/// What `replay` takes for its input is what the lines of the input spell: a valid pay table and a log with cards of its
/// deck, and nothing else. Every other input is refused, exactly at its refused line.
#[tactic(auto, using(crate::proofs::ReplayTells::inputs_read))]
pub fn replay_inputs_are_read()
    ensures { ReplayInputsAreRead }
{}

/// The answer of `replay` to each pay table and log that it takes. Where all games keep the laws of a game, each starting
/// from the credits of the one before it, it is the lines of what their holds cost and of the numbers of the log: each
/// cost is what the best of the 32 holds of the deal is worth more than the held cards, as a mean payment over the common
/// denominator. Else it names the first game that breaks a law, and the first law that this game breaks, with the number
/// that stands there and the number due.
#[tactic(auto, using(crate::proofs::ReplayTells::replays_tell))]
pub fn replays_tell_costs()
    ensures { ReplaysTellCosts }
{}
