// Laws of the answers, from the words and the bytes on. What each says of its command is the law of the command's crate.
ghost use Rattle.vp_run.specs.Answer.{AnswersAreOfTasks, UsageIsForNoCommand};
ghost use Rattle.vp_run.specs.CommandLaws.{AuditsPrintLosses, CertificatesAreChecked, CertificatesTellEveryDeal, ChecksTellEveryDeal, ChecksTellWalkedDeals, CompiledListsAreAudited, CompiledListsLoseLittle, CrossesPricePlay, DealsPrintBestHolds, HitsPrintChances, HoldsTellEveryHold, MetersAreTold, MultisPrintMoments, PartsTellEveryDeal, PartsTellWalkedDeals, PlaysAreReplayed, ReplaysTellCosts, SessionsAreInTheAnswer, SessionsAreReplayed};

/// The line on usage is the answer to words that are no command, whatever the input, and to no others.
#[tactic(auto, using(crate::proofs::NoCommand::usage_is))]
pub fn usage_is_for_no_command()
    ensures { UsageIsForNoCommand }
{}

/// The answer to the words of a task is that of what the task leaves to do, or of where its input is stopped at.
#[tactic(auto, using(crate::proofs::NoCommand::of_tasks))]
pub fn answers_are_of_tasks()
    ensures { AnswersAreOfTasks }
{}

/// The answer of `deal` to each pay table and deal that it takes are four lines that print a best hold
/// (`deals_print_best_holds` of `vp_deal`).
pub fn deals_print_best_holds()
    ensures { DealsPrintBestHolds }
{}

/// The answer of `holds` to each pay table and deal that it takes is the deal line and a line for each of the 32 holds
/// (`holds_tell_every_hold` of `vp_holds`).
pub fn holds_tell_every_hold()
    ensures { HoldsTellEveryHold }
{}

/// The answer of `certify` to each pay table that it takes is a certificate that tells every deal. So does every
/// certificate that `check` finds no fault with, all class lines being walked.
pub fn certificates_tell_every_deal()
    ensures certify { CertificatesTellEveryDeal }
    ensures check { ChecksTellEveryDeal }
    // Where some class lines are walked, the holds that are printed on these lines are told so.
    ensures walked { ChecksTellWalkedDeals }
{}

/// Many calls of `check` on one certificate, each of which walks some of its class lines, tell what one call tells that
/// walks them all: where each is a yes, and each class line of a range is walked by some of them, they tell the deals of
/// these lines; where each class line is, they tell every deal.
pub fn checks_in_parts_tell_every_deal()
    ensures range { PartsTellWalkedDeals }
    ensures all { PartsTellEveryDeal }
{}

/// What `certify` prints is an input of `check`, short enough to be read, with which it finds no fault, whatever class
/// lines are walked.
pub fn certificates_are_checked()
    ensures { CertificatesAreChecked }
{}

/// The answer of `audit` to each pay table and list that it takes prints the loss of the list (`audits_print_losses` of
/// `vp_audit`).
pub fn audits_print_losses()
    ensures { AuditsPrintLosses }
{}

/// The answer of `compile` to each pay table and pool that it takes is a list with the numbers that are said of it
/// (`compiled_lists_lose_little` of `vp_audit`).
pub fn compiled_lists_lose_little()
    ensures { CompiledListsLoseLittle }
{}

/// What `compile` prints, behind its pay table, is an input of `audit`, short enough to be read, that says the table and
/// the list that is printed: the loss that `audit` answers is the one that is printed.
pub fn compiled_lists_are_audited()
    ensures { CompiledListsAreAudited }
{}

/// The answer of `cross` to each two pay tables that it takes prints what the best play of the first is worth on the second
/// (`crosses_price_play` of `vp_cross`).
pub fn crosses_price_play()
    ensures { CrossesPricePlay }
{}

/// The answer of `multi` to each pay table that it takes prints the moments of the total payment of several hands from one
/// deal (`multis_print_moments` of `vp_multi`).
pub fn multis_print_moments()
    ensures { MultisPrintMoments }
{}

/// The answer of `hits` to each pay table that it takes prints the chances of the pay lines under the printed holds
/// (`hits_print_chances` of `vp_hits`).
pub fn hits_print_chances()
    ensures { HitsPrintChances }
{}

/// The answer of `meter` to each pay table that it takes tells every deal at every whole payment of its range
/// (`meters_are_told` of `vp_meter`).
pub fn meters_are_told()
    ensures { MetersAreTold }
{}

/// The answer of `replay` to each pay table and log that it takes: what the holds cost, or the first game that breaks a law
/// (`replays_tell_costs` of `vp_replay`).
#[tactic(auto, using(crate::proofs::CommandLaws::replays))]
pub fn replays_tell_costs()
    ensures { ReplaysTellCosts }
{}

/// The answer of `play` to each pay table that it takes prints the numbers of a log that breaks no law: what is written of
/// the pay table and that log is an input of `replay`, whose answer is the lines of the costs, and behind them the same six
/// lines.
pub fn plays_are_replayed()
    ensures { PlaysAreReplayed }
{}

/// The answer of `sessions` to each pay table and CSV text that it takes is the lines of each session, which are what
/// `replay` answers to the pay table and its log alone, or names the first record that breaks its rule
/// (`sessions_are_replayed` of `vp_sessions`).
#[tactic(auto, using(crate::proofs::CommandLaws::sessions))]
pub fn sessions_are_replayed()
    ensures { SessionsAreReplayed }
{}

/// Each session has its lines in the answer of `sessions`; that these depend on the pay table and on its own records alone
/// is `sessions_do_not_mix` of `vp_sessions`.
#[tactic(auto, using(crate::proofs::CommandLaws::sessions_in))]
pub fn sessions_are_in_the_answer()
    ensures { SessionsAreInTheAnswer }
{}
