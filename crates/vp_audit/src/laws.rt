//! Laws of lists and their values, each the contract of a function that does nothing.

ghost use Rattle.vp_audit.specs.Audit.{AuditInputsAreRead};
ghost use Rattle.vp_audit.specs.AuditTells.{AuditsPrintLosses};
ghost use Rattle.vp_audit.specs.Compile.{CompileInputsAreRead};
ghost use Rattle.vp_audit.specs.CompileTells.{CompiledListsAreAudited, CompiledListsLoseLittle};
ghost use Rattle.vp_audit.specs.Masked.{BestHoldsLoseLeast};
ghost use Rattle.vp_audit.specs.Laws.{AllowedByClasses, CompiledAreLists, DealsAreSharedOut, DecidedByClasses, ExceptedLoseAsLists, ExceptionsChargeTheirHold, GreatestByClasses, LeastAndLossAreTheBest, LeastByClasses, LeastIsAtMostTheBest, LossIsSharedOut, NothingChargesHoldingNothing, OrdersLoseAsLists, RowsAreWorthTheBest, RulesAllowTheGreatest, RulesChargeTheLeast};

/// The values of the holds that a rule matches are the same for all deals of a class, which are what the turns of the
/// suits make of each other; and so is what decides a deal, and what a list is charged for it.
pub fn rules_are_priced_by_classes()
    ensures values { AllowedByClasses }
    ensures decided { DecidedByClasses }
    ensures least { LeastByClasses }
    ensures greatest { GreatestByClasses }
{}

/// What a list is charged for a deal, in each of the three ways in which it is decided. Where an exception is one of the
/// deal's class, it is the value of the exception's hold for the representative of the class. Else, where a rule is the
/// first that matches some hold, it is the least value among the holds that this rule matches. Else it is the value of
/// holding nothing. The greatest value of the deal is told so, too.
pub fn lists_are_charged_the_least_value()
    ensures exceptions { ExceptionsChargeTheirHold }
    ensures rules { RulesChargeTheLeast }
    ensures greatest { RulesAllowTheGreatest }
    ensures nothing { NothingChargesHoldingNothing }
{}

/// The loss of a list is what the least values of all deals fall short of their best values; no deal's least value exceeds
/// its best one. The tallies share it out: the deals of the exceptions, of the rules and of no rule sum to the number of
/// all deals, and what the list loses on them sums to the loss.
pub fn losses_are_shared_out()
    ensures below { LeastIsAtMostTheBest }
    ensures worth { LeastAndLossAreTheBest }
    ensures deals { DealsAreSharedOut }
    ensures losses { LossIsSharedOut }
{}

/// What an order of a pool's rules loses in the pool's matrix is what the list of the rules in this order loses over all
/// deals; and where the best holds of some classes are given, it is what that list loses with exceptions for them.
pub fn orders_lose_as_lists()
    ensures optimum { RowsAreWorthTheBest }
    ensures loss { OrdersLoseAsLists }
    ensures left { ExceptedLoseAsLists }
{}

/// The list of a pool's rules in an order, with exceptions for the classes at rising places, keeps the rules and limits
/// of the list language.
pub fn compiled_lists_are_lists()
    ensures { CompiledAreLists }
{}

/// A list with exceptions for the classes at some places loses at least what it loses where these give the best holds.
pub fn best_holds_lose_least()
    ensures { BestHoldsLoseLeast }
{}

/// What `audit` takes for its input is what the lines of the input spell: a valid pay table that has the bet, then a
/// strategy list for it, and nothing else. Every other input is refused, exactly at its refused line.
#[tactic(auto, using(crate::proofs::AuditTells::inputs_read))]
pub fn audit_inputs_are_read()
    ensures { AuditInputsAreRead }
{}

/// The text of `audit` to each pay table and list that it takes prints the loss of the list: the optimum, which is the
/// sum over all deals of the best values, less the sum over all deals of the least value that the list allows, which never
/// exceeds the best one: that of the exception's hold, where an exception is one of the deal's class; else the least among
/// the holds that the first matching rule matches; else that of holding nothing. The lines of the exceptions, of the rules
/// and of no rule share out all deals and the loss.
#[tactic(auto, using(crate::proofs::AuditTells::losses_printed))]
pub fn audits_print_losses()
    ensures { AuditsPrintLosses }
{}

/// What `compile` takes for its input is what the lines of the input spell: a valid pay table that has the bet, then a pool
/// of rules for it, and nothing else. Every other input is refused, exactly at its refused line.
#[tactic(auto, using(crate::proofs::CompileTells::inputs_read))]
pub fn compile_inputs_are_read()
    ensures { CompileInputsAreRead }
{}

/// The text of `compile` to each pay table and pool that it takes is a list with the numbers that are said of it. The
/// last of them is what the list loses, and it is at most the target; the rules stand in an order in which no exchange of
/// two neighbours lowers what the list of the rules loses; and with exceptions for fewer classes, whatever holds they give,
/// the list of the rules in this order loses more than the target.
#[tactic(auto, using(crate::proofs::CompileTells::lists_lose_little))]
pub fn compiled_lists_lose_little()
    ensures { CompiledListsLoseLittle }
{}

/// What `compile` prints, behind its pay table, is an input of `audit`, short enough to be read, that says the table and
/// the list that is printed: the loss that `audit` answers is the one that is printed.
pub fn compiled_lists_are_audited()
    ensures { CompiledListsAreAudited }
{}
