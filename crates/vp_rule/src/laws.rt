//! Laws of rules, each the contract of a function that does nothing.

ghost use Rattle.vp_rule.specs.Laws.{RulesAreKeptByTurns};

/// A rule matches a hold of a deal exactly where it matches the hold that is carried along to a turned deal.
pub fn rules_are_kept_by_turns()
    ensures { RulesAreKeptByTurns }
{}
