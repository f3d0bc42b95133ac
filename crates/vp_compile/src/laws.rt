//! Laws of matrices and orders, each the contract of a function that does nothing.

ghost use Rattle.vp_compile.specs.Laws.{CellsStandByClass, FirstAreExchanged, OrdersSettle, SettledStay, FewestAreExcepted};

/// A law, for proofs: where the cell of a class and a rule stands.
pub fn cells_stand_by_class()
    ensures { CellsStandByClass }
{}

/// A law, for proofs: the settled order, one exchange after another, and that they end with it.
pub fn orders_settle()
    ensures stay { SettledStay }
    ensures exchanged { FirstAreExchanged }
    ensures ended { OrdersSettle }
{}

/// A law, for proofs: the excepted places are the fewest classes without which an order loses at most a limit, and no other
/// places are.
pub fn fewest_are_excepted()
    ensures { FewestAreExcepted }
{}
