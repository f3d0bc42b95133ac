//! Laws of metered bets, each the contract of a function that does nothing.

ghost use Rattle.vp_meter.specs.Laws.{LinesAreKept, MetersTellEveryDeal, PaymentsAreChanged, PiecesSumAllDeals, TablesAreKept, ValuesAreStraight};

/// What another payment in one line changes: the payment of the hands of this line. So the value of each hold is a straight
/// line in the payment.
pub fn values_are_straight_lines()
    ensures line { LinesAreKept }
    ensures table { TablesAreKept }
    ensures pay { PaymentsAreChanged }
    ensures value { ValuesAreStraight }
{}

/// At each whole payment of the range every deal has a hold that is played, one that some turn of the suits carries to the
/// mask in force of its class; no other of the 32 holds is worth more; and the last piece at or below that payment tells the
/// sum of the best values of all deals, of which the return is a fraction.
pub fn meters_tell_every_deal()
    ensures { MetersTellEveryDeal }
{}

/// The two sums of a piece, which are reckoned class by class, are sums over all deals: of the bases and of the slopes that
/// are in force where the piece begins.
pub fn pieces_sum_all_deals()
    ensures { PiecesSumAllDeals }
{}
