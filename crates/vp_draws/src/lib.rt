//! What the holds of a hand are worth: every draw walked, and the best of the 32 holds.
#![tactic(auto)]

mod best;
mod by_line;
mod laws;
mod many;
mod returns;
mod walk;

pub use best::{Best, best_of_values, cards_drawn, plain_best, value_of};
pub use by_line::draws_by_line;
pub use laws::{
    best_hold_laws, best_holds_are_carried, printed_holds_are_best, values_are_kept_by_turns,
};
pub use many::{many_totals, many_values};
pub use returns::return_denominator;
pub use walk::plain_total;
