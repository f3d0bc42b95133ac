//! Bets whose pay table has one line of which the payment grows: which hold of which deal is best from which payment on,
//! and what the game returns at every whole payment.
#![tactic(auto)]

mod hand_numbers;
mod hold_lines;
mod job;
mod laws;
mod meter_laws;
mod metered_bet;
mod piece;
mod pieces;
mod report;
mod segment;
mod tallies;

pub use job::MeterJob;
pub use laws::{meters_tell_every_deal, pieces_sum_all_deals, values_are_straight_lines};
pub use meter_laws::{meter_inputs_are_read, meters_are_told};
pub use metered_bet::Metered;
pub use report::meter;
pub use segment::{Segment, segments};
