//! Sums over sets of five cards, and with them the sums over all draws of a hold.
#![tactic(auto)]

mod holds;
mod laws;
mod reads;
mod sum_table;
mod sums;
mod table;
mod totals;

pub use laws::{discards_are_excluded, hand_numbers_are_summed, levels_add_up};
pub use reads::Reads;
pub use sum_table::SumTable;
pub use sums::Sums;
pub use table::table_words;
pub use totals::{all_totals, held_total};
