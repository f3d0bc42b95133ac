//! `deal`: the best hold of one deal.
#![tactic(auto)]

mod job;
mod laws;

pub use job::DealJob;
pub use laws::{deal_inputs_are_read, deals_print_best_holds};
