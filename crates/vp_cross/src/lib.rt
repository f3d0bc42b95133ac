//! `cross`: what one pay table's best play costs on another.
#![tactic(auto)]

mod crossed;
mod job;
mod laws;

pub use crossed::{Crossed, Worst, cross};
pub use job::CrossJob;
pub use laws::{
    costs_are_of_printed_holds, cross_inputs_are_read, crossed_values_never_exceed,
    crosses_price_play, own_play_costs_nothing, worst_classes_cost_most,
};
