//! `multi`: mean, second moment and variance of several hands from one deal.
#![tactic(auto)]

mod job;
mod laws;
mod several_hands;

pub use job::MultiJob;
pub use laws::{
    hands_are_drawn_to_printed_holds, moments_of_a_deal, multi_inputs_are_read,
    multis_print_moments, variance_has_two_parts,
};
pub use several_hands::{MomentSums, moments};
