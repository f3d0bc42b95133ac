//! How often each pay line comes under the printed holds.
#![tactic(auto)]

mod counts;
mod job;
mod laws;
mod line_hits;
mod line_numbers;
mod pair_hits;
mod printed_holds;
mod totals;

pub use counts::{LineCounts, line_counts};
pub use job::HitsJob;
pub use laws::{
    hits_inputs_are_read, hits_print_chances, lines_make_the_return, lines_share_out_draws,
    printed_holds_hit_alike,
};
pub use line_hits::Hits;
pub use totals::total_hits;
