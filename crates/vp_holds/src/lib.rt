//! `holds`: all 32 holds of one deal by falling value, each with how many of its draws end on each pay line.
#![tactic(auto)]

mod job;
mod laws;
mod ranking;
mod values;

pub use job::HoldsJob;
pub use laws::{holds_inputs_are_read, holds_tell_every_hold};
