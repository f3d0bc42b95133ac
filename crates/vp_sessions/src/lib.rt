//! `sessions`: what `replay` answers to each log in a CSV text of many.
#![tactic(auto)]

mod job;
mod laws;

pub use job::SessionsJob;
pub use laws::{sessions_are_replayed, sessions_do_not_mix, sessions_inputs_are_read};
