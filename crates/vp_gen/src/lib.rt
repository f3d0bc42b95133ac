//! A large log of lawful games, made from one number.
#![tactic(auto)]

mod cards;
mod job;
mod laws;
mod logs;
mod making;
mod numbers;

pub use job::PlayJob;
pub use laws::{made_logs_are_accepted, play_inputs_are_read, plays_are_replayed};
pub use logs::make_log;
