//! The laws of the games of a log, the first that is broken, and what the holds of a lawful log cost.
#![tactic(auto)]

mod breaks;
mod costs;
mod games;
mod job;
mod laws;
mod reading;
mod replaying;
mod rule;
mod rules;
mod summary;

pub use breaks::lawful;
pub use costs::{cost, cost_at};
pub use games::Games;
pub use job::{ReplayJob, stop_of};
pub use laws::{
    costs_are_of_the_held_cards, lawful_logs_keep_the_laws, replay_inputs_are_read,
    replays_tell_costs,
};
pub use reading::read_log;
pub use replaying::{put_replay, replay, summary_at};
pub use rule::{Broken, LogRule};
pub use summary::{Summary, put_summary};
