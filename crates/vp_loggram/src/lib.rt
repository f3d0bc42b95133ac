//! Logs of games: their grammar, their games read one by one from the text, and how a game is written.
#![tactic(auto)]

mod event;
mod events;
mod laws;
mod log;
mod words;
mod writing;

pub use event::Event;
pub use events::Events;
pub use laws::{log_spellings_differ, written_logs_are_read};
pub use log::{Log, next_game};
pub use writing::{append_end, append_start};
