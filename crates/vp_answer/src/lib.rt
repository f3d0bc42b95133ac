//! How the program answers, whatever the command: statuses, where an input is stopped at, and how an answer ends over
//! a source and a sink.
#![tactic(auto)]

mod blocks;
mod ending;
mod endings;
mod laws;
mod rule;
mod status;
mod stop;
mod work;

pub use blocks::close;
pub use ending::Ending;
pub use endings::{is_alone, words_of_read, write_lent, write_read};
pub use laws::{answers_say_something, served_without_fault};
pub use rule::Rule;
pub use status::Status;
pub use stop::Stop;
pub use work::{HeapWork, Job, Work};
