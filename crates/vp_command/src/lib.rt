//! The commands, as the words of the command line spell them.
#![tactic(auto)]

mod command;
mod laws;

pub use command::{Command, Task, command_of};
pub use laws::commands_are_spelled;
