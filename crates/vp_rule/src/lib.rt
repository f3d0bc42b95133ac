//! The language of strategy lists: rules, the tests that they ask of a hold, lists with exceptions, and pools of rules.
#![tactic(auto)]

mod except_words;
mod exceptions;
mod held;
mod laws;
mod list;
mod matching;
mod pool;
mod reading;
mod rule;
mod rule_words;
mod section;
mod spellings;
mod test_words;
mod writing;

pub use exceptions::Exceptions;
pub use laws::rules_are_kept_by_turns;
pub use list::List;
pub use matching::{Holds, matches};
pub use pool::Pool;
pub use rule::{Rule, Test};
pub use spellings::{
    list_inputs_are_read, list_spellings_differ, pool_inputs_are_read, pool_spellings_differ,
    rules_are_of_version_2, written_lists_are_read, written_pools_are_read,
};
