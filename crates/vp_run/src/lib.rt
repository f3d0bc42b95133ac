//! The whole of the program as one call over a source and a sink: what a command's crate holds is joined here to the words
//! of the command line.
#![tactic(auto)]

mod arguments;
mod job;
mod laws;
mod lent;
mod serve;
mod tables;
mod top;

pub use arguments::run;
pub use laws::{
    answers_are_of_tasks, audits_print_losses, certificates_are_checked,
    certificates_tell_every_deal, checks_in_parts_tell_every_deal, compiled_lists_are_audited,
    compiled_lists_lose_little, crosses_price_play, deals_print_best_holds, hits_print_chances,
    holds_tell_every_hold, meters_are_told, multis_print_moments, plays_are_replayed,
    replays_tell_costs, sessions_are_in_the_answer, sessions_are_replayed, usage_is_for_no_command,
};
pub use lent::{vpoker_lent, words_to_lend};
pub use serve::{in_region, region_words, served};
pub use top::{vpoker, vpoker_in_blocks};
pub use vp_answer::Status;
