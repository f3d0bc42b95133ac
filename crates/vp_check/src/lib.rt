//! Certificates of a pay table: what a true one says, how it is spelled and read, and an independent check.
#![tactic(auto)]

mod checker;
mod class_line;
mod class_lines;
mod class_words;
mod finding;
mod job;
mod laws;
mod listed;
mod numbered;
mod reading;
mod rules;
mod spellings;
mod walk;

pub use checker::check;
pub use class_line::ClassLine;
pub use finding::{CertRule, Checked, Finding};
pub use job::check_job;
pub use laws::{
    certificates_keep_rules, check_inputs_are_read, checks_in_parts_tell_every_deal, checks_join,
    checks_tell_deals, due_certificate_is_true, true_certificates, walked_lines_tell_their_deals,
};
pub use spellings::{
    certificate_spellings_differ, certificates_are_spelled, lines_have_numbers,
    written_certificates_are_read,
};
