//! What a strategy list loses against the best holds, over all deals.
#![tactic(auto)]

mod audit_job;
mod audited;
mod choices;
mod compile_job;
mod filling;
mod laws;
mod priced;
mod sums;
mod walk;
mod writing;

pub use audit_job::AuditJob;
pub use audited::{Audited, Tally};
pub use compile_job::CompileJob;
pub use filling::fill_matrix;
pub use laws::{
    audit_inputs_are_read, audits_print_losses, best_holds_lose_least, compile_inputs_are_read,
    compiled_lists_are_audited, compiled_lists_are_lists, compiled_lists_lose_little,
    lists_are_charged_the_least_value, losses_are_shared_out, orders_lose_as_lists,
    rules_are_priced_by_classes,
};
pub use walk::audit;
pub use writing::put_list;
