//! The certificate of a pay table: every class of deals with its best hold, and the sum over all deals.
#![tactic(auto)]

mod asked;
mod certificate;
mod classes;
mod holds;
mod job;
mod laws;
mod lines;

pub use asked::Asked;
pub use certificate::certify;
pub use holds::Holds;
pub use job::CertifyJob;
pub use laws::{certificates_are_checked, certificates_tell_every_deal, certify_inputs_are_read};
