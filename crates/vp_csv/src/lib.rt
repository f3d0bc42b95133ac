//! Logs of many sessions in one CSV text, kept apart.
#![tactic(auto)]

mod cards;
mod kept;
mod laws;
mod reading;
mod records;
mod row;
mod sessions;
mod stop;

pub use laws::{
    first_breaks_are_refused, names_stand_in_order, records_are_spelled, sessions_are_apart,
};
pub use sessions::Sessions;
pub use stop::CsvStop;
