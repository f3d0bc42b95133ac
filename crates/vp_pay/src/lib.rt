//! Pay tables and the language that they are written in.
#![tactic(auto)]

mod built_in;
mod deal;
mod laws;
mod name;
mod pattern;
mod pay_line;
mod reading;
pub mod samples;
mod section;
mod table;
mod words;
mod writing;

pub use deal::{deal_spellings_differ, five_cards, next_card, read_deal, written_deals_are_read};
pub use laws::{hands_are_read, tables_are_read};
pub use name::Name;
pub use pattern::{Pattern, Qualifier};
pub use reading::table_spellings_differ;
pub use section::{Asked, HasBet, Section, read_input};
pub use table::{PayLine, PayTable};
pub use writing::written_tables_are_read;
