//! Turns of the suits, and the classes of deals that they make.
#![tactic(auto)]

mod card_heaps;
mod class;
mod classes;
mod deal;
mod heaps;
mod laws;
mod least;
mod suit_turn;
mod turned;
mod walk;

pub use class::Class;
pub use classes::{Classes, class_count};
pub use laws::{carry_laws, list_sums_by_classes, representative_laws, sum_by_classes, turn_laws};
pub use least::{is_representative, least_image, weight};
pub use suit_turn::SuitTurn;
pub use turned::{carry, turn};
