//! Ranking of hands with wild cards: the first pay line that a hand hits, and its payment.
#![tactic(auto)]

mod kept;
mod kept_lines;
mod laws;
mod patterns;
mod places;
mod rank_ways;
mod ranker;
mod steps;

pub use kept::{KeptPayments, paid};
pub use kept_lines::KeptLines;
pub use laws::{
    alike_hands_are_paid_alike, counts_tell_matches, faces_are_tried, hands_are_paid_by_their_line,
    order_plays_no_part, suits_can_be_exchanged, turned_hands_are_paid_alike,
};
pub use ranker::{line_of, pay};
pub use steps::Steps;
