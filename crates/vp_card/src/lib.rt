//! Cards, hands of five cards and sets of ranks, with their texts.
#![tactic(auto)]

mod card;
mod hand;
mod rank_set;
mod ranks;

pub use card::{Card, card_texts_differ, in_deck, is_deck};
pub use hand::{Hand, final_hand, rising_hand};
pub use rank_set::{RankSet, rank_set_texts_differ};
pub use ranks::{rank_letter, rank_of};
