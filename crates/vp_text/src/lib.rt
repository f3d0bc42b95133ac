//! Lines and words of a text, numbers, the line that is written, and the theory of sections.
#![tactic(auto)]

mod cutting;
mod laws;
mod lines;
mod next_words;
mod numerals;
mod out;
mod refused;

pub use laws::{
    both_exact, closed_exact, comments_are_nothing, few_lines, fitting_exact, following_exact,
    items_are_read_again, key_words_are_taken, kinds_are_read_again, mapped_exact,
    numbers_are_short, numbers_are_spelled, numbers_are_taken, one_line_exact, rows_exact,
    spelling_unique, states_stand_for_items, up_to_end_exact, up_to_exact, values_are_read_in_turn,
    whole_exact, words_spaced, written_again, written_read, written_stands,
};
pub use lines::{Lines, Words};
pub use next_words::{key_word, keyed_number, next_number, next_number_within, plain_key_word};
pub use numerals::number;
pub use out::Out;
pub use refused::Refused;
