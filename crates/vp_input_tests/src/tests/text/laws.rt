//! Each law at a type.

use vp_text::*;

#[test]
fn laws_at_a_type() {
    spelling_unique::<u8>();
    one_line_exact::<u8>();
    both_exact::<u8, u16>();
    rows_exact::<u8, u16>();
    closed_exact::<u8>();
    mapped_exact::<u8, u16>();
    whole_exact::<u8>();
    fitting_exact::<u8, u16>();
    following_exact::<u8, u16>();
    up_to_exact::<u8>();
    up_to_end_exact::<u8>();
    values_are_read_in_turn::<u8>();
    states_stand_for_items::<u8, u16, u32>();
    kinds_are_read_again::<u8, u16, u32>();
    items_are_read_again::<u8>();
    written_read();
    written_stands::<u8>();
    written_again::<u8>();
    comments_are_nothing();
    few_lines();
    key_words_are_taken();
    numbers_are_taken();
    numbers_are_spelled();
    numbers_are_short();
    words_spaced();
}
