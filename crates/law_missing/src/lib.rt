//! What the definitions of potential validity say of small DTDs, words and documents, as theorems.
//!
//! The DTDs, the documents and the statements are in `specs/`. Each function here does nothing: its
//! contract is a row.
#![tactic(auto)]

mod rows;

pub use rows::{
    blank_in_empty_element_law, closed_table_law, comment_is_nothing_law, completed_letter_law,
    em_alone_law, head_behind_sec_law, letter_misses_p_law, many_missing_law,
    missing_inside_missing_law, missing_root_law, one_missing_law, part_numbers_law,
    possible_words_law, reference_to_blank_is_data_law, text_alone_law, text_behind_head_law,
    title_behind_p_law, unknown_name_law, unproductive_kid_of_any_law, unproductive_name_law,
    valid_at_any_depth_law,
};
