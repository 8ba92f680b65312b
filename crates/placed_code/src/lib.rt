//! What code that is laid out does on plain words: its pieces, where they lie in the code of a module.
#![tactic(auto)]

mod laws;

pub use laws::{
    behaviours_close, behaviours_compose, items_are_fetched, labels_keep_their_numbers,
    modules_finish, numbers_cover, pieces_go, pieces_lie, points_are_come_to, points_come_to_be,
    receives_come_to_be, rows_are_found, runs_begin, sends_come_to_be, stops_come_to_be,
    straight_pieces_follow, tables_are_loaded, walks_begin, words_are_said,
};
