//! 32-bit words as the T414 computes with them, and ranges of words that hold every result.
//!
//! A word is an `i32`, its signed value. Where an operation reads it as unsigned, it says so.
#![tactic(auto)]

mod binary;
mod bits;
mod checked;
mod compare;
mod laws;
mod long;
mod modular;
mod ranges;
mod unary;

pub use binary::Binary;
pub use bits::{and, not, or, shift_left, shift_right, xor};
pub use checked::{checked_add, checked_div, checked_mul, checked_rem, checked_sub};
pub use compare::{Comparison, is_below_unsigned, is_greater};
pub use laws::{
    checked_results_are_words, comparisons_are_tests, no_range_means_failure,
    operations_give_words, ranges_hold_results, results_have_ranges_of_words, words_have_32_bits,
    words_in_order_are_ranges,
};
pub use long::{LongResult, long_difference, long_product, long_sum};
pub use modular::{minus, plus, times};
pub use ranges::Range;
pub use unary::Unary;
