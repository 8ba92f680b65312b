//! The tests of tables that no file gives. What files say, which are refused, and what look-ups return is asked by cases.
#![tactic(auto)]

#[cfg(test)]
mod by_hand;
