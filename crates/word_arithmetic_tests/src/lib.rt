//! The tests of `word_arithmetic`, by its public calls.
#![tactic(auto)]

#[cfg(test)]
mod tests;
