//! The tests of `machine_state`, `states` and `process_queue`, by their public calls.
#![tactic(auto)]

#[cfg(test)]
mod tests;
