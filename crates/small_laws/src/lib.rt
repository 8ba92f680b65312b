//! Small lemmas about the standard library's own words, which the proofs of many crates cite.
#![tactic(auto)]
