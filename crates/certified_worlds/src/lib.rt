//! What holds of every world that a certified module comes to, and what keeps it.
#![tactic(auto)]
