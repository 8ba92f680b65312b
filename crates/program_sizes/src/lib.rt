//! The sizes of the lines of a program.
#![tactic(auto)]

mod sizes;

pub use sizes::{
    GREATEST_SIZE, plus, size_of_action, size_of_condition, size_of_constant, size_of_count,
    size_of_declaration, size_of_declarations, size_of_guard, size_of_head, size_of_replicator,
};
