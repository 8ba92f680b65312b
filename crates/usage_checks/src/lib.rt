//! The rules of usage that a program has to keep.
#![tactic(auto)]

mod action_rules;
mod array_ends;
mod blocks;
mod channel_rules;
mod checked;
mod declaration_rules;
mod extending;
mod following;
mod formal_rules;
mod handing;
mod instance_rules;
mod items;
mod laws;
mod line_rules;
mod main_rules;
mod name_rules;
mod place_rules;
mod procedures;
mod taking;
mod telling;
mod walking;
mod wanting;
mod weighing;

pub use channel_rules::Position;
pub use checked::{CheckedProgram, check};
pub use extending::add_formals;
pub use following::{after_action, after_input};
pub use formal_rules::parameters_for;
pub use handing::{Handed, handed_by};
pub use instance_rules::subscript_for;
pub use laws::{
    items_hold, nothing_shared, outlines_stay, places_hold, programs_go_on, ranges_are_typed,
    ranges_stay, signatures_stay,
};
pub use main_rules::{is_link_as, is_main_name};
pub use program_uses::{
    Around, CHANNEL_USE, CONSTANT_WANTED, DECLARED_TWICE, Direction, End, MEMORY, NO_MAIN,
    OTHER_ACTUAL, PASSED_TWICE, Parameter, SHARED_VARIABLE, Signature, UsageFault, Use, Uses,
};
pub use taking::{takes, takes_value};
pub use wanting::{Wanted, fault_of};
