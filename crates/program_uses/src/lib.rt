//! What programs use and change, and what the components of a `PAR` share.
#![tactic(auto)]

mod actions;
mod changes;
mod constants;
mod declaring;
mod ends;
mod entering;
mod extending;
mod faults;
mod finding;
mod indices;
mod instances;
mod laws;
mod link_names;
mod listing;
mod mentions;
mod numbers;
mod par_rules;
mod places;
mod processes;
mod signature;
mod telling;
mod used_ends;
mod uses;

pub use actions::{Around, is_before};
pub use constants::{has_type, size_in, value_as};
pub use declaring::{
    channel_meaning, constant_meaning, constant_outline, formal_meaning, variable_meaning,
};
pub use ends::{ChannelEnd, signed};
pub use extending::{add_name, add_outlines};
pub use faults::{
    CHANNEL_USE, CONSTANT_WANTED, DECLARED_TWICE, MEMORY, NO_MAIN, OTHER_ACTUAL, PASSED_TWICE,
    SHARED_VARIABLE, lower, told_unless,
};
pub use finding::{list_changes, variables_changed, variables_changed_in};
pub use indices::{Repeats, Turns, index_meaning, is_sequence, repeats_of, turns_of};
pub use instances::{array_at, place_in, variable_at};
pub use laws::{changes_follow_outlines, declaring_keeps_outlines};
pub use link_names::link_way;
pub use listing::ChangeLists;
pub use mentions::is_variable;
pub use places::{PlaceRef, Spot, place_ref, spot_of};
pub use signature::{Parameter, Passing, Signature, count_of_parameters, parameter_at, passing_of};
pub use telling::{UsageFault, earlier, fault_at};
pub use uses::{Direction, End, Use, Uses};
