//! An assembler for certified modules: from instructions over labels to their least layout and their bytes.
#![tactic(auto)]

mod assembling;
mod branches;
mod draft;
mod fault;
mod grown;
mod instructions;
mod item;
mod kinds;
mod laws;
mod layouts;
mod least;
mod limits;
mod numbers;
mod offsets;
mod ordering;
mod orders;
mod placing;
mod plan;
mod rows;
mod sizes;
mod spacing;
mod spelling;
mod whole;

pub use assembling::assemble;
pub use draft::{ContextName, Draft};
pub use fault::GenFault;
pub use instructions::Instructions;
pub use item::{Item, Label, Operand};
pub use laws::{
    contexts_have_numbers, items_are_in_their_places, one_arrangement, one_least_layout,
    outer_pars_come_first, places_are_boundaries,
};
pub use layouts::Layout;
pub use least::layout;
pub use limits::MAX_CONTEXTS;
pub use spelling::spell;
pub use whole::is_whole;
