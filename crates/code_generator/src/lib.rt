//! The code of a checked program: which instructions a process becomes, and what is known between them.
#![tactic(auto)]

mod alternatives;
mod calling;
mod choices;
mod clearing;
mod context;
mod guards;
mod instances;
mod laws;
mod lending;
mod limits;
mod loops;
mod marking;
mod parallel;
mod passing;
mod processes;
mod program;

pub use calling::{Callee, Surroundings};
pub use laws::{sequential_programs_have_code, small_programs_have_code};
pub use limits::Limits;
pub use processes::ProcessWriter;
pub use program::{Code, code_of};
