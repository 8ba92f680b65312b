//! Programs with instances have code, unless a `PAR` or an `ALT` is in what they call.
#![tactic(auto)]

mod laws;

pub use laws::{
    called_procedures_have_code, laws_apply_to_instances, programs_without_par_have_code,
};
