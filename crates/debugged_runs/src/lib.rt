//! A run on the machine that checks each rule agrees with the run of a certified module.
#![tactic(auto)]

mod laws;

pub use laws::{
    certified_modules_are_cut_as_asked, certified_modules_are_cut_below_their_budget,
    certified_modules_come_to_no_fault, debugged_runs_agree_with_runs, debugged_runs_are_runs,
    sources_and_certified_modules_are_told_no_fault,
};
