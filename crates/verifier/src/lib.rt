//! The verdict on a module: certified, or the first rule that is broken.
#![tactic(auto)]

mod judgement;
mod laws;
mod pass;
mod rows;
mod stop;
mod upgrading;
mod verified;
mod walk;

pub use laws::{
    a_small_alternation_is_judged, certified_modules_run_well, certified_runs_hold_the_invariant,
    not_both, upgraded_is_certified, upgraded_runs_alike, verdict_is_right,
};
pub use pass::judge_code;
pub use rows::Given;
pub use stop::{Breach, Stop, broken};
pub use upgrading::{UpgradeFault, upgrade};
pub use verified::{Verified, verify};
pub use walk::{Arrival, Place, Walk};

/// Why a module is refused.
#[derive(Clone, Copy, Debug, PartialEq, Eq)]
pub struct Refusal {
    /// The number of the rule that is broken, or `states::MEMORY`.
    pub number: u8,
    /// The code offset where it is broken.
    pub offset: u32,
}
