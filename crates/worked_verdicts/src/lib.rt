//! The verdicts on worked modules, by computation.
#![tactic(auto)]

mod laws;

pub use laws::{a_small_channel_is_judged, a_small_echo_is_judged, a_small_par_is_judged};
