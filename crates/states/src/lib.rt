//! What is known of a process at a place of its code.
#![tactic(auto)]

mod blocks;
mod claims;
mod comparison;
mod cutting;
mod firsts;
mod frame;
mod frame_rows;
mod frame_runs;
mod frame_spans;
mod frame_sums;
mod implication;
mod implied;
mod intervals;
mod known;
mod laws;
mod numbered;
mod overlay;
mod recalling;
mod remembered;
mod row;
mod rule;
mod runs;
mod span;
mod state;
mod sums;

pub use comparison::{below, compare, cost_at, cost_below, cost_of_label};
pub use implication::{implies, says};
pub use known::{Guard, GuardKind, GuardName, Known, Loop, Mode, Source, WordFact};
pub use laws::label_rows_are_sound;
pub use row::said_of;
pub use rule::{
    ALTERNATION, BUDGET, CALL, CHANNEL, FLOW, FORWARD, INSTRUCTION_START, LABEL, MEMORY,
    MESSAGE_LENGTH, NUMBER, OWN_WORD, PAR, POINTER, REGIONS_MEET, Rule, RuleFault, SPELLING,
    UNKNOWN_REGISTER,
};
pub use span::{Leaving, Together};
pub use state::{MAX_GUARDS, State};
