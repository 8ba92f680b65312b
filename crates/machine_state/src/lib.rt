//! What a transputer is at a moment, and how one event changes it.
#![tactic(auto)]

mod address;
mod cells;
mod cpu;
mod event;
mod fault;
mod holding;
mod instruction;
mod laws;
mod link;
mod loading;
mod op;
mod process;
mod request;
mod role;
mod spans;
mod store;
mod tagged;

pub use address::{DATA_START, LINK_WORDS, local_address, place_of};
pub use cpu::{Cpu, Flow};
pub use event::{Effect, Event};
pub use fault::{
    ALTERNATION_ORDER, COUNT_RANGE, END_NOT_HELD, ERROR_FLAG, Fault, FaultKind, JOIN_ORDER,
    NOT_OWN, OUTSIDE_CODE, UNALIGNED, UNDEFINED, UNEQUAL_LENGTHS, UNKNOWN_OPERATION,
};
pub use holding::{End, Holding, Span};
pub use instruction::Instruction;
pub use laws::{
    branches_are_contexts, channels_are_in_order, events_count_bytes, events_write_their_own,
    faults_stay, holders_stay_in_order, holdings_stay_apart, links_stay_four_each_way,
    memory_keeps_its_length, memory_reads_back, memory_stays_elsewhere, nobody_waits_twice,
    small_modules_end, steps_change_their_own, steps_move_or_fail, steps_see_what_they_read,
    waiting_is_in_order,
};
pub use link::{InputLink, Link, OutputLink};
pub use loading::loaded_bytes;
pub use op::{LongOp, MOST_MOVED, MOST_SHIFT, Op, Shift};
pub use process::{Channel, Condition, Exchange, Mode, Registers, Task, Word};
pub use request::Request;
pub use role::{Join, Role};
pub use spans::{Stretch, all_lie_in, places_within, without};
pub use store::{LoadStore, Store};
pub use tagged::TaggedStore;
pub use tagged::joining::Progress;
