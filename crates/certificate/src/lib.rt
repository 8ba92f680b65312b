//! Queries on a module: its contexts and branches, where its instructions start, and what a context may touch. The
//! module file itself is in `module_format`, which is re-exported.
#![tactic(auto)]

mod around;
mod branch_runs;
mod branches;
mod entries;
mod index;
mod joining;
mod judged;
mod judged_rows;
mod marks;
mod modules;
mod named;
mod numbers;
mod owned;
mod rights;
mod runs;
mod siblings;
mod spans;
mod starting;
mod starts;
mod written;

pub use modules::{Module, ModuleFile};
pub use rights::is_among;
pub use runs::ChannelRun;
