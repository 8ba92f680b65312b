//! The module file: code, constants and the certificate that comes with them.
#![tactic(auto)]

mod contexts;
mod fact;
mod fault;
mod keeping;
mod laws;
mod limits;
mod listed;
mod offset_set;
mod offsets;
mod places;
mod reading;
mod row_owners;
mod row_sizes;
mod rows;
mod rules;
mod stack;
mod tables;
mod tags;
mod writing;

pub use contexts::{Context, Contexts};
pub use fact::{Fact, Region, Step};
pub use fault::{FormatFault, LEFT_OVER, LIMIT, MAGIC, MEMORY, ORDER, RANGE, TRUNCATED};
pub use laws::{
    one_contents_one_file, one_file_one_contents, reading_again, reading_finds, upgraded_is_valid,
    upgraded_says_the_same,
};
pub use limits::{
    MAX_BRANCHES, MAX_BUDGET, MAX_CODE, MAX_CONSTANTS, MAX_DATA_WORDS, MAX_LABELS, MAX_LONG_CODE,
    MAX_MESSAGE, MAX_PARAMETERS, MAX_PARS, MAX_PROCEDURES, MAX_TABLES,
};
pub use offsets::{AtOffset, row_at};
pub use places::Place;
pub use reading::{max_code, read};
pub use rows::{
    BranchRow, ChannelRow, Direction, EndKey, EndKind, EndRow, Ends, Entry, Interval, LabelRow,
    ParRow, Parameter, ParameterKind, ProcedureRow, TableRow,
};
pub use stack::Stack;
pub use tables::{Tables, Version};
pub use writing::{write, write_as};
