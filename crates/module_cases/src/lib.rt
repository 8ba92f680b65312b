//! What cases of module files share: the words of a line, the file that they are about and the ways in which it is
//! altered, and the names of functions, ends and events.
#![tactic(auto)]

mod alterations;
mod edits;
mod ends;
mod events;
mod file;
mod format;
mod functions;
mod words;

pub use alterations::{Tally, Ways, judge_altered};
pub use ends::end;
pub use events::{LINKS, event, letter, names_effect, repeated};
pub use file::CaseFile;
pub use format::{READ, put_fault, put_read, reading};
pub use functions::function;
pub use words::{Words, question};
