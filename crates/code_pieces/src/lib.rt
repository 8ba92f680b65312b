//! Code before it is laid out: its pieces, and what is known between them.
#![tactic(auto)]

mod contexts;
mod drafting;
mod laws;
mod modules;
mod needs;
pub mod operations;
mod pars;
mod piece;
mod saying;
mod separating;
mod sizes;
mod tables;
mod words;
mod workspaces;

pub use contexts::ContextNames;
pub use drafting::draft_code;
pub use laws::{modules_say_their_pieces, small_modules_are_laid};
pub use modules::{BASE, module_of};
pub use needs::Needs;
pub use pars::par_rows;
pub use piece::{CodeContext, Par, ParBranch, Piece, RowEntry, WordFact, Workspace};
pub use saying::{Said, rows_of};
pub use separating::apart;
pub use sizes::sizes_of;
pub use tables::ConstantTables;
pub use words::{GREATEST_WORD, WORKSPACE_WORDS, words_taken};
