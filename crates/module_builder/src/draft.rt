//! A module as a compiler describes it.

use crate::instructions::Instructions;
use crate::item::Label;
use module_format::{LabelRow, ParRow, ProcedureRow, TableRow, Version};
use std::alloc::Global;

/// A context of a draft. Rows go by their numbers in the order of adding, and may be named before they are added.
#[derive(Clone, Copy)]
pub enum ContextName {
    /// The root.
    Root,
    /// The procedure of a row.
    Procedure(usize),
    /// A branch of a PAR row.
    Branch { par: usize, branch: usize },
}

/// A module: its instructions, and rows with labels in place of code offsets and names in place of the numbers of
/// contexts.
#[derive(Drop)]
pub struct Draft {
    /// The instructions and the labels.
    pub code: Instructions,
    /// The version of the file.
    pub version: Version,
    /// The constants.
    pub constants: Vec<u8>,
    /// The words of the data area.
    pub data_words: u32,
    /// The data word at which the root's workspace begins.
    pub base: u32,
    /// How many instruction bytes a run may execute.
    pub budget: u64,
    /// Where the module is finished, if anywhere. A label at offset 0 says the same as none.
    pub finish: Option<Label>,
    /// The bytes of a message on output links 0 to 3 and input links 0 to 3; 0 is a link not used.
    pub lengths: [u32; 8],
    /// Whether the operations on double words are there.
    pub has_long_operations: bool,
    /// The procedures, in any order.
    pub procedures: Vec<ProcedureRow<Label>>,
    /// What holds at labels, in any order.
    pub labels: Vec<LabelRow<Label, ContextName>>,
    /// The PARs, in any order.
    pub pars: Vec<ParRow<Label, ContextName>>,
    /// What is known of the constants, in any order.
    pub table_rows: Vec<TableRow>,
}

impl Draft {
    ghost use Rattle.module_builder.specs.Whole.{IsNew};

    /// A draft with no instruction and no row, whose numbers are all 0.
    pub fn new(alloc: Global, version: Version) -> Self
        ensures { IsNew version result }
    {
        Draft {
            code: Instructions::new(alloc),
            version,
            constants: Vec::new(alloc),
            data_words: 0,
            base: 0,
            budget: 0,
            finish: None,
            lengths: [0; 8],
            has_long_operations: false,
            procedures: Vec::new(alloc),
            labels: Vec::new(alloc),
            pars: Vec::new(alloc),
            table_rows: Vec::new(alloc),
        }
    }
}
