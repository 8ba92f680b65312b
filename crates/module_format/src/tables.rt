//! What a module file says.

ghost use Rattle.std.specs.Prelude.{◌≡◌, ◌+◌, ◌^◌, ◌<◌, length};

use crate::keeping;
use crate::rows::{LabelRow, ParRow, ProcedureRow, TableRow};

/// The version of a module file.
#[derive(Clone, Copy)]
pub enum Version {
    /// `TPM1`.
    One,
    /// `TPM2`.
    Two,
}

/// What a module file says, and its version. Both versions have the same tables: in version 1 each region parameter
/// has the full range of a word, there are no table rows and no long operations.
#[derive(Drop)]
pub struct Tables<'a> {
    /// The version of the file.
    pub version: Version,
    /// The code, of which the first byte has offset 0.
    pub code: &'a [u8],
    /// The constants, which begin at the next word boundary after the code.
    pub constants: &'a [u8],
    /// The words of the data area.
    pub data_words: u32,
    /// The data word at which the root's workspace begins.
    pub base: u32,
    /// How many instruction bytes a run may execute.
    pub budget: u64,
    /// The code offset after the stopp that finishes the module; 0 is none.
    pub finish: u32,
    /// The bytes of a message on output links 0 to 3 and input links 0 to 3; 0 is a link not used.
    pub lengths: [u32; 8],
    /// Whether the operations on double words are there: the flag of version 2.
    pub has_long_operations: bool,
    /// The procedures, which rise by their entries.
    pub procedures: Vec<ProcedureRow>,
    /// What holds at the code's labels, by rising offsets.
    pub labels: Vec<LabelRow>,
    /// The PARs, which rise by the entries of their first branches.
    pub pars: Vec<ParRow>,
    /// What is known of the constants, by rising bytes. Version 1 has none.
    pub table_rows: Vec<TableRow>,
}

/// The first context that is a branch's in a module with these procedures.
pub(crate) fn first_branch(procedures: &[ProcedureRow]) -> usize
    ensures value { result ≡ 1 + length procedures.now }
    ensures small { result < 2 ^ 63 }
{
    1 + procedures.len()
}

impl Tables<'_> {
    ghost use Rattle.std.specs.Prelude.{◌≡◌, ◌↔◌, IsTrue};
    ghost use Rattle.module_format.specs.Contents.{contents_of};
    ghost use Rattle.module_format.specs.Contexts.{first_branch};
    ghost use Rattle.module_format.specs.Keeping.{FitsVersion, Keeps};

    /// Whether the tables are valid: they keep the rules of the format, and fit their version. Exactly the valid tables
    /// have a file. It allocates nothing, and takes linear time, except for binary searches, such as that of a context
    /// in the PAR rows.
    pub fn keeps(&self) -> bool
        ensures { IsTrue result ↔ Keeps (contents_of self.now) × FitsVersion self.now.version (contents_of self.now) }
    {
        keeping::keeps(self)
    }

    /// The first context that is a branch's: before it are the root and the procedures.
    pub fn first_branch(&self) -> usize
        ensures { result ≡ first_branch (contents_of self.now) }
    {
        first_branch(&self.procedures)
    }
}
