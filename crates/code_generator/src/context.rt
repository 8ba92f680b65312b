//! Whose code is written.

use code_pieces::{CodeContext, WORKSPACE_WORDS, Workspace};
use line_pieces::{row_word, word_after};
use module_builder::GenFault;

/// How many PARs may be in one another.
const GREATEST_NESTING: u32 = 64;

/// How many words below its workspace a process has for its scheduling.
const SCHEDULING_WORDS: u32 = 3;

/// The process whose code is written: the one that the program begins with, or a branch of a `PAR`.
#[derive(Clone, Copy)]
pub(crate) struct Context {
    pub(crate) name: CodeContext,
    /// The word at which its workspace is.
    pub(crate) depth: u32,
    /// How many PARs are around it.
    nesting: u32,
}

impl Context {
    /// The process that the program begins with.
    pub(crate) fn root() -> Context {
        Context {
            name: CodeContext::Root,
            depth: 0,
            nesting: 0,
        }
    }

    /// A branch of a `PAR` in this process, by the label of its entry and the first of its words. The error is
    /// [`GenFault::Limit`] if too many PARs are in one another.
    pub(crate) fn branch(self, entry: usize, first: u32) -> Result<Context, GenFault> {
        if self.nesting >= GREATEST_NESTING {
            return Err(GenFault::Limit);
        }
        Ok(Context {
            name: CodeContext::Branch { entry },
            depth: word_after(first, SCHEDULING_WORDS),
            nesting: self.nesting + 1,
        })
    }

    /// Where its workspace is.
    pub(crate) fn workspace(self) -> Result<Workspace, GenFault> {
        Ok(Workspace {
            context: self.name,
            depth: row_word(self.depth)?,
        })
    }

    /// The first word that it has for names: those at the workspace are for the selection of an alternation and the
    /// block of a `PAR`.
    pub(crate) fn first_word(self) -> u32 {
        word_after(self.depth, WORKSPACE_WORDS)
    }
}
