//! The pieces of code, before they are laid out.

use module_format::{ChannelRow, EndRow, Interval};
use prefix_decoder::Fun;
use std::rc::Rc;

/// What is known of a word of the frame.
#[derive(Clone, Copy)]
pub enum WordFact {
    /// Its number lies from `lo` to `hi`, both included.
    Between { lo: i32, hi: i32 },
    /// It is the first of the two words of a loop's block. The index counts from `base` on, in `count` turns. `head` is
    /// the number of the label at the loop's head.
    Turning { head: usize, base: i32, count: u32 },
}

/// What is known of each of `span` words of the frame from `word` on. A loop's block has one entry of two words.
#[derive(Clone, Copy)]
pub struct RowEntry {
    pub word: u32,
    pub span: u32,
    pub fact: WordFact,
}

/// A context.
#[derive(Clone, Copy)]
pub enum CodeContext {
    /// The root.
    Root,
    /// The branch of a PAR that has its entry at this label.
    Branch { entry: usize },
}

/// The workspace of a process: its context, and the word of the frame at which it is.
#[derive(Clone, Copy)]
pub struct Workspace {
    pub context: CodeContext,
    pub depth: i32,
}

/// A branch of a PAR. Its lists rise.
#[derive(Drop)]
pub struct ParBranch {
    /// The label at which its code begins.
    pub entry: usize,
    /// The word of the frame at which its workspace is.
    pub depth: i32,
    /// The words that it writes.
    pub writes: Vec<Interval>,
    /// The words that it only reads.
    pub reads: Vec<Interval>,
    /// The ends of channels that it has.
    pub ends: Vec<EndRow>,
}

/// A PAR.
#[derive(Drop)]
pub struct Par {
    /// The workspace of the process that starts it. The PAR's block is there.
    pub opener: Workspace,
    /// The label after it, at which the opener goes on.
    pub successor: usize,
    /// The channels whose ends its branches have and its opener does not, by rising words.
    pub channels: Vec<ChannelRow>,
    pub branches: Vec<ParBranch>,
}

/// A piece of code. Labels go by their numbers, from 0 on, and words by those of the frame. Code begins in the root,
/// with its workspace at word 0.
#[derive(Drop)]
pub enum Piece {
    /// An instruction.
    Direct {
        fun: Fun,
        operand: i32,
    },
    /// `j` to a label.
    Jump {
        to: usize,
    },
    /// `cj` to a label.
    JumpUnless {
        to: usize,
    },
    /// `ldc` with the distance between two labels, and `lend`: back to the head of a loop, or on after it.
    LoopBack {
        head: usize,
        behind: usize,
    },
    /// `ldc` with the distance from one label to another.
    Distance {
        from: usize,
        to: usize,
    },
    /// `startp` of the branch with this entry. The first one of a PAR has the label after the PAR too.
    StartBranch {
        entry: usize,
        successor: Option<usize>,
    },
    /// `altend`, which goes on at one of these labels.
    Select {
        targets: Vec<usize>,
    },
    /// The address of a table of the constants with these values, each in a word.
    TableAddress(Rc<Vec<i32>>),
    /// A label, and what is known of words there, in rising order.
    Row {
        label: usize,
        entries: Vec<RowEntry>,
    },
    /// A label of which nothing is said, as distances are counted from.
    Place {
        label: usize,
    },
    /// What follows has its workspace there.
    Within(Workspace),
    /// A PAR that is somewhere in the code.
    Par(Par),
}
