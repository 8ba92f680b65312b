//! What a start of a branch wants that is not so, in words.

ghost use Rattle.std.specs.Prelude.{◌≡◌, if◌then◌else◌, Some, None};
ghost use Rattle.states.specs.State.{is_same_number};
ghost use Rattle.found_parts.specs.FaultTexts.{wanted_text, fault_text};

use fact_texts::ContextText;
use state_texts::WordText;
use states::WordFact;
use std::fmt;

/// What a PAR wants of a word where its first branch is started.
#[derive(Clone, Copy)]
pub enum Wanted {
    /// The address of this code offset.
    Code { offset: u32 },
    /// This number.
    Number { number: i128 },
    /// The address of the first byte of what the parameter of this number names.
    Parameter { number: i32 },
}

impl fmt::Display for Wanted {
    ghost output = { λ wanted. Some (wanted_text wanted) };

    fn fmt<W: fmt::Write>(&self, f: &mut fmt::Formatter<W>) -> fmt::Result {
        match *self {
            Wanted::Code { offset } => write!(f, "code {offset}"),
            Wanted::Number { number } => write!(f, "{number}"),
            Wanted::Parameter { number } => write!(f, "parameter {number} byte 0 by 4"),
        }
    }
}

/// What a start of a branch wants that is not so.
#[derive(Clone, Copy)]
pub enum StartFault {
    /// Another branch is next: the one that begins at this offset.
    OtherNext {
        entry: u32,
    },
    /// No branch is next.
    NoneNext,
    /// The PAR is of this context.
    Context {
        wanted: ContextText,
    },
    /// The PAR is at another depth than here.
    Depth {
        wanted: i32,
        found: i32,
    },
    /// The workspace of the branch is this word.
    Workspace {
        word: i32,
    },
    /// The context may not write a word.
    Unwritable {
        word: i64,
    },
    /// It may not read one.
    Unreadable {
        word: i64,
    },
    /// It may not write what a parameter names.
    UnwritableParameter {
        number: i32,
    },
    /// It may not read that.
    UnreadableParameter {
        number: i32,
    },
    /// The branch is given a word of the block of its PAR, or of a channel of it.
    Given {
        word: i64,
    },
    /// A word is to be something else.
    Word {
        word: i64,
        wanted: Wanted,
        found: WordFact,
    },
    /// There is no label.
    NoLabel {
        offset: u32,
    },
    /// The label after the PAR is of another context.
    LabelContext {
        offset: u32,
    },
    /// It is not at the depth of the block.
    LabelDepth {
        offset: u32,
        depth: i32,
        block: i32,
    },
    /// It says something of a register.
    LabelRegister {
        offset: u32,
    },
    /// It says something of a word of the block, or of a channel.
    LabelWord {
        offset: u32,
        word: i64,
    },
}

impl fmt::Display for StartFault {
    ghost output = { λ fault. Some (fault_text fault) };

    fn fmt<W: fmt::Write>(&self, f: &mut fmt::Formatter<W>) -> fmt::Result {
        match *self {
            StartFault::OtherNext { entry } => write!(f, "the branch at {entry} is next"),
            StartFault::NoneNext => write!(f, "no branch is next"),
            StartFault::Context { wanted } => write!(f, "its PAR is of {wanted}"),
            StartFault::Depth { wanted, found } => {
                write!(f, "its PAR is at depth {wanted}, and this is depth {found}")
            }
            StartFault::Workspace { word } => write!(f, "its workspace is word {word}"),
            StartFault::Unwritable { word } => write!(f, "word {word} may not be written here"),
            StartFault::Unreadable { word } => write!(f, "word {word} may not be read here"),
            StartFault::UnwritableParameter { number } => {
                write!(f, "parameter {number} may not be written here")
            }
            StartFault::UnreadableParameter { number } => {
                write!(f, "parameter {number} may not be read here")
            }
            StartFault::Given { word } => {
                write!(
                    f,
                    "it is given word {word}, which is of the block or a channel"
                )
            }
            StartFault::Word {
                word,
                wanted,
                found,
            } => write!(
                f,
                "word {word} has to be {wanted}; it is {}",
                WordText(found)
            ),
            StartFault::NoLabel { offset } => write!(f, "no label is at {offset}"),
            StartFault::LabelContext { offset } => {
                write!(f, "the label at {offset} is of another context")
            }
            StartFault::LabelDepth {
                offset,
                depth,
                block,
            } => { write!(f, "the label at {offset} has depth {depth}, not {block}") }
            StartFault::LabelRegister { offset } => {
                write!(f, "the label at {offset} says something of a register")
            }
            StartFault::LabelWord { offset, word } => {
                write!(f, "the label at {offset} says something of word {word}")
            }
        }
    }
}

/// A fault, unless something is so.
pub(crate) fn unless(is_so: bool, fault: StartFault) -> Option<StartFault>
    ensures { result ≡ (if is_so then None else Some fault) }
{
    if is_so { None } else { Some(fault) }
}

/// Whether two numbers are the same.
pub(crate) fn is_same(number: i32, other: i32) -> bool
    ensures { result ≡ is_same_number number other }
{
    number == other
}
