//! The rows of a module file.

ghost use Rattle.std.specs.Prelude.{⊤, [], ◌∷◌, codes};

use crate::fact::Fact;
use crate::stack::Stack;
use crate::tags::{DIRECTION_IN, DIRECTION_OUT, END_FRAME_WORD, END_LINK, END_PARAMETER};
use bitflags::{Flag, Flags, bitflag_items};
use smallvec::SmallVec;

/// The ends that a channel parameter brings: a set of `IN` and `OUT`.
#[derive(Clone, Copy)]
pub struct Ends(u8);

bitflag_items! {
    impl Ends: u8 {
        /// The ends that receive.
        const IN = 1;
        /// The ends that send.
        const OUT = 2;
    }
}

impl Flags for Ends {
    type Bits = u8;

    ghost exact = { ⊤ };

    ghost table = { (codes "IN", 1) ∷ (codes "OUT", 2) ∷ [] };

    ghost set_of = { λ ends. ends.0 };

    fn flags<'a>() -> &'a [Flag<Ends>] {
        Ends::FLAGS
    }

    fn bits(&self) -> u8 {
        self.0
    }

    fn from_bits_retain(bits: u8) -> Ends {
        Ends(bits)
    }
}

/// What a parameter word of a procedure holds.
#[derive(Clone, Copy)]
pub enum ParameterKind {
    /// A number from `lo` to `hi`, both included.
    Value { lo: i32, hi: i32 },
    /// The address of `size` bytes that may be read, each word of them a number from `lo` to `hi`.
    ReadRegion { size: u32, lo: i32, hi: i32 },
    /// The address of `size` bytes that may be written, each word of them a number from `lo` to `hi`.
    WrittenRegion { size: u32, lo: i32, hi: i32 },
    /// The address of `count` channels whose messages have `length` bytes.
    Channels { count: u32, length: u32, ends: Ends },
}

/// A parameter of a procedure, by its frame word.
#[derive(Clone, Copy)]
pub struct Parameter {
    pub word: u16,
    pub kind: ParameterKind,
}

/// A procedure: where its code begins, its frame words from `lo` up to `hi` (not included), its
/// number, and its parameters. `At` is a place in the code: an offset in a file.
#[derive(Drop)]
pub struct ProcedureRow<At = u32> {
    pub entry: At,
    pub lo: i32,
    pub hi: i32,
    pub number: u64,
    pub parameters: Vec<Parameter>,
}

/// One fact that holds for each of `span` frame words from `word` on.
#[derive(Clone, Copy)]
pub struct Entry<At = u32> {
    pub word: i32,
    pub span: u32,
    pub fact: Fact<At>,
}

/// What holds at a code offset: the context, the depth of the workspace in words of the frame, the
/// number, the facts of the three registers, and those of the frame's words; a word without an entry
/// is unknown. `In` names a context: by its number in a file.
#[derive(Drop)]
pub struct LabelRow<At = u32, In = u16> {
    pub offset: At,
    pub context: In,
    pub depth: i32,
    pub number: u64,
    pub stack: Stack<Fact<At>>,
    pub entries: Vec<Entry<At>>,
}

/// A channel of a PAR: the frame word that it lies in and the bytes of its messages.
#[derive(Clone, Copy)]
pub struct ChannelRow {
    pub word: i32,
    pub length: u32,
}

/// The frame words from `lo` up to `hi`, which is not included.
#[derive(Clone, Copy, Default)]
pub struct Interval {
    pub lo: i32,
    pub hi: i32,
}

/// Which channel an end belongs to.
#[derive(Clone, Copy)]
pub enum EndKind {
    /// The channel in a frame word.
    FrameWord(i32),
    /// An element of the channels that a parameter names.
    Parameter { number: i32, element: u32 },
    /// A link: 0 to 3 the output links, 4 to 7 the input links.
    Link(u8),
}

/// Which way an end is used.
#[derive(Clone, Copy, PartialEq, Eq)]
pub enum Direction {
    In,
    Out,
}

/// A channel end that a branch is given.
#[derive(Clone, Copy)]
pub struct EndRow {
    pub kind: EndKind,
    pub direction: Direction,
}

/// A branch of a PAR: where its code begins, its workspace in words of the frame, and what it is
/// given of the frame's words, the context's parameters and channel ends.
#[derive(Drop)]
pub struct BranchRow<At = u32> {
    pub entry: At,
    pub workspace: i32,
    pub writes: SmallVec<Interval, 2>,
    pub reads: SmallVec<Interval, 2>,
    pub written_parameters: SmallVec<u16, 4>,
    pub read_parameters: SmallVec<u16, 4>,
    pub ends: Vec<EndRow>,
}

/// How many intervals, parameters and ends a branch has.
#[derive(Clone, Copy)]
pub struct BranchCounts {
    pub writes: u16,
    pub reads: u16,
    pub written_parameters: u16,
    pub read_parameters: u16,
    pub ends: u16,
}

impl BranchRow {
    ghost use Rattle.std.specs.Prelude.{◌≡◌};
    ghost use Rattle.module_format.specs.Contents.{branch_of, counts_of, CountsFit};

    /// How many of each it has.
    pub(crate) fn counts(&self) -> BranchCounts
        requires { CountsFit (counts_of (branch_of self.now)) }
        ensures { result ≡ counts_of (branch_of self.now) }
    {
        BranchCounts {
            writes: self.writes.len() as u16,
            reads: self.reads.len() as u16,
            written_parameters: self.written_parameters.len() as u16,
            read_parameters: self.read_parameters.len() as u16,
            ends: self.ends.len() as u16,
        }
    }
}

/// A PAR: its context and depth, its join block's frame word, the code offset after it,
/// its channels and its branches.
#[derive(Drop)]
pub struct ParRow<At = u32, In = u16> {
    pub context: In,
    pub depth: i32,
    pub block: i32,
    pub successor: At,
    pub channels: Vec<ChannelRow>,
    pub branches: Vec<BranchRow<At>>,
}

/// The constants from byte `start` up to `end` (not included) are words from `lo` to `hi`.
#[derive(Clone, Copy)]
pub struct TableRow {
    pub start: u32,
    pub end: u32,
    pub lo: i32,
    pub hi: i32,
}

/// The fields of an end, in the order of a file. The ends of a branch rise by the first of them in
/// which they differ.
#[derive(Clone, Copy, PartialEq, Eq)]
pub struct EndKey {
    /// 0 a frame word, 1 a parameter, 2 a link.
    pub kind: u8,
    /// The word, the parameter or the link.
    pub number: i32,
    /// The channel of a parameter, else 0.
    pub element: u32,
    /// 1 in, 2 out.
    pub direction: u8,
}

impl EndKey {
    ghost use Rattle.std.specs.Prelude.{◌≡◌};
    ghost use Rattle.module_format.specs.Pars.{first_key, is_below};

    /// Below each end.
    pub const fn first() -> EndKey
        ensures { result ≡ first_key }
    {
        EndKey {
            kind: END_FRAME_WORD,
            number: i32::MIN,
            element: 0,
            direction: 0,
        }
    }

    /// Whether an end with the other key may follow this one.
    pub fn is_below(&self, other: &EndKey) -> bool
        ensures { result ≡ is_below self.now other.now }
    {
        if self.kind != other.kind {
            return self.kind < other.kind;
        }
        if self.number != other.number {
            return self.number < other.number;
        }
        if self.element != other.element {
            return self.element < other.element;
        }
        self.direction < other.direction
    }
}

impl EndRow {
    ghost use Rattle.std.specs.Prelude.{◌≡◌};
    ghost use Rattle.module_format.specs.Pars.{key_of};

    /// The fields by which ends rise.
    pub fn key(&self) -> EndKey
        ensures { result ≡ key_of self.now }
    {
        let direction = match self.direction {
            Direction::In => DIRECTION_IN,
            Direction::Out => DIRECTION_OUT,
        };
        let (kind, number, element) = match self.kind {
            EndKind::FrameWord(word) => (END_FRAME_WORD, word, 0),
            EndKind::Parameter { number, element } => (END_PARAMETER, number, element),
            EndKind::Link(link) => (END_LINK, i32::from(link), 0),
        };
        EndKey {
            kind,
            number,
            element,
            direction,
        }
    }
}
