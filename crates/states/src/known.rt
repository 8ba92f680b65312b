//! What is known of words and registers, and the modes of a state.

ghost use Rattle.std.specs.Prelude.{◌≡◌};
ghost use Rattle.states.specs.State.{by_itself, handed_out, plain, is_alone};
ghost use Rattle.states.specs.Rows.{LoopFits};
ghost use Rattle.states.specs.Frames.{is_loop_word};

use module_format::{EndKind, Fact};

/// A loop that a frame counts in two words, its index and its count.
#[derive(Clone, Copy, Debug, PartialEq, Eq)]
pub struct Loop {
    /// The index in the first turn.
    pub base: i32,
    /// How many turns there are.
    pub count: u32,
    /// What a turn may cost.
    pub weight: u64,
}

/// A word of a loop.
#[derive(Clone, Copy)]
pub(crate) enum LoopWord {
    /// The first, the index.
    Index,
    /// The second, the count.
    Count,
}

/// What is known of a word of the frame.
#[derive(Clone, Copy, Debug)]
pub enum WordFact {
    /// This, by itself.
    Alone(Fact),
    /// It is the first word of a loop, its index: `base + count - c`, where c is the second word.
    Index(Loop),
    /// It is the second word of a loop, its count: the turns that are left, from 1 to `count`.
    Count(Loop),
}

impl WordFact {
    /// What the word says by itself: the index of a loop lies from its base to its last value, and the count
    /// from 1 to the number of turns.
    pub fn by_itself(self) -> Fact
        requires { LoopFits self }
        ensures { result ≡ by_itself self }
    {
        match self {
            WordFact::Alone(fact) => fact,
            WordFact::Index(Loop { base, count, .. }) => Fact::Number {
                lo: base,
                hi: base + (count - 1) as i32,
            },
            WordFact::Count(Loop { count, .. }) => Fact::Number {
                lo: 1,
                hi: count as i32,
            },
        }
    }

    /// What an instruction learns that reads the word: it does not learn a return address.
    pub fn plain(self) -> Fact
        requires { LoopFits self }
        ensures { result ≡ plain self }
    {
        handed_out(self.by_itself())
    }

    /// Whether the word is in no loop.
    pub fn is_alone(self) -> bool
        ensures { result ≡ is_alone self }
    {
        matches!(self, WordFact::Alone(_))
    }

    /// Whether it is this word of a loop.
    pub(crate) fn is_loop_word(self, which: LoopWord) -> bool
        ensures { result ≡ is_loop_word which self }
    {
        match which {
            LoopWord::Index => matches!(self, WordFact::Index(_)),
            LoopWord::Count => matches!(self, WordFact::Count(_)),
        }
    }
}

/// What an instruction learns of a fact.
fn handed_out(fact: Fact) -> Fact
    ensures { result ≡ handed_out fact }
{
    match fact {
        Fact::ReturnAddress | Fact::Loop { .. } => Fact::Unknown,
        _ => fact,
    }
}

/// Where the value of a register comes from.
#[derive(Clone, Copy, Debug)]
pub enum Source {
    /// Nothing is known of it.
    Nowhere,
    /// It equals this frame word now.
    From {
        word: i32,
    },
    /// It is 1 if this frame word lies from `lo` to `hi`, else 0; if `is_inside` is false, it is the opposite.
    Test {
        word: i32,
        lo: i32,
        hi: i32,
        is_inside: bool,
    },
}

/// What is known of a register.
#[derive(Clone, Copy)]
pub struct Known {
    pub fact: Fact,
    pub source: Source,
}

/// What a guard of an alternation waits for.
#[derive(Clone, Copy)]
pub enum GuardKind {
    /// A sender at this channel.
    Channel(EndKind),
    /// Nothing: it is always ready.
    Skip,
}

/// What the truth of a guard is known by.
#[derive(Clone, Copy)]
pub enum GuardName {
    /// A constant.
    Constant(i32),
    /// The value of a frame word.
    Word(i32),
}

/// A guard of an alternation, as it was enabled.
#[derive(Clone, Copy)]
pub struct Guard {
    pub kind: GuardKind,
    pub name: GuardName,
    /// Once the guard is disabled, how far after `altend` the process goes on if it is selected.
    pub exit: Option<i32>,
}

/// What a state is in the middle of.
#[derive(Clone, Copy, Debug, PartialEq, Eq)]
pub enum Mode {
    Plain,
    /// Between `alt` and `altwt`.
    Enabling,
    /// Between `altwt` and `altend`, with `done` guards disabled.
    Disabling { done: u32 },
    /// Starting the branches of a PAR row, of which `started` are started.
    Starting { row: u32, started: u32 },
}
