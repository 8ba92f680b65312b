//! Why a line breaks a usage rule.

ghost use Rattle.std.specs.Prelude.{◌≡◌};
ghost use Rattle.usage_reasons.specs.AtFault.{AreAtFault};
ghost use Rattle.usage_reasons.specs.Numbers.{number_of};

use occam_parser::{ArithmeticChain, ArithmeticPair, ValueType};
use program_uses::{
    CHANNEL_USE, CONSTANT_WANTED, DECLARED_TWICE, Direction, NO_MAIN, OTHER_ACTUAL, PASSED_TWICE,
    SHARED_VARIABLE,
};
use scalar_ranges::{ExprType, Meaning, OUT_OF_RANGE, OUTSIDE, UNKNOWN_NAME, WRONG_TYPE};
use word_arithmetic::Range;

/// Tokens of a line, one after the other.
#[derive(Clone, Copy)]
pub struct Tokens {
    /// How many tokens of the line come before them.
    pub at: usize,
    /// How many they are.
    pub len: usize,
}

/// A name, what it denotes at a line, and the line that declares it.
#[derive(Clone, Copy)]
pub struct KnownName<'a> {
    pub name: &'a [u8],
    pub meaning: Meaning,
    pub line: u32,
}

/// An operator that may fail.
#[derive(Clone, Copy)]
pub enum Operator {
    /// `-` before an operand
    Negate,
    /// An operator between two operands.
    Pair(ArithmeticPair),
    /// An operator between two operands or more.
    Chain(ArithmeticChain),
}

/// Where results lie, which need not be words.
#[derive(Clone, Copy)]
pub struct Results {
    pub lo: i64,
    pub hi: i64,
}

/// What a name has to be.
#[derive(Clone, Copy)]
pub enum Sort {
    /// A constant, a variable or another scalar.
    Scalar,
    /// An array, since a subscript follows.
    Array,
    /// A variable, or a parameter that is one.
    Variable,
    /// An array of variables, since a subscript follows.
    VariableArray,
    /// A channel.
    Channel,
    /// An array of channels, since a subscript follows.
    ChannelArray,
    /// A procedure.
    Procedure,
}

/// What a line in a component of a `PAR` does to a variable.
#[derive(Clone, Copy, PartialEq, Eq)]
pub enum Deed {
    Reads,
    Changes,
}

/// What is wrong with the last item of a program.
#[derive(Clone, Copy)]
pub enum LastItem {
    /// There are no items.
    Missing,
    /// It is a constant; the line's first token is meant.
    Constant,
    /// It is a procedure of another name, which is meant.
    OtherName,
    /// A parameter, which is meant, is no link: no channel, an array, or of a name that no link has.
    NoLink,
}

/// Why a line breaks a usage rule. What the tokens are that are meant is said by each.
#[derive(Clone, Copy)]
pub enum Why<'a> {
    /// O9: a name. The name in scope that is spelled most alike is `nearest`, if one is nearly the same.
    UnknownName {
        nearest: Option<&'a [u8]>,
    },
    /// O10: a name, which the line `first` declares in the same scope.
    DeclaredTwice {
        first: u32,
    },
    /// O11: an expression, or the operand of an operator, of another type than the one that is wanted.
    OtherType {
        found: ExprType,
        wanted: ExprType,
    },
    /// O11: an operand that is a condition, where a number is compared or converted.
    NoNumber,
    /// O11: an expression with a comparison between an INT and a BYTE.
    OtherTypes {
        left: ExprType,
        right: ExprType,
    },
    /// O11: a name, which denotes something else. The `KnownName` says what.
    OtherSort {
        wanted: Sort,
    },
    /// O11: the value that is assigned or sent, or the variable that is received into, of another type than the
    /// variable or the channel, which `place` is.
    OtherPlaceType {
        found: ExprType,
        wanted: ExprType,
        place: Tokens,
    },
    /// O11: a table or a string, which has another number of items than its size says.
    OtherItems {
        stated: u32,
        items: usize,
    },
    /// O11: a string, as a table of INT.
    TextOfInts,
    /// O12: a name or an element, which is no constant.
    NoConstant,
    /// O13: an instance, with another number of actuals than its procedure has parameters.
    OtherCount {
        actuals: usize,
        parameters: usize,
    },
    /// O13: an actual, which the parameter with this number, from 0 on, does not take. An actual that is no name and
    /// no element has the type `found`.
    NotTaken {
        place: usize,
        parameter: Meaning,
        found: Option<ExprType>,
    },
    /// O14: the `PAR`. The line `first` of one component does one thing to a variable, and the line `second` of
    /// another one the other; one of them changes it.
    SharedVariable {
        variable: KnownName<'a>,
        first: u32,
        first_deed: Deed,
        second: u32,
        second_deed: Deed,
    },
    /// O15: the `PAR`. Two lines of different components use the same end of a channel, or of this element of an
    /// array of channels.
    SharedChannel {
        channel: KnownName<'a>,
        element: u32,
        direction: Direction,
        first: u32,
        second: u32,
    },
    /// O15: a declared channel, outside a `PAR` in its scope.
    OutsidePar,
    /// O15: a link of `main`, which is used or passed in this direction.
    OtherDirection {
        direction: Direction,
    },
    /// O16: operands with `+`, `-` or `*` between them, or `-` and its operand, by where the operands and the results
    /// lie. `left` is 0 if the operator has one operand; in a chain it is what the operands before have come to.
    Overflow {
        operator: Operator,
        left: Range,
        right: Range,
        results: Results,
    },
    /// O16: a quotient or a remainder, whose divisor may be 0, or -1 where the dividend may be the least INT.
    Division {
        operator: ArithmeticPair,
        dividend: Range,
        divisor: Range,
    },
    /// O16: a shift, whose count may not be in 0 to 31.
    ShiftCount {
        count: Range,
    },
    /// O16: a conversion, of an operand that may not be of the type.
    Conversion {
        to: ValueType,
        operand: Range,
    },
    /// O16: the size of an array, which is below 1.
    SizeBelowOne {
        size: i32,
    },
    /// O16: a count, which is below 0.
    CountBelowZero {
        count: i32,
    },
    /// O16: a base and a count, whose last index is beyond the greatest INT.
    LastIndex {
        base: i32,
        count: i32,
    },
    /// O16: a replicator or an instance, at whose end the program goes beyond the size that is gone over.
    TooLarge,
    /// O17: a subscript of an array with `size` elements, by where it lies.
    Outside {
        size: u32,
        subscript: Range,
    },
    /// O18: an actual, which is the same as `first`, or of it, or the other way round.
    PassedTwice {
        first: Tokens,
    },
    /// O19: the last item.
    NoMain(LastItem),
}

impl Why<'_> {
    /// The number of the rule.
    pub fn number(&self) -> u8
        ensures { result ≡ number_of self.now }
    {
        match self {
            Why::UnknownName { .. } => UNKNOWN_NAME,
            Why::DeclaredTwice { .. } => DECLARED_TWICE,
            Why::OtherType { .. }
            | Why::NoNumber
            | Why::OtherTypes { .. }
            | Why::OtherSort { .. }
            | Why::OtherPlaceType { .. }
            | Why::OtherItems { .. }
            | Why::TextOfInts => WRONG_TYPE,
            Why::NoConstant => CONSTANT_WANTED,
            Why::OtherCount { .. } | Why::NotTaken { .. } => OTHER_ACTUAL,
            Why::SharedVariable { .. } => SHARED_VARIABLE,
            Why::SharedChannel { .. } | Why::OutsidePar | Why::OtherDirection { .. } => CHANNEL_USE,
            Why::Overflow { .. }
            | Why::Division { .. }
            | Why::ShiftCount { .. }
            | Why::Conversion { .. }
            | Why::SizeBelowOne { .. }
            | Why::CountBelowZero { .. }
            | Why::LastIndex { .. }
            | Why::TooLarge => OUT_OF_RANGE,
            Why::Outside { .. } => OUTSIDE,
            Why::PassedTwice { .. } => PASSED_TWICE,
            Why::NoMain(_) => NO_MAIN,
        }
    }
}

/// Why a line breaks a usage rule, and what is known there.
#[derive(Drop)]
pub struct Reason<'a> {
    /// The number of the line.
    pub line: u32,
    /// The tokens of the line that are meant.
    pub tokens: Tokens,
    pub why: Why<'a>,
    ghost at_fault: { ∥ AreAtFault tokens why ∥₁ },
    /// What is known of the names in these tokens, in their order and each once; eight at most. Of a subscript the array's
    /// name is among them, of a value that of the place that it goes to, and of an actual that of its procedure or of
    /// the actual before it.
    pub known: Vec<KnownName<'a>>,
}
