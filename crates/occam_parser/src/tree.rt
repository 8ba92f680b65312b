//! The tree of a program.

use occam_layout::Text;
use word_arithmetic::Comparison;

/// What is at the outermost level of a program.
#[derive(Drop)]
pub enum Item<'a> {
    Constant(Constant<'a>),
    Proc(Proc<'a>),
}

impl Item<'_> {
    ghost use Rattle.std.specs.Prelude.{◌≡◌};
    ghost use Rattle.occam_parser.specs.Blocks.{item_line};
    ghost use Rattle.occam_parser.specs.BlockViews.{item_of};

    /// The number of the line that the item begins with.
    pub fn line(&self) -> u32
        ensures { result ≡ item_line (item_of self.now) }
    {
        match self {
            Item::Constant(constant) => constant.line,
            Item::Proc(proc) => proc.line,
        }
    }
}

/// A list of one item or more.
#[derive(Drop)]
pub struct OneOrMore<T> {
    pub first: T,
    pub others: Vec<T>,
}

/// The type of a value.
#[derive(Clone, Copy)]
pub enum ValueType {
    /// `INT`
    Int,
    /// `BYTE`
    Byte,
}

/// `VAL INT name IS expression:` and its kin.
#[derive(Drop)]
pub struct Constant<'a> {
    /// The number of its line.
    pub line: u32,
    /// The type of the value, or of each item of a table.
    pub value_type: ValueType,
    pub name: &'a [u8],
    pub value: ConstantValue<'a>,
}

/// What a constant denotes.
#[derive(Drop)]
pub enum ConstantValue<'a> {
    Scalar(Expr<'a>),
    /// `VAL [size]INT name IS [item, item]:`
    Table {
        size: Expr<'a>,
        items: OneOrMore<Expr<'a>>,
    },
    /// `VAL [size]BYTE name IS "text":`
    Text {
        size: Expr<'a>,
        text: Text<'a>,
    },
}

/// A procedure.
#[derive(Drop)]
pub struct Proc<'a> {
    /// The number of the line with its head.
    pub line: u32,
    pub name: &'a [u8],
    pub formals: Vec<Formal<'a>>,
    pub body: Process<'a>,
}

/// A parameter of a procedure.
#[derive(Drop)]
pub struct Formal<'a> {
    pub kind: FormalKind,
    /// How many elements an array has; none for a single one.
    pub size: Option<Expr<'a>>,
    pub value_type: ValueType,
    pub name: &'a [u8],
}

/// What a parameter denotes.
#[derive(Clone, Copy, PartialEq, Eq)]
pub enum FormalKind {
    /// `VAL`: a value.
    Value,
    Variable,
    /// `CHAN OF`
    Channel,
}

/// Declarations, and the construct that they are for.
#[cycle(process)]
#[derive(Drop)]
pub struct Process<'a> {
    pub declarations: Vec<Declaration<'a>>,
    /// The number of the line that the construct begins with.
    pub line: u32,
    pub construct: Box<Construct<'a>>,
}

/// What is declared before a construct.
#[derive(Drop)]
pub enum Declaration<'a> {
    Constant(Constant<'a>),
    /// `INT a, b:` and its kin.
    Variables(Names<'a>),
    /// `CHAN OF INT a, b:` and its kin.
    Channels(Names<'a>),
}

/// Names that one line declares.
#[derive(Drop)]
pub struct Names<'a> {
    /// The number of the line.
    pub line: u32,
    /// How many elements each array has; none for single ones.
    pub size: Option<Expr<'a>>,
    pub value_type: ValueType,
    pub names: OneOrMore<&'a [u8]>,
}

/// What a process does.
#[cycle(process)]
#[derive(Drop)]
pub enum Construct<'a> {
    Action(Action<'a>),
    Seq(Vec<Process<'a>>),
    Par(Vec<Process<'a>>),
    If(Vec<Choice<'a>>),
    Alt(Vec<Branch<'a>>),
    /// `SEQ i = base FOR count` and its kin.
    Replicated {
        replicator: Replicator<'a>,
        body: Body<'a>,
    },
}

/// The one component under a replicator, by the kind of the block.
#[cycle(process)]
#[derive(Drop)]
pub enum Body<'a> {
    Seq(Process<'a>),
    Par(Process<'a>),
    If(Choice<'a>),
    Alt(Branch<'a>),
}

/// What is on one line and has no body.
#[derive(Drop)]
pub enum Action<'a> {
    Skip,
    Stop,
    /// `target := value`
    Assign {
        target: Place<'a>,
        value: Expr<'a>,
    },
    /// `channel ? target`
    Input {
        channel: Place<'a>,
        target: Place<'a>,
    },
    /// `channel ! value`
    Output {
        channel: Place<'a>,
        value: Expr<'a>,
    },
    /// `name(actual, actual)`
    Instance {
        name: &'a [u8],
        actuals: Vec<Expr<'a>>,
    },
}

/// A variable or a channel: a name, or an element of an array.
#[derive(Drop)]
pub struct Place<'a> {
    pub name: &'a [u8],
    pub subscript: Option<Expr<'a>>,
}

/// `name = base FOR count`
#[derive(Drop)]
pub struct Replicator<'a> {
    pub name: &'a [u8],
    pub base: Expr<'a>,
    pub count: Expr<'a>,
}

/// A condition of an `IF`, and what is done where it is the first that holds.
#[cycle(process)]
#[derive(Drop)]
pub struct Choice<'a> {
    /// The number of the line with the condition.
    pub line: u32,
    pub condition: Expr<'a>,
    pub process: Process<'a>,
}

/// A guard of an `ALT`, and what is done where it is selected.
#[cycle(process)]
#[derive(Drop)]
pub struct Branch<'a> {
    /// The number of the line with the guard.
    pub line: u32,
    pub guard: Guard<'a>,
    pub process: Process<'a>,
}

/// What a branch of an `ALT` waits for.
#[derive(Drop)]
pub enum Guard<'a> {
    /// `channel ? target`, or `condition & channel ? target`
    Input {
        condition: Option<Expr<'a>>,
        channel: Place<'a>,
        target: Place<'a>,
    },
    /// `condition & SKIP`
    Skip {
        condition: Expr<'a>,
    },
}

/// An expression.
#[cycle(expression)]
#[derive(Drop)]
pub struct Expr<'a> {
    pub operation: Box<Operation<'a>>,
}

/// One operator with its operands, or an operand alone. Brackets are kept.
#[cycle(expression)]
#[derive(Drop)]
pub enum Operation<'a> {
    Operand(Operand<'a>),
    Prefix {
        operator: PrefixOperator,
        operand: Operand<'a>,
    },
    Pair {
        operator: PairOperator,
        left: Operand<'a>,
        right: Operand<'a>,
    },
    /// Operands with the same operator between them, read from the left.
    Chain {
        operator: ChainOperator,
        first: Operand<'a>,
        second: Operand<'a>,
        others: Vec<Operand<'a>>,
    },
}

/// An operand: of an operator, or alone.
#[cycle(expression)]
#[derive(Drop)]
pub enum Operand<'a> {
    Integer(i32),
    Character(u8),
    /// `TRUE` or `FALSE`
    Truth(bool),
    /// `MOSTPOS INT`
    MostPos,
    /// `MOSTNEG INT`
    MostNeg,
    Name(&'a [u8]),
    /// `name[subscript]`
    Element {
        name: &'a [u8],
        subscript: Expr<'a>,
    },
    /// `(expression)`
    Bracketed(Expr<'a>),
    /// `INT operand` or `BYTE operand`
    Converted {
        to: ValueType,
        operand: Box<Operand<'a>>,
    },
}

/// An operator before one operand.
#[derive(Clone, Copy)]
pub enum PrefixOperator {
    /// `-`
    Negate,
    /// `~`
    BitNot,
    /// `NOT`
    Not,
}

/// An operator between exactly two operands.
#[derive(Clone, Copy)]
pub enum PairOperator {
    Arithmetic(ArithmeticPair),
    /// `=`, `<>`, `<`, `>`, `<=` or `>=`
    Comparison(Comparison),
}

/// An operator between two numbers that gives a number.
#[derive(Clone, Copy)]
pub enum ArithmeticPair {
    /// `-`
    Subtract,
    /// `/`
    Divide,
    /// `\`
    Remainder,
    /// `MINUS`
    Minus,
    /// `<<`
    ShiftLeft,
    /// `>>`
    ShiftRight,
}

/// An associative operator, which may be between more than two operands.
#[derive(Clone, Copy)]
pub enum ChainOperator {
    Arithmetic(ArithmeticChain),
    Logic(Logic),
}

/// An associative operator between numbers.
#[derive(Clone, Copy)]
pub enum ArithmeticChain {
    /// `+`
    Add,
    /// `*`
    Multiply,
    /// `PLUS`
    Plus,
    /// `TIMES`
    Times,
    /// `/\`
    BitAnd,
    /// `\/`
    BitOr,
    /// `><`
    BitXor,
}

/// An operator between conditions.
#[derive(Clone, Copy)]
pub enum Logic {
    /// `AND`
    And,
    /// `OR`
    Or,
}
