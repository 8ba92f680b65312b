//! Keywords and signs.

/// A keyword or a sign, by its spelling.
#[derive(Clone, Copy, Debug, PartialEq, Eq)]
pub enum Mark {
    /// `VAL`
    Val,
    /// `IS`
    Is,
    /// `INT`
    Int,
    /// `BYTE`
    Byte,
    /// `PROC`
    Proc,
    /// `CHAN`
    Chan,
    /// `OF`
    Of,
    /// `SKIP`
    Skip,
    /// `STOP`
    Stop,
    /// `SEQ`
    Seq,
    /// `PAR`
    Par,
    /// `IF`
    If,
    /// `ALT`
    Alt,
    /// `FOR`
    For,
    /// `MOSTPOS`
    MostPos,
    /// `MOSTNEG`
    MostNeg,
    /// `PLUS`
    Plus,
    /// `MINUS`
    Minus,
    /// `TIMES`
    Times,
    /// `AND`
    And,
    /// `OR`
    Or,
    /// `NOT`
    Not,
    /// `TRUE`
    True,
    /// `FALSE`
    False,
    /// `:=`
    Assign,
    /// `/\`
    BitAnd,
    /// `\/`
    BitOr,
    /// `><`
    BitXor,
    /// `<<`
    ShiftLeft,
    /// `>>`
    ShiftRight,
    /// `<>`
    NotEqual,
    /// `<=`
    LessOrEqual,
    /// `>=`
    GreaterOrEqual,
    /// `:`
    Colon,
    /// `,`
    Comma,
    /// `(`
    OpenParenthesis,
    /// `)`
    CloseParenthesis,
    /// `[`
    OpenBracket,
    /// `]`
    CloseBracket,
    /// `?`
    Input,
    /// `!`
    Output,
    /// `&`
    Guard,
    /// `+`
    Add,
    /// `-`
    Subtract,
    /// `*`
    Multiply,
    /// `/`
    Divide,
    /// `\`
    Remainder,
    /// `~`
    BitNot,
    /// `=`
    Equal,
    /// `<`
    Less,
    /// `>`
    Greater,
}
