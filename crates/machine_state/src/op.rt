//! The operations, which the function `opr` chooses by its operand.

ghost use Rattle.std.specs.Prelude.{◌≡◌, ◌<◌};
ghost use Rattle.machine_state.specs.Instructions.{op_of};
ghost use Rattle.machine_state.specs.LocalStep.{shift_result, long_result};

use word_arithmetic::{
    Binary, LongResult, Unary, long_difference, long_product, long_sum, shift_left, shift_right,
};

/// The most bytes that `move` copies at once.
pub const MOST_MOVED: u32 = 65_536;

/// The most bits by which a word is shifted.
pub const MOST_SHIFT: u32 = 31;

/// A shift of B by A.
#[derive(Clone, Copy, Debug)]
pub enum Shift {
    /// `shl`.
    Left,
    /// `shr`.
    Right,
}

impl Shift {
    /// The word, shifted by this count of bits.
    pub fn apply(self, word: i32, count: u32) -> i32
        requires { count < 32 }
        ensures { result ≡ shift_result self word count }
    {
        match self {
            Shift::Left => shift_left(word, count),
            Shift::Right => shift_right(word, count),
        }
    }
}

/// An operation of two words at a time.
#[derive(Clone, Copy, Debug)]
pub enum LongOp {
    /// `lsum`.
    Sum,
    /// `ldiff`.
    Difference,
    /// `lmul`.
    Product,
}

impl LongOp {
    /// The result of B, A and C, in this order.
    pub fn apply(self, left: i32, right: i32, third: i32) -> LongResult
        ensures { result ≡ long_result self left right third }
    {
        match self {
            LongOp::Sum => long_sum(left, right, third),
            LongOp::Difference => long_difference(left, right, third),
            LongOp::Product => long_product(left, right, third),
        }
    }
}

/// An operation.
#[derive(Clone, Copy, Debug)]
pub enum Op {
    /// `rev`: A and B change places.
    Reverse,
    /// `mint`: the least word is pushed.
    MinimumInteger,
    /// `add` and the like: A and B are popped, and the result of B and A is pushed.
    Binary(Binary),
    /// `not` and the like: A becomes the result of A.
    Unary(Unary),
    /// `shl`, `shr`.
    Shift(Shift),
    /// `lsum`, `ldiff`, `lmul`.
    Long(LongOp),
    /// `lb`: A becomes the byte at A.
    LoadByte,
    /// `sb`: the byte at A becomes the low byte of B.
    StoreByte,
    /// `bsub`: A becomes the address B bytes after A.
    ByteSubscript,
    /// `wsub`: A becomes the address B words after A.
    WordSubscript,
    /// `csub0`: B is a subscript below A.
    CheckSubscript,
    /// `ccnt1`: B is a count from 1 to A.
    CheckCount,
    /// `ldpi`: A becomes the address A bytes after the instruction.
    LoadPointerToInstruction,
    /// `move`: A bytes from C go to B.
    Move,
    /// `in`: A bytes from channel B go to C.
    Input,
    /// `out`: A bytes at C go to channel B.
    Output,
    /// `startp`: a branch begins, B bytes after the instruction, with workspace A.
    StartProcess,
    /// `endp`: a branch, or the starter, ends in the join of block A.
    EndProcess,
    /// `stopp`: the process stops.
    StopProcess,
    /// `ret`: the procedure returns.
    Return,
    /// `lend`: the loop of block B turns, A bytes back, or ends.
    LoopEnd,
    /// `alt`: an alternation begins.
    Alternate,
    /// `enbc`: channel B is enabled where the guard A holds.
    EnableChannel,
    /// `enbs`: a skip is enabled where the guard A holds.
    EnableSkip,
    /// `altwt`: the alternation waits until it is ready.
    AlternationWait,
    /// `disc`: channel C is disabled where the guard B holds, and A is selected if it is the first that is ready.
    DisableChannel,
    /// `diss`: a skip is disabled where the guard B holds, and A is selected if it is the first that is ready.
    DisableSkip,
    /// `altend`: the process continues at the selected distance.
    AlternationEnd,
}

impl Op {
    /// The operation that an operand of `opr` chooses; `None` where the machine has none.
    #[tactic(auto, unfolding(crate::specs::Instructions::op_of))]
    pub fn of(operand: i32) -> Option<Self>
        ensures { result ≡ op_of operand }
    {
        match operand {
            0x00 => Some(Op::Reverse),
            0x01 => Some(Op::LoadByte),
            0x02 => Some(Op::ByteSubscript),
            0x03 => Some(Op::EndProcess),
            0x04 => Some(Op::Binary(Binary::Difference)),
            0x05 => Some(Op::Binary(Binary::Add)),
            0x07 => Some(Op::Input),
            0x08 => Some(Op::Binary(Binary::Product)),
            0x09 => Some(Op::Binary(Binary::Greater)),
            0x0a => Some(Op::WordSubscript),
            0x0b => Some(Op::Output),
            0x0c => Some(Op::Binary(Binary::Subtract)),
            0x0d => Some(Op::StartProcess),
            0x13 => Some(Op::CheckSubscript),
            0x15 => Some(Op::StopProcess),
            0x1b => Some(Op::LoadPointerToInstruction),
            0x1f => Some(Op::Binary(Binary::Remainder)),
            0x20 => Some(Op::Return),
            0x21 => Some(Op::LoopEnd),
            0x2c => Some(Op::Binary(Binary::Divide)),
            0x2f => Some(Op::DisableChannel),
            0x30 => Some(Op::DisableSkip),
            0x31 => Some(Op::Long(LongOp::Product)),
            0x32 => Some(Op::Unary(Unary::Not)),
            0x33 => Some(Op::Binary(Binary::ExclusiveOr)),
            0x37 => Some(Op::Long(LongOp::Sum)),
            0x3b => Some(Op::StoreByte),
            0x40 => Some(Op::Shift(Shift::Right)),
            0x41 => Some(Op::Shift(Shift::Left)),
            0x42 => Some(Op::MinimumInteger),
            0x43 => Some(Op::Alternate),
            0x44 => Some(Op::AlternationWait),
            0x45 => Some(Op::AlternationEnd),
            0x46 => Some(Op::Binary(Binary::And)),
            0x48 => Some(Op::EnableChannel),
            0x49 => Some(Op::EnableSkip),
            0x4a => Some(Op::Move),
            0x4b => Some(Op::Binary(Binary::Or)),
            0x4d => Some(Op::CheckCount),
            0x4f => Some(Op::Long(LongOp::Difference)),
            0x52 => Some(Op::Binary(Binary::Sum)),
            0x53 => Some(Op::Binary(Binary::Multiply)),
            _ => None,
        }
    }
}
