//! The names of the instructions.
#![tactic(auto, unfolding(crate::specs::Names::function_name, crate::specs::Names::binary_name, crate::specs::Names::operation_name))]

ghost use Rattle.std.specs.Prelude.{◌≡◌};
ghost use Rattle.listings.specs.Names.{binary_name, function_name, operation_name};

use machine_state::{LongOp, Op, Shift};
use prefix_decoder::Fun;
use word_arithmetic::{Binary, Unary};

/// The name of a function of an instruction byte.
pub fn function_name(fun: Fun) -> &'static str
    ensures { result.now ≡ function_name fun }
{
    match fun {
        Fun::Jump => "j",
        Fun::LoadLocalPointer => "ldlp",
        Fun::LoadNonLocal => "ldnl",
        Fun::LoadConstant => "ldc",
        Fun::LoadNonLocalPointer => "ldnlp",
        Fun::LoadLocal => "ldl",
        Fun::AddConstant => "adc",
        Fun::Call => "call",
        Fun::ConditionalJump => "cj",
        Fun::AdjustWorkspace => "ajw",
        Fun::EqualsConstant => "eqc",
        Fun::StoreLocal => "stl",
        Fun::StoreNonLocal => "stnl",
        Fun::Operate => "opr",
    }
}

/// The name of an operation of two operands.
fn binary_name(op: Binary) -> &'static str
    ensures { result.now ≡ binary_name op }
{
    match op {
        Binary::Add => "add",
        Binary::Subtract => "sub",
        Binary::Multiply => "mul",
        Binary::Divide => "div",
        Binary::Remainder => "rem",
        Binary::Sum => "sum",
        Binary::Difference => "diff",
        Binary::Product => "prod",
        Binary::And => "and",
        Binary::Or => "or",
        Binary::ExclusiveOr => "xor",
        Binary::Greater => "gt",
        Binary::Equal => "eqc",
    }
}

/// The name of an operation, which `opr` chooses by its operand.
pub fn operation_name(op: Op) -> &'static str
    ensures { result.now ≡ operation_name op }
{
    match op {
        Op::Reverse => "rev",
        Op::MinimumInteger => "mint",
        Op::Binary(op) => binary_name(op),
        Op::Unary(Unary::Not) => "not",
        Op::Shift(Shift::Left) => "shl",
        Op::Shift(Shift::Right) => "shr",
        Op::Long(LongOp::Sum) => "lsum",
        Op::Long(LongOp::Difference) => "ldiff",
        Op::Long(LongOp::Product) => "lmul",
        Op::LoadByte => "lb",
        Op::StoreByte => "sb",
        Op::ByteSubscript => "bsub",
        Op::WordSubscript => "wsub",
        Op::CheckSubscript => "csub0",
        Op::CheckCount => "ccnt1",
        Op::LoadPointerToInstruction => "ldpi",
        Op::Move => "move",
        Op::Input => "in",
        Op::Output => "out",
        Op::StartProcess => "startp",
        Op::EndProcess => "endp",
        Op::StopProcess => "stopp",
        Op::Return => "ret",
        Op::LoopEnd => "lend",
        Op::Alternate => "alt",
        Op::EnableChannel => "enbc",
        Op::EnableSkip => "enbs",
        Op::AlternationWait => "altwt",
        Op::DisableChannel => "disc",
        Op::DisableSkip => "diss",
        Op::AlternationEnd => "altend",
    }
}
