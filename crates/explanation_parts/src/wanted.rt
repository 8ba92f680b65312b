//! What instructions want, by the rule that they break.
#![tactic(auto, unfolding(crate::proofs::Opening::wanted_opens))]

ghost use Rattle.std.specs.Prelude.{◌≡◌};
ghost use Rattle.explanation_parts.specs.Wanted.{numbers_wanted, number_wanted, sum_wanted, pointer_wanted, regions_wanted};
ghost use Rattle.explanation_parts.specs.Wanted.{channel_wanted, length_wanted, order_wanted, forward_wanted, par_wanted};
ghost use Rattle.explanation_parts.specs.Wanted.{call_wanted, word_wanted, payment_wanted, label_wanted, number_asked, wanted};

use machine_state::{Instruction, Op};
use states::Rule;
use word_arithmetic::Binary;

/// Two numbers are wanted.
fn numbers_wanted(op: Binary) -> &'static str
    ensures { result.now ≡ numbers_wanted op }
{
    match op {
        Binary::Multiply => "numbers in A and B whose product fits a word",
        Binary::Divide => "numbers in A and B, A never 0, whose quotient fits a word",
        Binary::Remainder => "numbers in A and B, A never 0, whose quotient fits a word",
        _ => "numbers in A and B",
    }
}

/// A number is wanted.
fn number_wanted(instruction: Instruction) -> &'static str
    ensures { result.now ≡ number_wanted instruction }
{
    match instruction {
        Instruction::Operate(Op::Binary(op)) => numbers_wanted(op),
        Instruction::Operate(Op::Unary(_)) => "a number in A",
        Instruction::Operate(Op::Shift(_)) => "a number in B, and a count from 0 to 31 in A",
        Instruction::Operate(Op::Long(_)) => "numbers in A, B and C",
        Instruction::Operate(Op::CheckSubscript) => "numbers in A and B, B from 0 to below A",
        Instruction::Operate(Op::CheckCount) => "numbers in A and B, B from 1 to A",
        Instruction::Operate(Op::ByteSubscript) => "a number in B",
        Instruction::Operate(Op::WordSubscript) => "a number in B",
        Instruction::Operate(Op::StoreByte) =>
            "a number in B, and A to lead where words may be any numbers",
        Instruction::Operate(Op::Move) =>
            "a constant from 0 to 65536 in A, and B to lead where words may be any numbers",
        Instruction::Operate(Op::Input) =>
            "a constant in A, and C to lead where words may be any numbers",
        Instruction::Operate(_) => "a constant in A",
        Instruction::LoadNonLocalPointer => "a number or a pointer in A",
        Instruction::StoreNonLocal => "a number in B, in the range of the words where A leads",
        Instruction::Call => "numbers in the ranges of the parameters",
        _ => "a number in A",
    }
}

/// A result that fits is wanted.
fn sum_wanted(instruction: Instruction) -> &'static str
    ensures { result.now ≡ sum_wanted instruction }
{
    match instruction {
        Instruction::Operate(_) => "a result that fits a word",
        _ => "a sum that fits a word",
    }
}

/// A pointer is wanted.
fn pointer_wanted(instruction: Instruction) -> &'static str
    ensures { result.now ≡ pointer_wanted instruction }
{
    match instruction {
        Instruction::Operate(Op::ByteSubscript) =>
            "a pointer in A, and a byte at most 16777216 from its region",
        Instruction::Operate(Op::WordSubscript) =>
            "a pointer in A, and a word at most 16777216 bytes from its region",
        Instruction::Operate(Op::LoadPointerToInstruction) =>
            "in A the distance to a byte of the code or of the constants",
        Instruction::Operate(Op::LoadByte) => "a pointer in A to bytes that may be read",
        Instruction::Operate(Op::StoreByte) => "a pointer in A to bytes that may be written",
        Instruction::Operate(Op::Move) =>
            "exact pointers, in B to bytes that may be written and in C to others that may be read",
        Instruction::Operate(Op::Input) =>
            "a pointer in C to bytes that may be written and are not scheduled, and none too far in B",
        Instruction::Operate(Op::Output) =>
            "a pointer in C to bytes that may be read and are not scheduled, and none too far in B",
        Instruction::Operate(Op::EnableChannel) =>
            "in B no pointer more than 16777216 bytes from its region",
        Instruction::Operate(Op::DisableChannel) =>
            "in C no pointer more than 16777216 bytes from its region",
        Instruction::Operate(_) => "in A no pointer more than 16777216 bytes from its region",
        Instruction::LoadNonLocal => "a pointer by 4 in A to words that may be read",
        Instruction::StoreNonLocal => "a pointer by 4 in A to words that may be written",
        Instruction::Call => "for the parameters exact pointers to bytes that may be lent",
        _ => "a pointer at most 16777216 bytes from its region",
    }
}

/// Regions are to be apart.
fn regions_wanted(instruction: Instruction) -> &'static str
    ensures { result.now ≡ regions_wanted instruction }
{
    match instruction {
        Instruction::Call => "for the parameters regions that are apart where one is written",
        _ =>
            "for the branch words and parameters that are apart from those of branches that are started",
    }
}

/// A channel is wanted.
fn channel_wanted(instruction: Instruction) -> &'static str
    ensures { result.now ≡ channel_wanted instruction }
{
    match instruction {
        Instruction::Operate(Op::Input) => "a channel in B whose receiving end the context has",
        Instruction::Operate(Op::Output) => "a channel in B whose sending end the context has",
        Instruction::Operate(Op::EnableChannel) =>
            "a channel in B whose receiving end the context has",
        Instruction::Operate(_) =>
            "for the branch ends that the context has and has given to no branch",
        _ => "for the parameters channels whose ends the context has, each end once",
    }
}

/// A length of messages is wanted.
fn length_wanted(instruction: Instruction) -> &'static str
    ensures { result.now ≡ length_wanted instruction }
{
    match instruction {
        Instruction::Call => "channels with messages as long as the parameters want",
        _ => "a message as long as those of the channel",
    }
}

/// An order in alternations is wanted.
fn order_wanted(instruction: Instruction) -> &'static str
    ensures { result.now ≡ order_wanted instruction }
{
    match instruction {
        Instruction::Operate(Op::Alternate) => "to be in the middle of nothing",
        Instruction::Operate(Op::EnableChannel) =>
            "to be between alt and altwt, with a new guard of at most 64, by a constant or a word",
        Instruction::Operate(Op::EnableSkip) =>
            "to be between alt and altwt, with a guard of at most 64, by a constant or a word",
        Instruction::Operate(Op::AlternationWait) =>
            "to be after alt, with no guard named by the word at the workspace",
        Instruction::Operate(Op::DisableChannel) =>
            "to be after altwt, with the next guard in B and C and a constant in A",
        Instruction::Operate(Op::DisableSkip) =>
            "to be after altwt, with the next guard in B and a constant in A",
        Instruction::Operate(Op::AlternationEnd) =>
            "to be after altwt, with all guards disabled and labels where they lead",
        Instruction::Operate(_) => "to be outside an alternation",
        _ => "to be outside an alternation",
    }
}

/// A way forward is wanted.
fn forward_wanted(instruction: Instruction) -> &'static str
    ensures { result.now ≡ forward_wanted instruction }
{
    match instruction {
        Instruction::Operate(Op::LoopEnd) =>
            "in B the block of a loop and in A the distance back to its label",
        Instruction::Operate(Op::AlternationEnd) => "guards that lead forward",
        Instruction::Operate(_) =>
            "a label after the PAR with no loop of which a branch writes a word",
        _ => "to lead forward",
    }
}

/// An order in PARs is wanted.
fn par_wanted(instruction: Instruction) -> &'static str
    ensures { result.now ≡ par_wanted instruction }
{
    match instruction {
        Instruction::Operate(Op::StartProcess) =>
            "the next branch of a PAR, as its row says, and its workspace in A",
        Instruction::Operate(Op::EndProcess) =>
            "to end a branch, or all starts, with the block of the PAR in A",
        Instruction::Operate(_) => "to be outside the starts of a PAR",
        _ => "to be outside the starts of a PAR",
    }
}

/// A call or a return is wanted.
fn call_wanted(instruction: Instruction) -> &'static str
    ensures { result.now ≡ call_wanted instruction }
{
    match instruction {
        Instruction::Call => "a procedure there that may be called from here",
        _ => "to be in a procedure, at depth 0 with the return address in word 0",
    }
}

/// Words are wanted.
fn word_wanted(instruction: Instruction) -> &'static str
    ensures { result.now ≡ word_wanted instruction }
{
    match instruction {
        Instruction::Operate(Op::AlternationWait) =>
            "to write the word at the workspace and the three below it",
        Instruction::Operate(Op::DisableChannel) => "to write the word at the workspace",
        Instruction::Operate(Op::DisableSkip) => "to write the word at the workspace",
        Instruction::Operate(Op::StartProcess) =>
            "a branch that may write the three words below its workspace",
        Instruction::Operate(_) => "to write the three words below the workspace",
        Instruction::LoadLocal => "a word that the context may read",
        Instruction::StoreLocal => "a word that the context may write",
        Instruction::AdjustWorkspace => "the workspace within the frame",
        Instruction::Call => "to write all words of the frame of the procedure",
        _ => "to write the three words below the workspace",
    }
}

/// A payment is wanted.
fn payment_wanted(instruction: Instruction) -> &'static str
    ensures { result.now ≡ payment_wanted instruction }
{
    match instruction {
        Instruction::Operate(Op::LoopEnd) =>
            "a number that pays for its bytes, and with the weight of the loop at its label",
        Instruction::Operate(Op::AlternationEnd) =>
            "a number that pays for its bytes and at each label where a guard leads",
        Instruction::Operate(Op::StartProcess) =>
            "a number that pays for its bytes and at the labels of the branch and after the PAR",
        Instruction::Operate(_) => "a number that pays for its bytes",
        Instruction::Jump => "a number that pays for its bytes and at the label there",
        Instruction::ConditionalJump => "a number that pays for its bytes and at the label there",
        Instruction::Call => "a number that pays for its bytes and for the procedure",
        _ => "a number that pays for its bytes",
    }
}

/// A label is wanted.
fn label_wanted(instruction: Instruction) -> &'static str
    ensures { result.now ≡ label_wanted instruction }
{
    match instruction {
        Instruction::Operate(Op::StartProcess) =>
            "labels of the branch and after the PAR that say no more than is known",
        Instruction::Operate(Op::EndProcess) =>
            "a label after the PAR that says no more than is known",
        Instruction::Operate(Op::LoopEnd) => "a label of the loop that says no more than is known",
        Instruction::Operate(_) => "labels where the guards lead that say no more than is known",
        _ => "a label there that says no more than is known",
    }
}

/// Numbers are wanted, or a result that fits, if the numbers are known.
fn number_asked(instruction: Instruction, has_sum: bool) -> &'static str
    ensures { result.now ≡ number_asked instruction has_sum }
{
    if has_sum {
        return sum_wanted(instruction);
    }
    number_wanted(instruction)
}

/// What is wanted, by the rule that is broken.
pub fn wanted(rule: Rule, instruction: Instruction, has_sum: bool) -> &'static str
    ensures { result.now ≡ wanted rule instruction has_sum }
{
    match rule {
        Rule::Spelling => "a module that has operations on double words",
        Rule::InstructionStart => "no start within it",
        Rule::Flow => "a way that leads here",
        Rule::UnknownRegister => "known values",
        Rule::Number => number_asked(instruction, has_sum),
        Rule::Pointer => pointer_wanted(instruction),
        Rule::RegionsMeet => regions_wanted(instruction),
        Rule::Channel => channel_wanted(instruction),
        Rule::MessageLength => length_wanted(instruction),
        Rule::Alternation => order_wanted(instruction),
        Rule::Forward => forward_wanted(instruction),
        Rule::Par => par_wanted(instruction),
        Rule::Call => call_wanted(instruction),
        Rule::OwnWord => word_wanted(instruction),
        Rule::Budget => payment_wanted(instruction),
        Rule::Label => label_wanted(instruction),
    }
}
