//! Sums and differences that may not fit a word.

ghost use Rattle.std.specs.Prelude.{◌≡◌, negsuc, pos, ◌≤ℤ◌, ◌+ℤ◌, ◌-ℤ◌, ◌*ℤ◌};
ghost use Rattle.explanation_parts.specs.Results.{moved, sum_of, difference_of, result_of};

use fact_texts::RangeText;
use machine_state::{Instruction, Op};
use module_format::{Fact, Stack};
use states::Known;
use word_arithmetic::Binary;

/// A sum.
fn sum(number: i64, other: i64) -> i64
    requires number { (negsuc 4294967295 ≤ℤ number) × (number ≤ℤ pos 4294967296) }
    requires other { (negsuc 34359738367 ≤ℤ other) × (other ≤ℤ pos 34359738368) }
    ensures { result ≡ number +ℤ other }
{
    number + other
}

/// A difference.
fn difference(number: i32, other: i32) -> i64
    ensures { result ≡ number -ℤ other }
{
    i64::from(number) - i64::from(other)
}

/// The bytes of a number of words.
fn bytes_of(words: i32) -> i64
    ensures { result ≡ pos 4 *ℤ words }
{
    4 * i64::from(words)
}

/// The range of a number that is moved by a distance.
fn moved(fact: Fact, by: i64) -> Option<RangeText>
    requires { (negsuc 34359738367 ≤ℤ by) × (by ≤ℤ pos 34359738368) }
    ensures { result ≡ moved fact by }
{
    match fact {
        Fact::Number { lo, hi } => Some(RangeText {
            lo: sum(i64::from(lo), by),
            hi: sum(i64::from(hi), by),
        }),
        _ => None,
    }
}

/// The range of a sum.
fn sum_of(fact: Fact, other: Fact) -> Option<RangeText>
    ensures { result ≡ sum_of fact other }
{
    match (fact, other) {
        (Fact::Number { lo, hi }, Fact::Number { lo: low, hi: high }) => Some(RangeText {
            lo: sum(i64::from(lo), i64::from(low)),
            hi: sum(i64::from(hi), i64::from(high)),
        }),
        _ => None,
    }
}

/// The range of the second, less the first.
fn difference_of(fact: Fact, other: Fact) -> Option<RangeText>
    ensures { result ≡ difference_of fact other }
{
    match (fact, other) {
        (Fact::Number { lo, hi }, Fact::Number { lo: low, hi: high }) => Some(RangeText {
            lo: difference(low, hi),
            hi: difference(high, lo),
        }),
        _ => None,
    }
}

/// The range of a checked sum or difference.
#[tactic(auto, unfolding(crate::specs::Results::result_of))]
pub fn result_of(instruction: Instruction, operand: i32, stack: Stack<Known>) -> Option<RangeText>
    ensures { result ≡ result_of instruction operand stack }
{
    match instruction {
        Instruction::WithConstant(Binary::Add) => moved(stack.a.fact, i64::from(operand)),
        Instruction::LoadNonLocalPointer => moved(stack.a.fact, bytes_of(operand)),
        Instruction::Operate(Op::Binary(Binary::Add)) => sum_of(stack.a.fact, stack.b.fact),
        Instruction::Operate(Op::Binary(Binary::Subtract)) => {
            difference_of(stack.a.fact, stack.b.fact)
        }
        _ => None,
    }
}
