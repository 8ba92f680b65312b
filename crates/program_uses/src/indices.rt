//! The turns in which the body of a replicator is gone over.

ghost use Rattle.std.specs.Prelude.{◌≡◌, ◌+ℤ◌, ◌-ℤ◌, pos, true, None};
ghost use Rattle.occam_parser.specs.LineViews.{replicator_of};
ghost use Rattle.occam_parser.specs.BlockViews.{body_of};
ghost use Rattle.scalar_ranges.specs.Scopes.{entries_of, meaning_of};
ghost use Rattle.program_uses.specs.Indices.{is_sequence, is_count, count_of, turns_from, turns_for, turns_of};
ghost use Rattle.program_uses.specs.Indices.{index_at, index_of, index_meaning, happens, index_range, repeats_of};
ghost use Rattle.program_uses.specs.Indices.{seen_repeats, index_in};
ghost use Rattle.word_arithmetic.specs.Range.{ends_of};

use crate::constants::value_as;
use occam_parser::{Body, Replicator, ValueType};
use scalar_ranges::{ExprType, Meaning, ScalarKind, Scope};
use word_arithmetic::Range;

/// The turns in which a body is gone over: the first index, if it is known, and how many there are.
#[derive(Clone, Copy)]
pub struct Turns {
    pub first: Option<i32>,
    pub count: u32,
}

impl Turns {
    /// Gone over once, with no index that is known.
    fn once() -> Turns
        ensures first { result.first ≡ None }
        ensures count { result.count ≡ 1 }
    {
        Turns {
            first: None,
            count: 1,
        }
    }

    /// The index of a turn.
    pub fn index_at(self, turn: u32) -> Option<i32>
        ensures { result ≡ index_at self.first turn }
    {
        i32::try_from(i64::from(self.first?) + i64::from(turn)).ok()
    }
}

/// Whether a count is from 1 on, and the last index is a word.
fn is_count(base: i32, count: i32) -> bool
    ensures { result ≡ is_count base count }
{
    1 <= count && i64::from(base) + i64::from(count) <= i64::from(i32::MAX) + 1
}

/// How often a body is gone over: once if the count is 0 or breaks a rule.
fn count_of(base: i32, count: Option<i32>) -> u32
    ensures { result ≡ count_of base count }
{
    match count {
        Some(count) if is_count(base, count) => count.unsigned_abs(),
        _ => 1,
    }
}

fn turns_from(counted: bool, base: Option<i32>, count: Option<i32>) -> Turns
    ensures { result ≡ turns_from counted base count }
{
    match base {
        None => Turns::once(),
        Some(first) => Turns {
            first: Some(first),
            count: if counted { count_of(first, count) } else { 1 },
        },
    }
}

/// Whether a body is under a `SEQ`.
pub fn is_sequence(body: &Body) -> bool
    ensures { result ≡ is_sequence (body_of body.now) }
{
    match body {
        Body::Seq(_) => true,
        Body::Par(_) | Body::If(_) | Body::Alt(_) => false,
    }
}

/// The turns in which a body is gone over: one for a `SEQ`, and where nothing is counted.
fn turns_for(counted: bool, sequential: bool, base: Option<i32>, count: Option<i32>) -> Turns
    ensures { result ≡ turns_for counted sequential base count }
{
    if sequential {
        Turns::once()
    } else {
        turns_from(counted, base, count)
    }
}

/// The turns in which the body of a replicator is gone over.
pub fn turns_of(counted: bool, scope: &Scope, sequential: bool, replicator: &Replicator) -> Turns
    ensures { result ≡ turns_of counted (entries_of scope.now) sequential (replicator_of replicator.now) }
{
    let base = value_as(scope, ExprType::Int, &replicator.base);
    let count = value_as(scope, ExprType::Int, &replicator.count);
    turns_for(counted, sequential, base, count)
}

/// What an index denotes: a number in a range under a `SEQ`, and a constant under another block.
fn index_of(sequential: bool, range: Range, value: Option<i32>) -> Meaning
    ensures { meaning_of result ≡ index_of sequential (ends_of range) value }
{
    if sequential {
        Meaning::Scalar {
            kind: ScalarKind::Index,
            value_type: ValueType::Int,
            range,
        }
    } else {
        Meaning::Constant {
            value_type: ValueType::Int,
            value,
        }
    }
}

/// What an index denotes where nothing is known of that of a `SEQ`.
pub fn index_meaning(sequential: bool, index: Option<i32>) -> Meaning
    ensures { meaning_of result ≡ index_meaning sequential index }
{
    index_of(sequential, Range::full(), index)
}

/// How the body of a replicator is gone over.
#[derive(Clone, Copy)]
pub struct Repeats {
    /// Whether its block is a `SEQ`.
    pub sequential: bool,
    pub turns: Turns,
    /// The numbers that the index of a `SEQ` may be.
    pub indices: Range,
    /// Whether it is gone over as often as it runs.
    pub happens: bool,
}

/// Whether a body is gone over as often as it runs.
fn happens(counted: bool, base: Option<i32>, count: Option<i32>) -> bool
    ensures { result ≡ happens counted base count }
{
    match (base, count) {
        (Some(base), Some(count)) => counted && is_count(base, count),
        _ => false,
    }
}

/// This count of numbers, from a base on.
fn numbers_from(base: i32, count: i32) -> Range
    requires { is_count base count ≡ true }
    ensures lo { result.lo ≡ base }
    ensures hi { result.hi ≡ base +ℤ (count -ℤ pos 1) }
{
    Range::new(base, base + (count - 1))
}

/// The numbers that the index of a `SEQ` may be.
fn index_range(base: Option<i32>, count: Option<i32>) -> Range
    ensures { ends_of result ≡ index_range base count }
{
    match (base, count) {
        (Some(base), Some(count)) if is_count(base, count) => numbers_from(base, count),
        (Some(base), Some(_)) => Range::constant(base),
        _ => Range::full(),
    }
}

/// How the body of a replicator is gone over.
pub fn repeats_of(
    counted: bool,
    scope: &Scope,
    sequential: bool,
    replicator: &Replicator,
) -> Repeats
    ensures { seen_repeats result
        ≡ repeats_of counted (entries_of scope.now) sequential (replicator_of replicator.now) }
{
    let base = value_as(scope, ExprType::Int, &replicator.base);
    let count = value_as(scope, ExprType::Int, &replicator.count);
    Repeats {
        sequential,
        turns: turns_for(counted, sequential, base, count),
        indices: index_range(base, count),
        happens: sequential || happens(counted, base, count),
    }
}

impl Repeats {
    /// What the index denotes in a turn.
    pub fn index_in(self, turn: u32) -> Meaning
        ensures { meaning_of result ≡ index_in (seen_repeats self) turn }
    {
        index_of(self.sequential, self.indices, self.turns.index_at(turn))
    }
}
