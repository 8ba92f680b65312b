//! The rules of the instructions on words.
#![tactic(auto, unfolding(crate::specs::LocalRules::local_rule, crate::specs::LocalRules::local_operation_rule))]

ghost use Rattle.std.specs.Prelude.{◌≡◌, ◌&&◌, int_le, if◌then◌else◌, Some, None, pos, negsuc, ◌≤ℤ◌, ◌+◌, ℤ, IfOk};
ghost use Rattle.module_format.specs.Contents.{Contents};
ghost use Rattle.machine_state.specs.declared.op.Op.TheVariants.{Reverse, MinimumInteger, Binary, Unary, Shift, Long};
ghost use Rattle.machine_state.specs.declared.instruction.Instruction.TheVariants.{LoadConstant, LoadLocal};
ghost use Rattle.machine_state.specs.declared.instruction.Instruction.TheVariants.{StoreLocal, WithConstant};
ghost use Rattle.machine_state.specs.declared.instruction.Instruction.TheVariants.{LoadLocalPointer, AdjustWorkspace};
ghost use Rattle.machine_state.specs.declared.instruction.Instruction.TheVariants.{ConditionalJump};
ghost use Rattle.states.specs.Views.{state_of, BelongsTo};
ghost use Rattle.rulings.specs.Rulings.{forks_to};
ghost use Rattle.local_rules.specs.WordRules.{becomes, checks, has_long_operations, in_frame, where_false};
ghost use Rattle.local_rules.specs.WordRules.{where_true, test_of_check};
ghost use Rattle.local_rules.specs.LocalRules.{local_operation_rule, local_rule};
ghost use Rattle.rulings.specs.Telling.{Admits, Advances};
ghost use Rattle.rulings.specs.Places.{site_of};

use crate::narrowing::{narrow, told_by};
use crate::numbers::{
    Check, constant_source, fact_of_shift, has_range, long_results, result_fact, result_source,
    unary_result_fact, word_as_known,
};
use machine_state::{LongOp, Shift as ShiftOperation};
use module_format::{Fact, Region, Step};
use rulings::combinators::{alone, forward, in_bounds, outside_alternation, outside_starts, uses};
use rulings::pointers::near;
use rulings::{Continuation, Place};
use states::{Known, Rule, Source, State};
use word_arithmetic::{Binary as BinaryOperation, Unary as UnaryOperation};

/// The number as a word, if it lies between two words, both included.
fn between(number: i64, lo: i64, hi: i64) -> Option<i32>
    requires low { negsuc 2147483647 ≤ℤ lo }
    requires high { hi ≤ℤ pos 2147483647 }
    ensures { result ≡ (if int_le lo number && int_le number hi then Some number else None) }
{
    if number < lo || hi < number {
        return None;
    }
    Some(number as i32)
}

pub(crate) fn load_constant(
    place: &Place,
    state: &mut State,
    value: i32,
) -> Result<Continuation, Rule>
    ensures ruling { let ruling = local_rule (site_of place.now) LoadConstant value (state_of state.old) in
        Advances result (state_of state.new) ruling }
    ensures belongs { (m : Contents) → BelongsTo m state.old → BelongsTo m state.new }
{
    state.push(Known::of(Fact::Number {
        lo: value,
        hi: value,
    }));
    place.goes_on(state)
}

pub(crate) fn load_local(
    place: &Place,
    state: &mut State,
    distance: i32,
) -> Result<Continuation, Rule>
    requires { BelongsTo place.now.module.now state.old }
    ensures ruling { let ruling = local_rule (site_of place.now) LoadLocal distance (state_of state.old) in
        Advances result (state_of state.new) ruling }
    ensures belongs { BelongsTo place.now.module.now state.new }
{
    outside_starts(state.mode)?;
    let word = place.reads_word(state, distance)?;
    let fact = state.fact_at(word);
    state.push(word_as_known(word, fact));
    place.goes_on(state)
}

pub(crate) fn store_local(
    place: &Place,
    state: &mut State,
    distance: i32,
) -> Result<Continuation, Rule>
    requires { BelongsTo place.now.module.now state.old }
    ensures ruling { let ruling = local_rule (site_of place.now) StoreLocal distance (state_of state.old) in
        Advances result (state_of state.new) ruling }
    ensures belongs { BelongsTo place.now.module.now state.new }
{
    let fact = uses(state.stack.a)?;
    alone(state.mode)?;
    let word = place.writes_word(state, distance)?;
    state.write(word, fact);
    state.pop();
    place.goes_on(state)
}

/// A becomes the result, of which this is known, and where it comes from.
#[tactic(auto, unfolding(crate::specs::WordRules::becomes))]
fn becomes(
    place: &Place,
    state: &mut State,
    known: Option<Fact>,
    source: Source,
) -> Result<Continuation, Rule>
    ensures ruling { let ruling = becomes (site_of place.now) known source (state_of state.old) in
        Advances result (state_of state.new) ruling }
    ensures belongs { (m : Contents) → BelongsTo m state.old → BelongsTo m state.new }
{
    let fact = known.ok_or(Rule::Number)?;
    alone(state.mode)?;
    state.stack.a = Known { fact, source };
    place.goes_on(state)
}

pub(crate) fn with_constant(
    place: &Place,
    state: &mut State,
    op: BinaryOperation,
    value: i32,
) -> Result<Continuation, Rule>
    ensures ruling { let ruling = local_rule (site_of place.now) (WithConstant op) value
        (state_of state.old) in
        Advances result (state_of state.new) ruling }
    ensures belongs { (m : Contents) → BelongsTo m state.old → BelongsTo m state.new }
{
    let left = uses(state.stack.a)?;
    let right = Fact::Number {
        lo: value,
        hi: value,
    };
    let source = constant_source(op, state.stack.a, value);
    becomes(place, state, result_fact(op, left, right), source)
}

pub(crate) fn reverse(place: &Place, state: &mut State) -> Result<Continuation, Rule>
    ensures ruling { let ruling = local_operation_rule (site_of place.now) Reverse (state_of state.old) in
        Advances result (state_of state.new) ruling }
    ensures belongs { (m : Contents) → BelongsTo m state.old → BelongsTo m state.new }
{
    alone(state.mode)?;
    state.reverse();
    place.goes_on(state)
}

pub(crate) fn minimum_integer(place: &Place, state: &mut State) -> Result<Continuation, Rule>
    ensures ruling { let ruling = local_operation_rule (site_of place.now) MinimumInteger (state_of state.old) in
        Advances result (state_of state.new) ruling }
    ensures belongs { (m : Contents) → BelongsTo m state.old → BelongsTo m state.new }
{
    outside_starts(state.mode)?;
    state.push(Known::of(Fact::Number {
        lo: i32::MIN,
        hi: i32::MIN,
    }));
    place.goes_on(state)
}

pub(crate) fn binary(
    place: &Place,
    state: &mut State,
    op: BinaryOperation,
) -> Result<Continuation, Rule>
    ensures ruling { let ruling = local_operation_rule (site_of place.now) (Binary op) (state_of state.old) in
        Advances result (state_of state.new) ruling }
    ensures belongs { (m : Contents) → BelongsTo m state.old → BelongsTo m state.new }
{
    let right = uses(state.stack.a)?;
    let left = uses(state.stack.b)?;
    let source = result_source(op, state.stack.b, state.stack.a);
    state.pop();
    becomes(place, state, result_fact(op, left, right), source)
}

pub(crate) fn unary(
    place: &Place,
    state: &mut State,
    op: UnaryOperation,
) -> Result<Continuation, Rule>
    ensures ruling { let ruling = local_operation_rule (site_of place.now) (Unary op) (state_of state.old) in
        Advances result (state_of state.new) ruling }
    ensures belongs { (m : Contents) → BelongsTo m state.old → BelongsTo m state.new }
{
    let operand = uses(state.stack.a)?;
    becomes(
        place,
        state,
        unary_result_fact(op, operand),
        Source::Nowhere,
    )
}

pub(crate) fn shift(
    place: &Place,
    state: &mut State,
    op: ShiftOperation,
) -> Result<Continuation, Rule>
    ensures ruling { let ruling = local_operation_rule (site_of place.now) (Shift op) (state_of state.old) in
        Advances result (state_of state.new) ruling }
    ensures belongs { (m : Contents) → BelongsTo m state.old → BelongsTo m state.new }
{
    let count = uses(state.stack.a)?;
    let operand = uses(state.stack.b)?;
    state.pop();
    becomes(
        place,
        state,
        fact_of_shift(op, operand, count),
        Source::Nowhere,
    )
}

/// The module has the long operations.
#[tactic(auto, unfolding(crate::specs::WordRules::has_long_operations))]
fn has_long_operations(place: &Place) -> Result<(), Rule>
    ensures { Admits result (has_long_operations (site_of place.now)) }
{
    if !place.module.tables().has_long_operations {
        return Err(Rule::Spelling);
    }
    Ok(())
}

pub(crate) fn long(place: &Place, state: &mut State, op: LongOp) -> Result<Continuation, Rule>
    ensures ruling { let ruling = local_operation_rule (site_of place.now) (Long op) (state_of state.old) in
        Advances result (state_of state.new) ruling }
    ensures belongs { (m : Contents) → BelongsTo m state.old → BelongsTo m state.new }
{
    has_long_operations(place)?;
    let first = uses(state.stack.a)?;
    let second = uses(state.stack.b)?;
    let third = uses(state.stack.c)?;
    in_bounds(has_range(first) && has_range(second) && has_range(third))?;
    alone(state.mode)?;
    state.stack = long_results(op);
    place.goes_on(state)
}

/// `csub0` and `ccnt1`: B passes a test by A, and is kept.
pub(crate) fn check(place: &Place, state: &mut State, check: Check) -> Result<Continuation, Rule>
    ensures ruling { Advances result (state_of state.new)
        (checks (test_of_check check) (site_of place.now) (state_of state.old)) }
    ensures belongs { (m : Contents) → BelongsTo m state.old → BelongsTo m state.new }
{
    let bound = uses(state.stack.a)?;
    let number = uses(state.stack.b)?;
    in_bounds(check.passes(number, bound))?;
    alone(state.mode)?;
    state.pop();
    place.goes_on(state)
}

pub(crate) fn load_local_pointer(
    place: &Place,
    state: &mut State,
    distance: i32,
) -> Result<Continuation, Rule>
    ensures ruling { let ruling = local_rule (site_of place.now) LoadLocalPointer distance
        (state_of state.old) in
        Advances result (state_of state.new) ruling }
    ensures belongs { (m : Contents) → BelongsTo m state.old → BelongsTo m state.new }
{
    let offset = near(4 * (i64::from(state.depth) + i64::from(distance)))?;
    state.push(Known::of(Fact::Pointer {
        region: Region::Frame,
        lo: offset,
        hi: offset,
        step: Step::Word,
    }));
    place.goes_on(state)
}

/// The workspace stays within the bounds of the frame.
#[tactic(auto, unfolding(crate::specs::WordRules::in_frame))]
fn in_frame(place: &Place, state: &State, depth: i64) -> Result<i32, Rule>
    requires { BelongsTo place.now.module.now state.now }
    ensures test { Admits result (in_frame (site_of place.now) (state_of state.now) depth) }
    ensures depth { IfOk result (λ d. d ≡ depth) }
{
    match place.module.context(state.context) {
        Some(context) => between(depth, context.lo, context.hi).ok_or(Rule::OwnWord),
        None => Err(Rule::OwnWord),
    }
}

pub(crate) fn adjust_workspace(
    place: &Place,
    state: &mut State,
    distance: i32,
) -> Result<Continuation, Rule>
    requires { BelongsTo place.now.module.now state.old }
    ensures ruling { let ruling = local_rule (site_of place.now) AdjustWorkspace distance
        (state_of state.old) in
        Advances result (state_of state.new) ruling }
    ensures belongs { BelongsTo place.now.module.now state.new }
{
    alone(state.mode)?;
    let depth = in_frame(place, state, i64::from(state.depth) + i64::from(distance))?;
    state.move_to(depth);
    place.goes_on(state)
}

pub(crate) fn conditional_jump(
    place: &Place,
    state: &mut State,
    distance: i32,
) -> Result<Continuation, Rule>
    requires { BelongsTo place.now.module.now state.old }
    ensures ruling { let ruling = local_rule (site_of place.now) ConditionalJump distance
        (state_of state.old) in
        Advances result (state_of state.new) ruling }
    ensures belongs { BelongsTo place.now.module.now state.new }
{
    let condition = uses(state.stack.a)?;
    in_bounds(has_range(condition))?;
    outside_alternation(state.mode)?;
    forward(distance)?;
    outside_starts(state.mode)?;
    place.pays(state)?;
    forks(place, state, place.target(distance))
}

/// If the condition in A is false, the process goes on at a label, and else after the instruction.
fn forks(place: &Place, state: &mut State, to: u32) -> Result<Continuation, Rule>
    requires { BelongsTo place.now.module.now state.old }
    ensures ruling { let before = state_of state.old in
        Advances result (state_of state.new)
        (forks_to (site_of place.now) to (where_false before) (where_true before)) }
    ensures belongs { BelongsTo place.now.module.now state.new }
{
    let source = state.stack.a.source;
    let narrowing = told_by(state, source);
    narrow(state, narrowing, false);
    state.stack.a = Known::of(Fact::Number { lo: 0, hi: 0 });
    place.forks_to(state, to)?;
    narrow(state, narrowing, true);
    state.pop();
    Ok(Continuation::FallsOrLeads { to })
}
