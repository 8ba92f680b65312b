//! The rule of `move`, which copies bytes from one place to another.

ghost use Rattle.std.specs.Prelude.{◌≡◌, ◌≤ℤ◌, ◌<ℤ◌, ◌+ℤ◌, ℤ, pos, true, int_le, IfOk};
ghost use Rattle.module_format.specs.Contents.{Contents};
ghost use Rattle.module_format.specs.Regions.{is_frame};
ghost use Rattle.machine_state.specs.declared.op.TheConstants.{MOST_MOVED};
ghost use Rattle.states.specs.Views.{state_of, BelongsTo, CanWriteSpan};
ghost use Rattle.rulings.specs.Reach.{word_of_byte, words_touched};
ghost use Rattle.rulings.specs.Pointers.{are_near};
ghost use Rattle.local_rules.specs.MoveRules.{is_movable, are_blocks_apart, may_come, amount, clears, come, moves_some};
ghost use Rattle.local_rules.specs.MoveRules.{moves_bytes, moves};
ghost use Rattle.rulings.specs.Filling.{are_numbers};
ghost use Rattle.rulings.specs.Telling.{Gives, Advances};
ghost use Rattle.rulings.specs.Places.{site_of};

use machine_state::MOST_MOVED;
use module_format::{Fact, Stack};
use rulings::combinators::{alone, uses};
use rulings::filling::{are_numbers, fill};
use rulings::pointers::{Pointed, constant_of, exact_pointer};
use rulings::reading::sum_reached;
use rulings::{Continuation, Place};
use states::{Known, Rule, State};

/// The most bytes that `move` copies at once, as a signed number.
const MOST_BYTES: i32 = MOST_MOVED as i32;

/// Bytes that go from one place to another: how many, and both places, all of which are known.
#[derive(Clone, Copy)]
struct Block {
    count: i32,
    from: Pointed,
    to: Pointed,
    ghost counted: { pos 0 ≤ℤ count },
    ghost few: { count ≤ℤ pos MOST_MOVED },
    ghost source: { are_near from.lo from.hi ≡ true },
    ghost target: { are_near to.lo to.hi ≡ true },
    ghost exact: { to.lo ≡ to.hi },
}

/// How many bytes are moved, which is a constant, to where B points.
#[tactic(auto, unfolding(rulings::specs::Rulings::settles, rulings::specs::Rulings::in_bounds, crate::specs::MoveRules::amount))]
fn amount(place: &Place, state: &State, a: Fact, b: Fact) -> Result<i32, Rule>
    ensures answer { Gives (λ count. count) result (amount (site_of place.now) (state_of state.now) a b) }
    ensures some { IfOk result (λ count. pos 0 ≤ℤ count) }
    ensures few { IfOk result (λ count. count ≤ℤ pos MOST_MOVED) }
{
    let count = constant_of(a)?;
    if !is_movable(count) || !place.takes_any(state.context, b) {
        return Err(Rule::Number);
    }
    Ok(count)
}

/// All registers are used up, outside alternations and starts.
fn clears(place: &Place, state: &mut State) -> Result<Continuation, Rule>
    ensures ruling { Advances result (state_of state.new) (clears (site_of place.now) (state_of state.old)) }
    ensures belongs { (m : Contents) → BelongsTo m state.old → BelongsTo m state.new }
{
    alone(state.mode)?;
    state.stack = Stack::of_empty(Known::UNKNOWN);
    place.goes_on(state)
}

/// The bytes of a block, at least one, which may be read, come to where they may be written.
#[tactic(auto, unfolding(crate::specs::MoveRules::come))]
fn come(place: &Place, state: &mut State, block: Block) -> Result<Continuation, Rule>
    requires belongs { BelongsTo place.now.module.now state.old }
    requires some { pos 0 <ℤ block.count }
    requires room { let touched = words_touched block.to.lo (block.to.hi +ℤ block.count) in
        is_frame block.to.region ≡ true → CanWriteSpan state.old (word_of_byte block.to.lo) touched }
    ensures ruling { let ruling = come (site_of place.now) block.count block.from block.to (state_of state.old) in
        Advances result (state_of state.new) ruling }
    ensures belongs { BelongsTo place.now.module.now state.new }
{
    let numbers = are_numbers(state, block.from, block.count);
    if !may_come(block.count, block.from, block.to, numbers) {
        return Err(Rule::Pointer);
    }
    fill(state, numbers, block.to, block.to.end(block.count));
    clears(place, state)
}

/// The bytes of a block, at least one, are moved.
#[tactic(auto, unfolding(crate::specs::MoveRules::moves_some))]
fn moves_some(place: &Place, state: &mut State, block: Block) -> Result<Continuation, Rule>
    requires belongs { BelongsTo place.now.module.now state.old }
    requires some { pos 0 <ℤ block.count }
    ensures ruling { let after = moves_some (site_of place.now) block.count block.from block.to in
        Advances result (state_of state.new) (after (state_of state.old)) }
    ensures belongs { BelongsTo place.now.module.now state.new }
{
    place.reads_bytes(state, block.from, block.count)?;
    place.writes_bytes(state, block.to, block.to.end(block.count))?;
    come(place, state, block)
}

/// The bytes of a block are moved; where there are none, nothing is read or written.
#[tactic(auto, unfolding(crate::specs::MoveRules::moves_bytes))]
fn moves_bytes(place: &Place, state: &mut State, block: Block) -> Result<Continuation, Rule>
    requires { BelongsTo place.now.module.now state.old }
    ensures ruling { let after = moves_bytes (site_of place.now) block.count block.from block.to in
        Advances result (state_of state.new) (after (state_of state.old)) }
    ensures belongs { BelongsTo place.now.module.now state.new }
{
    if block.count == 0 {
        return clears(place, state);
    }
    sum_reached(state, block.from, block.count);
    moves_some(place, state, block)
}

/// `move`: A bytes go from C to B.
pub(crate) fn move_bytes(place: &Place, state: &mut State) -> Result<Continuation, Rule>
    requires { BelongsTo place.now.module.now state.old }
    ensures ruling { Advances result (state_of state.new) (moves (site_of place.now) (state_of state.old)) }
    ensures belongs { BelongsTo place.now.module.now state.new }
{
    let a = uses(state.stack.a)?;
    let b = uses(state.stack.b)?;
    let c = uses(state.stack.c)?;
    let count = amount(place, state, a, b)?;
    let to = exact_pointer(b)?;
    let from = exact_pointer(c)?;
    moves_bytes(place, state, Block { count, from, to })
}

/// Whether `count` bytes may be moved at once.
fn is_movable(count: i32) -> bool
    ensures value { result ≡ is_movable count }
{
    0 <= count && count <= MOST_BYTES
}

/// Whether `count` bytes from an offset on end where another offset is, or before it.
fn end_before(offset: i32, count: i32, other: i32) -> bool
    ensures { result ≡ int_le (offset +ℤ count) other }
{
    i64::from(offset) + i64::from(count) <= i64::from(other)
}

/// Whether the `count` bytes from two places on are apart, as those of different regions are.
fn are_blocks_apart(count: i32, from: Pointed, to: Pointed) -> bool
    ensures { result ≡ are_blocks_apart count from to }
{
    !from.region.is_same(to.region)
        || end_before(from.lo, count, to.lo)
        || end_before(to.lo, count, from.lo)
}

/// Whether bytes may come to a place: it is apart, and a parameter's region takes numbers.
fn may_come(count: i32, from: Pointed, to: Pointed, numbers: bool) -> bool
    ensures { result ≡ may_come count from to numbers }
{
    are_blocks_apart(count, from, to) && (to.region.is_frame() || numbers)
}
