//! The rules of `in` and `out`.

ghost use Rattle.std.specs.Prelude.{◌≡◌, ◌||◌, not, ◌≤ℤ◌, ◌<ℤ◌, ◌+ℤ◌, pos, negsuc, true, IfOk};
ghost use Rattle.module_format.specs.Contents.{Contents};
ghost use Rattle.module_format.specs.Regions.{is_frame};
ghost use Rattle.module_format.specs.Keeping.{Keeps};
ghost use Rattle.states.specs.Views.{state_of, BelongsTo, CanWriteSpan};
ghost use Rattle.rulings.specs.Reach.{word_of_byte, words_touched};
ghost use Rattle.rulings.specs.Pointers.{are_near};
ghost use Rattle.rulings.specs.Telling.{Admits, Advances};
ghost use Rattle.rulings.specs.Places.{site_of};
ghost use Rattle.states.specs.State.{is_same_number};
ghost use Rattle.message_rules.specs.MessageRules.{is_message, word_before, ends_before, begins_behind};
ghost use Rattle.message_rules.specs.MessageRules.{is_off_scheduling, received};
ghost use Rattle.message_rules.specs.MessageRules.{exchanges, takes, receives, receives_some, in_rule, gives, sends};
ghost use Rattle.message_rules.specs.MessageRules.{sends_some, out_rule, message_rule};

use crate::channel::over_channel;
use machine_state::Op;
use module_format::{Direction, Fact, MAX_MESSAGE, Stack};
use rulings::combinators::{alone, in_bounds, uses, wants};
use rulings::filling::{are_numbers, fill};
use rulings::pointers::{Pointed, constant_of, pointer_of};
use rulings::reach::word_of_byte;
use rulings::reading::sum_reached;
use rulings::writing::{leave_words, stored_byte};
use rulings::{Continuation, Place};
use states::{Known, Rule, State};

/// A message of `count` bytes, and its buffer.
#[derive(Clone, Copy)]
struct Message {
    count: i32,
    buffer: Pointed,
    ghost some: { pos 0 <ℤ count },
    ghost few: { count ≤ℤ pos 4096 },
    ghost near: { are_near buffer.lo buffer.hi ≡ true },
}

impl Message {
    ghost use Rattle.std.specs.Prelude.{◌≡◌, ◌≤ℤ◌, ◌+ℤ◌, negsuc};

    /// The first offset after the buffer, wherever the pointer leads.
    fn end(self) -> i32
        ensures value { result ≡ self.buffer.hi +ℤ self.count }
        ensures near { negsuc 2147483646 ≤ℤ result }
    {
        self.buffer.end(self.count)
    }
}

/// Whether a message can have `count` bytes.
fn is_message(count: i32) -> bool
    ensures { result ≡ is_message count }
{
    1 <= count && count <= MAX_MESSAGE as i32
}

/// The word in which the last byte before an offset lies.
fn word_before(end: i32) -> i32
    requires { negsuc 2147483646 ≤ℤ end }
    ensures { result ≡ word_before end }
{
    word_of_byte(end - 1)
}

/// Whether bytes up to `end` lie in words before the three below a depth.
fn ends_before(depth: i32, end: i32) -> bool
    requires { negsuc 2147483646 ≤ℤ end }
    ensures { result ≡ ends_before depth end }
{
    let last = word_before(end);
    i64::from(last) < i64::from(depth) - 3
}

/// Whether bytes from the first on lie in words after the three below a depth.
fn begins_behind(depth: i32, first: i32) -> bool
    ensures { result ≡ begins_behind depth first }
{
    depth <= word_of_byte(first)
}

/// Whether bytes from the first to which a pointer may lead up to `end` are outside the frame, or in none of the three
/// words below a depth.
fn lies_off(depth: i32, pointer: Pointed, end: i32) -> bool
    requires { negsuc 2147483646 ≤ℤ end }
    ensures { result ≡ (not (is_frame pointer.region) || (ends_before depth end || begins_behind depth pointer.lo)) }
{
    !pointer.region.is_frame() || ends_before(depth, end) || begins_behind(depth, pointer.lo)
}

/// Whether the buffer of a message lies in none of the three words below the workspace.
fn is_off_scheduling(state: &State, message: Message) -> bool
    ensures { result
        ≡ is_off_scheduling (state_of state.now) message.buffer (message.buffer.hi +ℤ message.count) }
{
    lies_off(state.depth, message.buffer, message.end())
}

/// Whether a pointer leads to one place alone.
fn is_exact(pointer: Pointed) -> bool
    ensures { result ≡ is_same_number pointer.lo pointer.hi }
{
    pointer.lo == pointer.hi
}

/// All registers are used up, and another process may run.
fn exchanges(place: &Place, state: &mut State) -> Result<Continuation, Rule>
    requires { BelongsTo place.now.module.now state.old }
    ensures ruling { Advances result (state_of state.new) (exchanges (site_of place.now) (state_of state.old)) }
    ensures belongs { BelongsTo place.now.module.now state.new }
{
    alone(state.mode)?;
    place.schedules(state)?;
    state.stack = Stack::of_empty(Known::UNKNOWN);
    place.goes_on(state)
}

/// What a message leaves of the words of the frame that have bytes of its buffer.
#[tactic(auto, unfolding(crate::specs::MessageRules::received))]
fn receive(state: &mut State, message: Message)
    requires room { is_frame message.buffer.region ≡ true → CanWriteSpan state.old (word_of_byte message.buffer.lo)
        (words_touched message.buffer.lo (message.buffer.hi +ℤ message.count)) }
    ensures state { state_of state.new
        ≡ received message.buffer (message.buffer.hi +ℤ message.count) (state_of state.old) }
    ensures belongs { (m : Contents) → BelongsTo m state.old → BelongsTo m state.new }
{
    let buffer = message.buffer;
    if is_exact(buffer) {
        fill(state, true, buffer, message.end());
    } else {
        leave_words(state, buffer, message.end(), stored_byte());
    }
}

/// A message may come to its buffer.
#[tactic(auto, unfolding(crate::specs::MessageRules::takes))]
fn takes(place: &Place, state: &State, message: Message) -> Result<(), Rule>
    requires belongs { BelongsTo place.now.module.now state.now }
    ensures test { Admits result (takes (site_of place.now) (state_of state.now) message.count message.buffer) }
    ensures room { IfOk result (λ _. is_frame message.buffer.region ≡ true → CanWriteSpan state.now
        (word_of_byte message.buffer.lo)
        (words_touched message.buffer.lo (message.buffer.hi +ℤ message.count))) }
{
    place.writes_bytes(state, message.buffer, message.end())?;
    wants(is_off_scheduling(state, message), Rule::Pointer)?;
    Ok(())
}

/// A message comes to its buffer.
#[tactic(auto, unfolding(crate::specs::MessageRules::receives))]
fn receives(
    place: &Place,
    state: &mut State,
    channel: Fact,
    message: Message,
) -> Result<Continuation, Rule>
    requires belongs { BelongsTo place.now.module.now state.old }
    requires keeps { Keeps place.now.module.now }
    ensures ruling { let before = state_of state.old in
        let ruling = receives (site_of place.now) before channel message.count message.buffer in
        Advances result (state_of state.new) ruling }
    ensures belongs { BelongsTo place.now.module.now state.new }
{
    takes(place, state, message)?;
    over_channel(place, state, channel, Direction::In, message.count)?;
    receive(state, message);
    exchanges(place, state)
}

/// A message of `count` bytes comes to where a pointer leads.
#[tactic(auto, unfolding(crate::specs::MessageRules::receives_some))]
fn receives_some(
    place: &Place,
    state: &mut State,
    channel: Fact,
    count: i32,
    buffer: Fact,
) -> Result<Continuation, Rule>
    requires belongs { BelongsTo place.now.module.now state.old }
    requires keeps { Keeps place.now.module.now }
    ensures ruling { let ruling = receives_some (site_of place.now) (state_of state.old) channel count buffer in
        Advances result (state_of state.new) ruling }
    ensures belongs { BelongsTo place.now.module.now state.new }
{
    if !is_message(count) {
        over_channel(place, state, channel, Direction::In, count)?;
        return Err(Rule::MessageLength);
    }
    in_bounds(place.takes_any(state.context, buffer))?;
    let buffer = pointer_of(buffer)?;
    receives(place, state, channel, Message { count, buffer })
}

/// `in`: A bytes come to where C points, over the channel that B names.
#[tactic(auto, unfolding(crate::specs::MessageRules::in_rule))]
fn message_in(place: &Place, state: &mut State) -> Result<Continuation, Rule>
    requires belongs { BelongsTo place.now.module.now state.old }
    requires keeps { Keeps place.now.module.now }
    ensures ruling { Advances result (state_of state.new) (in_rule (site_of place.now) (state_of state.old)) }
    ensures belongs { BelongsTo place.now.module.now state.new }
{
    let a = uses(state.stack.a)?;
    let b = uses(state.stack.b)?;
    let c = uses(state.stack.c)?;
    let count = constant_of(a)?;
    receives_some(place, state, b, count, c)
}

/// A message may go from its buffer.
#[tactic(auto, unfolding(crate::specs::MessageRules::gives))]
fn gives(place: &Place, state: &State, message: Message) -> Result<(), Rule>
    requires belongs { BelongsTo place.now.module.now state.now }
    ensures { Admits result (gives (site_of place.now) (state_of state.now) message.count message.buffer) }
{
    let is_known = are_numbers(state, message.buffer, message.count);
    wants(is_known, Rule::UnknownRegister)?;
    place.reads_bytes(state, message.buffer, message.count)?;
    wants(is_off_scheduling(state, message), Rule::Pointer)
}

/// A message goes from its buffer.
#[tactic(auto, unfolding(crate::specs::MessageRules::sends))]
fn sends(
    place: &Place,
    state: &mut State,
    channel: Fact,
    message: Message,
) -> Result<Continuation, Rule>
    requires belongs { BelongsTo place.now.module.now state.old }
    requires keeps { Keeps place.now.module.now }
    ensures ruling { let ruling = sends (site_of place.now) (state_of state.old) channel message.count message.buffer in
        Advances result (state_of state.new) ruling }
    ensures belongs { BelongsTo place.now.module.now state.new }
{
    sum_reached(state, message.buffer, message.count);
    gives(place, state, message)?;
    over_channel(place, state, channel, Direction::Out, message.count)?;
    exchanges(place, state)
}

/// A message of `count` bytes goes from where a pointer leads.
#[tactic(auto, unfolding(crate::specs::MessageRules::sends_some))]
fn sends_some(
    place: &Place,
    state: &mut State,
    channel: Fact,
    count: i32,
    buffer: Fact,
) -> Result<Continuation, Rule>
    requires belongs { BelongsTo place.now.module.now state.old }
    requires keeps { Keeps place.now.module.now }
    ensures ruling { let ruling = sends_some (site_of place.now) (state_of state.old) channel count buffer in
        Advances result (state_of state.new) ruling }
    ensures belongs { BelongsTo place.now.module.now state.new }
{
    if !is_message(count) {
        over_channel(place, state, channel, Direction::Out, count)?;
        return Err(Rule::MessageLength);
    }
    let buffer = pointer_of(buffer)?;
    sends(place, state, channel, Message { count, buffer })
}

/// `out`: A bytes go from where C points, over the channel that B names.
#[tactic(auto, unfolding(crate::specs::MessageRules::out_rule))]
fn message_out(place: &Place, state: &mut State) -> Result<Continuation, Rule>
    requires belongs { BelongsTo place.now.module.now state.old }
    requires keeps { Keeps place.now.module.now }
    ensures ruling { Advances result (state_of state.new) (out_rule (site_of place.now) (state_of state.old)) }
    ensures belongs { BelongsTo place.now.module.now state.new }
{
    let a = uses(state.stack.a)?;
    let b = uses(state.stack.b)?;
    let c = uses(state.stack.c)?;
    let count = constant_of(a)?;
    sends_some(place, state, b, count, c)
}

/// Takes a state over an operation of this family, by the rule of that operation, and reports how a process goes on
/// there. If the rule is broken, the state is left part of the way. An operation of another family breaks
/// `Rule::Spelling`.
#[tactic(auto, unfolding(crate::specs::MessageRules::message_rule))]
#[inline(never)]
pub fn advance_message(place: &Place, state: &mut State, op: Op) -> Result<Continuation, Rule>
    requires belongs { BelongsTo place.now.module.now state.old }
    requires keeps { Keeps place.now.module.now }
    ensures ruling { Advances result (state_of state.new) (message_rule (site_of place.now) op (state_of state.old)) }
    ensures belongs { BelongsTo place.now.module.now state.new }
{
    match op {
        Op::Input => message_in(place, state),
        Op::Output => message_out(place, state),
        _ => Err(Rule::Spelling),
    }
}
