//! The rules of calls and returns: what a call wants of what is passed, and what is known after it.

ghost use Rattle.std.specs.Prelude.{◌≡◌, ◌+◌, ◌<◌, ℕ, map, slice_get, IfOk, Some};
ghost use Rattle.std.specs.List.{AllByRecursion};
ghost use Rattle.module_format.specs.Contents.{Contents, procedure_of};
ghost use Rattle.certificate.specs.Starts.{procedure_at};
ghost use Rattle.machine_state.specs.declared.instruction.Instruction.TheVariants.{Call};
ghost use Rattle.states.specs.declared.span.Leaving.TheVariants.{Become};
ghost use Rattle.module_format.specs.declared.fact.Fact.TheVariants.{Unknown};
ghost use Rattle.module_format.specs.Stack.{of_empty};
ghost use Rattle.states.specs.State.{changed, unknown};
ghost use Rattle.states.specs.Spans.{on_span};
ghost use Rattle.states.specs.Views.{state_of, BelongsTo, CanWriteSpan};
ghost use Rattle.call_rules.specs.CallRules.{call_rule, return_rule, learns_word, passing, may_call, may_return, spends};
ghost use Rattle.call_rules.specs.CallRules.{with_lent, calls_procedure};
ghost use Rattle.call_rules.specs.Callings.{with_each, OwnsLent, admits, Touches, call_in, entered, passed_to};
ghost use Rattle.rulings.specs.Places.{site_of};
ghost use Rattle.rulings.specs.Telling.{Admits, Advances, Leaves};

use crate::calling::{Calling, Touched};
use crate::lent::Lent;
use crate::passed::{Passed, all_passed};
use module_format::{Fact, ProcedureRow, Stack};
use rulings::combinators::alone;
use rulings::{Continuation, Place};
use states::{Known, Leaving, Rule, State, WordFact};

/// The word at this distance from the workspace has this fact from now on, if the context may write it.
#[tactic(auto, unfolding(crate::specs::CallRules::learns_word))]
fn learns_word(place: &Place, state: &mut State, distance: i32, fact: Fact)
    requires { BelongsTo place.now.module.now state.old }
    ensures state { state_of state.new ≡ learns_word place.now.module.now distance fact (state_of state.old) }
    ensures belongs { BelongsTo place.now.module.now state.new }
{
    let word = i64::from(state.depth) + i64::from(distance);
    match state.writable_word(word) {
        Some(word) => state.write(word, fact),
        None => {}
    }
}

/// C, B, A and the return address lie in the four words below the workspace from now on.
fn passing(place: &Place, state: &mut State)
    requires { BelongsTo place.now.module.now state.old }
    ensures state { state_of state.new ≡ passing place.now.module.now (state_of state.old) }
    ensures belongs { BelongsTo place.now.module.now state.new }
{
    let Stack { a, b, c } = state.stack;
    learns_word(place, state, -1, c.fact);
    learns_word(place, state, -2, b.fact);
    learns_word(place, state, -3, a.fact);
    learns_word(place, state, -4, Fact::Unknown);
}

/// Whether a context may call the procedure of a context: the root and its branches any, a procedure and its
/// branches those before it.
pub(crate) fn may_call(place: &Place, context: u32, callee: u32) -> bool
    ensures { result ≡ may_call place.now.module.now context callee }
{
    match place.module.owner(context) {
        Some(owner) => owner == 0 || callee < owner,
        None => false,
    }
}

/// A region of the frame that was lent to be written is numbers in its range.
fn leaves_lent(place: &Place, state: &mut State, lent: Option<Lent>)
    requires belongs { BelongsTo place.now.module.now state.old }
    requires own { OwnsLent place.now.module.now state.old.context lent }
    ensures state { let frame = with_lent lent (state_of state.old).frame in
        state_of state.new ≡ record (state_of state.old) { stack = state.new.stack; frame = frame } }
    ensures belongs { BelongsTo place.now.module.now state.new }
{
    if let Some(lent) = lent {
        if lent.is_written && lent.region.is_frame() {
            state.change_span(lent.first_word(), lent.word_count(), lent.leaving());
        }
    }
}

/// The same of all that was lent, parameter by parameter.
fn leaves_each(place: &Place, state: &mut State, all: &[Option<Lent>])
    requires belongs { BelongsTo place.now.module.now state.old }
    requires own { AllByRecursion (OwnsLent place.now.module.now state.old.context) all.now }
    ensures state { let frame = with_each all.now (state_of state.old).frame in
        state_of state.new ≡ record (state_of state.old) { stack = state.new.stack; frame = frame } }
    ensures belongs { BelongsTo place.now.module.now state.new }
{
    let mut rest = all;
    while let Some((first, others)) = rest.split_first() {
        leaves_lent(place, state, *first);
        rest = others;
    }
}

/// The instruction's bytes and this number are paid.
#[tactic(auto, unfolding(crate::specs::CallRules::spends))]
fn spends(place: &Place, state: &mut State, number: u64) -> Result<(), Rule>
    ensures test { Leaves result (state_of state.new) (spends (place.now.len + number) (state_of state.old)) }
    ensures belongs { (m : Contents) → BelongsTo m state.old → BelongsTo m state.new }
{
    if state.number < number {
        return Err(Rule::Budget);
    }
    let left = state.number - number;
    let price = place.len as u64;
    if left < price {
        return Err(Rule::Budget);
    }
    state.number = left - price;
    Ok(())
}

/// The words of the callee's frame are unknown, what was lent to be written is numbers in its range, and no
/// register is known.
fn has_returned(place: &Place, state: &mut State, touched: &Touched)
    requires belongs { BelongsTo place.now.module.now state.old }
    requires room { CanWriteSpan state.old touched.now.first touched.now.count }
    requires some { 0 < touched.now.count }
    requires own { AllByRecursion (OwnsLent place.now.module.now state.old.context) touched.now.lent.items }
    ensures state { let span = on_span touched.now.first touched.now.count (Become Unknown) in
        let frame = with_each touched.now.lent.items (changed span (state_of state.old).frame) in
        state_of state.new ≡ record (state_of state.old) { stack = of_empty unknown; frame = frame } }
    ensures belongs { BelongsTo place.now.module.now state.new }
{
    let nothing = Leaving::Become(Fact::Unknown);
    state.change_span(touched.first, touched.count, nothing);
    leaves_each(place, state, &touched.lent);
    state.stack = Stack::of_empty(Known::UNKNOWN);
}

/// The call of the procedure that begins at an offset, which has this number as a context.
#[tactic(auto, unfolding(crate::specs::CallRules::calls_procedure))]
fn calls_procedure(
    place: &Place,
    state: &mut State,
    to: u32,
    context: u32,
    callee: &ProcedureRow,
) -> Result<Continuation, Rule>
    requires belongs { BelongsTo place.now.module.now state.old }
    requires found { procedure_at place.now.module.now to ≡ Some (entered context callee.now) }
    ensures ruling { let found = entered context callee.now in
        Advances result (state_of state.new) (calls_procedure (site_of place.now) to (state_of state.old) found) }
    ensures belongs { BelongsTo place.now.module.now state.new }
{
    passing(place, state);
    let all = all_passed(place, state, callee);
    let touched = touched(place, state, callee, &all, context)?;
    has_returned(place, state, &touched);
    spends(place, state, callee.number)?;
    Ok(Continuation::Calls { to })
}

/// What the call of a procedure, which has this number as a context, may change, once what is passed is in the
/// words below the workspace, and its parameters are passed this.
fn touched(
    place: &Place,
    state: &State,
    callee: &ProcedureRow,
    all: &[Passed],
    context: u32,
) -> Result<Touched, Rule>
    requires belongs { BelongsTo place.now.module.now state.now }
    requires passed { let call = call_in place.now.module.now state.now callee.now in
        all.now ≡ map (passed_to call) call.callee.parameters }
    requires row { let procedure = procedure_of callee.now in
        (p : ℕ) × (slice_get place.now.module.now.procedures p ≡ Some procedure) }
    ensures test { Admits result (admits (call_in place.now.module.now state.now callee.now) context) }
    ensures touched { IfOk result (Touches (call_in place.now.module.now state.now callee.now)) }
    ensures room { IfOk result (λ t. CanWriteSpan state.now t.first t.count) }
{
    let calling = Calling {
        place: *place,
        state,
        callee,
    };
    calling.touched(all, context)
}

/// `call`: the procedure at the offset `distance` bytes from the next instruction, with A, B and C and what comes after
/// them in its frame as parameters. If the rule is broken, the state is left part of the way.
#[tactic(auto, unfolding(crate::specs::CallRules::call_rule))]
#[inline(never)]
pub fn call(place: &Place, state: &mut State, distance: i32) -> Result<Continuation, Rule>
    requires { BelongsTo place.now.module.now state.old }
    ensures ruling { let ruling = call_rule (site_of place.now) distance (state_of state.old) in
        Advances result (state_of state.new) ruling }
    ensures belongs { BelongsTo place.now.module.now state.new }
{
    let to = place.target(distance);
    match place.module.procedure_at(to) {
        Some((context, callee)) => calls_procedure(place, state, to, context, callee),
        None => {
            alone(state.mode)?;
            Err(Rule::Call)
        }
    }
}

/// Whether a procedure may return here: it is no branch, its workspace is where it was when it was called, and
/// its word 0 has its return address still.
fn may_return(place: &Place, state: &State) -> bool
    ensures { result ≡ may_return place.now.module.now (state_of state.now) }
{
    let context = state.context as usize;
    let is_procedure = 0 < context && context < place.module.tables().first_branch();
    is_procedure
        && state.depth == 0
        && matches!(state.fact_at(0), WordFact::Alone(Fact::ReturnAddress))
}

/// `ret`: a procedure returns to where it was called. If the rule is broken, the state is left part of the way.
#[tactic(auto, unfolding(crate::specs::CallRules::return_rule, rulings::specs::Rulings::wants))]
pub fn return_to_caller(place: &Place, state: &mut State) -> Result<Continuation, Rule>
    ensures ruling { let ruling = return_rule (site_of place.now) (state_of state.old) in
        Advances result (state_of state.new) ruling }
    ensures belongs { (m : Contents) → BelongsTo m state.old → BelongsTo m state.new }
{
    alone(state.mode)?;
    if !may_return(place, state) {
        return Err(Rule::Call);
    }
    place.pays(state)?;
    Ok(Continuation::Returns)
}
