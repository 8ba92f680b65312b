//! When a state is at least as strong as a label's state.

ghost use Rattle.std.specs.Prelude.{◌≡◌, ◌≤◌, SomeIff, IfOk, IfSome, Ok, Some};
ghost use Rattle.module_format.specs.Contents.{Contents, label_of, label_at};
ghost use Rattle.states.specs.Below.{view, cost, is_plain, agrees, compared, below, below_at};
ghost use Rattle.states.specs.Comparing.{stands};
ghost use Rattle.states.specs.Remembered.{numbered_label};
ghost use Rattle.states.specs.Rows.{AreApart};
ghost use Rattle.states.specs.Views.{state_of, BelongsTo, IsLeft};
ghost use Rattle.states.specs.Numbers.{reported};

use crate::implication::implies;
use crate::known::Mode;
use crate::laws::label_rows_are_sound;
use crate::numbered::{Numbered, numbered_row};
use crate::rule::{Rule, RuleFault};
use crate::state::State;
use module_format::LabelRow;

fn is_plain(mode: Mode) -> bool
    ensures { result ≡ is_plain mode }
{
    mode == Mode::Plain
}

/// Whether a state is where a label is (stands there), and knows at least as much of the registers.
fn stands(state: &State, row: &LabelRow) -> bool
    ensures { result ≡ stands (view (state_of state.now)) (label_of row.now) }
{
    state.context == u32::from(row.context)
        && state.depth == row.depth
        && is_plain(state.mode)
        && implies(state.stack.a.fact, row.stack.a)
        && implies(state.stack.b.fact, row.stack.b)
        && implies(state.stack.c.fact, row.stack.c)
}

/// The same by one pass over the entries of both rows. `None` if that pass does not decide it.
fn compare_quickly(number: u128, state: &State, row: &LabelRow) -> Option<u128>
    requires { AreApart row.now.entries.items }
    ensures compared { IfSome result
        (λ cost. compared number (view (state_of state.now)) (label_of row.now) ≡ Ok cost) }
    ensures covered { IfSome result (λ cost. cost ≤ number) }
{
    if !stands(state, row) {
        return None;
    }
    let paid = state.frame.paid_quickly(&row.entries)?;
    let cost = paid.checked_add(u128::from(row.number))?;
    if number < cost {
        return None;
    }
    Some(cost)
}

/// Whether a state is where a label is, and knows at least as much, tested word by word.
fn agrees(state: &State, row: &LabelRow) -> bool
    requires { AreApart row.now.entries.items }
    ensures { result ≡ agrees (view (state_of state.now)) (label_of row.now) }
{
    stands(state, row) && state.frame.says_all(&row.entries)
}

/// The label's number and the price of the loops that are entered, if this number covers them.
fn cost(number: u128, state: &State, row: &LabelRow) -> Option<u128>
    ensures { let cost = cost (view (state_of state.now)) (label_of row.now) in SomeIff result (cost ≤ number) cost }
{
    let left = number.checked_sub(u128::from(row.number))?;
    let left = state.frame.left_of(left, &row.entries)?;
    Some(number - left)
}

/// What it costs a state that may pay this number to go on as a label's, by what it knows. `Rule::Budget`: the number
/// does not cover it. `Rule::Label`: it is elsewhere, or knows less. It is tested word by word only if one pass over
/// the entries does not decide it.
pub fn compare(number: u128, state: &State, row: &LabelRow) -> Result<u128, Rule>
    requires { AreApart row.now.entries.items }
    ensures compared { result ≡ compared number (view (state_of state.now)) (label_of row.now) }
    ensures covered { IfOk result (λ cost. cost ≤ number) }
{
    if let Some(cost) = compare_quickly(number, state, row) {
        return Ok(cost);
    }
    let cost = cost(number, state, row).ok_or(Rule::Budget)?;
    if !agrees(state, row) {
        return Err(Rule::Label);
    }
    Ok(cost)
}

/// What it costs a state to go on as a label's: the label's number, and for each loop that it enters the loop's weight
/// for each turn but the first. `Rule::Budget`: it cannot pay. `Rule::Label`: it is elsewhere, or knows less. The time
/// grows with the entries of the row and of the label before, and with the words written or left since then, each of
/// which is sought in the row, or else with the words of the row.
#[tactic(auto, unfolding(crate::specs::Below::below))]
pub fn cost_below(state: &State, row: &LabelRow) -> Result<u64, Rule>
    requires { AreApart row.now.entries.items }
    ensures { result ≡ below (state_of state.now) (label_of row.now) }
{
    let cost = compare(u128::from(state.number), state, row)?;
    Ok(cost as u64)
}

/// What `cost_below` says, if at least what the row wants is known of its words a run at a time.
#[tactic(auto, unfolding(crate::specs::Below::below))]
fn cost_by_runs(state: &mut State, row: &LabelRow) -> Option<u64>
    requires { AreApart row.now.entries.items }
    ensures cost { IfSome result (λ cost. below (state_of state.old) (label_of row.now) ≡ Ok cost) }
    ensures left { IsLeft state.old state.new }
    ensures same { state.new.frame.remembered.«module».now ≡ state.old.frame.remembered.«module».now }
{
    if !stands(state, row) {
        return None;
    }
    let paid = state.frame.paid(&row.entries)?;
    let cost = paid.checked_add(u128::from(row.number))?;
    if u128::from(state.number) < cost {
        return None;
    }
    Some(cost as u64)
}

/// What `cost_below` says. It is tested word by word only if that is not decided a run of words at a time.
fn cost_somehow(state: &mut State, row: &LabelRow) -> Result<u64, Rule>
    requires { AreApart row.now.entries.items }
    ensures cost { result ≡ below (state_of state.old) (label_of row.now) }
    ensures left { IsLeft state.old state.new }
    ensures same { state.new.frame.remembered.«module».now ≡ state.old.frame.remembered.«module».now }
{
    if let Some(cost) = cost_by_runs(state, row) {
        return Ok(cost);
    }
    cost_below(state, row)
}

/// What `cost_below` returns. What is known is asked a run of words at a time, and sums of spans are kept. So it takes a
/// few steps for each entry of the row and of the label before, however many words were left; it is tested word by word
/// only if that does not decide it.
pub fn cost_of_label(state: &mut State, row: &LabelRow) -> Result<u64, Rule>
    requires { AreApart row.now.entries.items }
    ensures cost { result ≡ below (state_of state.old) (label_of row.now) }
    ensures left { IsLeft state.old state.new }
{
    cost_somehow(state, row)
}

/// What it costs to go on as the label of a number, if a comparison with it is remembered that tells so.
#[tactic(auto, unfolding(crate::specs::Below::below))]
fn recalled(state: &mut State, label: usize, row: &LabelRow) -> Option<u64>
    requires label { numbered_label state.old.frame.remembered.«module».now label ≡ Some (label_of row.now) }
    requires apart { AreApart row.now.entries.items }
    ensures cost { IfSome result (λ cost. below (state_of state.old) (label_of row.now) ≡ Ok cost) }
    ensures left { IsLeft state.old state.new }
    ensures same { state.new.frame.remembered.«module».now ≡ state.old.frame.remembered.«module».now }
{
    if !stands(state, row) {
        return None;
    }
    let paid = state.frame.recall(label, row)?;
    let cost = paid.checked_add(row.number)?;
    if state.number < cost {
        return None;
    }
    Some(cost)
}

/// What it costs a state to go on as the label at a code offset, as `cost_below` says it. `Rule::Label`: there is none
/// besides. It is remembered: until the state goes on from another label, only the words in blocks of 64 that were
/// changed since are asked when it is compared with that label again.
pub fn cost_at(state: &mut State, to: u32) -> Result<u64, Rule>
    ensures cost { (m : Contents) → BelongsTo m state.old → result ≡ below_at m to (state_of state.old) }
    ensures left { IsLeft state.old state.new }
{
    let module = state.frame.remembered.module;
    let _tables = module.tables();
    let Some(Numbered { label, row }) = numbered_row(module, to) else {
        return Err(Rule::Label);
    };
    label_rows_are_sound();
    if let Some(cost) = recalled(state, label, row) {
        return Ok(cost);
    }
    let cost = cost_somehow(state, row)?;
    state.frame.remember(label, row, cost - row.number);
    Ok(cost)
}

/// What `cost_below` returns, with the rule as its number.
pub fn below(state: &State, row: &LabelRow) -> Result<u64, RuleFault>
    requires { AreApart row.now.entries.items }
    ensures { result ≡ reported (below (state_of state.now) (label_of row.now)) }
{
    Ok(cost_below(state, row)?)
}
