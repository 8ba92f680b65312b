//! The rule of `endp`.

ghost use Rattle.std.specs.Prelude.{◌≡◌, None, Some, MatchOption, IsTrue, true};
ghost use Rattle.module_format.specs.Contents.{label_of, par_of};
ghost use Rattle.module_format.specs.Keeping.{Keeps};
ghost use Rattle.states.specs.declared.known.Mode.TheVariants.{Starting};
ghost use Rattle.states.specs.Rows.{AreApart};
ghost use Rattle.states.specs.Views.{state_of, BelongsTo, IsLeft};
ghost use Rattle.rulings.specs.Places.{site_of};
ghost use Rattle.rulings.specs.Telling.{Advances};
ghost use Rattle.par_rules.specs.Comparisons.{ends_below};
ghost use Rattle.par_rules.specs.ParRules.{ended_par, leaves_agreed, endp_rule};

use crate::gifts::par_at;
use crate::pointers::is_at_word;
use crate::sights::Asked;
use certificate::Module;
use module_format::{LabelRow, ParRow};
use rulings::combinators::{outside_alternation, uses, wants};
use rulings::pointers::is_near_pointer;
use rulings::{Continuation, Place};
use states::{Mode, Rule, State, label_rows_are_sound};

/// The PAR whose branches a process has all started, if it has started `started` branches of the row of this number.
fn started_par<'s>(module: &'s Module, row: u32, started: u32) -> Option<&'s ParRow>
    ensures { let ended = ended_par «module».now 0 (Starting row started) in
        MatchOption result (ended ≡ None) (λ par. ended ≡ Some (par_of par.now)) }
{
    let par = par_at(module.tables(), row)?;
    if started as usize == par.branches.len() {
        Some(par)
    } else {
        None
    }
}

/// The PAR that a process in this mode ends: it has started all branches, or is one itself.
fn ended_par<'s>(module: &'s Module, context: u32, mode: Mode) -> Option<&'s ParRow>
    ensures { let ended = ended_par «module».now context mode in
        MatchOption result (ended ≡ None) (λ par. ended ≡ Some (par_of par.now)) }
{
    match mode {
        Mode::Plain => {
            let (par, _branch) = module.branch(context)?;
            Some(par)
        }
        Mode::Enabling | Mode::Disabling { .. } => None,
        Mode::Starting { row, started } => started_par(module, row, started),
    }
}

/// Whether a branch leaves what a label says of the words that it writes, if one pass over its entries shows it. A pass
/// that fails decides nothing.
fn holds_quickly(module: &Module, state: &mut State, row: &LabelRow) -> bool
    requires { AreApart row.now.entries.items }
    ensures below { IsTrue result → ends_below «module».now (state_of state.old) (label_of row.now) ≡ true }
    ensures left { IsLeft state.old state.new }
{
    match module.branch(state.context) {
        Some((_par, branch)) => state.holds_inside(&row.entries, &branch.writes),
        None => false,
    }
}

/// Whether a branch leaves what a label says of the words that it writes.
fn ends_below(module: &Module, state: &mut State, row: &LabelRow) -> bool
    requires { AreApart row.now.entries.items }
    ensures below { result ≡ ends_below «module».now (state_of state.old) (label_of row.now) }
    ensures left { IsLeft state.old state.new }
{
    if holds_quickly(module, state, row) {
        return true;
    }
    Asked::Kept { module, state }.label_passes(row)
}

/// Whether a branch leaves what the label after its PAR says, if there is that label.
fn leaves_agreed(module: &Module, par: &ParRow, state: &mut State) -> bool
    requires { Keeps «module».now }
    ensures agreed { result ≡ leaves_agreed «module».now (par_of par.now) (state_of state.old) }
    ensures left { IsLeft state.old state.new }
{
    if state.mode != Mode::Plain {
        return true;
    }
    label_rows_are_sound();
    match module.label_at(par.successor) {
        Some(row) => ends_below(module, state, row),
        None => true,
    }
}

/// Judges `endp`, by its rule: the process ends, and nothing goes on after the instruction. The state is used up.
/// `Rule::Label`: a branch does not leave what the label after its PAR says of the words that it writes.
#[tactic(auto, unfolding(crate::specs::ParRules::endp_rule))]
#[inline(never)]
pub fn end_process(place: &Place, state: &mut State) -> Result<Continuation, Rule>
    requires { BelongsTo place.now.module.now state.old }
    ensures ruling { Advances result (state_of state.new) (endp_rule (site_of place.now) (state_of state.old)) }
    ensures belongs { BelongsTo place.now.module.now state.new }
{
    let a = uses(state.stack.a)?;
    wants(is_near_pointer(a), Rule::Pointer)?;
    outside_alternation(state.mode)?;
    let par = ended_par(place.module, state.context, state.mode).ok_or(Rule::Par)?;
    wants(is_at_word(par.block, a), Rule::Par)?;
    place.pays(state)?;
    let agrees = leaves_agreed(place.module, par, state);
    wants(agrees, Rule::Label)?;
    Ok(Continuation::Ends)
}
