//! What the labels of a start cost, by one pass over their entries, if that pass decides it.

ghost use Rattle.std.specs.Prelude.{◌≡◌, ◌≤◌, ◌-◌, Some, IfSome, SomeIff};
ghost use Rattle.std.specs.List.{list_all};
ghost use Rattle.module_format.specs.Contents.{label_of, label_at, par_of};
ghost use Rattle.module_format.specs.Keeping.{Keeps};
ghost use Rattle.machine_state.specs.BranchContexts.{context_of};
ghost use Rattle.states.specs.Rows.{AreApart};
ghost use Rattle.states.specs.Views.{state_of, IsLeft};
ghost use Rattle.par_rules.specs.Comparisons.{branch_view};
ghost use Rattle.par_rules.specs.Costs.{is_readable, IsCostOf, IsCostAfter};
ghost use Rattle.par_rules.specs.Finding.{found_view, IsNumbered, IsInRow};
ghost use Rattle.par_rules.specs.ParRules.{label_after};
ghost use Rattle.par_rules.specs.Telling.{label_view};

use crate::found::Found;
use certificate::Module;
use module_format::{Entry, Fact, LabelRow};
use rulings::Place;
use states::{State, label_rows_are_sound};

/// What going on at the labels of a start costs, if it is known that what they say of words is known.
#[derive(Clone, Copy)]
pub(crate) struct Costs {
    /// At the label of the branch.
    pub branch: Option<u128>,
    /// At the label after the PAR, nothing if it is not compared.
    pub after: Option<u128>,
}

/// Whether reading shows what an entry says: it is no return address, and a loop has two words.
fn is_readable(entry: &Entry) -> bool
    ensures { result ≡ is_readable entry.now }
{
    match entry.fact {
        Fact::Loop { .. } => entry.span == 2,
        Fact::ReturnAddress => false,
        _ => true,
    }
}

/// Whether reading shows what some entries say.
fn are_readable(entries: &[Entry]) -> bool
    ensures { result ≡ list_all is_readable entries.now }
{
    entries.iter().all(is_readable)
}

/// What the label of the branch that a state starts costs. It takes the time of a comparison with a label.
pub(crate) fn cost_of_branch(
    place: &Place,
    state: &mut State,
    found: &Found,
    row: &LabelRow,
) -> Option<u128>
    requires kept { Keeps place.now.module.now }
    requires context { found.now.context ≡ context_of place.now.module.now (found_view found.now) }
    requires numbered { IsNumbered place.now.module.now found.now }
    requires label { label_at place.now.module.now found.now.branch.now.entry ≡ Some (label_of row.now) }
    ensures cost { let m = place.now.module.now in
        let f = found_view found.now in
        IfSome result (IsCostOf (branch_view m (context_of m f) f.branch (state_of state.old)) (label_of row.now)) }
    ensures left { IsLeft state.old state.new }
{
    label_rows_are_sound();
    if !place.module.label_is_seen(found.context) {
        return None;
    }
    if !are_readable(&row.entries) {
        return None;
    }
    if !state.has_loops_apart(&row.entries) {
        return None;
    }
    let paid = state.paid(&row.entries)?;
    let cost = paid.checked_add(u128::from(row.number))?;
    Some(cost)
}

/// What the label after a PAR costs at the first start. It takes the time of a comparison with a label, which grows
/// with the intervals that the branches write.
fn cost_of_successor(
    module: &Module,
    state: &mut State,
    found: &Found,
    row: &LabelRow,
) -> Option<u128>
    requires in_row { IsInRow «module».now found.now }
    requires apart { AreApart row.now.entries.items }
    ensures cost { IfSome result
        (IsCostAfter (par_of found.now.par.now) (state_of state.old) (Some (label_of row.now))) }
    ensures left { IsLeft state.old state.new }
{
    let paid = state.paid_outside(&row.entries, module.written_words(found.row))?;
    let cost = paid.checked_add(u128::from(row.number))?;
    Some(cost)
}

/// What the label after a PAR costs, which is nothing if it is not compared.
pub(crate) fn cost_after(
    module: &Module,
    state: &mut State,
    found: &Found,
    after: Option<&LabelRow>,
) -> Option<u128>
    requires kept { Keeps «module».now }
    requires in_row { IsInRow «module».now found.now }
    requires after { label_view after
        ≡ label_after «module».now (state_of state.old).mode (par_of found.now.par.now) }
    ensures cost { IfSome result
        (IsCostAfter (par_of found.now.par.now) (state_of state.old) (label_view after.entry)) }
    ensures left { IsLeft state.old state.new }
{
    label_rows_are_sound();
    match after {
        Some(row) => cost_of_successor(module, state, found, row),
        None => Some(0),
    }
}

/// What is left of a number, if it covers this.
pub(crate) fn left_of(number: u64, cost: u128) -> Option<u64>
    ensures { SomeIff result (cost ≤ number) (number - cost) }
{
    let left = u128::from(number).checked_sub(cost)?;
    Some(left as u64)
}
