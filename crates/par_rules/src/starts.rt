//! The rule of `startp`.

ghost use Rattle.std.specs.Prelude.{◌≡◌, ◌∷◌, ◌&&◌, ◌+◌, ◌-◌, ◌≤◌, ◌<◌, ◌^◌, ℕ, Some, SomeIff, IfSome, IfOk};
ghost use Rattle.std.specs.List.{list_all};
ghost use Rattle.module_format.specs.Contents.{Contents, label_of, label_at, par_of};
ghost use Rattle.module_format.specs.Keeping.{Keeps};
ghost use Rattle.certificate.specs.Starting.{leaves_loops};
ghost use Rattle.certificate.specs.Siblings.{has_other_ends, leaves_hidden_words};
ghost use Rattle.machine_state.specs.BranchContexts.{context_of};
ghost use Rattle.states.specs.Below.{cost, agrees, entries_hold, is_whole};
ghost use Rattle.states.specs.Views.{state_of, BelongsTo, IsLeft};
ghost use Rattle.rulings.specs.Places.{site_of};
ghost use Rattle.rulings.specs.Telling.{Gives};
ghost use Rattle.par_rules.specs.Finding.{found_view, IsNumbered, IsInRow};
ghost use Rattle.par_rules.specs.Gifts.{started_in, has_end_to_give};
ghost use Rattle.par_rules.specs.Sights.{begins_there, facts_in};
ghost use Rattle.par_rules.specs.Costs.{IsCostOf, IsCostAfter, AreCosts};
ghost use Rattle.par_rules.specs.ParRules.{is_apart, ends_are_free, is_next, is_in_turn, may_give, at_first};
ghost use Rattle.par_rules.specs.ParRules.{may_open, label_after, cost_of_start, start_agrees};
ghost use Rattle.par_rules.specs.ParRules.{offset_after, after_start, pays_labels, with_label};
ghost use Rattle.par_rules.specs.ParRules.{starts_branch, startp_rule};
ghost use Rattle.par_rules.specs.Comparisons.{branch_facts, branch_view, cost_after, agrees_after};
ghost use Rattle.par_rules.specs.Telling.{Starts, label_view, labels_of};

use crate::costs::{Costs, cost_after, cost_of_branch, left_of};
use crate::found::{Found, named_branch};
use crate::gifts::{has_scheduling_words, may_give_parameters};
use crate::labels::is_after;
use crate::openings::is_prepared;
use crate::pointers::is_workspace;
use crate::sights::{Asked, Sight};
use certificate::Module;
use module_format::{Fact, LabelRow, ParRow, Stack};
use rulings::Place;
use rulings::combinators::{outside_alternation, uses, wants};
use rulings::pointers::is_near_pointer;
use states::{Known, Mode, Rule, State, implies};

/// A branch of a PAR that is started.
#[derive(Clone, Copy)]
pub struct Started {
    /// The code offset of the label at which it begins.
    pub branch: u32,
    /// At the first start of the PAR, the code offset of the label after it.
    pub successor: Option<u32>,
}

/// Whether the branch is beside those that the process has started. In its turn it takes constant time.
fn is_apart(place: &Place, state: &State, found: &Found) -> bool
    requires { IsNumbered place.now.module.now found.now }
    ensures { result ≡ is_apart place.now.module.now (state_of state.now) (found_view found.now) }
{
    match state.mode {
        Mode::Starting { row, started } => {
            let module = place.module;
            module.is_beside_first(found.context, row as usize, started as usize)
        }
        _ => true,
    }
}

/// Whether each end of the branch is there to be given. Where its PAR is, it takes constant time.
fn has_ends_to_give(place: &Place, state: &State, found: &Found) -> bool
    requires { IsNumbered place.now.module.now found.now }
    ensures { let f = found_view found.now in
        let context = (state_of state.now).context in
        result ≡ list_all (has_end_to_give place.now.module.now context f.par) f.branch.ends }
{
    place.module.has_ends_of(state.context, found.context)
}

/// Whether no end of the branch was given to one that the process has started. In its turn it takes constant time.
fn has_other_ends(place: &Place, state: &State, found: &Found) -> bool
    requires { found.now.context ≡ context_of place.now.module.now (found_view found.now) }
    ensures { let m = place.now.module.now in
        let context = context_of m (found_view found.now) in
        result ≡ list_all (has_other_ends m context) (started_in m (state_of state.now).mode) }
{
    match state.mode {
        Mode::Starting { row, started } => {
            let module = place.module;
            module.has_other_ends_than_first(found.context, row as usize, started as usize)
        }
        _ => true,
    }
}

/// Whether each end of the branch is there to be given, and was not given to one that the process has started.
fn ends_are_free(place: &Place, state: &State, found: &Found) -> bool
    requires context { found.now.context ≡ context_of place.now.module.now (found_view found.now) }
    requires numbered { IsNumbered place.now.module.now found.now }
    ensures { result ≡ ends_are_free place.now.module.now (state_of state.now) (found_view found.now) }
{
    has_ends_to_give(place, state, found) && has_other_ends(place, state, found)
}

/// Whether the branch is the first of its PAR, or the one after those that a process in this mode has started.
fn is_next(mode: Mode, found: &Found) -> bool
    ensures { result ≡ is_next mode (found_view found.now) }
{
    match mode {
        Mode::Plain => found.number == 0,
        Mode::Enabling | Mode::Disabling { .. } => false,
        Mode::Starting { row, started } => {
            found.row == row as usize && found.number == started as usize
        }
    }
}

/// Whether the branch is the next one of a PAR that is here, and A is its workspace.
fn is_in_turn(state: &State, a: Fact, found: &Found) -> bool
    ensures { result ≡ is_in_turn (state_of state.now) a (found_view found.now) }
{
    is_next(state.mode, found)
        && u32::from(found.par.context) == state.context
        && found.par.depth == state.depth
        && is_workspace(found.branch.workspace, a)
}

/// Whether the branch has no word of the block of its PAR, and none that is a channel of it. It takes constant time.
fn leaves_hidden_words(place: &Place, found: &Found) -> bool
    requires context { found.now.context ≡ context_of place.now.module.now (found_view found.now) }
    requires numbered { IsNumbered place.now.module.now found.now }
    ensures { let m = place.now.module.now in
        let f = found_view found.now in
        result ≡ leaves_hidden_words m (context_of m f) f.par }
{
    place.module.leaves_own_hidden_words(found.context)
}

/// Whether the context has the words and the parameters that the branch is given, and none of them is hidden.
fn may_give(place: &Place, state: &State, found: &Found) -> bool
    requires context { found.now.context ≡ context_of place.now.module.now (found_view found.now) }
    requires numbered { IsNumbered place.now.module.now found.now }
    ensures { result ≡ may_give place.now.module.now (state_of state.now) (found_view found.now) }
{
    place.module.gives_words(state.context, found.context)
        && may_give_parameters(place, state.context, found.branch)
        && leaves_hidden_words(place, found)
}

/// Whether all is prepared that the PAR wants, and there is a label after it.
fn may_open(module: &Module, state: &State, found: &Found) -> bool
    requires { IsInRow «module».now found.now }
    ensures { result ≡ may_open «module».now (state_of state.now) (par_of found.now.par.now) }
{
    if !is_prepared(module, state, found) {
        return false;
    }
    match module.label_at(found.par.successor) {
        Some(row) => is_after(module, found, row),
        None => false,
    }
}

/// The label after the PAR, if a process in this mode starts its first branch.
fn label_after<'s>(module: &'s Module, mode: Mode, par: &ParRow) -> Option<&'s LabelRow>
    ensures { label_view result ≡ label_after «module».now mode (par_of par.now) }
{
    if mode != Mode::Plain {
        return None;
    }
    match module.label_at(par.successor) {
        Some(row) => Some(row),
        None => None,
    }
}

/// What is known of words at the first byte of the branch that a state starts.
fn sight_of<'s, 'm, 't>(
    place: &Place<'s, 'm>,
    state: &'s State<'t>,
    found: &Found,
) -> Sight<'s, 'm, 't>
    requires { found.now.context ≡ context_of place.now.module.now (found_view found.now) }
    ensures { let m = place.now.module.now in
        let f = found_view found.now in
        facts_in result ≡ branch_facts m (context_of m f) f.branch.workspace (state_of state.now).frame }
{
    Sight::AtBranch {
        module: place.module,
        state,
        context: found.context,
        workspace: found.branch.workspace,
    }
}

/// What is left of a number once the label of a branch that a state starts is paid, and the loops that it enters.
/// `known` is what that costs, if it is known.
fn left_of_branch(
    place: &Place,
    state: &State,
    found: &Found,
    number: u64,
    row: &LabelRow,
    known: Option<u128>,
) -> Option<u64>
    requires context { found.now.context ≡ context_of place.now.module.now (found_view found.now) }
    requires known { let m = place.now.module.now in
        let f = found_view found.now in
        IfSome known (IsCostOf (branch_view m (context_of m f) f.branch (state_of state.now)) (label_of row.now)) }
    ensures { let m = place.now.module.now in
        let f = found_view found.now in
        let price = cost (branch_view m (context_of m f) f.branch (state_of state.now)) (label_of row.now) in
        SomeIff result (price ≤ number) (number - price) }
{
    match known {
        Some(cost) => left_of(number, cost),
        None => sight_of(place, state, found).left_of(number, row),
    }
}

/// What is left of a number once the label after a PAR is paid, and the loops that it enters, if it is compared.
fn left_after_asking(state: &State, number: u64, after: Option<&LabelRow>) -> Option<u64>
    ensures { let price = cost_after (state_of state.now) (label_view after.entry) in
        SomeIff result (price ≤ number) (number - price) }
{
    match after {
        Some(row) => Sight::InState { state }.left_of(number, row),
        None => Some(number),
    }
}

/// The same. `known` is what that costs, if it is known.
fn left_after(
    state: &State,
    number: u64,
    found: &Found,
    after: Option<&LabelRow>,
    known: Option<u128>,
) -> Option<u64>
    requires { IfSome known (IsCostAfter (par_of found.now.par.now) (state_of state.now) (label_view after)) }
    ensures { let price = cost_after (state_of state.now) (label_view after.entry) in
        SomeIff result (price ≤ number) (number - price) }
{
    match known {
        Some(cost) => left_of(number, cost),
        None => left_after_asking(state, number, after),
    }
}

/// Whether the label is where the branch begins, and says nothing of the registers.
fn begins_there(found: &Found, row: &LabelRow) -> bool
    ensures { result ≡ begins_there found.now.context found.now.branch.now.workspace (label_of row.now) }
{
    u32::from(row.context) == found.context
        && row.depth == found.branch.workspace
        && implies(Fact::Unknown, row.stack.a)
        && implies(Fact::Unknown, row.stack.b)
        && implies(Fact::Unknown, row.stack.c)
}

/// Whether what the label says of words is known where a state starts the branch.
fn branch_says(place: &Place, state: &State, found: &Found, row: &LabelRow) -> bool
    requires { found.now.context ≡ context_of place.now.module.now (found_view found.now) }
    ensures { let m = place.now.module.now in
        let f = found_view found.now in
        let view = branch_view m (context_of m f) f.branch (state_of state.now) in
        result ≡ entries_hold view.frame (label_of row.now).entries }
{
    sight_of(place, state, found).says_all(row)
}

/// Whether no loop of the label is half known where a state starts the branch.
fn branch_is_whole(place: &Place, state: &State, found: &Found, row: &LabelRow) -> bool
    requires { found.now.context ≡ context_of place.now.module.now (found_view found.now) }
    ensures { let m = place.now.module.now in
        let f = found_view found.now in
        let view = branch_view m (context_of m f) f.branch (state_of state.now) in
        result ≡ list_all (is_whole view.frame) (label_of row.now).entries }
{
    sight_of(place, state, found).are_whole(row)
}

/// Whether the label is there, and what it says of words is known where a state starts the branch.
fn begins_and_says(place: &Place, state: &State, found: &Found, row: &LabelRow) -> bool
    requires { found.now.context ≡ context_of place.now.module.now (found_view found.now) }
    ensures { let m = place.now.module.now in
        let f = found_view found.now in
        let view = branch_view m (context_of m f) f.branch (state_of state.now) in
        let t = label_of row.now in
        result ≡ (begins_there (context_of m f) f.branch.workspace t && entries_hold view.frame t.entries) }
{
    begins_there(found, row) && branch_says(place, state, found, row)
}

/// Whether what a state knows implies what the label says at the first byte of the branch that it starts.
fn branch_agrees(place: &Place, state: &State, found: &Found, row: &LabelRow) -> bool
    requires { found.now.context ≡ context_of place.now.module.now (found_view found.now) }
    ensures { let m = place.now.module.now in
        let f = found_view found.now in
        let view = branch_view m (context_of m f) f.branch (state_of state.now) in
        result ≡ agrees view (label_of row.now) }
{
    begins_and_says(place, state, found, row) && branch_is_whole(place, state, found, row)
}

/// The same. `known` is what the label costs, if it is known.
fn branch_agrees_if(
    place: &Place,
    state: &State,
    found: &Found,
    row: &LabelRow,
    known: Option<u128>,
) -> bool
    requires context { found.now.context ≡ context_of place.now.module.now (found_view found.now) }
    requires known { let m = place.now.module.now in
        let f = found_view found.now in
        IfSome known (IsCostOf (branch_view m (context_of m f) f.branch (state_of state.now)) (label_of row.now)) }
    ensures { let m = place.now.module.now in
        let f = found_view found.now in
        let view = branch_view m (context_of m f) f.branch (state_of state.now) in
        result ≡ agrees view (label_of row.now) }
{
    match known {
        Some(_) => begins_there(found, row),
        None => branch_agrees(place, state, found, row),
    }
}

/// Whether a state knows what a label says of words that no branch of a PAR writes.
fn agrees_with(module: &Module, state: &State, found: &Found, row: &LabelRow) -> bool
    requires { IsInRow «module».now found.now }
    ensures { result ≡ agrees_after (par_of found.now.par.now) (state_of state.now) (Some (label_of row.now)) }
{
    let written = module.written_words(found.row);
    Asked::Left { written, state }.label_passes(row) && Sight::InState { state }.are_whole(row)
}

/// Whether a state knows what the label after a PAR says of words that no branch writes, if it is compared.
fn agrees_after(module: &Module, state: &State, found: &Found, after: Option<&LabelRow>) -> bool
    requires { IsInRow «module».now found.now }
    ensures { result ≡ agrees_after (par_of found.now.par.now) (state_of state.now) (label_view after.entry) }
{
    match after {
        Some(row) => agrees_with(module, state, found, row),
        None => true,
    }
}

/// The same. `known` is what the label costs, if it is known.
fn agrees_after_if(
    module: &Module,
    state: &State,
    found: &Found,
    after: Option<&LabelRow>,
    known: Option<u128>,
) -> bool
    requires in_row { IsInRow «module».now found.now }
    requires known { IfSome known (IsCostAfter (par_of found.now.par.now) (state_of state.now) (label_view after)) }
    ensures { result ≡ agrees_after (par_of found.now.par.now) (state_of state.now) (label_view after.entry) }
{
    match known {
        Some(_) => true,
        None => agrees_after(module, state, found, after),
    }
}

/// What is left of the number of a state once the labels of a start are paid, and the loops that they enter.
#[tactic(auto, using(crate::proofs::Paying::both_are_paid))]
fn left_of_start(
    place: &Place,
    state: &State,
    found: &Found,
    row: &LabelRow,
    after: Option<&LabelRow>,
    known: Costs,
) -> Option<u64>
    requires context { found.now.context ≡ context_of place.now.module.now (found_view found.now) }
    requires after { label_view after
        ≡ label_after place.now.module.now (state_of state.now).mode (par_of found.now.par.now) }
    requires known { AreCosts place.now.module.now (state_of state.now) (found_view found.now) (label_of row.now)
        (label_view after) known }
    ensures { let s = state_of state.now in
        let price = cost_of_start place.now.module.now s (found_view found.now) (label_of row.now) in
        SomeIff result (price ≤ s.number) (s.number - price) }
{
    let left = left_of_branch(place, state, found, state.number, row, known.branch)?;
    left_after(state, left, found, after, known.after)
}

/// Whether what is known implies what the labels of a start say.
fn start_agrees(
    place: &Place,
    state: &State,
    found: &Found,
    row: &LabelRow,
    after: Option<&LabelRow>,
    known: Costs,
) -> bool
    requires context { found.now.context ≡ context_of place.now.module.now (found_view found.now) }
    requires in_row { IsInRow place.now.module.now found.now }
    requires after { label_view after
        ≡ label_after place.now.module.now (state_of state.now).mode (par_of found.now.par.now) }
    requires known { AreCosts place.now.module.now (state_of state.now) (found_view found.now) (label_of row.now)
        (label_view after) known }
    ensures { let s = state_of state.now in
        result ≡ start_agrees place.now.module.now s (found_view found.now) (label_of row.now) }
{
    branch_agrees_if(place, state, found, row, known.branch)
        && agrees_after_if(place.module, state, found, after, known.after)
}

/// The labels at which others go on.
fn report(found: &Found, after: Option<&LabelRow>) -> Started
    ensures { let f = found_view found.now in
        labels_of result ≡ f.branch.entry ∷ offset_after f.par (label_view after.entry) }
{
    let successor = match after {
        Some(_row) => Some(found.par.successor),
        None => None,
    };
    Started {
        branch: found.branch.entry,
        successor,
    }
}

/// One more branch is started, and `left` is left of the number.
fn go_on(state: &mut State, found: &Found, left: u64)
    requires small { (found.now.row < 2 ^ 32) × (found.now.number + 1 < 2 ^ 32) }
    ensures state { (price : ℕ) → left ≡ (state_of state.old).number - price
        → state_of state.new ≡ after_start (found_view found.now) price (state_of state.old) }
    ensures belongs { (m : Contents) → BelongsTo m state.old → BelongsTo m state.new }
{
    state.number = left;
    state.stack = Stack::of_empty(Known::UNKNOWN);
    state.mode = Mode::Starting {
        row: found.row as u32,
        started: found.number as u32 + 1,
    };
}

/// What the labels of a start cost, as far as one pass over the entries of each decides it.
fn known_costs(
    place: &Place,
    state: &mut State,
    found: &Found,
    row: &LabelRow,
    after: Option<&LabelRow>,
) -> Costs
    requires kept { Keeps place.now.module.now }
    requires context { found.now.context ≡ context_of place.now.module.now (found_view found.now) }
    requires numbered { IsNumbered place.now.module.now found.now }
    requires in_row { IsInRow place.now.module.now found.now }
    requires label { label_at place.now.module.now found.now.branch.now.entry ≡ Some (label_of row.now) }
    requires after { label_view after
        ≡ label_after place.now.module.now (state_of state.old).mode (par_of found.now.par.now) }
    ensures costs { AreCosts place.now.module.now (state_of state.old) (found_view found.now) (label_of row.now)
        (label_view after.entry) result }
    ensures left { IsLeft state.old state.new }
{
    let branch = cost_of_branch(place, state, found, row);
    let successor = cost_after(place.module, state, found, after);
    Costs {
        branch,
        after: successor,
    }
}

/// The labels are paid, and what they say is known. `known` is what they cost, as far as it is known.
#[tactic(auto, unfolding(crate::specs::ParRules::pays_labels))]
fn pays_knowing(
    place: &Place,
    state: &mut State,
    found: &Found,
    row: &LabelRow,
    after: Option<&LabelRow>,
    known: Costs,
) -> Result<Started, Rule>
    requires context { found.now.context ≡ context_of place.now.module.now (found_view found.now) }
    requires in_row { IsInRow place.now.module.now found.now }
    requires small { (found.now.row < 2 ^ 32) × (found.now.number + 1 < 2 ^ 32) }
    requires after { label_view after
        ≡ label_after place.now.module.now (state_of state.old).mode (par_of found.now.par.now) }
    requires known { AreCosts place.now.module.now (state_of state.old) (found_view found.now) (label_of row.now)
        (label_view after) known }
    ensures ruling { let ruling = pays_labels (site_of place.now) (found_view found.now) (label_of row.now) in
        Starts result (state_of state.new) (ruling (state_of state.old)) }
    ensures belongs { (m : Contents) → BelongsTo m state.old → BelongsTo m state.new }
{
    let left = left_of_start(place, state, found, row, after, known).ok_or(Rule::Budget)?;
    let agrees = start_agrees(place, state, found, row, after, known);
    wants(agrees, Rule::Label)?;
    go_on(state, found, left);
    Ok(report(found, after))
}

/// The labels are paid, and what they say is known.
fn pays_labels(
    place: &Place,
    state: &mut State,
    found: &Found,
    row: &LabelRow,
) -> Result<Started, Rule>
    requires kept { Keeps place.now.module.now }
    requires context { found.now.context ≡ context_of place.now.module.now (found_view found.now) }
    requires numbered { IsNumbered place.now.module.now found.now }
    requires in_row { IsInRow place.now.module.now found.now }
    requires label { label_at place.now.module.now found.now.branch.now.entry ≡ Some (label_of row.now) }
    requires small { (found.now.row < 2 ^ 32) × (found.now.number + 1 < 2 ^ 32) }
    ensures ruling { let ruling = pays_labels (site_of place.now) (found_view found.now) (label_of row.now) in
        Starts result (state_of state.new) (ruling (state_of state.old)) }
    ensures belongs { (m : Contents) → BelongsTo m state.old → BelongsTo m state.new }
{
    let after = label_after(place.module, state.mode, found.par);
    let known = known_costs(place, state, found, row, after);
    pays_knowing(place, state, found, row, after, known)
}

/// The label at a code offset, unless there is none.
#[tactic(auto, unfolding(crate::specs::ParRules::with_label))]
fn with_label<'s>(place: &Place<'s, '_>, at: u32) -> Result<&'s LabelRow, Rule>
    ensures gives { Gives (λ row. label_of row.now) result (with_label (site_of place.now) at) }
    ensures label { IfOk result (λ row. label_at place.now.module.now at ≡ Some (label_of row.now)) }
{
    place.module.label_at(at).ok_or(Rule::Par)
}

/// Whether no branch writes a word of a loop that the label after the PAR has, which is asked at the first start.
fn leaves_loops_at_first(module: &Module, mode: Mode, found: &Found) -> bool
    requires { IsInRow «module».now found.now }
    ensures { result ≡ at_first mode (leaves_loops «module».now (par_of found.now.par.now)) }
{
    mode != Mode::Plain || module.leaves_loops_of(found.row)
}

/// Whether all is there that the PAR wants at the first start.
fn may_open_at_first(module: &Module, state: &State, found: &Found) -> bool
    requires { IsInRow «module».now found.now }
    ensures { let s = state_of state.now in
        result ≡ at_first s.mode (may_open «module».now s (par_of found.now.par.now)) }
{
    state.mode != Mode::Plain || may_open(module, state, found)
}

/// This branch is started, with its workspace in A.
#[tactic(auto, unfolding(crate::specs::ParRules::starts_branch))]
fn starts_branch(place: &Place, state: &mut State, a: Fact, found: &Found) -> Result<Started, Rule>
    requires belongs { BelongsTo place.now.module.now state.old }
    requires context { found.now.context ≡ context_of place.now.module.now (found_view found.now) }
    requires numbered { IsNumbered place.now.module.now found.now }
    requires in_row { IsInRow place.now.module.now found.now }
    requires small { (found.now.row < 2 ^ 32) × (found.now.number + 1 < 2 ^ 32) }
    ensures ruling { let ruling = starts_branch (site_of place.now) (state_of state.old) a (found_view found.now) in
        Starts result (state_of state.new) ruling }
    ensures belongs { BelongsTo place.now.module.now state.new }
{
    wants(is_apart(place, state, found), Rule::RegionsMeet)?;
    wants(ends_are_free(place, state, found), Rule::Channel)?;
    outside_alternation(state.mode)?;
    let leaves_loops = leaves_loops_at_first(place.module, state.mode, found);
    wants(leaves_loops, Rule::Forward)?;
    wants(is_in_turn(state, a, found), Rule::Par)?;
    wants(may_give(place, state, found), Rule::Par)?;
    wants(may_open_at_first(place.module, state, found), Rule::Par)?;
    let row = with_label(place, found.branch.entry)?;
    let has_scheduling_words = has_scheduling_words(place.module, found.context, found.branch);
    wants(has_scheduling_words, Rule::OwnWord)?;
    place.pays(state)?;
    pays_labels(place, state, found, row)
}

/// Judges `startp`, by its rule, and reports the labels at which others go on. The process goes on after the
/// instruction, in the state that is left: one more branch is started, each label is paid from the number, and nothing
/// is known of the registers. If the rule is broken, the state is left part of the way. `Rule::Label` and
/// `Rule::Budget` speak of the label of the branch, and at the first start of a PAR of the label after it.
#[tactic(auto, unfolding(crate::specs::ParRules::startp_rule))]
#[inline(never)]
pub fn start_process(place: &Place, state: &mut State) -> Result<Started, Rule>
    requires { BelongsTo place.now.module.now state.old }
    ensures ruling { let ruling = startp_rule (site_of place.now) (state_of state.old) in
        Starts result (state_of state.new) ruling }
    ensures belongs { BelongsTo place.now.module.now state.new }
{
    let a = uses(state.stack.a)?;
    let b = uses(state.stack.b)?;
    wants(is_near_pointer(a), Rule::Pointer)?;
    match named_branch(place, b) {
        Some(found) => starts_branch(place, state, a, &found),
        None => {
            outside_alternation(state.mode)?;
            Err(Rule::Par)
        }
    }
}
