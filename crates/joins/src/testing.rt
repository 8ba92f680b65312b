//! The tests of a start, in the order in which faults are reported.

ghost use Rattle.std.specs.Prelude.{◌≡◌, ◌&&◌, ◌+◌, ◌<◌, ◌^◌, ℕ, [], Some, IfOk, length};
ghost use Rattle.std.specs.List.{list_all};
ghost use Rattle.module_format.specs.Contents.{contents_of, branch_of, par_of};
ghost use Rattle.std.specs.Option.{option_map};
ghost use Rattle.machine_state.specs.Faults.{fault_in};
ghost use Rattle.machine_state.specs.Holding.{may_write, may_read};
ghost use Rattle.machine_state.specs.StartPlans.{first_fault, no_row_faults, later_faults, first_faults, share_by};
ghost use Rattle.machine_state.specs.StartPlans.{word_passes, scheduling_places, words_are_held, words_are_defined};
ghost use Rattle.machine_state.specs.BranchShares.{holding_of};
ghost use Rattle.machine_state.specs.JoinLookups.{named_from};
ghost use Rattle.machine_state.specs.Spans.{all_pass_within, writes_place, less};
ghost use Rattle.machine_state.specs.Views.{holding_view};
ghost use Rattle.joins.specs.Finding.{found_view};
ghost use Rattle.joins.specs.Planning.{plan_view};
ghost use Rattle.joins.specs.Sharing.{share_view};
ghost use Rattle.joins.specs.Testing.{Finds};

use crate::faults::{
    ends_are_there, is_defined, is_next, is_prepared, may_open, may_read_named, may_schedule,
    named_are_defined, scheduling_is_own,
};
use crate::found::Found;
use crate::given::{given, is_held, less};
use crate::plan::Plan;
use crate::share::Share;
use machine_state::{Fault, FaultKind, Holding, TaggedStore};
use module_format::Tables;
use std::alloc::{AllocError, Global};
use traffic::{Here, Stop};

/// The fault of a start that no row of the module, or not that of the open join, plans.
pub(crate) fn no_row_fault(here: &Here, holding: &Holding, workspace: u32) -> Fault
    ensures { option_map (fault_in here.now.process here.now.task.registers.began)
        (first_fault (no_row_faults (holding_view holding.now) workspace)) ≡ Some result }
{
    if may_schedule(holding, workspace) {
        here.fault(FaultKind::JoinOrder)
    } else {
        here.fault(FaultKind::NotOwn)
    }
}

/// Whether the words that scheduling takes of the new process are there and are its own to write, and its share is
/// there.
pub(crate) fn share_is_there(
    alloc: Global,
    end: u32,
    rest: &Holding,
    share: &Share,
    workspace: u32,
) -> Result<bool, AllocError>
    ensures { let h = holding_view rest.now in
        let s = share_view share.now in
        let own = list_all (word_passes (λ (p : ℕ). may_write h p && writes_place s p)) (scheduling_places workspace) in
        IfOk result (λ there. there ≡ (own && list_all (all_pass_within end (may_write h)) s.writes
        && list_all (all_pass_within end (may_read h)) s.reads)) }
{
    if !scheduling_is_own(rest, share, workspace) {
        return Ok(false);
    }
    is_held(alloc, end, rest, share)
}

/// Tests a start of a PAR that is open.
pub(crate) fn test_later(
    alloc: Global,
    here: &Here,
    end: u32,
    plan: Plan,
    found: Found,
    share: &Share,
    workspace: u32,
) -> Result<(), Stop>
    requires { share_view share.now ≡ share_by (plan_view [] plan) (branch_of found.branch.now) }
    ensures { let tests = later_faults end (plan_view [] plan.entry) (found_view found.entry) workspace in
        Finds here.now result (first_fault tests) }
{
    let rest = plan.rest;
    let are_there = ends_are_there(alloc, &rest.ends, &share.ends)?;
    here.check(are_there, FaultKind::EndNotHeld)?;
    let is_there = share_is_there(alloc, end, rest, share, workspace)?;
    here.check(is_there, FaultKind::NotOwn)?;
    here.check(is_next(plan, found, workspace), FaultKind::JoinOrder)?;
    Ok(())
}

/// Whether the words of the block, the channels and the named parameters are held.
fn words_are_held(holding: &Holding, plan: Plan, words: &[Option<i32>]) -> bool
    requires { words.now ≡ named_from (par_of plan.par.now) 0 plan.frame.parameters.now }
    ensures { result ≡ words_are_held (holding_view holding.now) (plan_view [] plan.entry) }
{
    may_open(holding, plan.frame.base, plan.par) && may_read_named(holding, plan.frame.base, words)
}

/// Whether they are defined.
fn words_are_defined(store: &TaggedStore, plan: Plan, words: &[Option<i32>]) -> bool
    requires { words.now ≡ named_from (par_of plan.par.now) 0 plan.frame.parameters.now }
    ensures { result ≡ words_are_defined store.now.cells (plan_view [] plan.entry) }
{
    is_defined(store, plan.frame.base, plan.par) && named_are_defined(store, plan.frame.base, words)
}

/// Tests the first start of a PAR.
pub(crate) fn test_first(
    alloc: Global,
    here: &Here,
    tables: &Tables,
    store: &TaggedStore,
    holding: &Holding,
    plan: Plan,
    words: &[Option<i32>],
    found: Found,
    share: &Share,
    workspace: u32,
) -> Result<(), Stop>
    requires share { share_view share.now ≡ share_by (plan_view [] plan) (branch_of found.branch.now) }
    requires words { words.now ≡ named_from (par_of plan.par.now) 0 plan.frame.parameters.now }
    ensures { let m = contents_of tables.now in
        let p = plan_view [] plan.entry in
        let tests = first_faults m store.now.cells (holding_view holding.now) p (found_view found.entry) workspace in
        Finds here.now result (first_fault tests) }
{
    let rest = plan.rest;
    let are_there = ends_are_there(alloc, &rest.ends, &share.ends)?;
    here.check(are_there, FaultKind::EndNotHeld)?;
    let is_there = share_is_there(alloc, store.size(), rest, share, workspace)?;
    let is_held = is_there && words_are_held(holding, plan, words);
    here.check(is_held, FaultKind::NotOwn)?;
    here.check(words_are_defined(store, plan, words), FaultKind::Undefined)?;
    let is_next = is_next(plan, found, workspace) && is_prepared(store, tables, plan);
    here.check(is_next, FaultKind::JoinOrder)?;
    Ok(())
}

/// What changes hands at a start: what the branch holds, and what is left.
#[derive(Drop)]
pub(crate) struct Gift {
    pub own: Holding,
    pub rest: Holding,
}

/// What changes hands where a branch has this share of what is left.
pub(crate) fn divide(
    alloc: Global,
    end: u32,
    tables: &Tables,
    rest: &Holding,
    share: &Share,
) -> Result<Gift, AllocError>
    requires { length tables.now.code.now < 2 ^ 32 }
    ensures own { let s = share_view share.now in
        IfOk result (λ g. holding_view g.own ≡ holding_of (contents_of tables.now) end s) }
    ensures rest { IfOk result (λ g. holding_view g.rest ≡ less end (holding_view rest.now) (share_view share.now)) }
{
    Ok(Gift {
        own: given(alloc, end, tables, share)?,
        rest: less(alloc, end, rest, share)?,
    })
}
