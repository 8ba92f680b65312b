//! What changes hands at a start that is not at fault.

ghost use Rattle.std.specs.Prelude.{◌≡◌, ◌<◌, ◌^◌, ◌+◌, ◌∷◌, [], IfOk, length};
ghost use Rattle.module_format.specs.Contents.{contents_of, par_of};
ghost use Rattle.module_format.specs.Contexts.{parameters_at};
ghost use Rattle.machine_state.specs.StartPlans.{first_faults, first_fault, later_plan, later_faults, share_by};
ghost use Rattle.machine_state.specs.BranchShares.{frame_address, holding_of};
ghost use Rattle.machine_state.specs.JoinLookups.{named_from};
ghost use Rattle.machine_state.specs.Spans.{less};
ghost use Rattle.machine_state.specs.Views.{holding_view, join_view};
ghost use Rattle.machine_state.specs.World.{holding_at};
ghost use Rattle.joins.specs.Finding.{found_view, first_plan_of};
ghost use Rattle.joins.specs.Gifts.{IsGift, IsFirstGift};
ghost use Rattle.joins.specs.Opened.{opening_plan};
ghost use Rattle.joins.specs.Testing.{Finds, later_tests};

use crate::Processes;
use crate::found::{Found, Start};
use crate::open::held;
use crate::opening::{Opening, prepare};
use crate::plan::Plan;
use crate::share::{Frame, share_of};
use crate::testing::{Gift, divide, no_row_fault, test_first, test_later};
use certificate::Module;
use machine_state::{Holding, Join, Progress, TaggedStore, local_address};
use module_format::{ParRow, Parameter, Tables};
use std::alloc::{AllocError, Global};
use traffic::Stop;

/// What changes hands at a start while a PAR is open: how far its join is, and what the branch holds.
#[derive(Drop)]
pub(crate) struct Later {
    pub to: Progress,
    pub own: Holding,
}

/// What changes hands at the first start of a PAR: the join that is open, and what the branch holds.
#[derive(Drop)]
pub(crate) struct First {
    pub join: Join,
    pub own: Holding,
}

/// The address of the join block.
fn block_of(base: u32, par: &ParRow) -> u32
    ensures { result ≡ frame_address base (par_of par.now).block }
{
    local_address(base, par.block)
}

/// What changes at a start by the row of the PAR that is open: the join, and what the branch holds.
fn next_gift(
    alloc: Global,
    end: u32,
    tables: &Tables,
    parameters: &[Parameter],
    start: &Start,
    join: &Join,
) -> Result<Later, Stop>
    requires code { length tables.now.code.now < 2 ^ 32 }
    requires number { start.now.found.number + 1 < 2 ^ 32 }
    requires parameters { parameters.now ≡ parameters_at (contents_of tables.now) start.now.found.par.now.context }
    ensures finds { let f = found_view start.now.found in
        let plan = later_plan (contents_of tables.now) (join_view join.now) f.par in
        Finds start.now.here.now result (first_fault (later_faults end plan f start.now.workspace)) }
    ensures gift { let f = found_view start.now.found in
        let plan = later_plan (contents_of tables.now) (join_view join.now) f.par in
        IfOk result (λ x. IsGift (contents_of tables.now) end plan f.branch x.to x.own) }
{
    let found = start.found;
    let frame = Frame {
        base: join.base,
        parameters,
        addresses: &join.parameters,
    };
    let plan = Plan {
        row: join.row,
        par: found.par,
        frame,
        started: join.started,
        rest: &join.rest,
    };
    let share = share_of(alloc, frame, found.branch)?;
    test_later(alloc, start.here, end, plan, found, &share, start.workspace)?;
    let gift = divide(alloc, end, tables, &join.rest, &share)?;
    let to = Progress {
        block: block_of(join.base, found.par),
        started: found.number as u32 + 1,
        rest: gift.rest,
    };
    Ok(Later { to, own: gift.own })
}

/// What changes at a start while a PAR is open: its join, and what the branch holds. The branch is one of its row.
pub(crate) fn later_gift(
    alloc: Global,
    traffic: &Processes,
    start: &Start,
    join: &Join,
) -> Result<Later, Stop>
    requires { start.now.found.number + 1 < 2 ^ 32 }
    ensures finds { let n = length traffic.now.world.memory in
        let f = found_view start.now.found in
        let tests = later_tests start.now.module.now n (join_view join.now) f start.now.workspace in
        Finds start.now.here.now result (first_fault tests) }
    ensures gift { let n = length traffic.now.world.memory in
        let f = found_view start.now.found in
        let plan = later_plan start.now.module.now (join_view join.now) f.par in
        IfOk result (λ x. IsGift start.now.module.now n plan f.branch x.to x.own) }
{
    let found = start.found;
    if found.row != join.row as usize {
        let fault = no_row_fault(start.here, &join.rest, start.workspace);
        return Err(Stop::Fault(fault));
    }
    let parameters = start.module.parameters(u32::from(found.par.context));
    next_gift(
        alloc,
        traffic.store().size(),
        start.module.tables(),
        parameters,
        start,
        join,
    )
}

/// What the branch holds, and what is left, at the first start of a PAR.
fn first_division(
    alloc: Global,
    tables: &Tables,
    parameters: &[Parameter],
    start: &Start,
    store: &TaggedStore,
    holding: &Holding,
    opening: &Opening,
) -> Result<Gift, Stop>
    requires code { length tables.now.code.now < 2 ^ 32 }
    requires row { start.now.found.row < 2 ^ 32 }
    requires words { opening.now.words.items ≡ named_from (par_of start.now.found.par.now) 0 parameters.now }
    ensures finds { let f = found_view start.now.found in
        let plan = opening_plan opening.now f parameters.now in
        let h = holding_view holding.now in
        let tests = first_faults (contents_of tables.now) store.now.cells h plan f start.now.workspace in
        Finds start.now.here.now result (first_fault tests) }
    ensures own { let f = found_view start.now.found in
        let share = share_by (opening_plan opening.now f parameters.now) f.branch in
        IfOk result (λ g. holding_view g.own ≡ holding_of (contents_of tables.now) (length store.now.cells) share) }
    ensures rest { let f = found_view start.now.found in
        let plan = opening_plan opening.now f parameters.now in
        IfOk result (λ g. holding_view g.rest ≡ less (length store.now.cells) plan.rest (share_by plan f.branch)) }
{
    let frame = Frame {
        base: opening.base,
        parameters,
        addresses: &opening.addresses,
    };
    let plan = Plan {
        row: start.found.row as u32,
        par: start.found.par,
        frame,
        started: 0,
        rest: &opening.rest,
    };
    let share = share_of(alloc, frame, start.found.branch)?;
    test_first(
        alloc,
        start.here,
        tables,
        store,
        holding,
        plan,
        &opening.words,
        start.found,
        &share,
        start.workspace,
    )?;
    Ok(divide(alloc, store.size(), tables, &opening.rest, &share)?)
}

/// The join that the first start of a PAR opens, with its two members, and what is left to give.
fn first_join(
    alloc: Global,
    opening: Opening,
    rest: Holding,
    found: Found,
    opener: u64,
    branch: u64,
) -> Result<Join, AllocError>
    requires { found.row < 2 ^ 32 }
    ensures { IfOk result (λ j. join_view j ≡ record {
      row = found.entry.row;
      block = frame_address opening.base (par_of found.entry.par.now).block;
      base = opening.base;
      parameters = opening.addresses.items;
      started = 1;
      rest = holding_view rest;
      members = opener ∷ branch ∷ [];
    }) }
{
    let members = Vec::from_slice(alloc, &[opener, branch])?;
    Ok(Join {
        row: found.row as u32,
        block: block_of(opening.base, found.par),
        base: opening.base,
        parameters: opening.addresses,
        started: 1,
        rest,
        members,
    })
}

/// What the first start of a PAR opens: the join, and what the branch holds.
pub(crate) fn first_gift(alloc: Global, traffic: &Processes, start: &Start) -> Result<First, Stop>
    requires { start.now.found.row < 2 ^ 32 }
    ensures finds { let w = traffic.now.world in
        let holding = holding_at w.roles start.now.here.now.process in
        let plan = first_plan_of start.now w in
        let f = found_view start.now.found in
        let tests = first_faults start.now.module.now w.memory holding plan f start.now.workspace in
        Finds start.now.here.now result (first_fault tests) }
    ensures gift { let w = traffic.now.world in
        let m = start.now.module.now in
        let f = found_view start.now.found in
        IfOk result (λ x.
        IsFirstGift m (length w.memory) (first_plan_of start.now w) f (length w.tasks) x.join x.own) }
{
    let here = start.here;
    let found = start.found;
    let store = traffic.store();
    let empty = Holding::nothing(alloc);
    let holding = held(store, here.process, &empty);
    let parameters = start.module.parameters(u32::from(found.par.context));
    let from = here.task.registers.workspace;
    let opening = prepare(alloc, store, holding, from, found.par, parameters)?;
    let gift = first_division(
        alloc,
        start.module.tables(),
        parameters,
        start,
        store,
        holding,
        &opening,
    )?;
    let branch = traffic.count();
    let join = first_join(alloc, opening, gift.rest, found, here.process, branch)?;
    Ok(First {
        join,
        own: gift.own,
    })
}
