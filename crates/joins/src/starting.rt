//! `startp`: a branch starts.

ghost use Rattle.std.specs.Prelude.{◌≡◌, ◌<◌, ◌^◌, ◌+◌, Some, None, IfSome, MatchOption, MatchResult, length};
ghost use Rattle.machine_state.specs.World.{Join as Opened, holding_at};
ghost use Rattle.machine_state.specs.Turn.{ran};
ghost use Rattle.machine_state.specs.StartPlans.{first_faults, first_fault, later_plan, no_row_faults};
ghost use Rattle.machine_state.specs.JoinLookups.{opened_by, found_at};
ghost use Rattle.machine_state.specs.Joins.{start_turn, first_start_turn, later_start_turn};
ghost use Rattle.traffic.specs.Moment.{IsSteady, HoldsAs, HoldsAlike};
ghost use Rattle.traffic.specs.Settling.{here_in, SettlesIfRoom};
ghost use Rattle.machine_state.specs.Faults.{fault_in};
ghost use Rattle.std.specs.Option.{option_map};
ghost use Rattle.joins.specs.Finding.{found_view, first_plan_of};
ghost use Rattle.joins.specs.Gifts.{IsGift, IsFirstGift};
ghost use Rattle.machine_state.specs.Asking.{untouched};
ghost use Rattle.joins.specs.Testing.{found_start, later_tests};

use crate::Processes;
use crate::entering::{advance, open};
use crate::found::{Found, Start, found_at};
use crate::gifts::{First, Later, first_gift, later_gift};
use crate::open::{held, join_of};
use crate::testing::no_row_fault;
use certificate::Module;
use machine_state::{Fault, Holding, Registers};
use std::alloc::Global;
use traffic::{Here, Stop};

/// The branch of a module that begins at a code offset, if there is one. Its numbers are small, as the format says.
fn found_in<'m>(module: &'m Module, target: u32) -> Option<Found<'m>>
    ensures found { let found = found_at «module».now target in
        MatchOption result (found ≡ None) (λ f. found ≡ Some (found_view f)) }
    ensures row { IfSome result (λ f. f.row < 2 ^ 32) }
    ensures number { IfSome result (λ f. f.number + 1 < 2 ^ 32) }
{
    found_at(module.tables(), target)
}

/// One more branch of the PAR that the process has open is started, where nothing is wrong and code follows.
fn start_later(traffic: &mut Processes, start: &Start, gift: Later) -> Result<(), Stop>
    requires { IsSteady start.now.here.now.task }
    ensures settles { (join : Opened) → let w = traffic.old.world in
        let m = start.now.module.now in
        let h = here_in m start.now.here.now in
        let f = found_view start.now.found in
        let n = length w.memory in
        let turn = later_start_turn h join f start.now.workspace (untouched start.now.registers w.memory) w in
        opened_by w h.process ≡ Some join → first_fault (later_tests m n join f start.now.workspace) ≡ None →
        IsGift m n (later_plan m join f.par) f.branch gift.to gift.own →
        SettlesIfRoom (λ done. ran) w traffic.new.world result turn }
    ensures holding { MatchResult result (λ _. HoldsAs traffic.old.holder traffic.new)
        (λ _. HoldsAlike traffic.old traffic.new) }
{
    start.check_followed()?;
    advance(traffic, start, gift)?;
    Ok(())
}

/// A PAR is open, and its first branch is started, where nothing is wrong and code follows.
fn start_first(traffic: &mut Processes, start: &Start, gift: First) -> Result<(), Stop>
    requires { IsSteady start.now.here.now.task }
    ensures settles { let w = traffic.old.world in
        let m = start.now.module.now in
        let h = here_in m start.now.here.now in
        let f = found_view start.now.found in
        let holding = holding_at w.roles h.process in
        let plan = first_plan_of start.now w in
        let turn = first_start_turn h f start.now.workspace (untouched start.now.registers w.memory) w in
        first_fault (first_faults m w.memory holding plan f start.now.workspace) ≡ None →
        IsFirstGift m (length w.memory) plan f (length w.tasks) gift.join gift.own →
        SettlesIfRoom (λ done. ran) w traffic.new.world result turn }
    ensures holding { MatchResult result (λ _. HoldsAs traffic.old.holder traffic.new)
        (λ _. HoldsAlike traffic.old traffic.new) }
{
    start.check_followed()?;
    open(traffic, start, gift)?;
    Ok(())
}

/// The fault of a start at which no branch begins.
fn no_branch_fault(alloc: Global, traffic: &Processes, here: &Here, workspace: u32) -> Fault
    ensures { let tests = no_row_faults (holding_at traffic.now.world.roles here.now.process) workspace in
        option_map (fault_in here.now.process here.now.task.registers.began) (first_fault tests) ≡ Some result }
{
    let empty = Holding::nothing(alloc);
    let holding = held(traffic.store(), here.process, &empty);
    no_row_fault(here, holding, workspace)
}

/// A start by a branch of the module.
fn start_found(alloc: Global, traffic: &mut Processes, start: &Start) -> Result<(), Stop>
    requires row { start.now.found.row < 2 ^ 32 }
    requires number { start.now.found.number + 1 < 2 ^ 32 }
    requires task { IsSteady start.now.here.now.task }
    ensures settles { let h = here_in start.now.module.now start.now.here.now in
        let w = traffic.old.world in
        let f = found_view start.now.found in
        let turn = found_start h f start.now.workspace (untouched start.now.registers w.memory) w in
        SettlesIfRoom (λ done. ran) w traffic.new.world result turn }
    ensures holding { MatchResult result (λ _. HoldsAs traffic.old.holder traffic.new)
        (λ _. HoldsAlike traffic.old traffic.new) }
{
    match join_of(traffic, start.here.process) {
        Some(join) => {
            let gift = later_gift(alloc, traffic, start, join)?;
            start_later(traffic, start, gift)
        }
        None => {
            let gift = first_gift(alloc, traffic, start)?;
            start_first(traffic, start, gift)
        }
    }
}

/// Starts the branch that begins at a code offset, with this workspace: the process goes on after the instruction, and
/// the branch is ready after all that are.
///
/// The first start of a PAR opens its join, with what the process holds; later ones go on with that. The fault is
/// `EndNotHeld` where an end that the branch is to have is not there or is given twice, `NotOwn` where bytes that the
/// start takes or gives are not held, `Undefined` where the first start finds such a word undefined, `JoinOrder` where
/// no branch of the PAR is next there, or the first start finds the block or a channel not prepared, and `OutsideCode`
/// if no code follows the instruction; the first of these in this order. Memory may run out before or after that: then
/// nothing has changed.
pub fn start(
    alloc: Global,
    traffic: &mut Processes,
    module: &Module,
    here: &Here,
    target: u32,
    workspace: u32,
    registers: Registers,
) -> Result<(), Stop>
    requires { IsSteady here.now.task }
    ensures settles { let h = here_in «module».now here.now in
        let w = traffic.old.world in
        let turn = start_turn h target workspace (untouched registers w.memory) w in
        SettlesIfRoom (λ done. ran) w traffic.new.world result turn }
    ensures holding { MatchResult result (λ _. HoldsAs traffic.old.holder traffic.new)
        (λ _. HoldsAlike traffic.old traffic.new) }
{
    let Some(found) = found_in(module, target) else {
        let fault = no_branch_fault(alloc, traffic, here, workspace);
        return Err(Stop::Fault(fault));
    };
    let start = Start {
        module,
        here,
        found,
        workspace,
        registers,
    };
    start_found(alloc, traffic, &start)
}
