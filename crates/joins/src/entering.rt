//! What a start changes: its process goes on, and the branch is there.

ghost use Rattle.std.specs.Prelude.{◌≡◌, ◌<◌, ◌^◌, ◌+◌, ◌++◌, Some, map, length, MatchResult};
ghost use Rattle.module_format.specs.Contents.{Contents, branch_of, par_of};
ghost use Rattle.module_format.specs.declared.rows.ChannelRow.{ChannelRow as Row};
ghost use Rattle.machine_state.specs.World.{Join as Opened};
ghost use Rattle.machine_state.specs.declared.process.Mode.TheVariants.{Starting};
ghost use Rattle.machine_state.specs.Turn.{between};
ghost use Rattle.machine_state.specs.Moves.{enqueue};
ghost use Rattle.machine_state.specs.Joins.{new_task, started, opened, without_words};
ghost use Rattle.machine_state.specs.StartPlans.{Plan, later_plan, scheduling_addresses, block_addresses};
ghost use Rattle.machine_state.specs.StartPlans.{channel_addresses};
ghost use Rattle.machine_state.specs.BranchShares.{frame_address};
ghost use Rattle.machine_state.specs.JoinLookups.{opened_by};
ghost use Rattle.traffic.specs.Moment.{IsSteady, HoldsAs, HoldsAlike};
ghost use Rattle.traffic.specs.Settling.{here_in};
ghost use Rattle.joins.specs.Finding.{found_view};
ghost use Rattle.joins.specs.Gifts.{IsGift, IsFirstGift};
ghost use Rattle.machine_state.specs.Asking.{untouched};

use crate::Processes;
use crate::found::Start;
use crate::gifts::{First, Later};
use machine_state::{Condition, Mode, Registers, Task, local_address};
use module_format::{BranchRow, ChannelRow, ParRow, Stack};
use std::alloc::AllocError;
use traffic::{Here, NewProcess};

/// A branch at its first byte, with this workspace.
fn new_task(branch: &BranchRow, workspace: u32) -> Task
    ensures value { result ≡ new_task (branch_of branch.now) workspace }
    ensures steady { IsSteady result }
{
    let registers = Registers {
        workspace,
        at: branch.entry,
        began: branch.entry,
        operand: 0,
        stack: Stack::of_empty(None),
    };
    Task {
        registers,
        mode: Mode::Plain,
        condition: Condition::Ready,
    }
}

/// The process after a start of the PAR that it has open.
fn starter(here: &Here, registers: Registers) -> Task
    requires next { here.now.task.registers.at + 1 < 2 ^ 32 }
    requires task { IsSteady here.now.task }
    ensures value { let registers = between (here.now.task.registers.at + 1) registers in
        result ≡ record here.now.task { registers = registers; mode = Starting } }
    ensures steady { IsSteady result }
{
    let mode = Mode::Starting;
    let task = here.continued(here.next(), registers);
    Task { mode, ..task }
}

/// The branch is there, and is ready after all that are. What scheduling takes of its words is undefined.
fn enter(traffic: &mut Processes, workspace: u32, process: u64)
    requires { 0 < traffic.old.room }
    ensures world { let w = traffic.old.world in
        let memory = without_words (scheduling_addresses workspace) w.memory in
        traffic.new.world ≡ enqueue process (record w { memory = memory }) }
    ensures holder { traffic.new.holder ≡ traffic.old.holder }
    ensures holding { traffic.new.holding ≡ traffic.old.holding }
{
    traffic.clear_word(local_address(workspace, -1));
    traffic.clear_word(local_address(workspace, -2));
    traffic.clear_word(local_address(workspace, -3));
    traffic.enqueue(process);
}

/// One more branch of the PAR that the process has open is started. If memory runs out, nothing changes.
pub(crate) fn advance(traffic: &mut Processes, start: &Start, gift: Later) -> Result<(), AllocError>
    requires next { start.now.here.now.task.registers.at + 1 < 2 ^ 32 }
    requires task { IsSteady start.now.here.now.task }
    ensures world { (m : Contents) (join : Opened) → let w = traffic.old.world in
        let f = found_view start.now.found in
        let plan = later_plan m join f.par in
        let h = here_in m start.now.here.now in
        let next = started h plan f start.now.workspace (untouched start.now.registers w.memory) w in
        opened_by w h.process ≡ Some join → IsGift m (length w.memory) plan f.branch gift.to gift.own →
        MatchResult result (λ _. traffic.new.world ≡ next) (λ _. traffic.new.world ≡ w) }
    ensures holding { MatchResult result (λ _. HoldsAs traffic.old.holder traffic.new)
        (λ _. HoldsAlike traffic.old traffic.new) }
{
    traffic.reserve()?;
    let process = traffic.count();
    let task = starter(start.here, start.registers);
    let branch = NewProcess {
        task: new_task(start.found.branch, start.workspace),
        own: gift.own,
    };
    traffic.advance_join(start.here.process, task, gift.to, branch)?;
    enter(traffic, start.workspace, process);
    Ok(())
}

/// Nothing is in the words of the channels of a PAR any more.
fn clear_channel_words(traffic: &mut Processes, base: u32, channels: &[ChannelRow])
    ensures { let w = traffic.old.world in
        let memory = without_words (map (λ (c : Row). frame_address base c.word) channels.now) w.memory in
        traffic.new ≡ record traffic.old { world = record w { memory = memory } } }
{
    for row in channels {
        traffic.clear_word(local_address(base, row.word));
    }
}

/// The block of a PAR and the words of its channels are taken away.
fn take_block(traffic: &mut Processes, base: u32, par: &ParRow)
    ensures { let w = traffic.old.world in
        let p = par_of par.now in
        let memory = without_words (block_addresses base p ++ channel_addresses base p) w.memory in
        traffic.new ≡ record traffic.old { world = record w { memory = memory } } }
{
    let block = local_address(base, par.block);
    traffic.clear_word(block);
    traffic.clear_word(local_address(block, 1));
    clear_channel_words(traffic, base, &par.channels);
}

/// A PAR is open, and its first branch is started. If memory runs out, nothing changes.
pub(crate) fn open(traffic: &mut Processes, start: &Start, gift: First) -> Result<(), AllocError>
    requires next { start.now.here.now.task.registers.at + 1 < 2 ^ 32 }
    requires task { IsSteady start.now.here.now.task }
    ensures world { (m : Contents) (plan : Plan) → let w = traffic.old.world in
        let h = here_in m start.now.here.now in
        let f = found_view start.now.found in
        let there = opened h plan (untouched start.now.registers w.memory) w in
        plan.par ≡ f.par → IsFirstGift m (length w.memory) plan f (length w.tasks) gift.join gift.own →
        MatchResult result (λ _. traffic.new.world ≡ started h plan f start.now.workspace there.0 there.1)
        (λ _. traffic.new.world ≡ w) }
    ensures holding { MatchResult result (λ _. HoldsAs traffic.old.holder traffic.new)
        (λ _. HoldsAlike traffic.old traffic.new) }
{
    traffic.reserve()?;
    let process = traffic.count();
    let par = start.found.par;
    let base = gift.join.base;
    let task = starter(start.here, start.registers);
    let branch = NewProcess {
        task: new_task(start.found.branch, start.workspace),
        own: gift.own,
    };
    traffic.open_join(start.here.process, task, gift.join, &par.channels, branch)?;
    take_block(traffic, base, par);
    enter(traffic, start.workspace, process);
    Ok(())
}
