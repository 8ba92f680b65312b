//! `endp`: a member of a join ends, and with the last one the join is over.

ghost use Rattle.std.specs.Prelude.{◌≡◌, ◌==◌, ◌&&◌, ◌+◌, ◌<◌, ◌^◌, Some, None, length, slice_get, MatchOption};
ghost use Rattle.std.specs.Prelude.{MatchResult};
ghost use Rattle.module_format.specs.Contents.{Contents, Par, contents_of, par_of};
ghost use Rattle.machine_state.specs.World.{Join};
ghost use Rattle.machine_state.specs.Turn.{ran};
ghost use Rattle.machine_state.specs.Joins.{closed, member_joined, ended, own_end, branch_end, join_turn};
ghost use Rattle.machine_state.specs.JoinLookups.{opened_by};
ghost use Rattle.traffic.specs.Moment.{IsSteady, HoldsAs, HoldsAlike};
ghost use Rattle.traffic.specs.Settling.{here_in, Settles};
ghost use Rattle.machine_state.specs.Asking.{untouched};
ghost use Rattle.joins.specs.Summary.{summary};

use crate::Processes;
use crate::open::{Open, open_of, opener_of};
use machine_state::{Condition, Fault, FaultKind, Mode, Registers, Task};
use module_format::{ParRow, Stack, Tables};
use traffic::Here;

/// The end of a process at this instruction, which names the block and leaves these registers.
#[derive(Clone, Copy)]
struct Ending<'a, 't> {
    tables: &'a Tables<'t>,
    here: &'a Here,
    block: u32,
    registers: Registers,
}

/// The process that has opened the join goes on at once after the PAR, with the block as its workspace.
fn close(traffic: &mut Processes, opener: u64, block: u32, successor: u32)
    ensures world { (join : Join) (par : Par) → block ≡ join.block → successor ≡ par.successor →
        traffic.new.world ≡ closed opener join par traffic.old.world }
    ensures holding { HoldsAs traffic.old.holder traffic.new }
{
    let registers = Registers {
        workspace: block,
        at: successor,
        began: successor,
        operand: 0,
        stack: Stack::of_empty(None),
    };
    traffic.set_task(
        opener,
        Task {
            registers,
            mode: Mode::Plain,
            condition: Condition::Ready,
        },
    );
    traffic.close_join(opener);
    traffic.remove_channels(opener);
    traffic.run(opener);
}

/// The process is no member any more. If it was the last one, the join is over; if not, another process may run.
#[tactic(auto, unfolding(machine_state::specs::Moves::dispatch))]
fn leave(traffic: &mut Processes, here: &Here, opener: u64, seen: Open, successor: u32)
    ensures world { (m : Contents) (join : Join) (par : Par) → opened_by traffic.old.world opener ≡ Some join →
        seen ≡ summary here.now.process join → successor ≡ par.successor →
        traffic.new.world ≡ member_joined (here_in m here.now) opener join par traffic.old.world }
    ensures holding { HoldsAs traffic.old.holder traffic.new }
{
    traffic.leave_join(opener, here.process);
    if seen.is_last {
        close(traffic, opener, seen.block, successor);
    } else {
        traffic.give_way(here);
    }
}

/// The process has ended.
fn end(traffic: &mut Processes, here: &Here, registers: Registers)
    requires { here.now.task.registers.at + 1 < 2 ^ 32 }
    ensures world { (m : Contents) → let w = traffic.old.world in
        traffic.new.world ≡ ended (here_in m here.now) (untouched registers w.memory) w }
    ensures holding { HoldsAlike traffic.old traffic.new }
{
    let next = here.next();
    traffic.put_in(here, next, registers, Mode::Plain, Condition::Ended);
}

/// The row of a PAR, if there is one of this number.
fn row_at<'t>(tables: &'t Tables, row: u32) -> Option<&'t ParRow>
    ensures { let found = slice_get (contents_of tables.now).pars row in
        MatchOption result (found ≡ None) (λ par. found ≡ Some (par_of par.now)) }
{
    tables.pars.get(row as usize)
}

/// Whether the block is the join's, and all branches of its PAR are started.
fn is_whole(seen: Open, par: &ParRow, block: u32) -> bool
    ensures { result ≡ ((seen.block == block) && (seen.started == length (par_of par.now).branches)) }
{
    seen.block == block && seen.started as usize == par.branches.len()
}

/// The end of the process that has started the branches: all of them.
fn end_opener(traffic: &mut Processes, ending: &Ending, seen: Open) -> Result<(), Fault>
    requires { ending.now.here.now.task.registers.at + 1 < 2 ^ 32 }
    ensures settles { (join : Join) → let h = here_in (contents_of ending.now.tables.now) ending.now.here.now in
        let w = traffic.old.world in
        let l = untouched ending.now.registers w.memory in
        opened_by w h.process ≡ Some join → seen ≡ summary h.process join →
        Settles w traffic.new.world ran result (own_end h join ending.now.block l w) }
    ensures holding { MatchResult result (λ _. HoldsAs traffic.old.holder traffic.new)
        (λ _. HoldsAlike traffic.old traffic.new) }
{
    let here = ending.here;
    let Some(par) = row_at(ending.tables, seen.row) else {
        return Err(here.fault(FaultKind::JoinOrder));
    };
    if !is_whole(seen, par, ending.block) {
        return Err(here.fault(FaultKind::JoinOrder));
    }
    end(traffic, here, ending.registers);
    leave(traffic, here, here.process, seen, par.successor);
    Ok(())
}

/// The end of a branch of the join that this process has open.
fn end_branch(
    traffic: &mut Processes,
    ending: &Ending,
    opener: u64,
    seen: Open,
) -> Result<(), Fault>
    requires { ending.now.here.now.task.registers.at + 1 < 2 ^ 32 }
    ensures settles { (join : Join) → let h = here_in (contents_of ending.now.tables.now) ending.now.here.now in
        let w = traffic.old.world in
        let l = untouched ending.now.registers w.memory in
        opened_by w opener ≡ Some join → seen ≡ summary h.process join →
        Settles w traffic.new.world ran result (branch_end h opener join ending.now.block l w) }
    ensures holding { MatchResult result (λ _. HoldsAs traffic.old.holder traffic.new)
        (λ _. HoldsAlike traffic.old traffic.new) }
{
    let here = ending.here;
    let Some(par) = row_at(ending.tables, seen.row) else {
        return Err(here.fault(FaultKind::JoinOrder));
    };
    if seen.block != ending.block {
        return Err(here.fault(FaultKind::JoinOrder));
    }
    end(traffic, here, ending.registers);
    traffic.give_back(here.process);
    leave(traffic, here, opener, seen, par.successor);
    Ok(())
}

/// Ends the process, which is a member of a join: the one that has started the branches, or one of these.
///
/// With the last member the join is over, and the process that has opened it goes on at once. Where the process is in
/// no join, where the block is not the join's, or where not all branches are started, the fault is `JoinOrder`.
pub fn join(
    traffic: &mut Processes,
    tables: &Tables,
    here: &Here,
    block: u32,
    registers: Registers,
) -> Result<(), Fault>
    requires { here.now.task.registers.at + 1 < 2 ^ 32 }
    ensures settles { let h = here_in (contents_of tables.now) here.now in
        let w = traffic.old.world in
        Settles w traffic.new.world ran result (join_turn h block (untouched registers w.memory) w) }
    ensures holding { MatchResult result (λ _. HoldsAs traffic.old.holder traffic.new)
        (λ _. HoldsAlike traffic.old traffic.new) }
{
    let ending = Ending {
        tables,
        here,
        block,
        registers,
    };
    if let Some(seen) = open_of(traffic, here.process, here.process) {
        return end_opener(traffic, &ending, seen);
    }
    let fault = here.fault(FaultKind::JoinOrder);
    let opener = opener_of(traffic, here.process).ok_or(fault)?;
    let seen = open_of(traffic, opener, here.process).ok_or(fault)?;
    end_branch(traffic, &ending, opener, seen)
}
