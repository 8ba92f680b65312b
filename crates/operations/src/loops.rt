//! How a loop turns.

ghost use Rattle.std.specs.Prelude.{◌≡◌, IsTrue, nat_lt};
ghost use Rattle.machine_state.specs.LocalStep.{holds_scheduling_words, turned};
ghost use Rattle.machine_state.specs.declared.op.Op.TheVariants as operation;
ghost use Rattle.machine_state.specs.Performing.{Performs, PerformsOperation, IsSameElsewhere};
ghost use Rattle.machine_state.specs.Performing.{site_of, local_of, value_or_fault};
ghost use Rattle.operations.specs.Loops.{holds_block, loop_target, counts_turn, turns_block, tests_block};

use crate::operands::operand;
use machine_state::{Cpu, FaultKind, Flow, Store, local_address};
use module_format::Stack;

/// A code offset that lies in the code, else `OutsideCode`.
fn landing<S>(cpu: &Cpu<S>, offset: u64) -> Result<u32, FaultKind>
    ensures { let holds = nat_lt offset cpu.now.code_length in
        result ≡ value_or_fault holds offset FaultKind.OutsideCode }
{
    if offset < u64::from(cpu.code_length) {
        Ok(offset as u32)
    } else {
        Err(FaultKind::OutsideCode)
    }
}

/// Where the process goes on: as many bytes back as the distance says while turns are left, else after the
/// instruction.
fn loop_target<S: Store>(cpu: &Cpu<S>, distance: i32, count: i32) -> u64
    ensures { result ≡ loop_target (site_of S.LoadStore cpu.now) distance count }
{
    if count > 1 {
        let back = distance.cast_unsigned().wrapping_neg();
        u64::from(cpu.target(back.cast_signed()))
    } else {
        cpu.next()
    }
}

/// Counts a turn: the count of the block goes down, and while turns are left its index goes up.
fn count_turn<S: Store>(cpu: &mut Cpu<S>, block: u32, index: i32, count: i32)
    requires block { IsTrue (holds_block (S.holding cpu.old.store) block) }
    ensures turned { local_of S.LoadStore cpu.new ≡ turned block index count (local_of S.LoadStore cpu.old) }
    ensures elsewhere { IsSameElsewhere S.LoadStore cpu.old cpu.new }
{
    let left = count.cast_unsigned().wrapping_sub(1);
    cpu.store
        .store_word(local_address(block, 1), Some(left.cast_signed()));
    if count > 1 {
        let next = index.cast_unsigned().wrapping_add(1);
        cpu.store.store_word(block, Some(next.cast_signed()));
    }
}

/// Turns a loop with this index and count, or ends it.
fn turn<S: Store>(
    cpu: &mut Cpu<S>,
    distance: i32,
    block: u32,
    index: i32,
    count: i32,
) -> Result<Flow, FaultKind>
    requires block { IsTrue (holds_block (S.holding cpu.old.store) block) }
    requires scheduling { IsTrue (holds_scheduling_words (S.holding cpu.old.store) cpu.old.registers.workspace) }
    ensures { let before = local_of S.LoadStore cpu.old in
        let step = counts_turn (site_of S.LoadStore cpu.old) distance block index count before in
        Performs S.LoadStore step cpu.old cpu.new result }
{
    let to = landing(cpu, loop_target(cpu, distance, count))?;
    count_turn(cpu, block, index, count);
    cpu.clear_scheduling_words();
    cpu.registers.stack = Stack::of_empty(None);
    Ok(Flow::Jump { to })
}

/// Turns the loop of a block, or ends it.
fn turn_block<S: Store>(cpu: &mut Cpu<S>, distance: i32, block: u32) -> Result<Flow, FaultKind>
    requires block { IsTrue (holds_block (S.holding cpu.old.store) block) }
    requires scheduling { IsTrue (holds_scheduling_words (S.holding cpu.old.store) cpu.old.registers.workspace) }
    ensures { let step = turns_block (site_of S.LoadStore cpu.old) distance block (local_of S.LoadStore cpu.old) in
        Performs S.LoadStore step cpu.old cpu.new result }
{
    let index = cpu.own_word(block)?;
    let count = cpu.own_word(local_address(block, 1))?;
    turn(cpu, distance, block, index, count)
}

/// Turns the loop of a block, or ends it, where its words and those that scheduling takes may be written.
fn test_block<S: Store>(cpu: &mut Cpu<S>, distance: i32, block: u32) -> Result<Flow, FaultKind>
    ensures { let step = tests_block (site_of S.LoadStore cpu.old) distance block (local_of S.LoadStore cpu.old) in
        Performs S.LoadStore step cpu.old cpu.new result }
{
    let second = local_address(block, 1);
    let is_own = cpu.store.can_store_word(block) && cpu.store.can_store_word(second);
    cpu.check(is_own, FaultKind::NotOwn)?;
    cpu.schedulable()?;
    turn_block(cpu, distance, block)
}

/// `lend`: the loop of block B, its index and its count, turns at A bytes back, or ends. It may be sent to the back of
/// the ready list, so the words that scheduling takes and the registers are undefined then.
pub(crate) fn loop_end<S: Store>(cpu: &mut Cpu<S>) -> Result<Flow, FaultKind>
    ensures { PerformsOperation S.LoadStore operation.LoopEnd cpu.old cpu.new result }
{
    let distance = operand(cpu)?;
    let block = cpu.used(cpu.registers.stack.b)?;
    let block = cpu.aligned(block)?;
    test_block(cpu, distance, block)
}
