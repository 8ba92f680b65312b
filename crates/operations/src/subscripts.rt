//! Addresses that are computed, and checks of subscripts and counts.

ghost use Rattle.machine_state.specs.declared.op.Op.TheVariants as operation;
ghost use Rattle.machine_state.specs.Performing.{PerformsOperation};

use crate::operands::{operand, pop_one, replace_two};
use machine_state::{Cpu, FaultKind, Flow, Store, local_address};
use word_arithmetic::is_below_unsigned;

/// `bsub`: A and B are popped, and the address B bytes after A is pushed.
pub(crate) fn byte_subscript<S: Store>(cpu: &mut Cpu<S>) -> Result<Flow, FaultKind>
    ensures { PerformsOperation S.LoadStore operation.ByteSubscript cpu.old cpu.new result }
{
    let base = operand(cpu)?;
    let subscript = cpu.used(cpu.registers.stack.b)?;
    let address = base.cast_unsigned().wrapping_add(subscript.cast_unsigned());
    replace_two(cpu, address.cast_signed())
}

/// `wsub`: A and B are popped, and the address B words after A is pushed.
pub(crate) fn word_subscript<S: Store>(cpu: &mut Cpu<S>) -> Result<Flow, FaultKind>
    ensures { PerformsOperation S.LoadStore operation.WordSubscript cpu.old cpu.new result }
{
    let base = operand(cpu)?;
    let subscript = cpu.used(cpu.registers.stack.b)?;
    let address = local_address(base.cast_unsigned(), subscript);
    replace_two(cpu, address.cast_signed())
}

/// `csub0`: A is popped, unless B is not below it, which sets the error flag.
pub(crate) fn check_subscript<S: Store>(cpu: &mut Cpu<S>) -> Result<Flow, FaultKind>
    ensures { PerformsOperation S.LoadStore operation.CheckSubscript cpu.old cpu.new result }
{
    let bound = operand(cpu)?;
    let subscript = cpu.used(cpu.registers.stack.b)?;
    cpu.check(is_below_unsigned(subscript, bound), FaultKind::ErrorFlag)?;
    pop_one(cpu)
}

/// `ccnt1`: A is popped, unless B is 0 or above it, which sets the error flag.
pub(crate) fn check_count<S: Store>(cpu: &mut Cpu<S>) -> Result<Flow, FaultKind>
    ensures { PerformsOperation S.LoadStore operation.CheckCount cpu.old cpu.new result }
{
    let most = operand(cpu)?;
    let count = cpu.used(cpu.registers.stack.b)?;
    cpu.check(
        count.cast_unsigned() != 0 && !is_below_unsigned(most, count),
        FaultKind::ErrorFlag,
    )?;
    pop_one(cpu)
}

/// `ldpi`: A becomes the address A bytes after the instruction.
pub(crate) fn load_pointer_to_instruction<S: Store>(cpu: &mut Cpu<S>) -> Result<Flow, FaultKind>
    ensures { PerformsOperation S.LoadStore operation.LoadPointerToInstruction cpu.old cpu.new result }
{
    let distance = operand(cpu)?;
    cpu.in_code(cpu.next())?;
    let address = cpu.next_address().wrapping_add(distance.cast_unsigned());
    cpu.registers.stack.a = Some(address.cast_signed());
    Ok(Flow::Next)
}
