//! The names of links, operations, instructions and faults.

use crate::tests::text::Found;
use machine_state::{FaultKind, Instruction, Link, Op};
use prefix_decoder::Fun;

/// Operands of `opr`, with the operation and the instruction.
fn put_operations(found: &mut Found) {
    for operand in &[0, 0x15, 0x42, 0x05, 0x32, 0x40, 0x37, 0x07, 0x14, -0x15, -1] {
        found.begin_line();
        found.put(*operand);
        found.put(Op::of(*operand));
        found.put(Instruction::of(Fun::Operate, *operand));
    }
}

/// Two instructions.
fn put_instructions(found: &mut Found) {
    found.begin_line();
    found.put(Instruction::of(Fun::StoreLocal, -1));
    found.put(Instruction::of(Fun::Call, 0));
}

/// The numbers of the links, and of the first and the last fault.
fn put_numbers(found: &mut Found) {
    found.begin_line();
    for link in &[Link::Zero, Link::One, Link::Two, Link::Three] {
        found.put(link.index());
    }
    found.put(FaultKind::ErrorFlag.number());
    found.put(FaultKind::CountRange.number());
}

const NAMES: &str = "
 0 Some(Reverse) Some(Operate(Reverse))
 21 Some(StopProcess) Some(Operate(StopProcess))
 66 Some(MinimumInteger) Some(Operate(MinimumInteger))
 5 Some(Binary(Add)) Some(Operate(Binary(Add)))
 50 Some(Unary(Not)) Some(Operate(Unary(Not)))
 64 Some(Shift(Right)) Some(Operate(Shift(Right)))
 55 Some(Long(Sum)) Some(Operate(Long(Sum)))
 7 Some(Input) Some(Operate(Input))
 20 None None
 -21 None None
 -1 None None
 Some(StoreLocal) Some(Call)
 0 1 2 3 1 11";

/// All of it.
fn put_names(found: &mut Found) {
    put_operations(found);
    put_instructions(found);
    put_numbers(found);
}

#[test]
fn links_operations_and_instructions(rt: HostRuntime) {
    let mut found = Found::new(rt.alloc());
    put_names(&mut found);
    found.check(&rt, NAMES);
}
