//! A process at an instruction, and how it goes on.

ghost use Rattle.std.specs.Prelude.{◌≡◌, ◌+◌, ◌<◌, ◌^◌, if◌then◌else◌, nat_lt, length};
ghost use Rattle.machine_state.specs.Faults.{fault_in};
ghost use Rattle.machine_state.specs.Turn.{between};
ghost use Rattle.machine_state.specs.Moves.{put, leave, dispatch};
ghost use Rattle.traffic.specs.Moment.{IsSteady, WaitsForMore};

use crate::traffic::Traffic;
use machine_state::{Condition, Fault, FaultKind, Mode, Registers, Store, Task};
use module_format::Tables;
use process_queue::ListQueue;

/// A process at a byte of its code: the last one of an instruction, or a prefix.
#[derive(Clone, Copy)]
pub struct Here {
    /// The number of the process.
    pub process: u64,
    /// The process as it was.
    pub task: Task,
    /// Which ready process runs next, counted round the list, if this one waits.
    pub pick: u64,
}

impl Here {
    /// A fault of this instruction.
    pub fn fault(&self, kind: FaultKind) -> Fault
        ensures { result ≡ fault_in self.now.process self.now.task.registers.began kind }
    {
        Fault::new(kind, self.process, self.task.registers.began)
    }

    /// Passes where a test holds, else this fault.
    pub fn check(&self, holds: bool, kind: FaultKind) -> Result<(), Fault>
        ensures { let fault = fault_in self.now.process self.now.task.registers.began kind in
            result ≡ (if holds then Ok tt else Err fault) }
    {
        if holds { Ok(()) } else { Err(self.fault(kind)) }
    }

    /// Whether code follows the instruction.
    pub fn is_followed(&self, tables: &Tables) -> bool
        ensures { result ≡ nat_lt (self.now.task.registers.at + 1) (length tables.now.code.now) }
    {
        u64::from(self.task.registers.at) + 1 < tables.code.len() as u64
    }

    /// The code offset after the instruction.
    pub fn next(&self) -> u32
        requires { self.now.task.registers.at + 1 < 2 ^ 32 }
        ensures { result ≡ self.now.task.registers.at + 1 }
    {
        self.task.registers.at + 1
    }

    /// The process with these registers, between two instructions, the next of which begins at this offset.
    pub fn continued(&self, at: u32, registers: Registers) -> Task
        ensures { result ≡ record self.now.task { registers = between at registers } }
    {
        let registers = Registers {
            at,
            began: at,
            operand: 0,
            ..registers
        };
        Task {
            registers,
            ..self.task
        }
    }
}

impl<S: Store> Traffic<S, ListQueue> {
    /// The process is between two instructions, the next of which begins at this offset, with these registers, in this
    /// mode and in this condition.
    pub fn put_in(
        &mut self,
        here: &Here,
        at: u32,
        registers: Registers,
        mode: Mode,
        condition: Condition,
    )
        requires { WaitsForMore condition }
        ensures { let w = self.old.world in
            let registers = between at registers in
            let task = record here.now.task { registers = registers; mode = mode; condition = condition } in
            self.new ≡ record self.old { world = put here.now.process task w.memory w } }
    {
        let registers = here.continued(at, registers).registers;
        self.put(
            here.process,
            Task {
                registers,
                mode,
                condition,
            },
        );
    }

    /// The process is between two instructions, the next of which begins at this offset, with these registers and in
    /// this condition.
    pub fn put_at(&mut self, here: &Here, at: u32, registers: Registers, condition: Condition)
        requires { WaitsForMore condition }
        ensures { let w = self.old.world in
            let task = record here.now.task { registers = between at registers; condition = condition } in
            self.new ≡ record self.old { world = put here.now.process task w.memory w } }
    {
        self.put_in(here, at, registers, here.task.mode, condition);
    }

    /// The process goes on after the instruction, with these registers and in this mode.
    pub fn go_on(&mut self, here: &Here, mode: Mode, registers: Registers)
        requires next { here.now.task.registers.at + 1 < 2 ^ 32 }
        requires task { IsSteady here.now.task }
        ensures { let w = self.old.world in
            let registers = between (here.now.task.registers.at + 1) registers in
            let task = record here.now.task { registers = registers; mode = mode } in
            self.new ≡ record self.old { world = put here.now.process task w.memory w } }
    {
        self.put_in(here, here.next(), registers, mode, here.task.condition);
    }

    /// The process gives way, and another may run.
    pub fn give_way(&mut self, here: &Here)
        ensures world { self.new.world ≡ dispatch here.now.pick (leave self.old.world) }
        ensures holder { self.new.holder ≡ self.old.holder }
        ensures holding { self.new.holding ≡ self.old.holding }
    {
        self.leave();
        self.dispatch(here.pick);
    }
}
