//! One byte of the running process.

ghost use Rattle.std.specs.Prelude.{◌≡◌, ◌+◌, ◌*◌, ◌<◌, ◌^◌, ◌==◌, if◌then◌else◌, IsTrue, length, slice_get};
ghost use Rattle.module_format.specs.Contents.{contents_of};
ghost use Rattle.machine_state.specs.Happens.{settled, between, prefix_turn, task_turn, step_turn};
ghost use Rattle.machine_state.specs.Happens.{most_executed};
ghost use Rattle.machine.specs.Allocating.{outcome_may_allocate, task_may_allocate, step_may_allocate};
ghost use Rattle.machine.specs.Applying.{Applies, AsksRightly, outcome_of, outcome_at};
ghost use Rattle.machine_state.specs.Memory.{data_start};
ghost use Rattle.machine_state.specs.Faults.{fault_in};
ghost use Rattle.machine_state.specs.Moves.{counted, faulty, put, leave, enqueue, dispatch, finished_where};
ghost use Rattle.machine_state.specs.declared.process.Condition.TheVariants.{Stopped};
ghost use Rattle.prefix_decoder.specs.Operand.{IsRegister};
ghost use Rattle.traffic.specs.Moment.{IsSteady};
ghost use Rattle.traffic.specs.Settling.{here_in, OnMemory};

use super::act::Act;
use super::machine::Machine;
use certificate::Module;
use machine_state::{Condition, Fault, FaultKind, Flow, Registers, Task};
use module_format::Tables;
use prefix_decoder::Fun;
use prefix_decoder::operand::{after_prefix, with_nibble};
use traffic::{Here, Stop};

/// No count of executed bytes goes beyond this.
pub(crate) const MOST_EXECUTED: u64 = 1 << 63;

/// A Step of a process, which is at a byte of the module's code.
#[derive(Clone, Copy)]
struct Stepping<'a, 'm> {
    module: &'a Module<'m>,
    here: Here,
    /// Whether the process goes to the back of the ready list after a jump.
    slice: bool,
}

/// The byte of the code at this offset.
fn byte_at(code: &[u8], at: u32) -> Option<u8>
    ensures { result ≡ slice_get code.now at }
{
    code.get(at as usize).copied()
}

impl Machine {
    /// The running process is at fault, in the instruction that it is in.
    fn fail_in(&mut self, here: &Here, kind: FaultKind) -> Fault
        ensures world { self.new.world ≡ faulty result self.old.world }
        ensures fault { result ≡ fault_in here.now.process here.now.task.registers.began kind }
    {
        let fault = here.fault(kind);
        self.fail(fault);
        fault
    }

    /// A prefix: its process goes on with this operand, whichever process would run next if it did not. It allocates
    /// nothing.
    fn prefix(&mut self, tables: &Tables, here: &Here, operand: i32) -> Result<Act, Stop>
        requires code { length tables.now.code.now < 2 ^ 32 }
        requires executed { self.old.world.counters.executed < most_executed }
        requires task { IsSteady here.now.task }
        requires operand { IsRegister operand }
        ensures applies { let turn = prefix_turn (here_in (contents_of tables.now) here.now) operand self.old.world in
            Applies self.old.world self.new.world result turn }
        ensures memory { OnMemory result ⊥ }
    {
        if !here.is_followed(tables) {
            return Err(self.fail_in(here, FaultKind::OutsideCode).into());
        }
        let registers = Registers {
            at: here.next(),
            operand,
            ..here.task.registers
        };
        self.traffic.put(
            here.process,
            Task {
                registers,
                ..here.task
            },
        );
        self.count();
        Ok(Act::Ran)
    }
}

impl Machine {
    /// The process goes on at this offset, with these registers.
    fn land(&mut self, here: &Here, at: u32, registers: Registers)
        requires executed { self.old.world.counters.executed < most_executed }
        requires task { IsSteady here.now.task }
        ensures { let h = here.now in
            let w = self.old.world in
            let task = record h.task { registers = between at registers } in
            self.new.world ≡ counted (put h.process task w.memory w) }
    {
        self.traffic
            .put_at(here, at, registers, here.task.condition);
        self.count();
    }

    /// The process has jumped to this offset. With `slice` it goes to the back of the ready list.
    #[tactic(auto, unfolding(machine_state::specs::Moves::dispatch))]
    fn jump(&mut self, here: &Here, to: u32, registers: Registers, slice: bool)
        requires executed { self.old.world.counters.executed < most_executed }
        requires task { IsSteady here.now.task }
        requires room { IsTrue slice → 0 < self.old.room }
        ensures { let h = here.now in
            let w = self.old.world in
            let task = record h.task { registers = between to registers } in
            let there = put h.process task w.memory w in
            let after = if slice then dispatch h.pick (enqueue h.process (leave there)) else there in
            self.new.world ≡ counted after }
    {
        self.traffic
            .put_at(here, to, registers, here.task.condition);
        if slice {
            self.traffic.leave();
            self.traffic.enqueue(here.process);
            self.traffic.dispatch(here.pick);
        }
        self.count();
    }

    /// The process stops for good, after the instruction.
    #[tactic(auto, unfolding(machine_state::specs::Moves::dispatch))]
    fn stop(&mut self, tables: &Tables, here: &Here, registers: Registers)
        requires executed { self.old.world.counters.executed < most_executed }
        requires next { here.now.task.registers.at + 1 < 2 ^ 32 }
        ensures { let h = here.now in
            let w = self.old.world in
            let next = h.task.registers.at + 1 in
            let task = record h.task { registers = between next registers; condition = Stopped } in
            let there = put h.process task w.memory w in
            self.new.world ≡ counted (dispatch h.pick (leave (finished_where (next == tables.now.finish) there))) }
    {
        let next = here.next();
        self.traffic
            .put_at(here, next, registers, Condition::Stopped);
        self.finish_where(next == tables.finish);
        self.traffic.give_way(here);
        self.count();
    }

    /// An instruction was performed: its process goes on after it or elsewhere, stops, or asks something of others.
    fn settle(&mut self, step: &Stepping, flow: Flow, registers: Registers) -> Result<Act, Stop>
        requires executed { self.old.world.counters.executed < most_executed }
        requires next { step.now.here.task.registers.at + 1 < 2 ^ 32 }
        requires task { IsSteady step.now.here.task }
        requires room { IsTrue step.now.slice → 0 < self.old.room }
        requires asks { AsksRightly (here_in step.now.module.now step.now.here) flow registers self.old }
        ensures applies { let w = self.old.world in
            let outcome = outcome_of flow registers w.memory in
            let turn = settled (here_in step.now.module.now step.now.here) step.now.slice outcome w in
            Applies w self.new.world result turn }
        ensures memory { let w = self.old.world in
            OnMemory result (IsTrue (outcome_may_allocate (outcome_of flow registers w.memory) w)) }
    {
        let here = &step.here;
        match flow {
            Flow::Next => self.land(here, here.next(), registers),
            Flow::Land { to } => self.land(here, to, registers),
            Flow::Jump { to } => self.jump(here, to, registers, step.slice),
            Flow::Stop => self.stop(step.module.tables(), here, registers),
            Flow::Ask(request) => return self.grant(step.module, here, request, registers),
        }
        Ok(Act::Ran)
    }

    /// An instruction, with its whole operand.
    fn instruct(&mut self, step: &Stepping, fun: Fun, operand: i32) -> Result<Act, Stop>
        requires executed { self.old.world.counters.executed < most_executed }
        requires next { step.now.here.task.registers.at + 1 < 2 ^ 32 }
        requires task { IsSteady step.now.here.task }
        requires room { IsTrue step.now.slice → 0 < self.old.room }
        ensures applies { let h = here_in step.now.module.now step.now.here in
            let w = self.old.world in
            Applies w self.new.world result (settled h step.now.slice (outcome_at h fun operand w) w) }
        ensures memory { let h = here_in step.now.module.now step.now.here in
            let w = self.old.world in
            OnMemory result (IsTrue (outcome_may_allocate (outcome_at h fun operand w) w)) }
    {
        match self.perform(step.module.tables(), &step.here, fun, operand) {
            Ok((flow, registers)) => self.settle(step, flow, registers),
            Err(kind) => Err(self.fail_in(&step.here, kind).into()),
        }
    }

    /// The byte at which a process is.
    fn run_byte(&mut self, step: &Stepping) -> Result<Act, Stop>
        requires executed { self.old.world.counters.executed < most_executed }
        requires task { IsSteady step.now.here.task }
        requires room { IsTrue step.now.slice → 0 < self.old.room }
        ensures applies { let h = here_in step.now.module.now step.now.here in
            Applies self.old.world self.new.world result (task_turn h step.now.slice self.old.world) }
        ensures memory { let h = here_in step.now.module.now step.now.here in
            OnMemory result (IsTrue (task_may_allocate h self.old.world)) }
    {
        let here = &step.here;
        let tables = step.module.tables();
        let Some(byte) = byte_at(tables.code, here.task.registers.at) else {
            return Err(self.fail_in(here, FaultKind::OutsideCode).into());
        };
        let code = byte >> 4;
        let operand = with_nibble(here.task.registers.operand, byte);
        match Fun::from_code(code) {
            Some(fun) => self.instruct(step, fun, operand),
            None => self.prefix(tables, here, after_prefix(code, operand)),
        }
    }

    /// A step: one byte of the running process, unless no process is running or enough bytes were executed. With
    /// `slice` the process goes to the back of the ready list if it completes a jump; `pick` says which ready process
    /// runs next, counted round the list, if the running one stops running.
    pub(crate) fn step(&mut self, module: &Module<'_>, slice: bool, pick: u64) -> Result<Act, Stop>
        ensures applies { let turn = step_turn «module».now slice pick self.old.world in
            Applies self.old.world self.new.world result turn }
        ensures memory { OnMemory result (IsTrue (step_may_allocate «module».now slice pick self.old.world)) }
    {
        let Some(process) = self.traffic.running() else {
            return Ok(Act::Idle);
        };
        if self.executed() >= MOST_EXECUTED {
            return Ok(Act::Idle);
        }
        let Some(task) = self.traffic.task(process) else {
            return Ok(Act::Idle);
        };
        if slice {
            self.traffic.reserve()?;
        }
        let here = Here {
            process,
            task,
            pick,
        };
        let step = Stepping {
            module,
            here,
            slice,
        };
        self.run_byte(&step)
    }
}
