//! The whole machine at a moment, and what its events change besides the traffic of its processes.

ghost use Rattle.std.specs.Prelude.{◌≡◌, ◌+◌, ◌*◌, ◌<◌, ◌^◌, length, IfOk};
ghost use Rattle.module_format.specs.Contents.{contents_of};
ghost use Rattle.machine_state.specs.World.{IsLoadable, loaded};
ghost use Rattle.machine_state.specs.Memory.{data_start};
ghost use Rattle.machine_state.specs.Happens.{most_executed};
ghost use Rattle.machine_state.specs.Moves.{counted, finished_where, faulty};
ghost use Rattle.traffic.specs.Settling.{here_in};
ghost use Rattle.machine.specs.Applying.{PerformsFor, AsksRightly, outcome_at};

use direct_functions::direct;
use machine_state::{DATA_START, Fault, FaultKind, Flow, Registers, TaggedStore};
use module_format::Tables;
use prefix_decoder::Fun;
use process_queue::ListQueue;
use std::alloc::{AllocError, Global};
use std::marker::Model;
use traffic::{Here, Traffic};

/// All that processes share.
pub(crate) type Processes = Traffic<TaggedStore, ListQueue>;

/// The whole machine at a moment, apart from its module.
#[derive(Drop)]
pub(crate) struct Machine {
    /// What starts of processes take their memory from.
    pub(crate) alloc: Global,
    pub(crate) traffic: Processes,
    executed: u64,
    is_finished: bool,
    fault: Option<Fault>,
}

impl Model for Machine {
    ghost use Rattle.traffic.specs.Beside.{beside};
    ghost use Rattle.traffic.specs.Moment.{Moment};

    ghost Value = { Moment };

    ghost view = { λ m. record m.traffic {
      world = beside (record { executed = m.executed; is_finished = m.is_finished }) m.fault m.traffic.world;
    } };
}

impl Machine {
    /// The machine as its module is loaded.
    pub(crate) fn load(alloc: Global, tables: &Tables) -> Result<Self, AllocError>
        requires memory { IsLoadable (contents_of tables.now) }
        requires workspace { data_start + 4 * tables.now.base < 2 ^ 32 }
        requires start { data_start + 4 * tables.now.data_words < 2 ^ 32 }
        ensures { IfOk result (λ m. m.world ≡ loaded (contents_of tables.now)) }
    {
        Ok(Machine {
            alloc,
            traffic: Traffic::load(alloc, tables)?,
            executed: 0,
            is_finished: false,
            fault: None,
        })
    }

    /// One more byte is executed.
    pub(crate) fn count(&mut self)
        requires { self.old.world.counters.executed < most_executed }
        ensures { self.new ≡ record self.old { world = counted self.old.world } }
    {
        self.executed += 1;
    }

    /// The module is finished, if this holds.
    pub(crate) fn finish_where(&mut self, finishes: bool)
        ensures { self.new ≡ record self.old { world = finished_where finishes self.old.world } }
    {
        self.is_finished = self.is_finished || finishes;
    }

    /// The machine is at fault, and stays so.
    pub(crate) fn fail(&mut self, fault: Fault)
        ensures { self.new ≡ record self.old { world = faulty fault self.old.world } }
    {
        self.fault = Some(fault);
    }

    /// How many bytes were executed.
    pub(crate) fn executed(&self) -> u64
        ensures { result ≡ self.now.world.counters.executed }
    {
        self.executed
    }

    /// Whether the module is finished.
    pub(crate) fn is_finished(&self) -> bool
        ensures { result ≡ self.now.world.counters.is_finished }
    {
        self.is_finished
    }

    /// The fault that the machine is at.
    pub(crate) fn fault(&self) -> Option<Fault>
        ensures { result ≡ self.now.world.fault }
    {
        self.fault
    }

    /// Executes this instruction of a process, whose last byte it is at, and reports how the process goes on and with
    /// which registers. All but memory stays as it is.
    pub(crate) fn perform(
        &mut self,
        tables: &Tables,
        here: &Here,
        fun: Fun,
        operand: i32,
    ) -> Result<(Flow, Registers), FaultKind>
        requires code { length tables.now.code.now < 2 ^ 32 }
        requires start { data_start + 4 * tables.now.data_words < 2 ^ 32 }
        ensures performs { let m = contents_of tables.now in
            let outcome = outcome_at (here_in m here.now) fun operand self.old.world in
            PerformsFor self.old self.new result outcome }
        ensures asks { IfOk result (λ gone_on.
            AsksRightly (here_in (contents_of tables.now) here.now) gone_on.0 gone_on.1 self.new) }
    {
        self.traffic.select(here.process);
        let cpu = self.traffic.cpu();
        cpu.registers = here.task.registers;
        cpu.mode = here.task.mode;
        cpu.code_start = DATA_START + 4 * tables.data_words;
        cpu.code_length = tables.code.len() as u32;
        cpu.has_long_operations = tables.has_long_operations;
        let flow = direct(cpu, fun, operand)?;
        Ok((flow, cpu.registers))
    }
}
