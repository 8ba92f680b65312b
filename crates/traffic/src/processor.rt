//! The processor, lent to whoever performs an instruction.

ghost use Rattle.std.specs.Prelude.{◌≡◌};

use crate::traffic::Traffic;
use machine_state::{Cpu, Store, TaggedStore};
use process_queue::{ListQueue, ReadyQueue};

impl<S: Store> Traffic<S, ListQueue> {
    ghost use Rattle.std.specs.Borrow.{sem, Lends};
    ghost use Rattle.traffic.specs.contracts.traffic.Traffic.{the_row};
    ghost use Rattle.process_queue.specs.contracts.list_queue.ListQueue.{the_row as list_row};
    ghost use Rattle.machine_state.specs.contracts.cpu.Cpu.{the_row as cpu_row};
    ghost use Rattle.traffic.specs.Lending.{with_cpu};

    /// The processor: whoever performs an instruction sets it to the process that runs.
    pub fn cpu(&mut self) -> &mut Cpu<S>
        ensures* lends { sem 𝓛 (Lends (the_row S.row list_row S.LoadStore ⟦<ListQueue as ReadyQueue<S>>⟧)
            (cpu_row S.row) self.entry result (with_cpu S.cells S.holding S.roles self.old)) }
        ensures memory { S.cells result.now.store ≡ self.old.world.memory }
        ensures roles { (S.roles result.now.store).table ≡ self.old.world.roles }
        ensures holder { (S.roles result.now.store).holder ≡ self.old.holder }
        ensures holding { S.holding result.now.store ≡ self.old.holding }
    {
        &mut self.cpu
    }
}

impl Traffic<TaggedStore, ListQueue> {
    ghost use Rattle.machine_state.specs.World.{holding_at};

    /// From now on this process's holding counts.
    pub fn select(&mut self, process: u64)
        ensures { self.new ≡ record self.old {
          holder = process;
          holding = holding_at self.old.world.roles process;
        } }
    {
        self.cpu.store.select(process);
    }
}
