//! The processes, the ready list, the channels and the links, and the moves that their turns are made of.

ghost use Rattle.std.specs.Prelude.{◌≡◌, ◌+◌, ◌*◌, ◌^◌, ◌<◌, Some, slice_get, IfSome, IfOk, OnOk, OnErr, IsTrue};
ghost use Rattle.module_format.specs.Contents.{contents_of};
ghost use Rattle.machine_state.specs.World.{IsLoadable, loaded};
ghost use Rattle.machine_state.specs.Moves.{put, with_condition, leave, enqueue, wake, dispatch, link_index};
ghost use Rattle.machine_state.specs.Moves.{with_input, with_output, cell_of, channel_at, with_channel};
ghost use Rattle.machine_state.specs.Alternations.{has_enabled};
ghost use Rattle.machine_state.specs.LocalStep.{holds_scheduling_words, without_scheduling_words, copied};
ghost use Rattle.machine_state.specs.Memory.{data_start, place_of, with_byte};
ghost use Rattle.traffic.specs.Moment.{IsSteady, WaitsForMore, HoldsAs};

use crate::counts::{are_still_all, count_of, enabler_of, hand_over};
use crate::enabled::{any_channel, any_input};
use crate::opened::OpenedCells;
use machine_state::{
    Channel, Condition, Cpu, DATA_START, InputLink, Link, OutputLink, Registers, Store,
    TaggedStore, Task, place_of,
};
use module_format::Tables;
use process_queue::{ListQueue, ReadyQueue};
use std::alloc::{AllocError, Global};
use std::marker::Model;

/// An input link on which nothing has come and no process waits.
const QUIET_INPUT: InputLink = InputLink {
    kept: None,
    waiting: None,
    enabled: None,
};

/// An output link on which no process waits.
const QUIET_OUTPUT: OutputLink = OutputLink { waiting: None };

/// The number of an address's data word.
fn cell_of(address: u32) -> usize
    ensures { result ≡ cell_of address }
{
    place_of(address) as usize / 4
}

/// All that processes share, apart from the module and what is counted.
#[derive(Drop)]
pub struct Traffic<S: Store, Q: ReadyQueue<S>> {
    /// It runs the instructions of whichever process runs. Between two instructions only its store counts.
    pub(crate) cpu: Cpu<S>,
    pub(crate) running: Option<u64>,
    ready: Q,
    pub(crate) tasks: Vec<Task>,
    inputs: [InputLink; 4],
    outputs: [OutputLink; 4],
    pub(crate) channels: Vec<Option<Channel>>,
    /// How many links and channels each process has enabled, by process number. A process without a count is searched
    /// for.
    pub(crate) enabled_counts: Vec<usize>,
    /// Whether no process without a count has something enabled.
    pub(crate) are_all_counted: bool,
    /// Where each process has opened channels.
    pub(crate) opened: OpenedCells,
}

impl<S: Store, Q: ReadyQueue<S>> Model for Traffic<S, Q> {
    ghost use Rattle.std.specs.Prelude.{None};
    ghost use Rattle.traffic.specs.Moment.{Moment, uncounted};
    ghost use Rattle.traffic.specs.Sound.{IsSound};

    ghost Value = { Moment };

    ghost view = { λ t. record {
      world = record {
        memory = S.cells t.cpu.store;
        tasks = t.tasks.items;
        roles = (S.roles t.cpu.store).table;
        queue = record { running = t.running; ready = Q.waiting t.ready t.cpu.store };
        links = record { outputs = t.outputs; inputs = t.inputs };
        channels = t.channels.items;
        counters = uncounted;
        fault = None;
      };
      room = Q.room t.ready;
      holder = (S.roles t.cpu.store).holder;
      holding = S.holding t.cpu.store;
    } };

    ghost invariant = { λ t.
        IsSound t.tasks.items t.inputs t.outputs t.channels.items t.enabled_counts.items t.are_all_counted t.opened };
}

impl<S: Store> Traffic<S, ListQueue> {
    /// The number of the process that runs.
    pub fn running(&self) -> Option<u64>
        ensures { result ≡ self.now.world.queue.running }
    {
        self.running
    }

    /// The process of this number, if there is one.
    pub fn task(&self, process: u64) -> Option<Task>
        ensures value { result ≡ slice_get self.now.world.tasks process }
        ensures steady { IfSome result IsSteady }
    {
        self.tasks.get(process as usize).copied()
    }

    /// The process of this number, if there is one, goes on as this task.
    pub fn put(&mut self, process: u64, task: Task)
        requires { IsSteady task }
        ensures { let w = self.old.world in
            self.new ≡ record self.old { world = put process task w.memory w } }
    {
        if let Some(place) = self.tasks.get_mut(process as usize) {
            *place = task;
        }
    }

    /// The process of this number, if there is one, has this condition.
    pub fn set_condition(&mut self, process: u64, condition: Condition)
        requires { WaitsForMore condition }
        ensures { self.new ≡ record self.old { world = with_condition process condition self.old.world } }
    {
        if let Some(task) = self.tasks.get_mut(process as usize) {
            task.condition = condition;
        }
    }

    /// No process is running.
    pub fn leave(&mut self)
        ensures { self.new ≡ record self.old { world = leave self.old.world } }
    {
        self.running = None;
    }

    /// Reserves capacity for one more ready process. If memory runs out, there was none, and nothing changed.
    pub fn reserve(&mut self) -> Result<(), AllocError>
        ensures world { self.new.world ≡ self.old.world }
        ensures holder { self.new.holder ≡ self.old.holder }
        ensures holding { self.new.holding ≡ self.old.holding }
        ensures ok { OnOk result (0 < self.new.room) }
        ensures err { OnErr result (self.old.room ≡ 0) }
    {
        ReadyQueue::<S>::reserve(&mut self.ready)
    }

    /// The process goes to the back of the ready list.
    pub fn enqueue(&mut self, process: u64)
        requires { 0 < self.old.room }
        ensures world { self.new.world ≡ enqueue process self.old.world }
        ensures holder { self.new.holder ≡ self.old.holder }
        ensures holding { self.new.holding ≡ self.old.holding }
    {
        self.ready.push_back(&mut self.cpu.store, process);
    }

    /// The process becomes ready, after all that are.
    pub fn wake(&mut self, process: u64)
        requires { 0 < self.old.room }
        ensures world { self.new.world ≡ wake process self.old.world }
        ensures holder { self.new.holder ≡ self.old.holder }
        ensures holding { self.new.holding ≡ self.old.holding }
    {
        self.set_condition(process, Condition::Ready);
        self.enqueue(process);
    }

    /// If no process is running, the ready process number `pick`, counted round the list, is taken out and runs.
    #[tactic(auto, unfolding(machine_state::specs::Moves::dispatch))]
    pub fn dispatch(&mut self, pick: u64)
        ensures world { self.new.world ≡ dispatch pick self.old.world }
        ensures holder { self.new.holder ≡ self.old.holder }
        ensures holding { self.new.holding ≡ self.old.holding }
    {
        if self.running.is_none() && !ReadyQueue::<S>::is_empty(&self.ready) {
            self.running = Some(self.ready.take_at(&mut self.cpu.store, pick as usize));
        }
    }

    /// The input side of the link.
    #[tactic(auto, using(std::proofs::lemmas::Option::slice_get_read))]
    pub fn input(&self, link: Link) -> InputLink
        ensures { slice_get self.now.world.links.inputs (link_index link) ≡ Some result }
    {
        self.inputs[link.index()]
    }

    /// The output side of the link.
    #[tactic(auto, using(std::proofs::lemmas::Option::slice_get_read))]
    pub fn output(&self, link: Link) -> OutputLink
        ensures { slice_get self.now.world.links.outputs (link_index link) ≡ Some result }
    {
        self.outputs[link.index()]
    }

    /// The input side of the link is this.
    #[tactic(auto, using(crate::proofs::Counting::has_room))]
    pub fn set_input(&mut self, link: Link, input: InputLink)
        ensures { let w = self.old.world in
            self.new ≡ record self.old { world = with_input (link_index link) input w } }
    {
        let before = self.input(link).enabled;
        self.inputs[link.index()] = input;
        self.are_all_counted = are_still_all(
            self.are_all_counted,
            &self.enabled_counts,
            input.enabled,
        );
        hand_over(&mut self.enabled_counts, before, input.enabled);
    }

    /// The output side of the link is this.
    pub fn set_output(&mut self, link: Link, output: OutputLink)
        ensures { let w = self.old.world in
            self.new ≡ record self.old { world = with_output (link_index link) output w } }
    {
        self.outputs[link.index()] = output;
    }

    /// The channel at the address, if there is one.
    pub fn channel(&self, address: u32) -> Option<Channel>
        ensures { result ≡ channel_at self.now.world address }
    {
        self.channels.get(cell_of(address)).copied().flatten()
    }

    /// The channel at the address is this. Where there can be none, nothing changes.
    ///
    /// Where no channel of this opener was there, it is listed for its opener. If memory runs out there, only
    /// `remove_channels` takes more time from then on: `open_join` makes sure that it does not.
    #[tactic(auto, using(crate::proofs::Counting::has_room))]
    pub fn set_channel(&mut self, address: u32, channel: Channel)
        ensures { self.new ≡ record self.old { world = with_channel address channel self.old.world } }
    {
        let place = cell_of(address);
        if place < self.channels.len() {
            let was = self.channels[place];
            let before = enabler_of(was);
            self.opened.enlist(place, was, channel.opener);
            self.channels[place] = Some(channel);
            self.are_all_counted = are_still_all(
                self.are_all_counted,
                &self.enabled_counts,
                channel.enabled,
            );
            hand_over(&mut self.enabled_counts, before, channel.enabled);
        }
    }

    /// One more process is counted, the next by number: so it takes constant time to decide whether it has something
    /// enabled, and its channels are listed. If memory runs out, both are searched for.
    ///
    /// It is called once for each process, right before it is there.
    #[tactic(auto, using(crate::proofs::Uncounted::one_more_counted, crate::proofs::Uncounted::all_after_one_more))]
    pub(crate) fn count_next(&mut self) -> Result<(), AllocError>
        ensures { self.new ≡ self.old }
    {
        let count = self.tasks.len();
        if self.opened.count() <= count {
            self.opened.add_list()?;
        }
        if self.are_all_counted && self.enabled_counts.len() <= count {
            self.enabled_counts.push(0)?;
        }
        Ok(())
    }

    /// Reserves capacity for this many more channels of a process, which `set_channel` can then list without memory. A
    /// process that is not counted has no list, and nothing happens. If memory runs out, nothing changes.
    pub(crate) fn reserve_cells(&mut self, opener: u64, count: usize) -> Result<(), AllocError>
        ensures { self.new ≡ self.old }
    {
        self.opened.reserve(opener, count)
    }

    /// Whether the alternation of this process has something enabled.
    pub fn has_enabled(&self, process: u64) -> bool
        ensures { result ≡ has_enabled self.now.world process }
    {
        match count_of(&self.enabled_counts, process) {
            Some(count) => count > 0,
            None => any_input(&self.inputs, process) || any_channel(&self.channels, process),
        }
    }

    /// The three words below the workspace are undefined, as scheduling leaves them.
    pub fn clear_scheduling_words(&mut self, registers: Registers)
        requires { IsTrue (holds_scheduling_words self.old.holding registers.workspace) }
        ensures { let w = self.old.world in
            let memory = without_scheduling_words w.memory registers.workspace in
            self.new ≡ record self.old { world = record w { memory = memory } } }
    {
        self.cpu.registers = registers;
        self.cpu.clear_scheduling_words();
    }
}

impl<S: Store> Traffic<S, ListQueue> {
    /// The bytes go from one place to the other, whoever holds them.
    pub(crate) fn copy(&mut self, from: u32, to: u32, count: u32)
        ensures { let w = self.old.world in
            let memory = copied w.memory (place_of from) (place_of to) count w.memory in
            self.new ≡ record self.old { world = record w { memory = memory } } }
    {
        self.cpu.store.copy(from, to, count);
    }

    /// The byte at the address is this, whoever holds it. Outside the memory nothing changes.
    pub(crate) fn put_byte(&mut self, address: u32, byte: u8)
        ensures { let w = self.old.world in
            let memory = with_byte w.memory (place_of address) (Some byte) in
            self.new ≡ record self.old { world = record w { memory = memory } } }
    {
        self.cpu.store.put_byte(address, byte);
    }
}

impl Traffic<TaggedStore, ListQueue> {
    /// The processes, channels and links as the module is loaded: the root is about to run the first byte of the code.
    #[tactic(auto, using(crate::proofs::Counting::root_counted, crate::proofs::Uncounted::root_is_all))]
    pub fn load(alloc: Global, tables: &Tables) -> Result<Self, AllocError>
        requires memory { IsLoadable (contents_of tables.now) }
        requires workspace { data_start + 4 * tables.now.base < 2 ^ 32 }
        requires start { data_start + 4 * tables.now.data_words < 2 ^ 32 }
        ensures world { IfOk result (λ t. t.world ≡ loaded (contents_of tables.now)) }
        ensures holding { IfOk result (λ t. HoldsAs 0 t) }
        // Nothing can be pushed before capacity is reserved.
        ensures room { IfOk result (λ t. t.room ≡ 0) }
    {
        let root = Task::root(tables);
        let cpu = Cpu {
            registers: root.registers,
            mode: root.mode,
            code_start: DATA_START + 4 * tables.data_words,
            code_length: tables.code.len() as u32,
            has_long_operations: tables.has_long_operations,
            store: TaggedStore::load(alloc, tables)?,
        };
        Ok(Traffic {
            cpu,
            running: Some(0),
            ready: ListQueue::new(alloc),
            tasks: vec![in alloc; root]?,
            inputs: [QUIET_INPUT; 4],
            outputs: [QUIET_OUTPUT; 4],
            channels: vec![in alloc; None; tables.data_words as usize]?,
            enabled_counts: vec![in alloc; 0]?,
            are_all_counted: true,
            opened: OpenedCells::new(alloc)?,
        })
    }
}
