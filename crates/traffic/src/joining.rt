//! Moves of starts and joins: those of roles, of the table of channels, and of who runs next.

ghost use Rattle.std.specs.Prelude.{◌≡◌, ◌<◌, ◌∷◌, ◌++◌, [], Some, length, slice_set, vec_len, vec_capacity};
ghost use Rattle.std.specs.Prelude.{MatchResult};
ghost use Rattle.std.specs.List.{All};
ghost use Rattle.machine_state.specs.declared.process.Task.{Task as Process};
ghost use Rattle.machine_state.specs.Joins.{on_role, with_channels, without_channels};
ghost use Rattle.machine_state.specs.Memory.{place_of, with_word};
ghost use Rattle.machine_state.specs.Moves.{on_task, put};
ghost use Rattle.machine_state.specs.Roles.{without_member, without_join, without_own};
ghost use Rattle.machine_state.specs.Roles.{with_join, with_branch, branch_role};
ghost use Rattle.machine_state.specs.Progressing.{progress_view};
ghost use Rattle.machine_state.specs.Views.{holding_view, join_view};
ghost use Rattle.traffic.specs.Moment.{IsSteady, HoldsAs};
ghost use Rattle.traffic.specs.Starting.{with_process};

use crate::removing::remove_all;
use crate::traffic::Traffic;
use machine_state::{Channel, Holding, Join, Progress, Store, TaggedStore, Task, local_address};
use module_format::ChannelRow;
use process_queue::ListQueue;
use std::alloc::AllocError;

/// A process that is to be there: its task, and what it holds.
#[derive(Drop)]
pub struct NewProcess {
    pub task: Task,
    pub own: Holding,
}

/// The process of this number, if there is one, is this task, and there is one more process.
fn put_both(tasks: &mut Vec<Task>, process: u64, task: Task, more: Task)
    requires room { vec_len tasks.old < vec_capacity tasks.old }
    requires tasks { All IsSteady tasks.old.items }
    requires task { IsSteady task }
    requires more { IsSteady more }
    ensures tasks { tasks.new.items ≡ slice_set tasks.old.items process task ++ more ∷ [] }
    ensures steady { All IsSteady tasks.new.items }
{
    if let Some(place) = tasks.get_mut(process as usize) {
        *place = task;
    }
    tasks.push_reserved(more);
}

impl<S: Store> Traffic<S, ListQueue> {
    /// How many processes there are, those that have ended among them.
    pub fn count(&self) -> u64
        ensures { result ≡ length self.now.world.tasks }
    {
        self.tasks.len() as u64
    }

    /// The process of this number, if there is one, becomes this task.
    pub fn set_task(&mut self, process: u64, task: Task)
        requires { IsSteady task }
        ensures { self.new ≡ record self.old { world = on_task process (λ (was : Process). task) self.old.world } }
    {
        if let Some(place) = self.tasks.get_mut(process as usize) {
            *place = task;
        }
    }

    /// From now on the process of this number runs.
    pub fn run(&mut self, process: u64)
        ensures { let w = self.old.world in
            let queue = record w.queue { running = Some process } in
            self.new ≡ record self.old { world = record w { queue = queue } } }
    {
        self.running = Some(process);
    }

    /// The channels of these rows are there, of this opener, in words of a frame whose word 0 lies at the address.
    fn open_channels(&mut self, opener: u64, base: u32, channels: &[ChannelRow])
        ensures { let w = self.old.world in
            let cells = with_channels opener base channels.now w.channels in
            self.new ≡ record self.old { world = record w { channels = cells } } }
    {
        for row in channels {
            self.set_channel(
                local_address(base, row.word),
                Channel {
                    opener,
                    length: row.length,
                    waiting: None,
                    enabled: None,
                },
            );
        }
    }

    /// Removes the channels of this opener; no process has them enabled any more.
    ///
    /// It takes time linear in the channels that it has opened since it was last called for it. If memory ran out as
    /// channels were opened or processes counted, it takes time linear in all data words.
    pub fn remove_channels(&mut self, opener: u64)
        ensures { let w = self.old.world in
            self.new ≡ record self.old { world = record w { channels = without_channels opener w.channels } } }
    {
        remove_all(
            &mut self.channels,
            &mut self.enabled_counts,
            &mut self.opened,
            opener,
        );
    }
}

impl Traffic<TaggedStore, ListQueue> {
    /// The memory, and the roles of all processes.
    pub fn store(&self) -> &TaggedStore
        ensures memory { result.now.cells ≡ self.now.world.memory }
        ensures roles { result.now.roles ≡ self.now.world.roles }
    {
        &self.cpu.store
    }

    /// The process goes on as this task with this join open. The channels of the rows are there, in words of the join's
    /// frame, and the first branch is a new process. If memory runs out, nothing changes.
    pub fn open_join(
        &mut self,
        process: u64,
        task: Task,
        join: Join,
        channels: &[ChannelRow],
        branch: NewProcess,
    ) -> Result<(), AllocError>
        requires task { IsSteady task }
        requires branch { IsSteady branch.task }
        ensures world { let w = self.old.world in
            let opened = record w { channels = with_channels process join.base channels.now w.channels } in
            let there = on_role process (with_join (join_view join)) (put process task w.memory opened) in
            let role = branch_role process (holding_view branch.own) in
            MatchResult result (λ _. self.new.world ≡ with_process branch.task role there) (λ _. self.new.world ≡ w) }
        ensures room { self.new.room ≡ self.old.room }
        ensures holding { MatchResult result (λ _. HoldsAs self.old.holder self.new) (λ _. self.new ≡ self.old) }
    {
        self.count_next()?;
        self.reserve_cells(process, channels.len())?;
        self.tasks.reserve(1)?;
        let base = join.base;
        self.cpu.store.open_join(process, join, branch.own)?;
        put_both(&mut self.tasks, process, task, branch.task);
        self.open_channels(process, base, channels);
        Ok(())
    }

    /// The process goes on as this task. One more branch of the join that it has open is started, a new process. If
    /// memory runs out, nothing changes.
    pub fn advance_join(
        &mut self,
        process: u64,
        task: Task,
        to: Progress,
        branch: NewProcess,
    ) -> Result<(), AllocError>
        requires task { IsSteady task }
        requires branch { IsSteady branch.task }
        ensures world { let w = self.old.world in
            let next = with_branch (progress_view to) (length w.tasks) in
            let there = on_role process next (put process task w.memory w) in
            let role = branch_role process (holding_view branch.own) in
            MatchResult result (λ _. self.new.world ≡ with_process branch.task role there) (λ _. self.new.world ≡ w) }
        ensures room { self.new.room ≡ self.old.room }
        ensures holding { MatchResult result (λ _. HoldsAs self.old.holder self.new) (λ _. self.new ≡ self.old) }
    {
        self.count_next()?;
        self.tasks.reserve(1)?;
        let member = self.tasks.len() as u64;
        self.cpu
            .store
            .advance_join(process, to, member, branch.own)?;
        put_both(&mut self.tasks, process, task, branch.task);
        Ok(())
    }

    /// The word at an address is undefined from now on, whoever holds it.
    pub fn clear_word(&mut self, address: u32)
        ensures { let w = self.old.world in
            let memory = with_word w.memory (place_of address) None in
            self.new ≡ record self.old { world = record w { memory = memory } } }
    {
        self.cpu.store.clear_word(address);
    }

    /// A process leaves the join that another has open.
    pub fn leave_join(&mut self, opener: u64, process: u64)
        ensures world { self.new.world ≡ on_role opener (without_member process) self.old.world }
        ensures room { self.new.room ≡ self.old.room }
        ensures holding { HoldsAs self.old.holder self.new }
    {
        self.cpu.store.leave_join(opener, process);
    }

    /// The join that the process has open is over.
    pub fn close_join(&mut self, opener: u64)
        ensures world { self.new.world ≡ on_role opener without_join self.old.world }
        ensures room { self.new.room ≡ self.old.room }
        ensures holding { HoldsAs self.old.holder self.new }
    {
        self.cpu.store.close_join(opener);
    }

    /// Nothing is the process's own any more.
    pub fn give_back(&mut self, process: u64)
        ensures world { self.new.world ≡ on_role process without_own self.old.world }
        ensures room { self.new.room ≡ self.old.room }
        ensures holding { HoldsAs self.old.holder self.new }
    {
        self.cpu.store.give_back(process);
    }
}
