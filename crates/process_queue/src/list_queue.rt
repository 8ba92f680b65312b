//! A queue of process numbers that touches no store.

ghost use Rattle.std.specs.Prelude.{◌≡◌, ◌+◌, ◌<◌, ◌≤◌, ◌∷◌, [], ◌++◌, length, Some, OnOk, OnErr, slice_get};
ghost use Rattle.std.specs.List.{remove};
ghost use Rattle.process_queue.specs.Picking.{place_of_pick};

use crate::ready_queue::ReadyQueue;
use machine_state::LoadStore;
use std::alloc::{AllocError, Global};
use std::collections::VecDeque;
use std::marker::Model;

/// A ring of process numbers. A push takes constant time, and so does the pick of the first or last process; any
/// other pick moves the processes on one side of it.
#[derive(Drop)]
pub struct ListQueue {
    processes: VecDeque<u64>,
}

impl Model for ListQueue {
    ghost use Rattle.std.specs.Prelude.{◌-◌};
    ghost use Rattle.std.specs.VecDeque.{deque_len, deque_capacity};
    ghost use Rattle.process_queue.specs.Queued.{Queued};

    ghost Value = { Queued };

    ghost view = { λ q. record {
      processes = q.processes.items;
      room = deque_capacity q.processes - deque_len q.processes;
    } };
}

impl ListQueue {
    /// A queue with no process in it, and no capacity for one.
    pub fn new(alloc: Global) -> Self
        ensures processes { result.processes ≡ [] }
        ensures room { result.room ≡ 0 }
    {
        ListQueue {
            processes: VecDeque::from_vec(Vec::new(alloc)),
        }
    }
}

impl<S: LoadStore> ReadyQueue<S> for ListQueue {
    ghost use Rattle.std.specs.Prelude.{⊤, false, refl};

    ghost waiting = { λ q s. q.processes };

    ghost room = { λ q. q.room };

    ghost keeps = { λ p place. false };

    ghost is_intact = { λ q s. ⊤ };

    ghost can_push = { λ q s p. ⊤ };

    fn reserve(&mut self) -> Result<(), AllocError>
        ensures ok { OnOk result (0 < self.new.room) }
        ensures err { OnErr result (self.old.room ≡ 0) }
        ensures room { self.old.room ≤ self.new.room }
        ensures processes { self.new.processes ≡ self.old.processes }
    {
        self.processes.reserve(1)
    }

    fn push_back(&mut self, store: &mut S, process: u64)
        requires { 0 < self.old.room }
        ensures processes { self.new.processes ≡ self.old.processes ++ process ∷ [] }
        ensures room { self.new.room + 1 ≡ self.old.room }
        ensures store { store.new ≡ store.old }
    {
        self.processes.push_back_reserved(process);
    }

    fn take_at(&mut self, store: &mut S, pick: usize) -> u64
        requires { 0 < length self.old.processes }
        ensures process { let processes = self.old.processes in
            slice_get processes (place_of_pick pick processes) ≡ Some result }
        ensures processes { let processes = self.old.processes in
            self.new.processes ≡ remove processes (place_of_pick pick processes) }
        ensures room { self.new.room ≡ self.old.room + 1 }
        ensures store { store.new ≡ store.old }
    {
        let place = pick % self.processes.len();
        self.processes.remove(place).unwrap()
    }

    fn len(&self) -> usize
        ensures { result ≡ length self.now.processes }
    {
        self.processes.len()
    }

    ghost stays = { λ q s t intact holding agrees. (refl, tt) };
}
