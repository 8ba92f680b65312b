//! A queue of ready processes that is kept in their workspaces.

ghost use Rattle.std.specs.Prelude.{◌≡◌, ℕ, ◌+◌, ◌-◌, ◌<◌, ◌≤◌, ◌^◌, IsTrue, Some, length, slice_get};
ghost use Rattle.std.specs.List.{remove};
ghost use Rattle.machine_state.specs.Memory.{Memory, place_of};
ghost use Rattle.machine_state.specs.Holding.{Holding, may_write_word};
ghost use Rattle.process_queue.specs.Keeping.{ChangesKept};
ghost use Rattle.process_queue.specs.Picking.{place_of_pick};
ghost use Rattle.plain_machine.specs.Linked.{link_place, next_of, with_next, linked, follow, keeps_link, IsIntact};

use machine_state::{LoadStore, local_address};
use process_queue::ReadyQueue;
use std::alloc::AllocError;

/// The processes that wait for their turn, by the addresses of their workspaces: word W-2 of each holds the workspace
/// of the next one. A push takes constant time, and so does the pick of the first process; any other pick follows the
/// links to it. Nothing is allocated.
#[derive(Drop)]
pub struct WorkspaceQueue {
    front: u32,
    back: u32,
    length: usize,
}

/// The address of the word that links a process to the next one.
fn link_address(process: u32) -> u32
    ensures { place_of result ≡ link_place process }
{
    local_address(process, -2)
}

/// The process after this one.
#[tactic(auto, unfolding(crate::specs::Linked::next_of))]
fn next<S: LoadStore>(store: &S, process: u32) -> u32
    requires { IsTrue (may_write_word (S.holding store.now) (link_place process)) }
    ensures { result ≡ next_of (S.cells store.now) process }
{
    match store.load_word(link_address(process)) {
        Some(next) => next.cast_unsigned(),
        None => 0,
    }
}

/// From now on the process after this one is that one.
fn set_next<S: LoadStore>(store: &mut S, process: u32, next: u32)
    requires { IsTrue (may_write_word (S.holding store.old) (link_place process)) }
    ensures memory { S.cells store.new ≡ with_next (S.cells store.old) process next }
    ensures holding { S.holding store.new ≡ S.holding store.old }
    ensures roles { S.roles store.new ≡ S.roles store.old }
{
    store.write_word(link_address(process), next.cast_signed());
}

/// The process after this one is left out: the one after it comes next.
fn unlink_next<S: LoadStore>(store: &mut S, process: u32) -> u32
    requires process { IsTrue (may_write_word (S.holding store.old) (link_place process)) }
    requires left { let left = next_of (S.cells store.old) process in
        IsTrue (may_write_word (S.holding store.old) (link_place left)) }
    ensures process { result ≡ next_of (S.cells store.old) process }
    ensures memory { let memory = S.cells store.old in
        S.cells store.new ≡ with_next memory process (next_of memory result) }
    ensures fits { next_of (S.cells store.old) result < 2 ^ 32 }
    ensures holding { S.holding store.new ≡ S.holding store.old }
    ensures roles { S.roles store.new ≡ S.roles store.old }
{
    let left = next(store, process);
    let after = next(store, left);
    set_next(store, process, after);
    left
}

/// The process that is `links` links after this one.
fn follow<S: LoadStore>(store: &S, process: u32, links: usize) -> u32
    requires { let memory = S.cells store.now in (k : ℕ) → k < links
        → IsTrue (may_write_word (S.holding store.now) (link_place (follow memory process k))) }
    ensures { result ≡ follow (S.cells store.now) process links }
{
    let mut reached = process;
    for _followed in 0..links {
        reached = next(store, reached);
    }
    reached
}

impl WorkspaceQueue {
    /// A queue with no process in it.
    pub fn new() -> Self
        ensures length { result.length ≡ 0 }
        ensures intact { (m : Memory) (h : Holding) → IsIntact m h result.front result.back result.length }
    {
        WorkspaceQueue {
            front: 0,
            back: 0,
            length: 0,
        }
    }

    /// The first process leaves the queue.
    fn take_front<S: LoadStore>(&mut self, store: &S) -> u32
        requires filled { 0 < self.old.length }
        requires held { IsTrue (may_write_word (S.holding store.now) (link_place self.old.front)) }
        ensures process { result ≡ self.old.front }
        ensures queue { let next = next_of (S.cells store.now) self.old.front in
            self.new ≡ record self.old { front = next; length = self.old.length - 1 } }
    {
        let taken = self.front;
        self.front = next(store, taken);
        self.length -= 1;
        taken
    }

    /// The process number `pick`, counted round the list, leaves the queue.
    pub(crate) fn take<S: LoadStore>(&mut self, store: &mut S, pick: usize) -> u32
        requires filled { 0 < length (linked (S.cells store.old) self.old.front self.old.length) }
        requires intact { let memory = S.cells store.old in
            IsIntact memory (S.holding store.old) self.old.front self.old.back self.old.length }
        ensures process { let processes = linked (S.cells store.old) self.old.front self.old.length in
            slice_get processes (place_of_pick pick processes) ≡ Some result }
        ensures waiting { let processes = linked (S.cells store.old) self.old.front self.old.length in
            linked (S.cells store.new) self.new.front self.new.length
            ≡ remove processes (place_of_pick pick processes) }
        ensures intact { let memory = S.cells store.new in
            IsIntact memory (S.holding store.new) self.new.front self.new.back self.new.length }
        ensures memory { let processes = linked (S.cells store.old) self.old.front self.old.length in
            ChangesKept keeps_link processes (S.cells store.old) (S.cells store.new) }
        ensures holding { S.holding store.new ≡ S.holding store.old }
        ensures roles { S.roles store.new ≡ S.roles store.old }
    {
        if pick == 0 {
            return self.take_front(store);
        }
        let place = pick % self.length;
        if place == 0 {
            return self.take_front(store);
        }
        let before = follow(store, self.front, place - 1);
        let taken = unlink_next(store, before);
        self.length -= 1;
        if place == self.length {
            self.back = before;
        }
        taken
    }
}

impl<S: LoadStore> ReadyQueue<S> for WorkspaceQueue {
    ghost use Rattle.std.specs.Prelude.{◌≡◌, ◌∷◌};
    ghost use Rattle.plain_machine.specs.Linked.{linked, keeps_link, IsIntact, CanPush};
    ghost use Rattle.plain_machine.specs.Staying.{stays};

    ghost waiting = { λ q s. linked (S.cells s) q.front q.length };

    ghost room = { λ q. 1 };

    ghost keeps = { keeps_link };

    ghost is_intact = { λ q s. IsIntact (S.cells s) (S.holding s) q.front q.back q.length };

    ghost can_push = { λ q s p. CanPush (S.cells s) (S.holding s) (linked (S.cells s) q.front q.length) p };

    fn reserve(&mut self) -> Result<(), AllocError> {
        Ok(())
    }

    fn push_back(&mut self, store: &mut S, process: u64) {
        let process = process as u32;
        if self.length == 0 {
            self.front = process;
            self.back = process;
            self.length = 1;
        } else {
            set_next(store, self.back, process);
            self.back = process;
            self.length += 1;
        }
    }

    fn take_at(&mut self, store: &mut S, pick: usize) -> u64 {
        u64::from(self.take(store, pick))
    }

    fn len(&self) -> usize {
        self.length
    }

    ghost stays = { λ q s t. stays (S.cells s) (S.cells t) (S.holding s) (S.holding t) q.front q.back q.length };
}
