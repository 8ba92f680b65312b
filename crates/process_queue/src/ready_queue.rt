//! What every queue of ready processes does.

ghost use Rattle.std.specs.Prelude.{◌≡◌, ℕ, ◌+◌, ◌<◌, ◌≤◌, ◌==◌, List, ◌∷◌, [], ◌++◌, length, Some, OnOk, OnErr};
ghost use Rattle.std.specs.Prelude.{slice_get};
ghost use Rattle.std.specs.List.{remove};
ghost use Rattle.process_queue.specs.Keeping.{Keeping, ChangesKept, AgreesOnKept};
ghost use Rattle.process_queue.specs.Picking.{place_of_pick};

use machine_state::LoadStore;
use std::alloc::AllocError;

/// The processes that wait for their turn. A queue and the store together are seen as a list: a queue may keep a
/// process in words of its workspace, which no other process may write while the process is in the queue.
pub trait ReadyQueue<S: LoadStore> {
    /// The processes in the queue, the first in front.
    ghost waiting: { Self → S → List ℕ };

    /// For how many more processes there is capacity.
    ghost room: { Self → ℕ };

    /// In which bytes of memory the queue keeps a process that is in it.
    ghost keeps: { Keeping };

    /// Whether what the queue keeps in the store is there.
    ghost is_intact: { Self → S → Type 0 };

    /// Whether the queue can keep this process in the store, besides those that are in it.
    ghost can_push: { Self → S → ℕ → Type 0 };

    /// Reserves capacity for one more process. If memory runs out, there was none, and the queue is as before.
    fn reserve(&mut self) -> Result<(), AllocError>
        ensures ok { OnOk result (0 < room self.new) }
        ensures err { OnErr result (room self.old ≡ 0) }
        ensures room { room self.old ≤ room self.new }
        ensures waiting { (s : S) → waiting self.new s ≡ waiting self.old s }
        ensures intact { (s : S) → is_intact self.old s → is_intact self.new s }
        ensures pushes { (s : S) (p : ℕ) → can_push self.old s p → can_push self.new s p };

    /// The process goes to the back of the queue.
    fn push_back(&mut self, store: &mut S, process: u64)
        requires room { 0 < room self.old }
        requires intact { is_intact self.old store.old }
        requires push { can_push self.old store.old process }
        ensures waiting { waiting self.new store.new ≡ waiting self.old store.old ++ process ∷ [] }
        ensures room { room self.old ≤ room self.new + 1 }
        ensures intact { is_intact self.new store.new }
        ensures memory { let processes = process ∷ waiting self.old store.old in
            ChangesKept keeps processes (S.cells store.old) (S.cells store.new) }
        ensures holding { S.holding store.new ≡ S.holding store.old }
        ensures roles { S.roles store.new ≡ S.roles store.old };

    /// The process number `pick`, counted round the list, leaves the queue.
    fn take_at(&mut self, store: &mut S, pick: usize) -> u64
        requires filled { 0 < length (waiting self.old store.old) }
        requires intact { is_intact self.old store.old }
        ensures process { let processes = waiting self.old store.old in
            slice_get processes (place_of_pick pick processes) ≡ Some result }
        ensures waiting { let processes = waiting self.old store.old in
            waiting self.new store.new ≡ remove processes (place_of_pick pick processes) }
        ensures room { room self.old ≤ room self.new }
        ensures intact { is_intact self.new store.new }
        ensures memory { let processes = waiting self.old store.old in
            ChangesKept keeps processes (S.cells store.old) (S.cells store.new) }
        ensures holding { S.holding store.new ≡ S.holding store.old }
        ensures roles { S.roles store.new ≡ S.roles store.old };

    /// How many processes are in the queue.
    fn len(&self) -> usize
        ensures { (s : S) → result ≡ length (waiting self.now s) };

    /// Whether no process is in the queue.
    fn is_empty(&self) -> bool
        ensures { (s : S) → result ≡ (length (waiting self.now s) == 0) }
    {
        self.len() == 0
    }

    /// The queue stays as it is while the bytes in which it keeps its processes do.
    ghost stays: { (q : Self) (s t : S) → is_intact q s → S.holding t ≡ S.holding s
        → AgreesOnKept keeps (waiting q s) (S.cells s) (S.cells t)
        → (waiting q t ≡ waiting q s) × is_intact q t };
}
