//! Queues of ready processes, by the calls of the trait.

use crate::tests::memory::loaded;
use crate::tests::text::Found;
use machine_state::{LoadStore, TaggedStore};
use process_queue::{ListQueue, ReadyQueue};
use std::alloc::{AllocError, Global};

/// Pushes a process, once capacity is reserved.
fn push<S: LoadStore, Q: ReadyQueue<S>>(
    queue: &mut Q,
    store: &mut S,
    process: u64,
) -> Result<(), AllocError>
    requires intact { Q.is_intact queue.old store.old }
    requires push { Q.can_push queue.old store.old process }
    ensures { Q.is_intact queue.new store.new }
{
    queue.reserve()?;
    queue.push_back(store, process);
    Ok(())
}

/// Takes a process out, if there is one.
fn take<S: LoadStore, Q: ReadyQueue<S>>(queue: &mut Q, store: &mut S, pick: usize) -> Option<u64>
    requires { Q.is_intact queue.old store.old }
    ensures { Q.is_intact queue.new store.new }
{
    if queue.is_empty() {
        return None;
    }
    Some(queue.take_at(store, pick))
}

/// Each process that is taken out of these: a pick takes the one at its place, and a push goes after all others.
fn put_turns(
    queue: &mut ListQueue,
    store: &mut TaggedStore,
    found: &mut Found,
) -> Result<(), AllocError> {
    for process in 1..4 {
        push(queue, store, process)?;
    }
    found.put(take(queue, store, 1));
    push(queue, store, 2)?;
    found.put(take(queue, store, 2));
    push(queue, store, 4)?;
    for _ in 0..4 {
        found.put(take(queue, store, 0));
    }
    Ok(())
}

fn put_queue(alloc: Global, found: &mut Found) {
    let mut queue = ListQueue::new(alloc);
    match loaded(alloc) {
        Ok((mut store, _)) => {
            if put_turns(&mut queue, &mut store, found).is_err() {
                found.fail();
            }
        }
        Err(_) => found.fail(),
    }
}

#[test]
fn processes_take_turns(rt: HostRuntime) {
    let mut found = Found::new(rt.alloc());
    put_queue(rt.alloc(), &mut found);
    found.check(&rt, " Some(2) Some(2) Some(1) Some(3) Some(4) None");
}
