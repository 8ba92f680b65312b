//! Sets of ends, in which each is found in logarithmic time.

ghost use Rattle.std.specs.Prelude.{◌≡◌, ◌||◌, not, false, IfOk, OnOk};
ghost use Rattle.machine_state.specs.declared.holding.End.{End as HeldEnd};
ghost use Rattle.machine_state.specs.Spans.{is_among_ends, is_same_end};
ghost use Rattle.joins.specs.EndSets.{has};

use machine_state::End;
use module_format::Direction;
use std::alloc::{AllocError, Global};
use std::collections::BTreeSet;

/// Ends, by their directions and addresses.
#[derive(Drop)]
pub(crate) struct EndSet {
    /// The addresses of those that receive.
    inputs: BTreeSet<u32>,
    /// The addresses of those that send.
    outputs: BTreeSet<u32>,
}

impl EndSet {
    /// No ends.
    pub(crate) fn new(alloc: Global) -> EndSet
        ensures { (end : HeldEnd) → has result end ≡ false }
    {
        EndSet {
            inputs: BTreeSet::new(alloc),
            outputs: BTreeSet::new(alloc),
        }
    }

    /// These ends. It takes time n log n.
    pub(crate) fn of(alloc: Global, ends: &[End]) -> Result<EndSet, AllocError>
        ensures { IfOk result (λ set. (end : HeldEnd) → has set end ≡ is_among_ends ends.now end) }
    {
        let mut set = EndSet::new(alloc);
        for end in ends {
            set.insert(*end)?;
        }
        Ok(set)
    }

    /// Whether the end is one of them.
    pub(crate) fn contains(&self, end: End) -> bool
        ensures { result ≡ has self.now end }
    {
        match end.direction {
            Direction::In => self.inputs.contains(&end.address),
            Direction::Out => self.outputs.contains(&end.address),
        }
    }

    /// Adds the end, and returns whether it was not there.
    pub(crate) fn insert(&mut self, end: End) -> Result<bool, AllocError>
        ensures added { IfOk result (λ added. added ≡ not (has self.old end)) }
        ensures all { OnOk result ((other : HeldEnd) →
            has self.new other ≡ (has self.old other || is_same_end other end)) }
    {
        let added = match end.direction {
            Direction::In => self.inputs.insert(end.address)?,
            Direction::Out => self.outputs.insert(end.address)?,
        };
        Ok(added)
    }
}
