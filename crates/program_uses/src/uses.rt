//! What a process uses of what is declared around it.

ghost use Rattle.std.specs.Prelude.{◌≡◌, [], ◌∷◌, false, IsTrue, ◌↔◌};

use crate::ends::ChannelEnd;
use crate::numbers::Numbers;
use crate::used_ends::UsedEnds;
use std::alloc::Global;
use std::collections::btree_set::Iter;

/// Which end of a channel is used.
#[derive(Clone, Copy, PartialEq, Eq, PartialOrd, Ord)]
pub enum Direction {
    Input,
    Output,
}

/// An end of a channel, or of an element of an array of channels. A channel that is no array has element 0 alone.
#[derive(Clone, Copy, PartialEq, Eq, PartialOrd, Ord)]
pub struct End {
    pub element: u32,
    pub direction: Direction,
}

/// What is used, by the number of its declaration.
#[derive(Clone, Copy, PartialEq, Eq, PartialOrd, Ord)]
pub enum Use {
    /// A variable is read.
    Read(usize),
    /// A variable is changed: something is assigned to it or received into it, or it is passed as a variable.
    Change(usize),
    /// Something is received from a channel, or sent to it.
    Channel {
        channel: usize,
        element: u32,
        direction: Direction,
    },
}

/// What is used. It remembers whether memory ran out while something was added.
#[derive(Drop)]
pub struct Uses {
    alloc: Global,
    reads: Numbers,
    changes: Numbers,
    ends: UsedEnds,
    complete: bool,
}

impl Uses {
    ghost use Rattle.program_uses.specs.InCommon.{AreBoth, ChangesUsed};
    ghost use Rattle.program_uses.specs.Sets.{has, Adds, Joins};

    /// Nothing.
    pub fn new(alloc: Global) -> Uses
        ensures { (u : Use) → has result u ≡ false }
    {
        Uses {
            alloc,
            reads: Numbers::new(alloc),
            changes: Numbers::new(alloc),
            ends: UsedEnds::new(alloc),
            complete: true,
        }
    }

    /// One use more.
    pub fn add(&mut self, item: Use)
        ensures { Adds self.old self.new (item ∷ []) }
    {
        let added = match item {
            Use::Read(number) => self.reads.add(number),
            Use::Change(number) => self.changes.add(number),
            Use::Channel {
                channel,
                element,
                direction,
            } => {
                let end = End { element, direction };
                self.ends.add(ChannelEnd { channel, end })
            }
        };
        if added.is_err() {
            self.complete = false;
        }
    }

    /// A set of uses with nothing in it.
    pub(crate) fn fresh(&self) -> Uses
        ensures { (u : Use) → has result u ≡ false }
    {
        Uses::new(self.alloc)
    }

    /// What another set has besides.
    pub(crate) fn join(&mut self, other: Uses)
        ensures { Joins self.old self.new other }
    {
        let has_reads = self.reads.join(other.reads).is_ok();
        let has_changes = self.changes.join(other.changes).is_ok();
        let has_ends = self.ends.join(other.ends).is_ok();
        self.complete &= other.complete & has_reads & has_changes & has_ends;
    }

    /// Memory ran out, so that something is missing.
    pub(crate) fn fail(&mut self)
        ensures same { (u : Use) → has self.new u ≡ has self.old u }
        ensures complete { self.new.complete ≡ false }
    {
        self.complete = false;
    }

    /// Whether memory was enough for all that was added.
    pub fn is_complete(&self) -> bool
        ensures { result ≡ self.now.complete }
    {
        self.complete
    }

    /// Whether this is used.
    pub fn contains(&self, item: Use) -> bool
        ensures { result ≡ has self.now item }
    {
        match item {
            Use::Read(number) => self.reads.contains(number),
            Use::Change(number) => self.changes.contains(number),
            Use::Channel {
                channel,
                element,
                direction,
            } => {
                let end = End { element, direction };
                self.ends.contains(ChannelEnd { channel, end })
            }
        }
    }

    /// Whether one of two sets changes a variable that the other one uses, of the `count` names around.
    pub(crate) fn shares_variable(&self, count: usize, other: &Uses) -> bool
        ensures { IsTrue result ↔ ChangesUsed count self.now other.now }
    {
        self.changes.meets(count, &other.changes)
            || self.changes.meets(count, &other.reads)
            || self.reads.meets(count, &other.changes)
    }

    /// Whether two sets use one end of a channel, of the `count` names around.
    pub(crate) fn shares_end(&self, count: usize, other: &Uses) -> bool
        ensures { IsTrue result ↔ AreBoth count self.now.ends other.now.ends }
    {
        self.ends.meets(count, &other.ends)
    }

    /// Each end of a channel that it has.
    pub(crate) fn ends(&self) -> Iter<'_, ChannelEnd>
        ensures { result ≡ self.now.ends.set.keys }
    {
        self.ends.iter()
    }
}
