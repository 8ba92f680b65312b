//! Sets of ends of channels.

ghost use Rattle.std.specs.Prelude.{◌≡◌, ◌||◌, false, OnOk, IsTrue, ◌↔◌};
ghost use Rattle.program_uses.specs.declared.uses.Use.{Use};
ghost use Rattle.program_uses.specs.Sets.{is_same, is_among, use_of, uses_at};
ghost use Rattle.program_uses.specs.InCommon.{AreBoth};

use crate::ends::ChannelEnd;
use std::alloc::{AllocError, Global};
use std::collections::BTreeSet;
use std::collections::btree_set::Iter;
use std::mem;

/// Ends of channels that are used. They are in order, since whoever writes a source could choose ends that collide in
/// a table that is hashed with a fixed seed.
#[derive(Drop)]
pub(crate) struct UsedEnds {
    set: BTreeSet<ChannelEnd>,
}

impl UsedEnds {
    /// No ends.
    pub(crate) fn new(alloc: Global) -> UsedEnds
        ensures { (u : Use) → is_among (uses_at result) u ≡ false }
    {
        UsedEnds {
            set: BTreeSet::new(alloc),
        }
    }

    /// Whether an end is one of these.
    pub(crate) fn contains(&self, end: ChannelEnd) -> bool
        ensures { result ≡ is_among (uses_at self.now) (use_of end) }
    {
        self.set.contains(&end)
    }

    /// One end more.
    pub(crate) fn add(&mut self, end: ChannelEnd) -> Result<(), AllocError>
        ensures { OnOk result ((u : Use) → is_among (uses_at self.new) u
            ≡ (is_among (uses_at self.old) u || is_same u (use_of end))) }
    {
        self.set.insert(end)?;
        Ok(())
    }

    /// The ends of another set more. The smaller of the two joins the larger.
    pub(crate) fn join(&mut self, other: UsedEnds) -> Result<(), AllocError>
        ensures { OnOk result ((u : Use) → is_among (uses_at self.new) u
            ≡ (is_among (uses_at self.old) u || is_among (uses_at other) u)) }
    {
        let mut other = other;
        if self.set.len() < other.set.len() {
            mem::swap(self, &mut other);
        }
        self.add_all(&other)
    }

    /// Each end of another set.
    fn add_all(&mut self, other: &UsedEnds) -> Result<(), AllocError>
        ensures { OnOk result ((u : Use) → is_among (uses_at self.new) u
            ≡ (is_among (uses_at self.old) u || is_among (uses_at other.now) u)) }
    {
        let mut rest = other.iter();
        while let Some(end) = rest.next() {
            self.add(*end)?;
        }
        Ok(())
    }

    /// Whether two sets have an end in common whose channel has a number below this one.
    pub(crate) fn meets(&self, count: usize, other: &UsedEnds) -> bool
        ensures { IsTrue result ↔ AreBoth count self.now other.now }
    {
        if self.set.len() <= other.set.len() {
            self.meets_larger(count, other)
        } else {
            other.meets_larger(count, self)
        }
    }

    /// The same, by the ends of the first set.
    fn meets_larger(&self, count: usize, other: &UsedEnds) -> bool
        ensures { IsTrue result ↔ AreBoth count self.now other.now }
    {
        let mut rest = self.iter();
        while let Some(end) = rest.next() {
            if end.channel < count && other.contains(*end) {
                return true;
            }
        }
        false
    }

    /// Each end, in rising order.
    pub(crate) fn iter(&self) -> Iter<'_, ChannelEnd>
        ensures { result ≡ self.now.set.keys }
    {
        self.set.iter()
    }
}
