//! Entries with what a block of branches has of them, and a block's list of what changed in it.

ghost use Rattle.std.specs.Prelude.{◌≡◌, ◌≤◌, vec_capacity, Some};

use crate::moves::hull_meaning;
use crate::narrowing::narrowed;
use crate::scope::{Entry, Meaning};
use occam_parser::Comparison;

/// An entry, and what the innermost block has of it that has it in its list.
#[derive(Clone, Copy)]
pub(crate) struct Slot<'a> {
    pub(crate) name: &'a [u8],
    pub(crate) meaning: Meaning,
    /// The depth of that block, 1 for the outermost one; 0 if no block has the entry in its list.
    pub(crate) mark: usize,
    /// Whether the branch of that block that has not ended changed the entry.
    pub(crate) recent: bool,
    /// What the entry means where the branches of that block begin.
    pub(crate) start: Meaning,
    /// What it means at the ends of its branches so far.
    pub(crate) ends: Meaning,
}

/// What a block has in its list: the number of an entry, and its slot before the block changed it.
#[derive(Clone, Copy)]
pub(crate) struct Change<'a> {
    pub(crate) number: usize,
    pub(crate) before: Slot<'a>,
    /// What the entry means after the block, once the block ends.
    pub(crate) after: Option<Meaning>,
}

/// A block of branches.
#[derive(Drop)]
pub(crate) struct Branching<'a> {
    /// How many entries it began with.
    pub(crate) count: usize,
    /// Whether it has ends.
    pub(crate) ended: bool,
    /// Whether the ends of entries stay as they are where a branch ends that does not change them, unless the branch
    /// before changed them.
    pub(crate) even: bool,
    /// The entries that changed in it, the first one first. It has the capacity for all that the block began with.
    pub(crate) changes: Vec<Change<'a>>,
    /// The entries that the branch before changed.
    pub(crate) earlier: Vec<usize>,
    /// Those that this branch changed, each once. Both have the capacity for all that the block began with.
    pub(crate) recent: Vec<usize>,
    ghost room: { count ≤ vec_capacity changes },
    ghost earlier_room: { count ≤ vec_capacity earlier },
    ghost recent_room: { count ≤ vec_capacity recent },
}

/// What becomes of an entry, and of what a block has of it.
#[derive(Clone, Copy)]
pub(crate) enum Update {
    /// The block of this depth and its branch have it in their lists from now on.
    List {
        depth: usize,
    },
    /// It means something else.
    Mean(Meaning),
    /// Where the further branches begin, its range is what this comparison with a constant leaves of it.
    Begin {
        comparison: Comparison,
        constant: i32,
    },
    /// Its ends so far are joined with what a block that has ended left of it.
    Leave(Form, Meaning),
    /// A branch of the block of this depth ends, which matters if the block has it in its list.
    End(usize, Turn),
    /// A block of the depth `inner` ends, and the block around it, of the depth `outer`, has it in its lists from now
    /// on. It meant `before` where the inner block began.
    HandOver {
        inner: usize,
        outer: usize,
        ended: bool,
        before: Meaning,
    },
}

/// How what a block left of an entry is joined with what the entry meant before.
#[derive(Clone, Copy)]
pub(crate) enum Form {
    /// It means what the block left.
    Whole,
    /// The hull of both, of which the block left the second one.
    Ahead,
    /// The hull of both, of which the block left the first one.
    Behind,
}

/// What becomes of an entry that changed in a branch, where the branch ends.
#[derive(Clone, Copy)]
pub(crate) enum Turn {
    /// The end comes to those before it, if there are any.
    Join { ended: bool },
    /// A component changed it: it is as this end says.
    Take,
    /// The next branch begins.
    Restart,
}

impl<'a> Branching<'a> {
    ghost use Rattle.scalar_ranges.specs.Changes.{turned_block, component_block, noted_block, HasRoom};
    ghost use Rattle.scalar_ranges.specs.ChangeViews.{branching_of, slot_of};

    /// The block where its next branch begins.
    pub(crate) fn turned(self) -> Branching<'a>
        ensures { branching_of result ≡ turned_block (branching_of self.entry) }
    {
        let Branching {
            count,
            changes,
            mut earlier,
            recent,
            ..
        } = self;
        earlier.clear();
        Branching {
            count,
            ended: true,
            even: true,
            changes,
            earlier: recent,
            recent: earlier,
        }
    }

    /// The block and its branch have an entry in their lists, whose slot was this one before.
    pub(crate) fn note(&mut self, number: usize, before: Slot<'a>, depth: usize)
        requires { HasRoom depth (slot_of before) (vec_capacity self.old.changes) (vec_capacity self.old.recent)
            (branching_of self.old) }
        ensures { branching_of self.new ≡ noted_block depth number (slot_of before.entry) (branching_of self.old) }
    {
        if before.mark != depth {
            self.changes.push_reserved(Change {
                number,
                before,
                after: None,
            });
        }
        if before.mark != depth || !before.recent {
            self.recent.push_reserved(number);
        }
    }

    /// The block where its next component begins.
    pub(crate) fn after_component(mut self) -> Branching<'a>
        ensures { branching_of result ≡ component_block (branching_of self.entry) }
    {
        self.even = false;
        self.recent.clear();
        self
    }
}

impl Form {
    ghost use Rattle.scalar_ranges.specs.EntryViews.{meaning_of};
    ghost use Rattle.scalar_ranges.specs.Deferring.{of_form};

    /// What an entry means that meant something before and of which a block left something.
    pub(crate) fn join(self, before: Meaning, left: Meaning) -> Meaning
        ensures { meaning_of result ≡ of_form self (meaning_of before) (meaning_of left) }
    {
        match self {
            Form::Whole => left,
            Form::Ahead => hull_meaning(before, left),
            Form::Behind => hull_meaning(left, before),
        }
    }
}

impl<'a> Slot<'a> {
    ghost use Rattle.scalar_ranges.specs.Changes.{fresh, meaning_after, handed_slot, noted_slot};
    ghost use Rattle.scalar_ranges.specs.ChangeViews.{meaning_of, entry_of, slot_of, updated, turned, turned_to};

    /// An entry that no block has in its list.
    pub(crate) fn fresh(entry: Entry<'a>) -> Slot<'a>
        ensures { slot_of result ≡ fresh (entry_of entry.entry) }
    {
        Slot {
            name: entry.name,
            meaning: entry.meaning,
            mark: 0,
            recent: false,
            start: entry.meaning,
            ends: entry.meaning,
        }
    }

    /// What an update says becomes of the slot.
    #[inline(always)]
    pub(crate) fn update(&mut self, update: Update)
        ensures { slot_of self.new ≡ updated update (slot_of self.old) }
    {
        match update {
            Update::List { depth } => self.list(depth),
            Update::Mean(meaning) => self.meaning = meaning,
            Update::Begin {
                comparison,
                constant,
            } => self.start = narrowed(self.start, comparison, constant),
            Update::Leave(form, left) => self.ends = form.join(self.ends, left),
            Update::End(depth, turn) => self.turn(depth, turn),
            Update::HandOver {
                inner,
                outer,
                ended,
                before,
            } => self.hand_over(inner, outer, ended, before),
        }
    }

    /// The block of this depth and its branch have the entry in their lists.
    fn list(&mut self, depth: usize)
        ensures { slot_of self.new ≡ noted_slot depth (slot_of self.old) }
    {
        if self.mark != depth {
            self.mark = depth;
            self.start = self.meaning;
            self.ends = self.meaning;
        }
        self.recent = true;
    }

    /// A block of the depth `inner` ends, and the block around has the entry in its lists, where it began as `before`.
    fn hand_over(&mut self, inner: usize, outer: usize, ended: bool, before: Meaning)
        ensures { slot_of self.new ≡ handed_slot inner outer ended (meaning_of before) (slot_of self.old) }
    {
        self.meaning = self.meaning_after(inner, ended);
        self.mark = outer;
        self.recent = true;
        self.start = before;
        self.ends = before;
    }

    /// The slot is as it was, with its name.
    pub(crate) fn restore(&mut self, before: Slot<'a>)
        ensures { slot_of self.new ≡ record (slot_of before.entry) { name = (slot_of self.old).name } }
    {
        self.meaning = before.meaning;
        self.mark = before.mark;
        self.recent = before.recent;
        self.start = before.start;
        self.ends = before.ends;
    }

    /// A branch of the block of this depth ends.
    fn turn(&mut self, depth: usize, turn: Turn)
        ensures { slot_of self.new ≡ turned depth turn (slot_of self.old) }
    {
        if self.mark == depth {
            self.turn_to(turn);
        }
    }

    /// The same of an entry that the block has in its list.
    fn turn_to(&mut self, turn: Turn)
        ensures { slot_of self.new ≡ turned_to turn (slot_of self.old) }
    {
        match turn {
            Turn::Join { ended: true } => self.ends = hull_meaning(self.ends, self.meaning),
            Turn::Join { ended: false } | Turn::Take => self.ends = self.meaning,
            Turn::Restart => {
                self.meaning = self.start;
                self.recent = false;
            }
        }
    }

    /// What the entry means after a block of this depth.
    pub(crate) fn meaning_after(self, depth: usize, ended: bool) -> Meaning
        ensures { meaning_of result ≡ meaning_after depth ended (slot_of self.entry) }
    {
        if self.mark != depth {
            self.meaning
        } else if ended {
            self.ends
        } else {
            self.start
        }
    }
}
