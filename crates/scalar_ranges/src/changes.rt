//! The blocks of branches around a place, by lists of what changed in them.

ghost use Rattle.std.specs.Prelude.{◌≡◌, ◌≤◌, ◌<◌, ◌+◌, ℕ, suc, ◌++◌, true, [], OnOk, OnErr, map, length, option_map};
ghost use Rattle.std.specs.Prelude.{vec_capacity, MatchOption, take};
ghost use Rattle.scalar_ranges.specs.Environments.{item_at};
ghost use Rattle.scalar_ranges.specs.Changes.{modify, numbers_of, each, turned_slots, joined_by, component_slots};
ghost use Rattle.scalar_ranges.specs.Changes.{undone, restored, meaning_after, known_with, KeepsMarks, AreForeign};
ghost use Rattle.scalar_ranges.specs.Changes.{handed, handed_block, HandsOver, HasRoomFor, noted_slots, noted_in};
ghost use Rattle.scalar_ranges.specs.ChangeViews.{meaning_of, entry_of, slot_of, updated, slots_from, changes_from};
ghost use Rattle.scalar_ranges.specs.ChangeViews.{branching_of, known_afters};
ghost use Rattle.scalar_ranges.specs.Deferring.{StayApart, StayWithout, StayWithoutOne, IsLeft};
ghost use Rattle.scalar_ranges.specs.ChangeViews.{AfterBlock, BelongTogether, BelongTogether-prop};

use crate::moves::is_same;
use crate::scope::{Entry, Meaning};
use crate::slots::{Branching, Change, Form, Slot, Turn, Update};
use crate::spare::Spare;
use occam_parser::Comparison;
use std::alloc::{AllocError, Global};

/// The entries at a place, numbered from the outermost one on, and the blocks of branches around it. Once a block has
/// begun, changes in it take no memory.
#[derive(Drop)]
pub(crate) struct Tracked<'a> {
    pub(crate) slots: Vec<Slot<'a>>,
    /// The innermost block last.
    pub(crate) blocks: Vec<Branching<'a>>,
    ghost tracked: { BelongTogether slots.items blocks.items } by { BelongTogether-prop slots.items blocks.items },
}

impl<'a> Tracked<'a> {
    ghost use Rattle.scalar_ranges.specs.Moves.{begun_with, next, next_component, end};
    ghost use Rattle.scalar_ranges.specs.Entries.{entry_at};
    ghost use Rattle.scalar_ranges.specs.MoveLaws.{meaning_at};
    ghost use Rattle.scalar_ranges.specs.Changes.{noted, put_by, put, put_start, begun};
    ghost use Rattle.scalar_ranges.specs.Changes.{put_ends, AreOutside, known_around, ends_around};
    ghost use Rattle.scalar_ranges.specs.Deferring.{of_form, is_inside, has_ends};
    ghost use Rattle.scalar_ranges.specs.Changes.{declared, cut};
    ghost use Rattle.scalar_ranges.specs.Narrowing.{left_of, with_range};
    ghost use Rattle.scalar_ranges.specs.TrackedViews.{tracked_of, known_by};

    /// No entries, and no blocks.
    pub(crate) fn new(alloc: Global) -> Tracked<'a>
        ensures { tracked_of result ≡ record { slots = []; blocks = [] } }
    {
        Tracked {
            slots: Vec::new(alloc),
            blocks: Vec::new(alloc),
        }
    }

    /// How many entries there are.
    pub(crate) fn len(&self) -> usize
        ensures { result ≡ length (known_by self.now).entries }
    {
        self.slots.len()
    }

    /// What the entry with this number means.
    pub(crate) fn meaning(&self, number: usize) -> Option<Meaning>
        ensures { option_map meaning_of result ≡ meaning_at number (known_by self.now).entries }
    {
        if number < self.slots.len() {
            Some(self.slots[number].meaning)
        } else {
            None
        }
    }

    /// The entry with this number.
    pub(crate) fn entry(&self, number: usize) -> Option<Entry<'a>>
        ensures { option_map entry_of result ≡ entry_at number (known_by self.now).entries }
    {
        if number < self.slots.len() {
            let slot = self.slots[number];
            Some(Entry {
                name: slot.name,
                meaning: slot.meaning,
            })
        } else {
            None
        }
    }

    /// How many entries the innermost block began with.
    pub(crate) fn begun_with(&self) -> usize
        ensures { result ≡ begun_with (known_by self.now).blocks }
    {
        match self.blocks.last() {
            None => 0,
            Some(block) => block.count,
        }
    }

    /// One entry more, the innermost one. If memory runs out, all is as it was.
    pub(crate) fn declare(&mut self, entry: Entry<'a>) -> Result<(), AllocError>
        ensures ok { OnOk result (tracked_of self.new ≡ declared (entry_of entry.entry) (tracked_of self.old)) }
        ensures err { OnErr result (tracked_of self.new ≡ tracked_of self.old) }
    {
        self.slots.push(Slot::fresh(entry))?;
        Ok(())
    }

    /// Only the first `count` entries are left.
    pub(crate) fn cut(&mut self, count: usize)
        requires { begun_with (known_by self.old).blocks ≤ count }
        ensures { tracked_of self.new ≡ cut count (tracked_of self.old) }
    {
        self.slots.truncate(count);
    }

    /// The innermost block and its branch have this entry in their lists, if the block began with it.
    fn note(&mut self, number: usize)
        ensures { tracked_of self.new ≡ noted number (tracked_of self.old).slots (tracked_of self.old).blocks }
    {
        let depth = self.blocks.len();
        if depth > 0 {
            let place = depth - 1;
            note_in(&mut self.blocks[place], &mut self.slots, number, place + 1);
        }
    }

    /// An entry is updated, once the innermost block and its branch have it in their lists.
    fn update(&mut self, number: usize, update: Update)
        requires { KeepsMarks (updated update) }
        ensures { tracked_of self.new ≡ put_by (updated update) number (tracked_of self.old) }
    {
        self.note(number);
        modify(&mut self.slots, number, update);
    }

    /// An entry means something else.
    pub(crate) fn put(&mut self, number: usize, meaning: Meaning)
        ensures { tracked_of self.new ≡ put number (meaning_of meaning) (tracked_of self.old) }
    {
        self.update(number, Update::Mean(meaning));
    }

    /// The place of the block around the innermost one and `further` others.
    fn place_around(&self, further: usize) -> usize
        requires { suc further < length self.now.blocks.items }
        ensures { result + 2 + further ≡ length self.now.blocks.items }
    {
        self.blocks.len() - 2 - further
    }

    /// An entry means something else where the innermost block began and `further` blocks around it, and here. The
    /// block around them has it in its lists.
    pub(crate) fn put_around(&mut self, number: usize, meaning: Meaning, further: usize)
        requires { AreOutside number (suc further) (tracked_of self.old).blocks }
        ensures known { known_by self.new ≡ known_around (suc further) number (meaning_of meaning) (known_by self.old) }
        ensures apart { StayApart (suc further) (tracked_of self.old).blocks
            (suc further) (tracked_of self.new).blocks }
    {
        let place = self.place_around(further);
        note_in(&mut self.blocks[place], &mut self.slots, number, place + 1);
        modify(&mut self.slots, number, Update::Mean(meaning));
    }

    /// The ends so far are joined with what a block that has ended left of the entry, of the block around the innermost
    /// one and `further` others. It has the entry in its lists.
    pub(crate) fn put_end_around(
        &mut self,
        number: usize,
        form: Form,
        left: Meaning,
        further: usize,
    )
        requires { AreOutside number (suc further) (tracked_of self.old).blocks }
        ensures known { known_by self.new ≡ record {
          entries = (known_by self.old).entries;
          blocks = ends_around (suc further) (λ m. of_form form m (meaning_of left)) number (known_by self.old).blocks;
        } }
        ensures apart { StayApart (suc further) (tracked_of self.old).blocks
            (suc further) (tracked_of self.new).blocks }
    {
        let place = self.place_around(further);
        note_in(&mut self.blocks[place], &mut self.slots, number, place + 1);
        modify(&mut self.slots, number, Update::Leave(form, left));
    }

    /// The branches of the innermost block begin from here on with what a comparison with a constant leaves of the
    /// entry.
    pub(crate) fn put_start(&mut self, number: usize, comparison: Comparison, constant: i32)
        ensures { tracked_of self.new
            ≡ put_start number (with_range (left_of comparison constant)) (tracked_of self.old) }
    {
        let update = Update::Begin {
            comparison,
            constant,
        };
        self.update(number, update);
    }

    /// The ends of the innermost block so far are joined with what a block that has ended left of the entry.
    pub(crate) fn put_end(&mut self, number: usize, form: Form, left: Meaning)
        ensures { tracked_of self.new
            ≡ put_ends number (λ m. of_form form m (meaning_of left)) (tracked_of self.old) }
    {
        self.update(number, Update::Leave(form, left));
    }

    /// A block begins, which has ends if it is a `PAR`. Its lists get the capacity for all entries. If memory runs out,
    /// all is as it was.
    pub(crate) fn begin(
        &mut self,
        alloc: Global,
        ended: bool,
        spare: &mut Spare<'a>,
    ) -> Result<(), AllocError>
        ensures ok { OnOk result (tracked_of self.new ≡ begun ended (tracked_of self.old)) }
        ensures err { OnErr result (tracked_of self.new ≡ tracked_of self.old) }
    {
        let count = self.slots.len();
        let changes = spare.changes(alloc, count)?;
        let earlier = spare.numbers(alloc, count)?;
        let recent = spare.numbers(alloc, count)?;
        self.blocks.push(Branching {
            count,
            ended,
            even: true,
            changes,
            earlier,
            recent,
        })?;
        Ok(())
    }

    /// A branch ends, and the next one begins.
    pub(crate) fn next(&mut self)
        ensures known { known_by self.new ≡ next (known_by self.old) }
        ensures apart { (a : ℕ) → StayApart a (tracked_of self.old).blocks a (tracked_of self.new).blocks }
    {
        let depth = self.blocks.len();
        if let Some(block) = self.blocks.pop() {
            self.slots.truncate(block.count);
            turn_slots(&mut self.slots, &block, depth);
            self.blocks.push_reserved(block.turned());
        }
    }

    /// A component ends, which changed the variables with these numbers, and the next one begins.
    pub(crate) fn next_component(&mut self, numbers: &[usize])
        ensures known { known_by self.new ≡ next_component numbers.now (known_by self.old) }
        ensures apart { (a : ℕ) → StayApart a (tracked_of self.old).blocks a (tracked_of self.new).blocks }
    {
        let depth = self.blocks.len();
        if let Some(block) = self.blocks.pop() {
            self.slots.truncate(block.count);
            component_slots(&mut self.slots, numbers, &block, depth);
            self.blocks.push_reserved(block.after_component());
        }
    }

    /// A block ends.
    pub(crate) fn end(&mut self, spare: &mut Spare<'a>)
        ensures known { known_by self.new ≡ end (known_by self.old) }
        ensures apart { (a : ℕ) → StayApart (suc a) (tracked_of self.old).blocks a (tracked_of self.new).blocks }
    {
        if self.hands_over() {
            self.hand_over(spare);
        } else {
            self.put_back(spare);
        }
    }

    /// Whether the block around the innermost one has empty lists, and can have the innermost one's in their place.
    fn hands_over(&self) -> bool
        ensures { result ≡ true → HandsOver (tracked_of self.now).blocks }
    {
        let depth = self.blocks.len();
        if depth < 2 {
            return false;
        }
        let outer = &self.blocks[depth - 2];
        outer.changes.is_empty()
            && outer.recent.is_empty()
            && are_foreign(&self.blocks[depth - 1].changes, outer.count, depth - 1)
    }

    /// A block ends, and the block around has its list. It costs a step for each change, and nothing is copied.
    fn hand_over(&mut self, spare: &mut Spare<'a>)
        requires { HandsOver (tracked_of self.old).blocks }
        ensures known { known_by self.new ≡ end (known_by self.old) }
        ensures apart { (a : ℕ) → StayApart (suc a) (tracked_of self.old).blocks a (tracked_of self.new).blocks }
    {
        let depth = self.blocks.len();
        if let Some(block) = self.blocks.pop() {
            let Branching {
                count,
                ended,
                changes,
                earlier,
                recent,
                ..
            } = block;
            spare.keep_numbers(earlier);
            spare.keep_numbers(recent);
            if let Some(outer) = self.blocks.pop() {
                self.slots.truncate(count);
                hand_slots(&mut self.slots, &changes, depth, depth - 1, ended);
                self.blocks
                    .push_reserved(handed_block(outer, changes, spare));
            }
        }
    }

    /// A block ends: its changes are taken back, and what is known after it changes what is around it.
    fn put_back(&mut self, spare: &mut Spare<'a>)
        ensures known { known_by self.new ≡ end (known_by self.old) }
        ensures apart { (a : ℕ) → StayApart (suc a) (tracked_of self.old).blocks a (tracked_of self.new).blocks }
    {
        if let Some(changes) = self.end_apart(spare) {
            self.put_afters(&changes);
            spare.keep_changes(changes);
        }
    }

    /// A block ends: its changes are taken back, and each says what its entry means after the block.
    pub(crate) fn end_apart(&mut self, spare: &mut Spare<'a>) -> Option<Vec<Change<'a>>>
        ensures known { MatchOption result (known_by self.new ≡ end (known_by self.old))
            (λ changes. known_afters changes.items (known_by self.new) ≡ end (known_by self.old)) }
        ensures apart { MatchOption result
            ((a : ℕ) → StayApart (suc a) (tracked_of self.old).blocks a (tracked_of self.new).blocks)
            (λ changes. IsLeft (changes_from changes.items) (tracked_of self.old).blocks (tracked_of self.new).blocks) }
    {
        let depth = self.blocks.len();
        match self.blocks.pop() {
            None => None,
            Some(block) => {
                let Branching {
                    count,
                    ended,
                    mut changes,
                    earlier,
                    recent,
                    ..
                } = block;
                spare.keep_numbers(earlier);
                spare.keep_numbers(recent);
                self.slots.truncate(count);
                take_back(&mut self.slots, &mut changes, depth, ended);
                Some(changes)
            }
        }
    }

    /// Whether there is a block.
    pub(crate) fn is_inside(&self) -> bool
        ensures { result ≡ is_inside (known_by self.now).blocks }
    {
        match self.blocks.last() {
            None => false,
            Some(_) => true,
        }
    }

    /// Whether the innermost block has ends.
    pub(crate) fn has_ends(&self) -> bool
        ensures { result ≡ has_ends (known_by self.now).blocks }
    {
        match self.blocks.last() {
            None => false,
            Some(block) => block.ended,
        }
    }

    /// The number of an entry in the innermost block's list.
    pub(crate) fn changed_at(&self, place: usize) -> Option<usize> {
        match self.blocks.last() {
            Some(block) if place < block.changes.len() => Some(block.changes[place].number),
            _ => None,
        }
    }

    /// How many entries the innermost block has in its list.
    pub(crate) fn changed(&self) -> usize {
        match self.blocks.last() {
            None => 0,
            Some(block) => block.changes.len(),
        }
    }

    /// The entries mean what the changes say of the end of a block.
    pub(crate) fn put_afters(&mut self, changes: &[Change])
        ensures known { known_by self.new ≡ known_afters changes.now (known_by self.old) }
        ensures apart { StayWithout (changes_from changes.now) (tracked_of self.old).blocks
            (tracked_of self.new).blocks }
    {
        for change in changes {
            if let Some(meaning) = change.after {
                self.put_other(change.number, meaning);
            }
        }
    }

    /// An entry means this. What it means already takes no place in the lists of blocks.
    pub(crate) fn put_other(&mut self, number: usize, meaning: Meaning)
        ensures known { known_by self.new ≡ known_with number (meaning_of meaning) (known_by self.old) }
        ensures apart { StayWithoutOne number (tracked_of self.old).blocks (tracked_of self.new).blocks }
    {
        if let Some(before) = self.meaning(number) {
            if !is_same(before, meaning) {
                self.put(number, meaning);
            }
        }
    }
}

/// The slots where the next branch begins.
fn turn_slots<'a>(slots: &mut [Slot<'a>], block: &Branching<'a>, depth: usize)
    ensures { slots_from slots.new ≡ turned_slots depth (branching_of block.now) (slots_from slots.old) }
{
    join_slots(slots, block, depth);
    each_numbered(slots, &block.recent, Update::End(depth, Turn::Restart));
}

/// The slots with the ends of this branch.
fn join_slots<'a>(slots: &mut [Slot<'a>], block: &Branching<'a>, depth: usize)
    ensures { slots_from slots.new ≡ joined_by block.now.even depth (branching_of block.now) (slots_from slots.old) }
{
    let ended = block.ended;
    let update = Update::End(depth, Turn::Join { ended });
    if block.even {
        each_numbered(slots, &block.earlier, update);
        each_numbered(slots, &block.recent, update);
    } else {
        each_listed(slots, &block.changes, update);
    }
}

/// The slots where the next component begins, after one that changed the variables with these numbers.
fn component_slots<'a>(
    slots: &mut [Slot<'a>],
    numbers: &[usize],
    block: &Branching<'a>,
    depth: usize,
)
    ensures { slots_from slots.new
        ≡ component_slots numbers.now depth (branching_of block.now) (slots_from slots.old) }
{
    each_numbered(slots, numbers, Update::End(depth, Turn::Take));
    each_numbered(slots, &block.recent, Update::End(depth, Turn::Restart));
}

/// The slots where a block began, each of whose changes says what its entry means after the block.
fn take_back<'a>(slots: &mut [Slot<'a>], changes: &mut [Change<'a>], depth: usize, ended: bool)
    ensures same { changes_from changes.new ≡ changes_from changes.old }
    ensures after { AfterBlock (map (meaning_after depth ended) (slots_from slots.old)) changes.new }
    ensures slots { slots_from slots.new ≡ undone (changes_from changes.old) (slots_from slots.old) }
{
    conclude(changes, slots, depth, ended);
    undo(slots, changes);
}

/// Whether these are changes of entries with which a block of this depth began, and which it does not have in its list.
fn are_foreign(changes: &[Change], count: usize, depth: usize) -> bool
    ensures { result ≡ true → AreForeign count depth (changes_from changes.now) }
{
    for change in changes {
        if change.number >= count || change.before.mark == depth {
            return false;
        }
    }
    true
}

/// The outer block with the list of a block in it as its own, which its branch has too. It had none itself.
fn handed_block<'a>(
    outer: Branching<'a>,
    changes: Vec<Change<'a>>,
    spare: &mut Spare<'a>,
) -> Branching<'a>
    requires room { outer.count ≤ vec_capacity changes }
    requires count { length changes.items ≤ outer.count }
    requires none { outer.recent.items ≡ [] }
    ensures { branching_of result ≡ handed_block (changes_from changes.entry.items) (branching_of outer.entry) }
{
    let Branching {
        count,
        ended,
        even,
        changes: unused,
        earlier,
        mut recent,
    } = outer;
    spare.keep_changes(unused);
    add_numbers(&mut recent, &changes);
    Branching {
        count,
        ended,
        even,
        changes,
        earlier,
        recent,
    }
}

/// A block of this depth has this entry in its lists, if it began with it.
fn note_in<'a>(block: &mut Branching<'a>, slots: &mut [Slot<'a>], number: usize, depth: usize)
    requires { HasRoomFor depth (item_at number (take block.old.count (slots_from slots.old)))
        (vec_capacity block.old.changes) (vec_capacity block.old.recent) (branching_of block.old) }
    ensures slots { slots_from slots.new
        ≡ noted_slots depth number (item_at number (take block.old.count (slots_from slots.old)))
        (slots_from slots.old) }
    ensures block { branching_of block.new
        ≡ noted_in depth number (item_at number (take block.old.count (slots_from slots.old)))
        (branching_of block.old) }
{
    if number < block.count && number < slots.len() {
        let before = slots[number];
        modify(slots, number, Update::List { depth });
        block.note(number, before, depth);
    }
}

/// The numbers of the entries in a list come to other numbers.
fn add_numbers(numbers: &mut Vec<usize>, changes: &[Change])
    requires { length numbers.old.items + length changes.now ≤ vec_capacity numbers.old }
    ensures items { numbers.new.items ≡ numbers.old.items ++ numbers_of (changes_from changes.now) }
    ensures capacity { vec_capacity numbers.new ≡ vec_capacity numbers.old }
{
    for change in changes {
        numbers.push_reserved(change.number);
    }
}

/// The entries in the list of a block of the depth `inner` come to the lists of the block around, the last one first.
fn hand_slots<'a>(
    slots: &mut [Slot<'a>],
    changes: &[Change<'a>],
    inner: usize,
    outer: usize,
    ended: bool,
)
    ensures { slots_from slots.new ≡ handed inner outer ended (changes_from changes.now) (slots_from slots.old) }
{
    for place in 0..changes.len() {
        let change = &changes[changes.len() - 1 - place];
        let before = change.before.meaning;
        let update = Update::HandOver {
            inner,
            outer,
            ended,
            before,
        };
        modify(slots, change.number, update);
    }
}

/// The slot with this number is updated, if there is one.
#[inline(always)]
fn modify<'a>(slots: &mut [Slot<'a>], number: usize, update: Update)
    ensures { slots_from slots.new ≡ modify (updated update) number (slots_from slots.old) }
{
    if number < slots.len() {
        slots[number].update(update);
    }
}

/// The slot with this number is as it was, if there is one.
fn restore<'a>(slots: &mut [Slot<'a>], number: usize, before: Slot<'a>)
    ensures { slots_from slots.new ≡ modify (restored (slot_of before.entry)) number (slots_from slots.old) }
{
    if number < slots.len() {
        slots[number].restore(before);
    }
}

/// The slots with these numbers are updated, one after another.
#[inline(always)]
fn each_numbered<'a>(slots: &mut [Slot<'a>], numbers: &[usize], update: Update)
    ensures { slots_from slots.new ≡ each (updated update) numbers.now (slots_from slots.old) }
{
    for number in numbers {
        modify(slots, *number, update);
    }
}

/// The slots in a list are updated, one after another.
fn each_listed<'a>(slots: &mut [Slot<'a>], changes: &[Change<'a>], update: Update)
    ensures { slots_from slots.new
        ≡ each (updated update) (numbers_of (changes_from changes.now)) (slots_from slots.old) }
{
    for change in changes {
        modify(slots, change.number, update);
    }
}

/// Each change says what its entry means after the block.
fn conclude(changes: &mut [Change], slots: &[Slot], depth: usize, ended: bool)
    ensures same { changes_from changes.new ≡ changes_from changes.old }
    ensures after { AfterBlock (map (meaning_after depth ended) (slots_from slots.now)) changes.new }
{
    for place in 0..changes.len() {
        let number = changes[place].number;
        changes[place].after = meaning_after(slots, number, depth, ended);
    }
}

/// What the entry with this number means after the block, if there is one.
fn meaning_after(slots: &[Slot], number: usize, depth: usize, ended: bool) -> Option<Meaning>
    ensures { option_map meaning_of result ≡ item_at number (map (meaning_after depth ended) (slots_from slots.now)) }
{
    if number < slots.len() {
        Some(slots[number].meaning_after(depth, ended))
    } else {
        None
    }
}

/// The changes are taken back, the last one first.
fn undo<'a>(slots: &mut [Slot<'a>], changes: &[Change<'a>])
    ensures { slots_from slots.new ≡ undone (changes_from changes.now) (slots_from slots.old) }
{
    for place in 0..changes.len() {
        let change = changes[changes.len() - 1 - place];
        restore(slots, change.number, change.before);
    }
}
