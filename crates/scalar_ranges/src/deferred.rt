//! The blocks of branches around a place, where what a block left that has ended is put off.

ghost use Rattle.std.specs.Prelude.{◌≡◌, ◌≤◌, ◌<◌, ◌∷◌, true, [], OnOk, OnErr, length, option_map, MatchOption};
ghost use Rattle.std.specs.Prelude.{Some};
ghost use Rattle.scalar_ranges.specs.EntryViews.{meaning_of, entry_of};
ghost use Rattle.scalar_ranges.specs.Lefts.{IsKept, IsKept-prop, with_mark, moved_mark, set_all, AreBelow};
ghost use Rattle.scalar_ranges.specs.Lefts.{KeepsApart, KeepsApart-prop};
ghost use Rattle.scalar_ranges.specs.Changes.{modify, each};

use crate::changes::Tracked;
use crate::scope::{Entry, Meaning};
use crate::slots::{Change, Form};
use crate::spare::Spare;
use occam_parser::Comparison;
use std::alloc::{AllocError, Global};
use std::mem::replace;

/// How often an entry of the list may be tested in the mean, where branches end, before the list is settled.
const TESTS: usize = 16;

/// What a block that has ended left of an entry.
#[derive(Clone, Copy)]
pub(crate) struct Left {
    /// The number of the block's list; another number if nothing of the entry is put off.
    pub(crate) mark: usize,
    pub(crate) meaning: Meaning,
}

/// Where the block stands that has ended.
#[derive(Clone, Copy)]
pub(crate) enum Stage {
    /// There is none, or it has left nothing.
    Nothing,
    /// It is in the branch that goes on.
    Going(Form),
    /// It is in a branch of the innermost block that has ended.
    Ended(Form),
    /// It is in the branch that goes on of a block, where others began behind it: the innermost one, and so many
    /// around that one.
    Around(Form, usize),
    /// The same of a branch that has ended of such a block.
    EndedAround(Form, usize),
}

/// Entries and blocks, where what the last block left is not yet in the slots: it is joined with what they say where
/// an entry is read. So a branch or a block around it that ends changes nothing but the stage.
#[derive(Drop)]
pub(crate) struct Deferred<'a> {
    pub(crate) tracked: Tracked<'a>,
    /// What was left of each entry.
    pub(crate) lefts: Vec<Left>,
    /// The number of the list that is put off.
    pub(crate) mark: usize,
    pub(crate) stage: Stage,
    /// The list: it has each entry of which something is put off.
    pub(crate) listed: Vec<Change<'a>>,
    /// How many changes of their own blocks had that ended beside it.
    pub(crate) beside: usize,
    /// How many changes of blocks were tested where a branch ended.
    pub(crate) tested: usize,
    pub(crate) spare: Spare<'a>,
    ghost kept: { IsKept mark lefts.items listed.items } by { IsKept-prop mark lefts.items listed.items },
    ghost apart: { KeepsApart stage mark lefts.items tracked } by { KeepsApart-prop stage mark lefts.items tracked },
}

impl Left {
    /// What is put off with one mark has another one.
    fn change_mark(&mut self, from: usize, to: usize)
        ensures { self.new ≡ moved_mark from to self.old }
    {
        if self.mark == from {
            self.mark = to;
        }
    }
}

impl Stage {
    ghost use Rattle.scalar_ranges.specs.Lefts.{turned_stage, ended_stage, begun_stage, meant_left};

    /// Where a branch ends, of a block that had ends before or not.
    fn turned(self, ended: bool) -> Stage
        ensures { result ≡ turned_stage ended self }
    {
        match self {
            Stage::Nothing => Stage::Nothing,
            Stage::Going(form) => Stage::Ended(if ended { Form::Ahead } else { form }),
            Stage::Ended(Form::Whole) if ended => Stage::Ended(Form::Behind),
            Stage::Ended(form) if ended => Stage::Ended(form),
            Stage::Ended(_) => Stage::Nothing,
            Stage::Around(form, further) => Stage::Around(form, further),
            Stage::EndedAround(form, further) => Stage::EndedAround(form, further),
        }
    }

    /// Where a block ends, that had ends or not.
    fn ended(self, ended: bool) -> Stage
        ensures { result ≡ ended_stage ended self }
    {
        match self {
            Stage::Ended(form) if ended => Stage::Going(form),
            Stage::Around(form, 0) => Stage::Going(form),
            Stage::Around(form, further) => Stage::Around(form, further - 1),
            Stage::EndedAround(form, 0) => Stage::Ended(form),
            Stage::EndedAround(form, further) => Stage::EndedAround(form, further - 1),
            _ => Stage::Nothing,
        }
    }

    /// Where a block begins behind the one that has ended, if the list stays put off around it.
    fn begun(self) -> Option<Stage>
        ensures { MatchOption result (Unit {0}) (λ stage. begun_stage self ≡ Some stage) }
    {
        match self {
            Stage::Going(form) => Some(Stage::Around(form, 0)),
            Stage::Ended(form) => Some(Stage::EndedAround(form, 0)),
            Stage::Around(form, further) if further < usize::MAX => {
                Some(Stage::Around(form, further + 1))
            }
            Stage::EndedAround(form, further) if further < usize::MAX => {
                Some(Stage::EndedAround(form, further + 1))
            }
            _ => None,
        }
    }

    /// What an entry means of which a block left something or nothing.
    fn meant(self, left: Option<Meaning>, meaning: Meaning) -> Meaning
        ensures { meaning_of result ≡ meant_left self (option_map meaning_of left) (meaning_of meaning) }
    {
        match (self, left) {
            (Stage::Going(form), Some(left)) => form.join(meaning, left),
            (Stage::Around(form, _), Some(left)) => form.join(meaning, left),
            _ => meaning,
        }
    }
}

impl<'a> Deferred<'a> {
    ghost use Rattle.scalar_ranges.specs.Moves.{begun_with, outermost, next, next_component, end};
    ghost use Rattle.scalar_ranges.specs.Entries.{entry_at};
    ghost use Rattle.scalar_ranges.specs.MoveLaws.{meaning_at};
    ghost use Rattle.scalar_ranges.specs.Changes.{begin_with, known_with, changed_start};
    ghost use Rattle.scalar_ranges.specs.Narrowing.{left_of, with_range};
    ghost use Rattle.scalar_ranges.specs.LeftViews.{known_now, left_by};
    ghost use Rattle.scalar_ranges.specs.TrackedViews.{known_by};
    ghost use Rattle.scalar_ranges.specs.ChangeViews.{changes_from};
    ghost use Rattle.scalar_ranges.specs.Deferring.{AreNone, IsStill, is_inside};
    ghost use Rattle.scalar_ranges.specs.Lefts.{left_at, begun_stage, IsStillFor};
    ghost use Rattle.scalar_ranges.specs.declared.deferred.Stage.TheVariants.{Nothing};

    /// No entries, and no blocks.
    pub(crate) fn new(alloc: Global) -> Deferred<'a>
        ensures { known_now result ≡ record { entries = []; blocks = [] } }
    {
        Deferred {
            tracked: Tracked::new(alloc),
            lefts: Vec::new(alloc),
            mark: 1,
            stage: Stage::Nothing,
            listed: Vec::new(alloc),
            beside: 0,
            tested: 0,
            spare: Spare::new(alloc),
        }
    }

    /// How many entries there are.
    pub(crate) fn len(&self) -> usize
        ensures { result ≡ length (known_now self.now).entries }
    {
        self.tracked.len()
    }

    /// What is put off of the entry with this number.
    fn left(&self, number: usize) -> Option<Meaning>
        ensures { option_map meaning_of result ≡ left_at self.now.mark self.now.lefts.items number }
    {
        if number < self.lefts.len() {
            let left = self.lefts[number];
            if left.mark == self.mark {
                return Some(left.meaning);
            }
        }
        None
    }

    /// What the entry with this number means.
    pub(crate) fn meaning(&self, number: usize) -> Option<Meaning>
        ensures { option_map meaning_of result ≡ meaning_at number (known_now self.now).entries }
    {
        match self.tracked.meaning(number) {
            None => None,
            Some(meaning) => Some(self.stage.meant(self.left(number), meaning)),
        }
    }

    /// The entry with this number.
    pub(crate) fn entry(&self, number: usize) -> Option<Entry<'a>>
        ensures { option_map entry_of result ≡ entry_at number (known_now self.now).entries }
    {
        match self.tracked.entry(number) {
            None => None,
            Some(entry) => Some(Entry {
                name: entry.name,
                meaning: self.stage.meant(self.left(number), entry.meaning),
            }),
        }
    }

    /// How many entries the innermost block began with.
    pub(crate) fn begun_with(&self) -> usize
        ensures { result ≡ begun_with (known_now self.now).blocks }
    {
        self.tracked.begun_with()
    }

    /// One entry more, the innermost one. If memory runs out, all is as it was.
    pub(crate) fn declare(&mut self, entry: Entry<'a>) -> Result<(), AllocError>
        ensures ok { OnOk result (known_now self.new ≡ record {
          entries = entry_of entry.entry ∷ (known_now self.old).entries;
          blocks = (known_now self.old).blocks;
        }) }
        ensures err { OnErr result (known_now self.new ≡ known_now self.old) }
    {
        self.lefts.truncate(self.tracked.len());
        self.lefts.push(Left {
            mark: 0,
            meaning: entry.meaning,
        })?;
        self.tracked.declare(entry)
    }

    /// Only the first `count` entries are left.
    pub(crate) fn cut(&mut self, count: usize)
        requires { begun_with (known_now self.old).blocks ≤ count }
        ensures { known_now self.new ≡ record {
          entries = outermost count (known_now self.old).entries;
          blocks = (known_now self.old).blocks;
        } }
    {
        self.tracked.cut(count);
    }

    /// Of the entry with this number nothing is put off any more.
    fn release(&mut self, number: usize)
        ensures known { known_now self.new ≡ known_now self.old }
        ensures lefts { self.new.lefts.items ≡ modify (with_mark 0) number self.old.lefts.items }
        ensures mark { self.new.mark ≡ self.old.mark }
        ensures stage { self.new.stage ≡ self.old.stage }
        ensures listed { self.new.listed.items ≡ self.old.listed.items }
    {
        if let Some(left) = self.left(number) {
            match self.stage {
                Stage::Nothing => (),
                Stage::Going(form) => {
                    if let Some(meaning) = self.tracked.meaning(number) {
                        self.tracked.put_other(number, form.join(meaning, left));
                    }
                }
                Stage::Ended(form) => self.tracked.put_end(number, form, left),
                Stage::EndedAround(form, further) => {
                    self.tracked.put_end_around(number, form, left, further);
                }
                Stage::Around(form, further) => {
                    if let Some(meaning) = self.tracked.meaning(number) {
                        self.tracked
                            .put_around(number, form.join(meaning, left), further);
                    }
                }
            }
        }
        set_mark(&mut self.lefts, number, 0);
    }

    /// Of no entry anything is put off any more.
    fn settle(&mut self)
        ensures known { known_now self.new ≡ known_now self.old }
        ensures stage { self.new.stage ≡ Nothing }
    {
        if let Stage::Nothing = self.stage {
            return;
        }
        for place in 0..self.listed.len() {
            let number = self.listed[place].number;
            self.release(number);
        }
        self.stage = Stage::Nothing;
    }

    /// An entry means something else.
    pub(crate) fn put(&mut self, number: usize, meaning: Meaning)
        ensures { known_now self.new ≡ known_with number (meaning_of meaning) (known_now self.old) }
    {
        self.release(number);
        self.tracked.put(number, meaning);
    }

    /// The branches of the innermost block begin from here on with what a comparison with a constant leaves of the
    /// entry.
    pub(crate) fn put_start(&mut self, number: usize, comparison: Comparison, constant: i32)
        ensures { known_now self.new ≡ record {
          entries = (known_now self.old).entries;
          blocks = changed_start (with_range (left_of comparison constant)) number (known_now self.old).blocks;
        } }
    {
        self.release(number);
        self.tracked.put_start(number, comparison, constant);
    }

    /// A block begins, which has ends if it is a `PAR`. If memory runs out, all is as it was.
    pub(crate) fn begin(&mut self, alloc: Global, ended: bool) -> Result<(), AllocError>
        ensures ok { OnOk result (known_now self.new ≡ begin_with ended (known_now self.old)) }
        ensures err { OnErr result (known_now self.new ≡ known_now self.old) }
    {
        match self.stage.begun() {
            Some(stage) if self.tracked.is_inside() => self.begin_beside(alloc, ended, stage),
            _ => {
                self.settle();
                self.tracked.begin(alloc, ended, &mut self.spare)
            }
        }
    }

    /// A block begins behind the one that has ended, whose list is put off around the new one from now on.
    fn begin_beside(&mut self, alloc: Global, ended: bool, stage: Stage) -> Result<(), AllocError>
        requires stage { begun_stage self.old.stage ≡ Some stage }
        requires inside { is_inside (known_by self.old.tracked).blocks ≡ true }
        ensures ok { OnOk result (known_now self.new ≡ begin_with ended (known_now self.old)) }
        ensures err { OnErr result (known_now self.new ≡ known_now self.old) }
    {
        match self.tracked.begin(alloc, ended, &mut self.spare) {
            Ok(()) => {
                self.lefts.truncate(self.tracked.len());
                self.stage = stage;
                Ok(())
            }
            Err(error) => Err(error),
        }
    }

    /// Whether the innermost block has no ends, or nothing is put off of its entries, which are tested if that was not
    /// done too often.
    fn is_still(&self) -> bool
        ensures { result ≡ true
            → IsStill (left_by self.now) (known_by self.now.tracked).entries (known_by self.now.tracked).blocks }
    {
        match self.tracked.blocks.last() {
            None => true,
            Some(block) => !block.ended || self.may_test() && self.are_released(&block.changes),
        }
    }

    /// Whether few changes were tested, for the length of the list.
    fn may_test(&self) -> bool {
        self.tested <= self.listed.len().saturating_mul(TESTS)
    }

    /// Counts the changes that are tested where a branch ends.
    fn count_tests(&mut self)
        ensures { known_now self.new ≡ known_now self.old }
    {
        match self.stage {
            Stage::Nothing | Stage::EndedAround(_, _) => (),
            _ => {
                if self.tracked.has_ends() {
                    self.tested = self.tested.saturating_add(self.tracked.changed());
                }
            }
        }
    }

    /// Whether a branch may end where the list stays put off.
    fn can_turn(&self) -> bool
        ensures { result ≡ true → IsStillFor self.now.stage (left_by self.now) (known_by self.now.tracked).entries
            (known_by self.now.tracked).blocks }
    {
        match self.stage {
            Stage::Nothing | Stage::EndedAround(_, _) => true,
            _ => self.is_still(),
        }
    }

    /// Whether nothing is put off of the entries in a list.
    fn are_released(&self, changes: &[Change]) -> bool
        ensures { result ≡ true → AreNone (left_by self.now) (changes_from changes.now) }
    {
        for change in changes {
            if self.left(change.number).is_some() {
                return false;
            }
        }
        true
    }

    /// A branch ends, and the next one begins.
    pub(crate) fn next(&mut self)
        ensures { known_now self.new ≡ next (known_now self.old) }
    {
        self.count_tests();
        if self.can_turn() {
            self.go_on();
        } else {
            self.release_changed();
            self.turn();
        }
    }

    /// Nothing is put off any more of what the innermost block changed, unless that was tested too often.
    fn release_changed(&mut self)
        ensures { known_now self.new ≡ known_now self.old }
    {
        if !self.may_test() {
            return;
        }
        for place in 0..self.tracked.changed() {
            if let Some(number) = self.tracked.changed_at(place) {
                self.release(number);
            }
        }
    }

    /// A branch ends, and the next one begins. The list is settled if something is put off of what the block has in its
    /// list.
    fn turn(&mut self)
        ensures { known_now self.new ≡ next (known_now self.old) }
    {
        if self.can_turn() {
            self.go_on();
        } else {
            self.settle();
            self.tracked.next();
        }
    }

    /// A branch ends, and the next one begins, where the list stays put off.
    fn go_on(&mut self)
        requires { IsStillFor self.old.stage (left_by self.old) (known_by self.old.tracked).entries
            (known_by self.old.tracked).blocks }
        ensures { known_now self.new ≡ next (known_now self.old) }
    {
        if self.tracked.is_inside() {
            self.stage = self.stage.turned(self.tracked.has_ends());
        }
        self.tracked.next();
    }

    /// A component ends, which changed the variables with these numbers, and the next one begins.
    pub(crate) fn next_component(&mut self, numbers: &[usize])
        ensures { known_now self.new ≡ next_component numbers.now (known_now self.old) }
    {
        if !self.tracked.is_inside() {
            return;
        }
        match self.stage {
            Stage::Nothing => (),
            Stage::Around(_, _) => (),
            Stage::EndedAround(_, _) => (),
            Stage::Ended(_) => move_marks(&mut self.lefts, numbers, self.mark, 0),
            Stage::Going(form) => {
                if self.mark < usize::MAX {
                    move_marks(&mut self.lefts, numbers, self.mark, self.mark + 1);
                    self.mark += 1;
                    self.stage = Stage::Ended(form);
                } else {
                    self.settle();
                }
            }
        }
        self.tracked.next_component(numbers);
    }

    /// A block ends.
    pub(crate) fn end(&mut self)
        ensures { known_now self.new ≡ end (known_now self.old) }
    {
        if !self.tracked.is_inside() {
            return;
        }
        if self.is_short() {
            self.settle();
        }
        if let Stage::Nothing = self.stage {
            self.defer();
        } else {
            self.stage = self.stage.ended(self.tracked.has_ends());
            self.beside = self.beside.saturating_add(self.tracked.changed());
            self.tracked.end(&mut self.spare);
        }
    }

    /// Whether what is put off is little beside what the innermost block changed.
    fn is_short(&self) -> bool {
        match self.stage {
            Stage::Nothing | Stage::Going(_) => false,
            _ => self.listed.len() < self.beside.saturating_add(self.tracked.changed()),
        }
    }

    /// A block ends, and what it changed is put off.
    fn defer(&mut self)
        requires { self.old.stage ≡ Nothing }
        ensures { known_now self.new ≡ end (known_now self.old) }
    {
        if let Some(changes) = self.tracked.end_apart(&mut self.spare) {
            if self.mark < usize::MAX && are_below(&changes, self.lefts.len()) {
                self.mark += 1;
                set_all(&mut self.lefts, &changes, self.mark);
                let before = replace(&mut self.listed, changes);
                self.spare.keep_changes(before);
                self.beside = 0;
                self.tested = 0;
                self.stage = Stage::Going(Form::Whole);
            } else {
                self.tracked.put_afters(&changes);
                self.spare.keep_changes(changes);
            }
        }
    }
}

/// What is left of the entry with this number has another mark, if there is such an entry.
fn set_mark(lefts: &mut [Left], number: usize, mark: usize)
    ensures { lefts.new ≡ modify (with_mark mark) number lefts.old }
{
    if number < lefts.len() {
        lefts[number].mark = mark;
    }
}

/// What is left of each entry with one of these numbers has another mark, if it has this one.
fn move_marks(lefts: &mut [Left], numbers: &[usize], from: usize, to: usize)
    ensures { lefts.new ≡ each (moved_mark from to) numbers.now lefts.old }
{
    for number in numbers {
        move_mark(lefts, *number, from, to);
    }
}

/// The same of one entry.
fn move_mark(lefts: &mut [Left], number: usize, from: usize, to: usize)
    ensures { lefts.new ≡ modify (moved_mark from to) number lefts.old }
{
    if number < lefts.len() {
        lefts[number].change_mark(from, to);
    }
}

/// What the changes say of the end of a block is put off.
fn set_all(lefts: &mut [Left], changes: &[Change], mark: usize)
    ensures { lefts.new ≡ set_all mark changes.now lefts.old }
{
    for change in changes {
        if let Some(meaning) = change.after {
            set_left(lefts, change.number, Left { mark, meaning });
        }
    }
}

/// This is left of the entry with this number, if there is one.
fn set_left(lefts: &mut [Left], number: usize, left: Left)
    ensures { lefts.new ≡ modify (λ l. left) number lefts.old }
{
    if number < lefts.len() {
        lefts[number] = left;
    }
}

/// Whether all changes are of entries below a number.
fn are_below(changes: &[Change], count: usize) -> bool
    ensures { result ≡ true → AreBelow count changes.now }
{
    for change in changes {
        if change.number >= count {
            return false;
        }
    }
    true
}
