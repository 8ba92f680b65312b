//! What is known of a process at a place of its code.

ghost use Rattle.std.specs.Prelude.{◌≡◌, ◌≤◌, ◌<◌, ◌-◌, ◌≤ℤ◌, ◌<ℤ◌, ℤ, true, false, IfOk, Some, SomeIff, IsTrue};
ghost use Rattle.std.specs.Prelude.{slice_get, IsFalse, FitsSigned, IfSome, sum_by, pos, ◌^◌};
ghost use Rattle.std.specs.List.{list_all};
ghost use Rattle.std.specs.Int.{w32};
ghost use Rattle.module_format.specs.Contents.{Contents, contents_of, procedure_of, label_of};
ghost use Rattle.module_format.specs.Contexts.{context_at};
ghost use Rattle.certificate.specs.Rights.{has_word, may_write_word, may_read_word};
ghost use Rattle.module_format.specs.Keeping.{Keeps};
ghost use Rattle.module_format.specs.Order.{InOrder, least_word};
ghost use Rattle.module_format.specs.Pars.{IntervalKeeps, behind_interval};
ghost use Rattle.module_format.specs.Stack.{pushed, popped, reversed};
ghost use Rattle.states.specs.State.{unknown, known, is_at, without_source, forgets, written, fresh_state, root_state};
ghost use Rattle.states.specs.State.{is_silent, entry_fact, procedure_state, label_state};
ghost use Rattle.states.specs.Frames.{with_alone};
ghost use Rattle.states.specs.Rows.{AreApart, LoopFits, IsRowOf};
ghost use Rattle.states.specs.Views.{state_of, CanWrite, CanWriteSpan, BelongsTo, IsLeft, IsUsable, AreUsable};
ghost use Rattle.states.specs.Room.{Covers, HasRoomForGuards};
ghost use Rattle.states.specs.Below.{entries_hold, is_whole, price, holds_constant};
ghost use Rattle.states.specs.Cutting.{SaysOutside, SaysInside, AreLoopsApart, IsPaidOutside};
ghost use Rattle.states.specs.Spans.{is_in_span, together, on_span, after_change};

use crate::cutting::{Side, cut, parts_of};
use crate::frame::Frame;
use crate::intervals::have_words;
use crate::known::{Guard, Known, Mode, Source, WordFact};
use crate::span::{Leaving, Together};
use certificate::Module;
use module_format::{Entry, Fact, Interval, LabelRow, ProcedureRow, Stack, Tables};
use std::alloc::{AllocError, Global};

/// How many guards an alternation may have.
pub const MAX_GUARDS: usize = 64;

/// What is known of a process at a place of its code. All that it needs is allocated when it is made.
#[derive(Drop)]
pub struct State<'a> {
    pub context: u32,
    /// The workspace in words of the frame.
    pub depth: i32,
    pub stack: Stack<Known>,
    pub(crate) frame: Frame<'a>,
    /// The module that the state is one of, which says what its context may do.
    pub(crate) module: &'a Module<'a>,
    /// What may still be paid.
    pub number: u64,
    pub mode: Mode,
    pub guards: Vec<Guard>,
    /// A place for entries that are cut. What it has means nothing.
    pub(crate) pieces: Vec<Entry>,
}

/// The source, once a word is written.
fn without_source(word: i32, source: Source) -> Source
    ensures { result ≡ without_source (is_at word) source }
{
    match source {
        Source::From { word: from } if from == word => Source::Nowhere,
        Source::Test { word: from, .. } if from == word => Source::Nowhere,
        _ => source,
    }
}

/// What is known of a register, once a word is written.
fn forgets(word: i32, known: Known) -> Known
    ensures { result ≡ forgets (is_at word) known }
{
    Known {
        fact: known.fact,
        source: without_source(word, known.source),
    }
}

/// Whether a word is one of `count` words from `first` on.
fn is_in_span(first: i32, count: u32, word: i32) -> bool
    ensures { result ≡ is_in_span first count word }
{
    first <= word && i64::from(word) < i64::from(first) + i64::from(count)
}

/// The source, once a span is touched.
fn without_sources(first: i32, count: u32, source: Source) -> Source
    ensures { result ≡ without_source (is_in_span first count) source }
{
    match source {
        Source::From { word } if is_in_span(first, count, word) => Source::Nowhere,
        Source::Test { word, .. } if is_in_span(first, count, word) => Source::Nowhere,
        _ => source,
    }
}

/// What is known of a register, once a span is touched.
fn forgets_span(first: i32, count: u32, known: Known) -> Known
    ensures { result ≡ forgets (is_in_span first count) known }
{
    Known {
        fact: known.fact,
        source: without_sources(first, count, known.source),
    }
}

impl Known {
    /// Nothing is known.
    pub const UNKNOWN: Known = Known {
        fact: Fact::Unknown,
        source: Source::Nowhere,
    };

    /// This is known, and not where it comes from.
    pub fn of(fact: Fact) -> Self
        ensures { result ≡ known fact }
    {
        Known {
            fact,
            source: Source::Nowhere,
        }
    }
}

/// The first word that some context of the module has, and the first after all of them.
fn room_of(tables: &Tables) -> (i32, i32)
    requires { Keeps (contents_of tables.now) }
    ensures covers { Covers (contents_of tables.now) result.0 result.1 }
    ensures rises { result.0 ≤ℤ result.1 }
{
    let base = tables.base as i32;
    let mut lo = -base;
    let mut hi = tables.data_words as i32 - base;
    for row in &tables.procedures {
        lo = lo.min(row.lo);
        hi = hi.max(row.hi);
    }
    (lo, hi)
}

/// The word, if it is allowed and fits in 32 bits.
fn word_where(is_allowed: bool, word: i64) -> Option<i32>
    ensures { SomeIff result (IsTrue is_allowed × FitsSigned w32 word) word }
{
    if !is_allowed {
        return None;
    }
    i32::try_from(word).ok()
}

impl<'a> State<'a> {
    /// The state of the root when the module begins.
    pub fn root(alloc: Global, module: &'a Module<'a>) -> Result<Self, AllocError>
        ensures state { IfOk result (λ s. state_of s ≡ root_state «module».now) }
        ensures belongs { IfOk result (BelongsTo «module».now) }
        ensures room { IfOk result HasRoomForGuards }
    {
        let tables = module.tables();
        let (lo, hi) = room_of(tables);
        let room = (i64::from(hi) - i64::from(lo)) as usize;
        Ok(State {
            context: 0,
            depth: 0,
            stack: Stack::of_empty(Known::UNKNOWN),
            frame: Frame::new(alloc, module, lo, room)?,
            module,
            number: tables.budget,
            mode: Mode::Plain,
            guards: Vec::with_capacity(alloc, MAX_GUARDS)?,
            pieces: Vec::with_capacity(alloc, room)?,
        })
    }

    /// The word, if the state's context may write it. The time grows with the logarithm of the intervals of a branch's
    /// row.
    pub fn writable_word(&self, word: i64) -> Option<i32>
        ensures { IsUsable may_write_word self.now word result }
    {
        word_where(self.module.may_write_word(self.context, word), word)
    }

    /// The word, if the state's context may read it. The time grows with the logarithm of the intervals of a branch's
    /// row.
    pub fn readable_word(&self, word: i64) -> Option<i32>
        ensures { IsUsable may_read_word self.now word result }
    {
        word_where(self.module.may_read_word(self.context, word), word)
    }

    /// What is known of a word of the frame.
    pub fn fact_at(&self, word: i32) -> WordFact
        ensures value { result ≡ (state_of self.now).frame word }
        ensures fits { LoopFits result }
        ensures room { is_silent result ≡ false → CanWrite self.now word }
    {
        self.frame.fact_at(i64::from(word))
    }

    /// What is known of a word of the frame by its number, which need not be one of 32 bits.
    pub fn fact_of(&self, word: i64) -> WordFact
        ensures value { result ≡ (state_of self.now).frame word }
        ensures fits { LoopFits result }
    {
        self.frame.fact_at(word)
    }

    /// A word of the frame has this fact from now on, and no register speaks of what it was. A loop that loses one of
    /// its words leaves what the other says by itself. The time grows with the logarithm of the label's entries.
    pub fn write(&mut self, word: i32, fact: Fact)
        requires { CanWrite self.old word }
        ensures state { state_of self.new ≡ written word fact (state_of self.old) }
        ensures belongs { (m : Contents) → BelongsTo m self.old → BelongsTo m self.new }
        ensures room { (k : ℤ) → CanWrite self.old k → CanWrite self.new k }
    {
        self.frame.write(i64::from(word), fact);
        self.stack.a = forgets(word, self.stack.a);
        self.stack.b = forgets(word, self.stack.b);
        self.stack.c = forgets(word, self.stack.c);
    }

    /// More is known of a word of the frame, which still has its value: this fact, by itself.
    pub fn narrow(&mut self, word: i32, fact: Fact)
        requires { CanWrite self.old word }
        ensures state { state_of self.new
            ≡ record (state_of self.old) { frame = with_alone word fact (state_of self.old).frame } }
        ensures belongs { (m : Contents) → BelongsTo m self.old → BelongsTo m self.new }
        ensures room { (k : ℤ) → CanWrite self.old k → CanWrite self.new k }
    {
        self.frame.place(i64::from(word), fact);
    }

    /// Whether the frame of the state's context has each of the words from the first up to `end` (not included).
    fn has_words(&self, first: i64, end: i64) -> bool
        ensures yes { IsTrue result → (k : ℤ) → first ≤ℤ k → k <ℤ end
            → has_word (context_at self.now.module.now self.now.context) k ≡ true }
        ensures no { IsFalse result → (k : ℤ) × (first ≤ℤ k) × (k <ℤ end)
            × (has_word (context_at self.now.module.now self.now.context) k ≡ false) }
    {
        if end <= first {
            return true;
        }
        match self.module.context(self.context) {
            Some(frame) => frame.lo <= first && end <= frame.hi,
            None => false,
        }
    }

    /// Whether the state's context may write each of `count` words from `first` on. The time grows with the intervals
    /// of a branch's row.
    pub fn writes_words(&self, first: i32, count: u32) -> bool
        ensures { AreUsable may_write_word self.now first count result }
    {
        let start = i64::from(first);
        let end = start + i64::from(count);
        if !self.has_words(start, end) {
            return false;
        }
        match self.module.branch(self.context) {
            Some((_row, branch)) => have_words(&branch.writes, &[], start, end),
            None => true,
        }
    }

    /// Whether the state's context may read each of `count` words from `first` on. The time grows with the intervals of
    /// a branch's row.
    pub fn reads_words(&self, first: i32, count: u32) -> bool
        ensures { AreUsable may_read_word self.now first count result }
    {
        let start = i64::from(first);
        let end = start + i64::from(count);
        if !self.has_words(start, end) {
            return false;
        }
        match self.module.branch(self.context) {
            Some((_row, branch)) => have_words(&branch.writes, &branch.reads, start, end),
            None => true,
        }
    }

    /// The `count` words of the frame from `first` on are summed from now on, in spans of 8, 64, 512 and 4,096 words that
    /// lie within them, each span until one of its words is changed or a label comes. What is known stays what it is.
    /// The time grows with the number of words that are in no span, or in one that is not summed.
    pub fn sum_words(&mut self, first: i32, count: u32)
        ensures state { state_of self.new ≡ state_of self.old }
        ensures belongs { (m : Contents) → BelongsTo m self.old → BelongsTo m self.new }
        ensures room { (k : ℤ) → CanWrite self.old k → CanWrite self.new k }
    {
        self.frame.sum(first, count);
    }

    /// What is known of `count` words of the frame from `first` on together. The time grows with the number of spans that
    /// are summed, and with the number of the other words, or of runs of which the label says the same.
    pub fn together(&self, first: i32, count: u32) -> Together
        ensures { result ≡ together (state_of self.now).frame first count }
    {
        self.frame.together(first, count)
    }

    /// The first word after some of the frame from `first` on, before `end`, that each have this number, which is no
    /// loop's. Else `first`. These are words of a block of 64 of which the same is known: all that an entry of the label
    /// is about where none was written since, and else one.
    pub fn constant_until(&self, first: i64, end: i64, number: i64) -> i64
        requires some { first <ℤ end }
        requires near { end <ℤ pos (2 ^ 40) }
        ensures within { result ≤ℤ end }
        ensures each { let facts = (state_of self.now).frame in
            (k : ℤ) → first ≤ℤ k → k <ℤ result → holds_constant (facts k) number ≡ true }
        ensures none { result ≤ℤ first → holds_constant ((state_of self.now).frame first) number ≡ false }
    {
        self.frame.constant_until(first, end, number)
    }

    /// Each of `count` words of the frame from `first` on, at least one, is left so from now on, and no register speaks
    /// of what they were. A loop that loses one of its words leaves what the other says by itself. The time grows with
    /// the number of blocks of 64 among them, and of the other words. A block that is widened is summed before.
    pub fn change_span(&mut self, first: i32, count: u32, leaving: Leaving)
        requires room { CanWriteSpan self.old first count }
        requires some { 0 < count }
        ensures state { state_of self.new ≡ after_change (on_span first count leaving) (state_of self.old) }
        ensures belongs { (m : Contents) → BelongsTo m self.old → BelongsTo m self.new }
        ensures room { (k : ℤ) → CanWrite self.old k → CanWrite self.new k }
    {
        self.frame.change_span(first, count, leaving);
        self.stack.a = forgets_span(first, count, self.stack.a);
        self.stack.b = forgets_span(first, count, self.stack.b);
        self.stack.c = forgets_span(first, count, self.stack.c);
    }

    /// What is paid for the loops that entries want and that are entered. At least what the entries want is known of
    /// each word, and no loop that they want is half known. `None`: one of these fails. The time is as that of
    /// `cost_of_label`.
    pub fn paid(&mut self, entries: &[Entry]) -> Option<u128>
        requires { AreApart entries.now }
        ensures hold { IfSome result (λ _. entries_hold (state_of self.old).frame entries.now ≡ true) }
        ensures whole { IfSome result (λ _. list_all (is_whole (state_of self.old).frame) entries.now ≡ true) }
        ensures paid { IfSome result (λ paid. sum_by (price (state_of self.old).frame) entries.now ≡ paid) }
        ensures left { IsLeft self.old self.new }
    {
        self.frame.paid(entries)
    }

    /// What is paid for entries of whose words only those are tested that no interval has.
    fn paid_in_pieces(&mut self, entries: &[Entry], intervals: &[Interval]) -> Option<u128>
        requires apart { AreApart entries.now }
        requires order { InOrder IntervalKeeps behind_interval least_word intervals.now }
        ensures paid { IfSome result (IsPaidOutside intervals.now (state_of self.old).frame entries.now) }
        ensures left { IsLeft self.old self.new }
    {
        cut(&mut self.pieces, Side::Outside, entries, intervals)?;
        let paid = self.frame.paid(&self.pieces)?;
        Some(paid)
    }

    /// The same, but only the words that no interval has are tested. `None`: an interval has a word of a loop, or one
    /// of the others fails. The time grows with the intervals besides. Entries before and behind all intervals are
    /// compared where they are.
    pub fn paid_outside(&mut self, entries: &[Entry], intervals: &[Interval]) -> Option<u128>
        requires apart { AreApart entries.now }
        requires order { InOrder IntervalKeeps behind_interval least_word intervals.now }
        ensures says { IfSome result
            (λ _. SaysOutside intervals.now (state_of self.old).frame (entry_fact entries.now)) }
        ensures whole { IfSome result (λ _. list_all (is_whole (state_of self.old).frame) entries.now ≡ true) }
        ensures paid { IfSome result (λ paid. sum_by (price (state_of self.old).frame) entries.now ≡ paid) }
        ensures left { IsLeft self.old self.new }
    {
        let parts = parts_of(entries, intervals);
        let before = self.frame.paid(parts.before)?;
        let among = self.paid_in_pieces(parts.among, intervals)?;
        let behind = self.frame.paid(parts.behind)?;
        let paid = before.checked_add(among.checked_add(behind)?)?;
        Some(paid)
    }

    /// Whether at least what entries want is known of each word that an interval has, and no interval has a word of a
    /// loop that they want. `false`: one of these fails. The time grows with the entries and the intervals, and as that
    /// of `cost_of_label`.
    pub fn holds_inside(&mut self, entries: &[Entry], intervals: &[Interval]) -> bool
        requires apart { AreApart entries.now }
        requires order { InOrder IntervalKeeps behind_interval least_word intervals.now }
        ensures says { IsTrue result → SaysInside intervals.now (state_of self.old).frame (entry_fact entries.now) }
        ensures left { IsLeft self.old self.new }
    {
        if cut(&mut self.pieces, Side::Inside, entries, intervals).is_none() {
            return false;
        }
        self.frame.paid(&self.pieces).is_some()
    }

    /// Whether no word is one of a loop by what is known and by what entries want. The time grows with the entries of
    /// the label before and these.
    pub fn has_loops_apart(&self, entries: &[Entry]) -> bool
        requires { AreApart entries.now }
        ensures { IsTrue result → AreLoopsApart (state_of self.now).frame (entry_fact entries.now) }
    {
        self.frame.has_loops_apart(entries)
    }

    /// A value comes on top of the registers.
    pub fn push(&mut self, value: Known)
        ensures state { state_of self.new ≡ record (state_of self.old) { stack = pushed value self.old.stack } }
        ensures belongs { (m : Contents) → BelongsTo m self.old → BelongsTo m self.new }
    {
        self.stack.push(value);
    }

    /// The top of the registers goes.
    pub fn pop(&mut self)
        ensures state { state_of self.new ≡ record (state_of self.old) { stack = popped unknown self.old.stack } }
        ensures belongs { (m : Contents) → BelongsTo m self.old → BelongsTo m self.new }
    {
        self.stack.pop(Known::UNKNOWN);
    }

    /// A and B change places.
    pub fn reverse(&mut self)
        ensures state { state_of self.new ≡ record (state_of self.old) { stack = reversed self.old.stack } }
        ensures belongs { (m : Contents) → BelongsTo m self.old → BelongsTo m self.new }
    {
        self.stack.reverse();
    }

    /// The workspace is at this depth from now on.
    pub fn move_to(&mut self, depth: i32)
        ensures state { state_of self.new ≡ record (state_of self.old) { depth = depth } }
        ensures belongs { (m : Contents) → BelongsTo m self.old → BelongsTo m self.new }
    {
        self.depth = depth;
    }

    /// The state goes on in a context of the module, at a depth and with a number. What is known of the
    /// frame stays, and nothing is known of the registers.
    fn begin_at(&mut self, module: &'a Module<'a>, context: u32, depth: i32, number: u64)
        ensures state { state_of self.new ≡ fresh_state context depth number (state_of self.old).frame }
        ensures belongs { BelongsTo «module».now self.old → BelongsTo «module».now self.new }
    {
        self.module = module;
        self.context = context;
        self.depth = depth;
        self.stack = Stack::of_empty(Known::UNKNOWN);
        self.number = number;
        self.mode = Mode::Plain;
        self.guards.clear();
    }

    /// The state goes on as that in which a procedure begins, whose number as a context is given. The time grows with
    /// its parameters.
    pub fn become_procedure(&mut self, module: &'a Module<'a>, row: &ProcedureRow, context: u32)
        requires belongs { BelongsTo «module».now self.old }
        requires some { 1 ≤ context }
        requires row { slice_get «module».now.procedures (context - 1) ≡ Some (procedure_of row.now) }
        ensures state { state_of self.new ≡ procedure_state context (procedure_of row.now) }
        ensures belongs { BelongsTo «module».now self.new }
    {
        self.frame.begin(row);
        self.begin_at(module, context, 0, row.number);
    }

    /// The state goes on as a label's. The time does not depend on how much is known.
    pub fn become_label(&mut self, module: &'a Module<'a>, row: &'a LabelRow)
        requires belongs { BelongsTo «module».now self.old }
        requires row { IsRowOf «module».now (label_of row.now) }
        ensures state { state_of self.new ≡ label_state (label_of row.now) }
        ensures belongs { BelongsTo «module».now self.new }
    {
        self.frame.restart(&row.entries);
        self.begin_at(module, u32::from(row.context), row.depth, row.number);
        self.stack = Stack {
            a: Known::of(row.stack.a),
            b: Known::of(row.stack.b),
            c: Known::of(row.stack.c),
        };
    }

    /// The same state again.
    pub fn copy(&self, alloc: Global) -> Result<Self, AllocError>
        ensures state { IfOk result (λ s. state_of s ≡ state_of self.now) }
        ensures belongs { (m : Contents) → BelongsTo m self.now → IfOk result (BelongsTo m) }
        ensures room { IfOk result HasRoomForGuards }
    {
        let mut guards = Vec::with_capacity(alloc, MAX_GUARDS)?;
        guards.extend_from_slice(&self.guards)?;
        Ok(State {
            context: self.context,
            depth: self.depth,
            stack: self.stack,
            frame: self.frame.copy(alloc)?,
            module: self.module,
            number: self.number,
            mode: self.mode,
            guards,
            pieces: Vec::with_capacity(alloc, self.frame.room())?,
        })
    }
}
