//! Lists whose items follow one another: how an item is read, the rules it keeps, and what it leaves to the one after
//! it.
#![tactic(auto, unfolding(crate::proofs::Opening::listed))]

ghost use Rattle.std.specs.Prelude.{◌≡◌, ◌↔◌, IsTrue, ℕ, ℤ, List, map};
ghost use Rattle.module_format.specs.Contents.{label_of, procedure_of};
ghost use Rattle.module_format.specs.Facts.{EntryKeeps, behind_entry, LabelKeeps, behind_label};
ghost use Rattle.module_format.specs.Meaning.{Listing, listed, listed_as};
ghost use Rattle.module_format.specs.Offsets.{ProceduresRise};
ghost use Rattle.module_format.specs.Order.{InOrder, least_word};
ghost use Rattle.module_format.specs.Pars.{ChannelKeeps, behind_channel, IntervalKeeps, behind_interval, ReadKeeps};
ghost use Rattle.module_format.specs.Pars.{NumberKeeps, behind_number, EndKeeps, behind_end};
ghost use Rattle.module_format.specs.Procedures.{ParameterKeeps, behind_parameter, ProcedureKeeps, behind_procedure};
ghost use Rattle.module_format.specs.Procedures.{TableKeeps, behind_table};
ghost use Rattle.module_format.specs.ReadingPars.{channel_row_at, frame_words_at, read_words_at, parameter_number_at, end_row_at};
ghost use Rattle.module_format.specs.ReadingRows.{entry_at, label_row_at, parameter_at, procedure_row_at};
ghost use Rattle.module_format.specs.ReadingRows.{table_row_at};
ghost use Rattle.module_format.specs.Taking.{Takes};

use crate::fault::FormatFaultKind;
use crate::keeping::{all_keep, end_kind_keeps, facts_keep, kind_keeps, offset_keeps, word_keeps};
use crate::limits::{MAX_MESSAGE, MAX_PARAMETERS};
use crate::reading::{
    Cursor, direction_of, end_kind, end_of, meets_any, read_end_direction, read_end_element,
    read_end_kind, read_end_number, read_entries, read_first_word, read_frame_end,
    read_frame_start, read_label_offset, read_parameter_kind, read_parameter_word, read_parameters,
    read_procedure_entry, read_registers, read_span, read_table_end, read_table_start,
    read_word_fact, read_words, words_lie_within,
};
use crate::rows::{
    ChannelRow, EndKey, EndRow, Entry, Interval, LabelRow, Parameter, ProcedureRow, TableRow,
};
use crate::rules::{
    is_frame_end, is_frame_start, is_message_length, is_multiple_of_four, lies_after,
};
use crate::tables::Version;

/// An item of a list, in a context that is the same for all of them.
pub(crate) trait Listed<C>: Drop {
    /// What an item leaves to the one after it, as the first word that is free.
    type Low: Copy;

    /// What an item says, and how that is read.
    ghost listing: { Listing C Self Self.Low };

    /// What an item has to keep.
    ghost Keeps: { C → Self.Low → listing.Value → Type 0 };

    fn read(context: &C, low: Self::Low, from: &mut Cursor<'_>) -> Self
        ensures { Takes (λ size. listing.reads context.now size low) from.old (listing.view result) from.new };

    fn keeps(&self, context: &C, low: Self::Low) -> bool
        ensures { IsTrue result ↔ Keeps context.now low (listing.view self.now) };

    fn after(&self) -> Self::Low
        ensures { (low : Self.Low) → result ≡ listing.behind low (listing.view self.now) };
}

/// Entries of a label row, in code of a given length.
impl Listed<usize> for Entry {
    type Low = i64;

    ghost listing = { listed (λ code_len size. entry_at size code_len) behind_entry };

    ghost Keeps = { EntryKeeps };

    fn read(code_len: &usize, low: i64, from: &mut Cursor<'_>) -> Entry {
        let word = read_first_word(low, from);
        let span = read_span(from);
        let fact = read_word_fact(*code_len, span, from);
        Entry { word, span, fact }
    }

    fn keeps(&self, code_len: &usize, low: i64) -> bool {
        low <= i64::from(self.word) && self.span > 0 && word_keeps(*code_len, self.span, &self.fact)
    }

    fn after(&self) -> i64 {
        end_of(self)
    }
}

/// How many bytes of code there are, and the procedures, whose entries rise.
#[derive(Drop)]
pub(crate) struct Labelled<'p> {
    pub code_len: usize,
    pub procedures: &'p [ProcedureRow],
    ghost rise: { ProceduresRise procedures.now },
}

/// Label rows.
impl Listed<Labelled<'_>> for LabelRow {
    type Low = u32;

    ghost listing = { listed_as label_of
        (λ code size. label_row_at size code.code_len (map procedure_of code.procedures.now)) behind_label };

    ghost Keeps = { λ code. LabelKeeps code.code_len (map procedure_of code.procedures.now) };

    fn read(code: &Labelled<'_>, low: u32, from: &mut Cursor<'_>) -> LabelRow {
        LabelRow {
            offset: read_label_offset(code.code_len, code.procedures, low, from),
            context: from.u16(),
            depth: from.i32(),
            number: from.u64(),
            stack: read_registers(code.code_len, from),
            entries: read_entries(code.code_len, from),
        }
    }

    fn keeps(&self, code: &Labelled<'_>, low: u32) -> bool {
        let (_context, _depth, _number) = (self.context, self.depth, self.number);
        offset_keeps(code.code_len, code.procedures, low, self.offset)
            && facts_keep(code.code_len, self)
    }

    fn after(&self) -> u32
        ensures { (low : ℕ) → result ≡ behind_label low (label_of self.now) }
    {
        self.offset
    }
}

/// The version of a file, and the word where the frame of a procedure ends.
#[derive(Clone, Copy)]
pub(crate) struct Frame {
    pub version: Version,
    pub hi: i32,
}

/// Parameters of a procedure.
impl Listed<Frame> for Parameter {
    type Low = u16;

    ghost listing = { listed (λ frame size. parameter_at size frame.version frame.hi) behind_parameter };

    ghost Keeps = { λ frame. ParameterKeeps frame.hi };

    fn read(frame: &Frame, low: u16, from: &mut Cursor<'_>) -> Parameter {
        let word = read_parameter_word(frame.hi, low, from);
        let kind = read_parameter_kind(frame.version, from);
        Parameter { word, kind }
    }

    fn keeps(&self, frame: &Frame, low: u16) -> bool {
        low < self.word && i32::from(self.word) < frame.hi && kind_keeps(&self.kind)
    }

    fn after(&self) -> u16 {
        self.word
    }
}

/// The version of a file, and how many bytes of code it has.
#[derive(Clone, Copy)]
pub(crate) struct Code {
    pub version: Version,
    pub len: usize,
}

/// Procedure rows.
impl Listed<Code> for ProcedureRow {
    type Low = u32;

    ghost listing = { listed_as procedure_of
        (λ code size. procedure_row_at size code.version code.len) behind_procedure };

    ghost Keeps = { λ code. ProcedureKeeps code.len };

    fn read(code: &Code, low: u32, from: &mut Cursor<'_>) -> ProcedureRow {
        let entry = read_procedure_entry(code.len, low, from);
        let lo = read_frame_start(from);
        let hi = read_frame_end(from);
        let number = from.u64();
        let parameters = read_parameters(code.version, hi, from);
        ProcedureRow {
            entry,
            lo,
            hi,
            number,
            parameters,
        }
    }

    fn keeps(&self, code: &Code, low: u32) -> bool {
        let (_number, version, hi) = (self.number, code.version, self.hi);
        lies_after(low, self.entry, code.len)
            && is_frame_start(self.lo)
            && is_frame_end(hi)
            && self.parameters.len() <= usize::from(MAX_PARAMETERS)
            && all_keep(&Frame { version, hi }, 0, &self.parameters)
    }

    fn after(&self) -> u32 {
        self.entry
    }
}

/// The constants of a module.
#[derive(Clone, Copy)]
pub(crate) struct Constants<'c>(pub &'c [u8]);

/// Table rows.
impl Listed<Constants<'_>> for TableRow {
    type Low = u32;

    ghost listing = { listed (λ constants size. table_row_at size constants.0.now) behind_table };

    ghost Keeps = { λ constants. TableKeeps constants.0.now };

    fn read(constants: &Constants<'_>, low: u32, from: &mut Cursor<'_>) -> TableRow {
        let start = read_table_start(low, from);
        let end = read_table_end(constants.0.len(), start, from);
        let at = from.place();
        let (lo, hi) = from.interval();
        if from.has_failed() {
            return TableRow { start, end, lo, hi };
        }
        let words = &constants.0[start as usize..end as usize];
        from.check(at, words_lie_within(words, lo, hi), FormatFaultKind::Range);
        TableRow { start, end, lo, hi }
    }

    fn keeps(&self, constants: &Constants<'_>, low: u32) -> bool {
        let (start, end) = (self.start as usize, self.end as usize);
        is_multiple_of_four(self.start)
            && is_multiple_of_four(self.end)
            && low <= self.start
            && start < end
            && end <= constants.0.len()
            && self.lo <= self.hi
            && words_lie_within(&constants.0[start..end], self.lo, self.hi)
    }

    fn after(&self) -> u32
        ensures { (low : ℕ) → result ≡ behind_table low self.now }
    {
        self.end
    }
}

/// Channels of a PAR.
impl Listed<()> for ChannelRow {
    type Low = i64;

    ghost listing = { listed (λ _. channel_row_at) behind_channel };

    ghost Keeps = { λ _. ChannelKeeps };

    fn read(_context: &(), low: i64, from: &mut Cursor<'_>) -> ChannelRow {
        let word = read_first_word(low, from);
        let length = from.positive(MAX_MESSAGE);
        ChannelRow { word, length }
    }

    fn keeps(&self, _context: &(), low: i64) -> bool {
        low <= i64::from(self.word) && is_message_length(self.length)
    }

    fn after(&self) -> i64 {
        i64::from(self.word) + 1
    }
}

/// Intervals that are written.
impl Listed<()> for Interval {
    type Low = i64;

    ghost listing = { listed (λ _. frame_words_at) behind_interval };

    ghost Keeps = { λ _. IntervalKeeps };

    fn read(_context: &(), low: i64, from: &mut Cursor<'_>) -> Interval {
        read_words(low, from)
    }

    fn keeps(&self, _context: &(), low: i64) -> bool {
        low <= i64::from(self.lo) && self.lo < self.hi
    }

    fn after(&self) -> i64 {
        i64::from(self.hi)
    }
}

/// The intervals of a branch that are written, which rise.
#[derive(Drop)]
pub(crate) struct Written<'w> {
    pub intervals: &'w [Interval],
    ghost sorted: { ∥ InOrder IntervalKeeps behind_interval least_word intervals.now ∥₁ },
}

/// Intervals that are read, none of them with a word that is written.
impl Listed<Written<'_>> for Interval {
    type Low = i64;

    ghost listing = { listed (λ written size. read_words_at size written.intervals.now) behind_interval };

    ghost Keeps = { λ written. ReadKeeps written.intervals.now };

    fn read(written: &Written<'_>, low: i64, from: &mut Cursor<'_>) -> Interval {
        let at = from.place();
        let interval = read_words(low, from);
        let is_apart = !meets_any(&interval, written.intervals);
        from.check(at, is_apart, FormatFaultKind::Order);
        interval
    }

    fn keeps(&self, written: &Written<'_>, low: i64) -> bool {
        <Interval as Listed<()>>::keeps(self, &(), low) && !meets_any(self, written.intervals)
    }

    fn after(&self) -> i64
        ensures { (low : ℤ) → result ≡ behind_interval low self.now }
    {
        i64::from(self.hi)
    }
}

/// Numbers of parameters.
impl Listed<()> for u16 {
    type Low = u32;

    ghost listing = { listed (λ _. parameter_number_at) behind_number };

    ghost Keeps = { λ _. NumberKeeps };

    fn read(_context: &(), low: u32, from: &mut Cursor<'_>) -> u16 {
        let at = from.place();
        let number = from.u16();
        from.check(at, low <= u32::from(number), FormatFaultKind::Order);
        number
    }

    fn keeps(&self, _context: &(), low: u32) -> bool {
        low <= u32::from(*self)
    }

    fn after(&self) -> u32 {
        u32::from(*self) + 1
    }
}

/// Channel ends, after one with the key `before`.
impl Listed<()> for EndRow {
    type Low = EndKey;

    ghost listing = { listed (λ _. end_row_at) behind_end };

    ghost Keeps = { λ _. EndKeeps };

    fn read(_context: &(), before: EndKey, from: &mut Cursor<'_>) -> EndRow {
        let kind = read_end_kind(before, from);
        let number = read_end_number(before, kind, from);
        let element = read_end_element(before, kind, number, from);
        let direction = read_end_direction(before, kind, number, element, from);
        EndRow {
            kind: end_kind(kind, number, element),
            direction: direction_of(direction),
        }
    }

    fn keeps(&self, _context: &(), before: EndKey) -> bool {
        end_kind_keeps(&self.kind) && before.is_below(&self.key())
    }

    fn after(&self) -> EndKey {
        self.key()
    }
}
