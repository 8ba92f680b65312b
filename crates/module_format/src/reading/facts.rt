//! Facts and entries.
#![tactic(auto, unfolding(crate::proofs::Opening::reading_facts))]

ghost use Rattle.std.specs.Prelude.{◌≡◌};
ghost use Rattle.module_format.specs.Facts.{end_of};
ghost use Rattle.module_format.specs.ReadingRows.{number_fact_at, step_at, pointed_at, pointer_at, code_address_at, count_at};
ghost use Rattle.module_format.specs.ReadingRows.{loop_at, fact_at, register_at, word_fact_at, first_word_at, span_at};
ghost use Rattle.module_format.specs.ReadingRows.{entries_at, registers_at};
ghost use Rattle.module_format.specs.Taking.{Takes};

use crate::fact::{Fact, Region, Step};
use crate::fault::FormatFaultKind;
use crate::reading::cursor::Cursor;
use crate::reading::list::read_list;
use crate::rows::Entry;
use crate::rules::{is_loop_length, is_stepped};
use crate::stack::Stack;
use crate::tags::{
    TAG_CODE_ADDRESS, TAG_LOOP, TAG_NUMBER, TAG_POINTER, TAG_RETURN_ADDRESS, TAG_UNKNOWN,
};

/// No word is below it.
pub(crate) const LEAST_WORD: i64 = -2_147_483_648;

/// The bounds of a number.
fn read_range(from: &mut Cursor<'_>) -> Fact
    ensures { Takes number_fact_at from.old result from.new }
{
    let (lo, hi) = from.interval();
    Fact::Number { lo, hi }
}

/// A step of 1, or of 4 where both bounds are multiples of it.
fn read_step(lo: i32, hi: i32, from: &mut Cursor<'_>) -> Step
    ensures { Takes (λ size. step_at size lo hi) from.old result from.new }
{
    let at = from.place();
    let step = from.u8();
    if step == 1 {
        return Step::Byte;
    }
    from.check(
        at,
        step == 4 && is_stepped(lo) && is_stepped(hi),
        FormatFaultKind::Range,
    );
    Step::Word
}

/// The region that a pointer leads to.
fn read_pointed(from: &mut Cursor<'_>) -> Region
    ensures { Takes pointed_at from.old result from.new }
{
    Region::numbered(from.u16())
}

/// A pointer's region, bounds and step.
#[inline(always)]
fn read_pointer(from: &mut Cursor<'_>) -> Fact
    ensures { Takes pointer_at from.old result from.new }
{
    let region = read_pointed(from);
    let (lo, hi) = from.interval();
    let step = read_step(lo, hi, from);
    Fact::Pointer {
        region,
        lo,
        hi,
        step,
    }
}

/// A code offset, the end of the code included.
fn read_code_address(code_len: usize, from: &mut Cursor<'_>) -> Fact
    ensures { Takes (λ size. code_address_at size code_len) from.old result from.new }
{
    let offset = from.at_most(code_len);
    Fact::CodeAddress { offset }
}

/// How often a loop turns.
fn read_turn_count(base: i32, from: &mut Cursor<'_>) -> u32
    ensures { Takes (λ size. count_at size base) from.old result from.new }
{
    let at = from.place();
    let count = from.u32();
    from.check(at, is_loop_length(base, count), FormatFaultKind::Range);
    count
}

/// A loop's base, count and weight.
fn read_loop(from: &mut Cursor<'_>) -> Fact
    ensures { Takes loop_at from.old result from.new }
{
    let base = from.i32();
    let count = read_turn_count(base, from);
    let weight = from.u64();
    Fact::Loop {
        base,
        count,
        weight,
    }
}

/// A fact that registers and words have alike, after its tag at an offset.
#[inline(always)]
fn read_common_fact(code_len: usize, at: usize, tag: u8, from: &mut Cursor<'_>) -> Fact
    ensures { Takes (λ size. fact_at size code_len at tag) from.old result from.new }
{
    match tag {
        TAG_NUMBER => read_range(from),
        TAG_POINTER => read_pointer(from),
        TAG_CODE_ADDRESS => read_code_address(code_len, from),
        _ => {
            from.fail(at, FormatFaultKind::Range);
            Fact::Unknown
        }
    }
}

/// A fact of a register.
#[inline(always)]
fn read_register(code_len: usize, from: &mut Cursor<'_>) -> Fact
    ensures { Takes (λ size. register_at size code_len) from.old result from.new }
{
    let at = from.place();
    let tag = from.u8();
    match tag {
        TAG_UNKNOWN => Fact::Unknown,
        _ => read_common_fact(code_len, at, tag, from),
    }
}

/// A fact of `span` frame words.
pub(crate) fn read_word_fact(code_len: usize, span: u32, from: &mut Cursor<'_>) -> Fact
    ensures { Takes (λ size. word_fact_at size code_len span) from.old result from.new }
{
    let at = from.place();
    let tag = from.u8();
    match tag {
        TAG_LOOP if span == 2 => read_loop(from),
        TAG_RETURN_ADDRESS if span == 1 => Fact::ReturnAddress,
        _ => read_common_fact(code_len, at, tag, from),
    }
}

/// A frame word that no item before has: those end at word `low`.
pub fn read_first_word(low: i64, from: &mut Cursor<'_>) -> i32
    ensures { Takes (λ size. first_word_at size low) from.old result from.new }
{
    let at = from.place();
    let word = from.i32();
    from.check(at, low <= i64::from(word), FormatFaultKind::Order);
    word
}

/// A number of words or channels, at least 1.
pub fn read_span(from: &mut Cursor<'_>) -> u32
    ensures { Takes span_at from.old result from.new }
{
    let at = from.place();
    let span = from.u32();
    from.check(at, span != 0, FormatFaultKind::Range);
    span
}

/// The first word after an entry.
pub(crate) fn end_of(entry: &Entry) -> i64
    ensures { result ≡ end_of entry.now }
{
    i64::from(entry.word) + i64::from(entry.span)
}

/// The entries of a label row, after their number.
pub fn read_entries(code_len: usize, from: &mut Cursor<'_>) -> Vec<Entry>
    ensures { Takes (λ size. entries_at size code_len) from.old result.items from.new }
{
    let count = from.u16();
    read_list(&code_len, LEAST_WORD, u32::from(count), from)
}

/// The facts of A, B and C.
pub fn read_registers(code_len: usize, from: &mut Cursor<'_>) -> Stack<Fact>
    ensures { Takes (λ size. registers_at size code_len) from.old result from.new }
{
    let a = read_register(code_len, from);
    let b = read_register(code_len, from);
    let c = read_register(code_len, from);
    Stack { a, b, c }
}
