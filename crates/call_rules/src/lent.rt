//! Regions that a call lends to a procedure.

ghost use Rattle.std.specs.Prelude.{◌≡◌, ◌/◌, ◌<◌, Some, int_lt, length};
ghost use Rattle.std.specs.List.{list_all};
ghost use Rattle.module_format.specs.declared.fact.Fact.TheVariants.{Number};
ghost use Rattle.states.specs.declared.span.Leaving.TheVariants.{Become};
ghost use Rattle.states.specs.Below.{lies_within};
ghost use Rattle.rulings.specs.Reach.{word_of_byte, words_touched, lie_in};
ghost use Rattle.call_rules.specs.CallRules.{lent_end, lent_from, lent_to, suits, parameter_suits, clash};
ghost use Rattle.call_rules.specs.CallRules.{are_apart, each_two};
ghost use Rattle.call_rules.specs.Callings.{frame_words, is_apart_if_written, is_apart_at};

use module_format::{Fact, Parameter, ParameterKind, Region, Step};
use rulings::reach::{word_of_byte, word_of_offset};
use states::{Leaving, WordFact};

/// Bytes of a region that a parameter names: `size` of them, from the offset `first` on. The procedure wants each
/// word of them to be a number from `lo` to `hi`.
#[derive(Clone, Copy)]
pub(crate) struct Lent {
    pub region: Region,
    pub first: i32,
    pub size: u32,
    pub lo: i32,
    pub hi: i32,
    pub is_written: bool,
}

impl Lent {
    /// Where the bytes end, which is not included.
    pub fn end(self) -> i64
        ensures { result ≡ lent_end self }
    {
        i64::from(self.first) + i64::from(self.size)
    }

    /// The word of the frame in which the first of the bytes lies.
    pub fn first_word(self) -> i32
        ensures { result ≡ word_of_byte self.first }
    {
        word_of_byte(self.first)
    }

    /// How many words the bytes are.
    pub fn word_count(self) -> u32
        ensures { result ≡ self.size / 4 }
    {
        self.size / 4
    }

    /// How many words of the frame the bytes are: none, if they are of another region.
    pub fn frame_words(self) -> u32
        ensures { result ≡ frame_words self }
    {
        if self.region.is_frame() {
            self.word_count()
        } else {
            0
        }
    }

    /// How many words of the frame have one of the bytes.
    pub fn words_touched(self) -> u32
        ensures { result ≡ words_touched self.first (lent_end self) }
    {
        let last = word_of_offset(self.end() - 1);
        last.abs_diff(i64::from(self.first_word())) as u32 + 1
    }

    /// Whether the bytes lie in a region of this size, if there is one.
    pub fn lies_in(self, size: Option<u32>) -> bool
        ensures { result ≡ lie_in size self.first (lent_end self) }
    {
        match size {
            Some(size) => 0 <= self.first && self.end() <= i64::from(size),
            None => false,
        }
    }

    /// Whether the numbers from `low` to `high` are among those that the procedure wants.
    pub fn takes(self, low: i32, high: i32) -> bool
        ensures { result ≡ lies_within low high self.lo self.hi }
    {
        self.lo <= low && high <= self.hi
    }

    /// Whether the range of a region's words suits the procedure: if it reads, the range lies within the one that it
    /// wants, and if it writes, it is the same.
    fn suits(self, low: i32, high: i32) -> bool
        ensures { result ≡ suits self low high }
    {
        if self.is_written {
            low == self.lo && high == self.hi
        } else {
            self.takes(low, high)
        }
    }

    /// Whether the range of a parameter's region suits the procedure.
    pub fn suits_parameter(self, parameter: &Parameter) -> bool
        ensures { result ≡ parameter_suits self (Some parameter.now) }
    {
        match parameter.kind {
            ParameterKind::ReadRegion { lo, hi, .. } => self.suits(lo, hi),
            ParameterKind::WrittenRegion { lo, hi, .. } => self.suits(lo, hi),
            _ => true,
        }
    }

    /// What is left of a word that the procedure may have written.
    pub fn leaving(self) -> Leaving
        ensures { result ≡ Become (Number self.lo self.hi) }
    {
        Leaving::Become(Fact::Number {
            lo: self.lo,
            hi: self.hi,
        })
    }

    /// Whether the bytes begin before the other's end.
    fn begins_before_end(self, other: Lent) -> bool
        ensures { result ≡ int_lt self.first (lent_end other) }
    {
        i64::from(self.first) < other.end()
    }

    /// Whether the two have bytes in common that one of them may write.
    pub fn clashes(self, other: Lent) -> bool
        ensures { result ≡ clash self other }
    {
        if !self.is_written && !other.is_written {
            return false;
        }
        if !self.region.is_same(other.region) {
            return false;
        }
        self.begins_before_end(other) && other.begins_before_end(self)
    }
}

/// What an exact pointer to a word lends.
#[tactic(auto, unfolding(crate::specs::CallRules::lent_from))]
fn lent_from(size: u32, lo: i32, hi: i32, is_written: bool, fact: WordFact) -> Option<Lent>
    ensures { result ≡ lent_from size lo hi is_written fact }
{
    match fact {
        WordFact::Alone(
            Fact::Pointer {
                region,
                lo: low,
                hi: high,
                step: Step::Word,
            },
        ) if low == high => Some(Lent {
            region,
            first: low,
            size,
            lo,
            hi,
            is_written,
        }),
        _ => None,
    }
}

/// What a parameter of this kind is lent, in whose word this is passed.
pub(crate) fn lent_to(kind: ParameterKind, fact: WordFact) -> Option<Lent>
    ensures { result ≡ lent_to kind fact }
{
    match kind {
        ParameterKind::ReadRegion { size, lo, hi } => lent_from(size, lo, hi, false, fact),
        ParameterKind::WrittenRegion { size, lo, hi } => lent_from(size, lo, hi, true, fact),
        _ => None,
    }
}

/// Whether no byte that one of the two may write is of both.
fn are_apart(one: Option<Lent>, other: Option<Lent>) -> bool
    ensures { result ≡ are_apart one other }
{
    match (one, other) {
        (Some(lent), Some(other)) => !lent.clashes(other),
        _ => true,
    }
}

/// Whether a region meets none of these others, by bytes that one of the two may write.
fn is_apart_from_each(lent: Lent, others: &[Option<Lent>]) -> bool
    ensures { result ≡ list_all (are_apart (Some lent)) others.now }
{
    others.iter().all(|other| are_apart(Some(lent), *other))
}

/// Whether a region, if it is written, meets none of these others.
fn is_apart_if_written(one: Option<Lent>, others: &[Option<Lent>]) -> bool
    ensures { result ≡ is_apart_if_written one others.now }
{
    match one {
        Some(lent) => !lent.is_written || is_apart_from_each(lent, others),
        None => true,
    }
}

/// Whether the region of this number, if it is written, meets none of those before it and after it.
fn is_apart_at(all: &[Option<Lent>], number: usize) -> bool
    requires { number < length all.now }
    ensures { result ≡ is_apart_at all.now number }
{
    let one = all[number];
    is_apart_if_written(one, &all[..number]) && is_apart_if_written(one, &all[number + 1..])
}

/// Whether no region that is written meets another of all that is lent: only those that are written are compared with
/// the others.
pub(crate) fn all_are_apart(all: &[Option<Lent>]) -> bool
    ensures { result ≡ each_two are_apart all.now }
{
    for number in 0..all.len() {
        if !is_apart_at(all, number) {
            return false;
        }
    }
    true
}
