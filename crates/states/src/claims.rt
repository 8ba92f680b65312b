//! For labels with many entries a fact for each block of words that says all that the label wants of them.
#![tactic(auto)]

ghost use Rattle.std.specs.Prelude.{◌≡◌, ◌≤◌, Some, true, vec_capacity, IfOk, IfSome, IsTrue};
ghost use Rattle.module_format.specs.Contents.{Contents, Label, label_of};
ghost use Rattle.states.specs.Claims.{IsClaim, AreClaimed, AreClaimed-prop};
ghost use Rattle.states.specs.Remembered.{numbered_label, wants_no_loop};
ghost use Rattle.states.specs.Rows.{AreApart};

use crate::blocks::block_words;
use crate::implication::implies;
use crate::implied::{all_implied, from_word};
use crate::recalling::wants_no_loop;
use crate::row::{end_of, start_of};
use certificate::Module;
use module_format::{Entry, Fact, LabelRow};
use std::alloc::{AllocError, Global};

/// A fact that says what the label of a number wants of the words from `first` up to `end` (not included).
#[derive(Clone, Copy)]
pub(crate) struct Claim {
    pub label: usize,
    pub first: i64,
    pub end: i64,
    pub fact: Fact,
}

/// Two ranges have these numbers in common.
fn common(fact: Fact, other: Fact) -> Fact {
    match (fact, other) {
        (Fact::Number { lo, hi }, Fact::Number { lo: low, hi: high }) => Fact::Number {
            lo: lo.max(low),
            hi: hi.min(high),
        },
        _ => fact,
    }
}

/// A fact that says what two facts say, where there is one.
fn both(fact: Fact, other: Fact) -> Fact {
    if implies(fact, other) {
        return fact;
    }
    if implies(other, fact) {
        return other;
    }
    common(fact, other)
}

/// A fact that says what a row wants of the words from `first` up to `end` (not included), where there is one.
fn meet(row: &[Entry], first: i64, end: i64) -> Fact
    requires { AreApart row.now }
{
    let mut fact = Fact::Unknown;
    for entry in from_word(row, first) {
        if end <= start_of(entry) {
            return fact;
        }
        if first < end_of(entry) {
            fact = both(fact, entry.fact);
        }
    }
    fact
}

/// What is claimed of what the label of a number, which wants no loop, wants of some words. Where no fact says it,
/// nothing is claimed.
fn claim_of(label: usize, row: &LabelRow, first: i64, end: i64) -> Claim
    requires apart { AreApart row.now.entries.items }
    requires plain { wants_no_loop row.now.entries.items ≡ true }
    ensures { (m : Contents) → numbered_label m label ≡ Some (label_of row.now) → IsClaim m result }
{
    let fact = meet(&row.entries, first, end);
    if all_implied(&row.entries, first, end, fact) {
        return Claim {
            label,
            first,
            end,
            fact,
        };
    }
    Claim {
        label,
        first: end,
        end,
        fact,
    }
}

/// Whether a row has so many entries for each of a number of blocks that claims are made of its label.
fn is_large(row: &LabelRow, blocks: usize) -> bool {
    row.entries.len() / 8 >= blocks
}

/// What is claimed of labels. All that it needs is allocated when it is made.
#[derive(Drop)]
pub(crate) struct Claims<'a> {
    pub module: &'a Module<'a>,
    /// For each label the place after that of its first claim, or 0 if there is none.
    pub places: Vec<usize>,
    pub claims: Vec<Claim>,
    pub room: usize,
    ghost reserved: { room ≤ vec_capacity claims },
    ghost right: { AreClaimed «module».now claims.items } by { AreClaimed-prop «module».now claims.items },
}

impl<'a> Claims<'a> {
    /// Nothing is claimed yet of a frame with this number of blocks.
    pub(crate) fn new(
        alloc: Global,
        module: &'a Module<'a>,
        blocks: usize,
    ) -> Result<Self, AllocError>
        ensures same { IfOk result (λ c. c.«module».now ≡ «module».now) }
    {
        let mut room: usize = 0;
        for row in &module.tables().labels {
            if is_large(row, blocks) {
                room = room.saturating_add(blocks);
            }
        }
        let places = vec![in alloc; 0; module.tables().labels.len()]?;
        let claims = Vec::with_capacity(alloc, room)?;
        Ok(Claims {
            module,
            places,
            claims,
            room,
        })
    }

    /// The fact that is claimed of the words from `first` up to `end` (not included), those of a block.
    pub(crate) fn fact_of(&self, label: usize, number: usize, first: i64, end: i64) -> Option<Fact>
        ensures { IfSome result (λ fact. IsClaim self.now.«module».now
            (record { label = label; first = first; end = end; fact = fact })) }
    {
        let place = *self.places.get(label)?;
        let at = place.checked_sub(1)?.checked_add(number)?;
        if at >= self.claims.len() {
            return None;
        }
        let claim = self.claims[at];
        if claim.label != label || claim.first != first || claim.end != end {
            return None;
        }
        Some(claim.fact)
    }

    /// Whether claims were made of the label of a number.
    pub(crate) fn has(&self, label: usize) -> bool
        ensures { IsTrue result → (t : Label) → numbered_label self.now.«module».now label ≡ Some t
            → wants_no_loop t.entries ≡ true }
    {
        if label >= self.places.len() {
            return false;
        }
        let Some(at) = self.places[label].checked_sub(1) else {
            return false;
        };
        if at >= self.claims.len() {
            return false;
        }
        let claim = self.claims[at];
        claim.label == label
    }

    /// One more is claimed, if there is room.
    fn add(&mut self, claim: Claim)
        requires { IsClaim self.old.«module».now claim }
        ensures same { self.new.«module».now ≡ self.old.«module».now }
    {
        if self.claims.len() < self.room {
            self.claims.push(claim).unwrap();
        }
    }

    /// Whether no claim was made of the label of a number, whose row is large. One is to be made now.
    fn begins(&mut self, label: usize, row: &LabelRow, blocks: usize) -> bool
        ensures same { self.new.«module».now ≡ self.old.«module».now }
    {
        if !is_large(row, blocks) || label >= self.places.len() {
            return false;
        }
        if self.places[label] != 0 {
            return false;
        }
        self.places[label] = self.claims.len() + 1;
        true
    }

    /// Claims are made of the label of a number, if its row is large and wants no loop, and none was made: one for
    /// each block.
    pub(crate) fn claim(&mut self, label: usize, row: &LabelRow, lo: i32, blocks: usize)
        requires label { numbered_label self.old.«module».now label ≡ Some (label_of row.now) }
        requires apart { AreApart row.now.entries.items }
        ensures same { self.new.«module».now ≡ self.old.«module».now }
    {
        if !self.begins(label, row, blocks) {
            return;
        }
        if !wants_no_loop(&row.entries) {
            return;
        }
        let mut first = i64::from(lo);
        for _ in 0..blocks {
            let end = first.saturating_add(block_words() as i64);
            self.add(claim_of(label, row, first, end));
            first = end;
        }
    }
}
