//! A call, and what it wants of what is passed.

ghost use Rattle.std.specs.Prelude.{◌≡◌, IfOk, true};
ghost use Rattle.rulings.specs.Rulings.{wants};
ghost use Rattle.call_rules.specs.CallRules.{is_near_fact};
ghost use Rattle.rulings.specs.Telling.{Admits};

use crate::calls::may_call;
use crate::lent::{Lent, all_are_apart};
use crate::passed::{Passed, all_lent};
use arrayvec::ArrayVec;
use module_format::{Fact, Parameter, ParameterKind, ProcedureRow, Region};
use rulings::Place;
use rulings::combinators::{alone, wants};
use rulings::pointers::{are_near, is_near};
use states::{Rule, State, Together, WordFact, implies};

/// The most parameters that a procedure has.
pub(crate) const MAX_LENT: usize = 64;

/// A call, once what is passed is in the words below the workspace: its place, the state in which the parameters
/// are read, and the procedure.
#[derive(Clone, Copy)]
pub(crate) struct Calling<'c, 'm, 'a, 's> {
    pub place: Place<'m, 'a>,
    pub state: &'c State<'s>,
    pub callee: &'c ProcedureRow,
}

/// What a call may change of the caller's frame: `count` words from `first` on, which are the callee's frame, and what
/// each parameter is lent.
#[derive(Drop)]
pub(crate) struct Touched {
    pub first: i32,
    pub count: u32,
    pub lent: ArrayVec<Option<Lent>, MAX_LENT>,
}

/// What a call wants of each parameter.
#[derive(Clone, Copy)]
pub(crate) enum Wanted {
    /// A number in its range, or numbers that suit.
    Numbers,
    /// A region that may be lent.
    Pointers,
    /// Channels whose ends the caller has.
    Ends,
    /// Channels that have messages of the length.
    Lengths,
}

/// Whether a pointer that is used is near.
fn is_near_fact(fact: WordFact) -> bool
    ensures { result ≡ is_near_fact fact }
{
    match fact {
        WordFact::Alone(Fact::Pointer { lo, hi, .. }) => are_near(i64::from(lo), i64::from(hi)),
        _ => true,
    }
}

impl Calling<'_, '_, '_, '_> {
    ghost use Rattle.std.specs.Prelude.{◌≡◌, ◌≤◌, ◌/◌, ℕ, length, map, slice_get, is_some, IfSome, IfOk, Some, true};
    ghost use Rattle.std.specs.List.{list_all, AllByRecursion};
    ghost use Rattle.module_format.specs.declared.fact.Region.TheVariants as regions;
    ghost use Rattle.module_format.specs.Contents.{procedure_of};
    ghost use Rattle.module_format.specs.Contexts.{parameters_at};
    ghost use Rattle.states.specs.Rows.{LoopFits};
    ghost use Rattle.states.specs.Views.{state_of, BelongsTo, CanWriteSpan};
    ghost use Rattle.rulings.specs.Reach.{word_of_byte};
    ghost use Rattle.call_rules.specs.CallRules.{callee_word, given, lent, lent_words, numbers_suit, numbers_fit};
    ghost use Rattle.call_rules.specs.CallRules.{is_off_callee, may_use, words_fit, may_lend, pointers_fit};
    ghost use Rattle.call_rules.specs.CallRules.{lent_end, frame_size, frame_is_own, passes_all, parameter_suits};
    ghost use Rattle.call_rules.specs.CallRules.{regions_are_apart};
    ghost use Rattle.rulings.specs.Rulings.{wants};
    ghost use Rattle.states.specs.declared.rule.Rule.TheVariants.{OwnWord};
    ghost use Rattle.call_rules.specs.Callings.{calling_of, passed_to, IsPassedSo, admits, Touches, fits};
    ghost use Rattle.rulings.specs.Telling.{Admits};

    /// The caller's word that is a word of the callee's frame.
    fn callee_word(&self, word: i32) -> i64
        ensures { result ≡ callee_word (state_of self.now.state.now) word }
    {
        i64::from(self.state.depth) - 4 + i64::from(word)
    }

    /// What is known of the word in which a parameter is passed: A, B and C come first.
    pub fn given(&self, parameter: &Parameter) -> WordFact
        ensures value { result ≡ given (calling_of self.now) parameter.now }
        ensures fits { LoopFits result }
    {
        match parameter.word {
            1 => WordFact::Alone(self.state.stack.a.fact),
            2 => WordFact::Alone(self.state.stack.b.fact),
            3 => WordFact::Alone(self.state.stack.c.fact),
            word => self.state.fact_of(self.callee_word(i32::from(word))),
        }
    }

    /// Whether the range of the region of a parameter of the caller suits the callee.
    fn parameter_suits(&self, lent: Lent, number: u16) -> bool
        ensures { let parameters = parameters_at self.now.place.module.now self.now.state.now.context in
            result ≡ parameter_suits lent (slice_get parameters number) }
    {
        let context = self.state.context;
        match self
            .place
            .module
            .parameters(context)
            .get(usize::from(number))
        {
            Some(parameter) => lent.suits_parameter(parameter),
            None => true,
        }
    }

    /// Whether the numbers that are known of what is lent, together of words of the frame, suit the callee.
    #[tactic(auto, unfolding(crate::specs::CallRules::numbers_suit))]
    fn numbers_suit(&self, lent: Lent, words: Together) -> bool
        requires { lent.region ≡ regions.Frame → words ≡ lent_words (calling_of self.now) lent }
        ensures { result ≡ numbers_suit (calling_of self.now) lent }
    {
        match lent.region {
            Region::Frame => lent.takes(words.lo, words.hi),
            Region::Constants => {
                let range = self.place.constant_range(lent.first, lent.end());
                lent.takes(range.lo, range.hi)
            }
            Region::Parameter(number) => self.parameter_suits(lent, number),
        }
    }

    /// Whether a parameter is passed a number in its range, or what it is lent has numbers that suit.
    #[tactic(auto, unfolding(crate::specs::CallRules::numbers_fit))]
    fn numbers_fit(&self, passed: &Passed) -> bool
        requires { IsPassedSo (calling_of self.now) passed.now }
        ensures { result ≡ numbers_fit (calling_of self.now) passed.now.parameter }
    {
        match passed.parameter.kind {
            ParameterKind::Value { lo, hi } => implies(passed.plain, Fact::Number { lo, hi }),
            _ => match passed.lent {
                Some(lent) => self.numbers_suit(lent, passed.words),
                None => true,
            },
        }
    }

    /// Whether words of the frame that are lent are none of the callee's frame.
    fn is_off_callee(&self, lent: Lent) -> bool
        ensures { result ≡ is_off_callee (calling_of self.now) (word_of_byte lent.first) (lent.size / 4) }
    {
        let first = i64::from(lent.first_word());
        let end = first + i64::from(lent.word_count());
        end <= self.callee_word(self.callee.lo) || self.callee_word(self.callee.hi) <= first
    }

    /// Whether the caller may use each word of the frame that has a byte of what is lent.
    #[tactic(auto, unfolding(rulings::specs::Reach::may_write_bytes, rulings::specs::Reach::may_read_bytes))]
    fn may_use_words(&self, lent: Lent) -> bool
        requires { BelongsTo self.now.place.module.now self.now.state.now }
        ensures { lent.region ≡ regions.Frame → result ≡ may_use (calling_of self.now) lent }
    {
        let (first, count) = (lent.first_word(), lent.words_touched());
        if lent.is_written {
            self.state.writes_words(first, count)
        } else {
            self.state.reads_words(first, count)
        }
    }

    /// Whether the caller may use what is lent of the constants, which are only read.
    #[tactic(auto, unfolding(rulings::specs::Reach::may_write_bytes, rulings::specs::Reach::may_read_bytes))]
    fn may_use_constants(&self, lent: Lent) -> bool
        ensures { lent.region ≡ regions.Constants → result ≡ may_use (calling_of self.now) lent }
    {
        let size = self.place.module.tables().constants.len() as u32;
        !lent.is_written && lent.lies_in(Some(size))
    }

    /// Whether the caller may use what is lent of what the parameter with this number names.
    #[tactic(auto, unfolding(rulings::specs::Reach::may_write_bytes, rulings::specs::Reach::may_read_bytes))]
    fn may_use_named(&self, lent: Lent, number: u16) -> bool
        ensures { lent.region ≡ regions.Parameter number → result ≡ may_use (calling_of self.now) lent }
    {
        let context = self.state.context;
        let size = if lent.is_written {
            self.place.writable_bytes(context, number)
        } else {
            self.place.readable_bytes(context, number)
        };
        lent.lies_in(size)
    }

    /// Whether the caller may use what is lent so.
    fn may_use(&self, lent: Lent) -> bool
        requires { BelongsTo self.now.place.module.now self.now.state.now }
        ensures { result ≡ may_use (calling_of self.now) lent }
    {
        match lent.region {
            Region::Frame => self.may_use_words(lent),
            Region::Constants => self.may_use_constants(lent),
            Region::Parameter(number) => self.may_use_named(lent, number),
        }
    }

    /// Whether words of the frame that are lent are numbers, where they are written in no loop, and none of the
    /// callee's frame.
    #[tactic(auto, unfolding(crate::specs::CallRules::words_fit))]
    fn words_fit(&self, lent: Lent, words: Together) -> bool
        requires { words ≡ lent_words (calling_of self.now) lent }
        ensures { result ≡ words_fit (calling_of self.now) lent }
    {
        words.are_numbers && (!lent.is_written || words.are_alone) && self.is_off_callee(lent)
    }

    /// Whether what is lent may be used so, and is of the frame only numbers that the callee's frame does not hold.
    #[tactic(auto, unfolding(crate::specs::CallRules::may_lend))]
    fn may_lend(&self, lent: Lent, words: Together) -> bool
        requires belongs { BelongsTo self.now.place.module.now self.now.state.now }
        requires words { lent.region ≡ regions.Frame → words ≡ lent_words (calling_of self.now) lent }
        ensures { result ≡ may_lend (calling_of self.now) lent }
    {
        if !is_near(i64::from(lent.first)) || !self.may_use(lent) {
            return false;
        }
        match lent.region {
            Region::Frame => self.words_fit(lent, words),
            _ => true,
        }
    }

    /// Whether a parameter that names a region is lent one.
    #[tactic(auto, unfolding(crate::specs::CallRules::pointers_fit))]
    fn pointers_fit(&self, passed: &Passed) -> bool
        requires belongs { BelongsTo self.now.place.module.now self.now.state.now }
        requires passed { IsPassedSo (calling_of self.now) passed.now }
        ensures { result ≡ pointers_fit (calling_of self.now) passed.now.parameter }
    {
        match passed.parameter.kind {
            ParameterKind::Value { .. } => true,
            ParameterKind::Channels { .. } => is_near_fact(passed.fact),
            _ => match passed.lent {
                Some(lent) => self.may_lend(lent, passed.words),
                None => false,
            },
        }
    }

    /// Whether a parameter is passed what is wanted.
    fn fits(&self, wanted: Wanted, passed: &Passed) -> bool
        requires belongs { BelongsTo self.now.place.module.now self.now.state.now }
        requires passed { IsPassedSo (calling_of self.now) passed.now }
        ensures { result ≡ fits wanted (calling_of self.now) passed.now.parameter }
    {
        match wanted {
            Wanted::Numbers => self.numbers_fit(passed),
            Wanted::Pointers => self.pointers_fit(passed),
            Wanted::Ends => self.ends_are_held(passed),
            Wanted::Lengths => self.lengths_fit(passed),
        }
    }

    /// Whether each of these parameters is passed what is wanted.
    fn each_fits(&self, wanted: Wanted, all: &[Passed]) -> bool
        requires belongs { BelongsTo self.now.place.module.now self.now.state.now }
        requires passed { AllByRecursion (IsPassedSo (calling_of self.now)) all.now }
        ensures { result ≡ list_all (λ x. fits wanted (calling_of self.now) x.parameter) all.now }
    {
        let mut rest = all;
        while let Some((first, others)) = rest.split_first() {
            if !self.fits(wanted, first) {
                return false;
            }
            rest = others;
        }
        true
    }

    /// Whether each parameter is passed what is wanted.
    fn all_fit(&self, wanted: Wanted, all: &[Passed]) -> bool
        requires belongs { BelongsTo self.now.place.module.now self.now.state.now }
        requires passed { let call = calling_of self.now in all.now ≡ map (passed_to call) call.callee.parameters }
        ensures { let call = calling_of self.now in result ≡ list_all (fits wanted call) call.callee.parameters }
    {
        self.each_fits(wanted, all)
    }

    /// Whether no region that is written meets another, if the parameters are lent this.
    fn regions_are_apart(&self, all: &[Option<Lent>]) -> bool
        requires { let call = calling_of self.now in all.now ≡ map (lent call) call.callee.parameters }
        ensures { result ≡ regions_are_apart (calling_of self.now) }
    {
        all_are_apart(all)
    }

    /// What is passed suits the parameters, which are passed this and lent this.
    #[tactic(auto, unfolding(crate::specs::CallRules::ends_are_given))]
    fn passes_all(&self, all: &[Passed], each_lent: &[Option<Lent>]) -> Result<(), Rule>
        requires belongs { BelongsTo self.now.place.module.now self.now.state.now }
        requires passed { let call = calling_of self.now in all.now ≡ map (passed_to call) call.callee.parameters }
        requires lent { let call = calling_of self.now in each_lent.now ≡ map (lent call) call.callee.parameters }
        ensures test { Admits result (passes_all (calling_of self.now)) }
        ensures pointers { let call = calling_of self.now in
            IfOk result (λ _. list_all (pointers_fit call) call.callee.parameters ≡ true) }
    {
        wants(self.all_fit(Wanted::Numbers, all), Rule::Number)?;
        wants(self.all_fit(Wanted::Pointers, all), Rule::Pointer)?;
        wants(self.regions_are_apart(each_lent), Rule::RegionsMeet)?;
        let ends = self.all_fit(Wanted::Ends, all) && self.ends_are_apart(all);
        wants(ends, Rule::Channel)?;
        wants(self.all_fit(Wanted::Lengths, all), Rule::MessageLength)
    }

    /// How many words the callee's frame has.
    fn frame_size(&self) -> u32
        ensures { result ≡ frame_size (procedure_of self.now.callee.now) }
    {
        self.callee.hi.abs_diff(self.callee.lo)
    }

    /// The first word of the callee's frame, if the caller may write each word of it.
    #[tactic(auto, unfolding(crate::specs::CallRules::frame_is_own))]
    fn own_frame(&self) -> Option<i32>
        requires belongs { BelongsTo self.now.place.module.now self.now.state.now }
        requires some { 1 ≤ frame_size (procedure_of self.now.callee.now) }
        ensures own { is_some result ≡ frame_is_own (calling_of self.now) }
        ensures first { IfSome result (λ k. k ≡ callee_word (state_of self.now.state.now) self.now.callee.now.lo) }
        ensures room { IfSome result (λ k. CanWriteSpan self.now.state.now k
            (frame_size (procedure_of self.now.callee.now))) }
    {
        let first = self.state.writable_word(self.callee_word(self.callee.lo))?;
        if !self.state.writes_words(first, self.frame_size()) {
            return None;
        }
        Some(first)
    }

    /// The caller may write each word of the callee's frame: the first of them.
    #[tactic(auto, unfolding(rulings::specs::Rulings::wants))]
    fn owns_frame(&self) -> Result<i32, Rule>
        requires belongs { BelongsTo self.now.place.module.now self.now.state.now }
        requires some { 1 ≤ frame_size (procedure_of self.now.callee.now) }
        ensures test { Admits result (wants (frame_is_own (calling_of self.now)) OwnWord) }
        ensures first { IfOk result (λ k. k ≡ callee_word (state_of self.now.state.now) self.now.callee.now.lo) }
        ensures room { IfOk result (λ k. CanWriteSpan self.now.state.now k
            (frame_size (procedure_of self.now.callee.now))) }
    {
        match self.own_frame() {
            Some(first) => Ok(first),
            None => Err(Rule::OwnWord),
        }
    }

    /// The caller may call the procedure, which has this number as a context, and pass it what it passes, by which it
    /// lends this. Returns the first word of the callee's frame.
    fn admits(&self, all: &[Passed], each_lent: &[Option<Lent>], context: u32) -> Result<i32, Rule>
        requires belongs { BelongsTo self.now.place.module.now self.now.state.now }
        requires passed { let call = calling_of self.now in all.now ≡ map (passed_to call) call.callee.parameters }
        requires lent { let call = calling_of self.now in each_lent.now ≡ map (lent call) call.callee.parameters }
        requires some { 1 ≤ frame_size (procedure_of self.now.callee.now) }
        ensures test { Admits result (admits (calling_of self.now) context) }
        ensures pointers { let call = calling_of self.now in
            IfOk result (λ _. list_all (pointers_fit call) call.callee.parameters ≡ true) }
        ensures first { IfOk result (λ k. k ≡ callee_word (state_of self.now.state.now) self.now.callee.now.lo) }
        ensures room { IfOk result (λ k. CanWriteSpan self.now.state.now k
            (frame_size (procedure_of self.now.callee.now))) }
    {
        self.passes_all(all, each_lent)?;
        alone(self.state.mode)?;
        wants(
            may_call(&self.place, self.state.context, context),
            Rule::Call,
        )?;
        self.owns_frame()
    }

    /// The caller may call the procedure, which has this number as a context, and pass it what it passes. Returns what
    /// the call may change.
    pub fn touched(&self, all: &[Passed], context: u32) -> Result<Touched, Rule>
        requires belongs { BelongsTo self.now.place.module.now self.now.state.now }
        requires passed { let call = calling_of self.now in all.now ≡ map (passed_to call) call.callee.parameters }
        requires row { let procedure = procedure_of self.now.callee.now in
            (p : ℕ) × (slice_get self.now.place.module.now.procedures p ≡ Some procedure) }
        ensures test { Admits result (admits (calling_of self.now) context) }
        ensures touched { IfOk result (Touches (calling_of self.now)) }
        ensures room { IfOk result (λ t. CanWriteSpan self.now.state.now t.first t.count) }
    {
        let lent = all_lent(all);
        let first = self.admits(all, &lent, context)?;
        Ok(Touched {
            first,
            count: self.frame_size(),
            lent,
        })
    }
}
